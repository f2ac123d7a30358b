// What comparing two scores answers.
ghost use Rattle.std.specs.Prelude.{Some};
ghost use Rattle.comparing.specs.Texts.{comparison_text};

use normal::placed::PlacedNumbers;
use std::fmt;

// One meaning; both lengths, which differ; or the least placed primitive whose counts differ, with both counts.
#[derive(Clone, Copy)]
pub enum Comparison {
    Same,
    Lengths {
        first: u32,
        second: u32,
    },
    Differs {
        placed: PlacedNumbers,
        first: u32,
        second: u32,
    },
}

impl fmt::Display for Comparison {
    ghost output = { λ c. Some (comparison_text c) };

    fn fmt<W: fmt::Write>(&self, f: &mut fmt::Formatter<W>) -> fmt::Result {
        match *self {
            Comparison::Same => f.write_str("same"),
            Comparison::Lengths { first, second } => write!(f, "lengths {first} {second}"),
            Comparison::Differs {
                placed,
                first,
                second,
            } => write!(
                f,
                "place {} {} {first} {second}",
                placed.onset, placed.numbers
            ),
        }
    }
}
