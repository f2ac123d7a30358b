// Refusals in brief.
ghost use Rattle.std.specs.Prelude.{Some};
ghost use Rattle.refusals.specs.Briefs.{brief_text};

use crate::refusal::Refusal;
use std::fmt;

// A refusal that is shown as its number, its part and its detail.
#[derive(Debug, Clone, Copy, PartialEq, Eq)]
pub struct Brief(pub Refusal);

impl fmt::Display for Brief {
    ghost output = { λ b. Some (brief_text b.0) };

    fn fmt<W: fmt::Write>(&self, f: &mut fmt::Formatter<W>) -> fmt::Result {
        let Brief(refusal) = *self;
        write!(
            f,
            "refused {} {} {}",
            refusal.number(),
            refusal.part(),
            refusal.detail()
        )
    }
}
