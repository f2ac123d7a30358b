// Comparing two scores.
ghost use Rattle.std.specs.Prelude.{◌≡◌};
ghost use Rattle.algebra.specs.Compare.{compared};
ghost use Rattle.comparing.specs.Comparisons.{said};

use crate::comparison::Comparison;
use crate::differing::compare_bags;
use kinds::kind::Kind;
use nodes::score::Score;
use normal::placed::PlacedList;

// Compares two scores: by their lengths, and where these agree by how often each placed primitive occurs.
pub fn compare<K: Kind>(first: &Score<'_, K>, second: &Score<'_, K>) -> Comparison
    ensures { result ≡ said (compared K.Kind.model first.now second.now) }
{
    let mut first_placed = PlacedList::new();
    let first_length = first_placed.fill(first);
    let mut second_placed = PlacedList::new();
    let second_length = second_placed.fill(second);
    if first_length != second_length {
        return Comparison::Lengths {
            first: first_length,
            second: second_length,
        };
    }
    compare_bags(&first_placed, &second_placed)
}
