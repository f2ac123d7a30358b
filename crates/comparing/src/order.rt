// The order of placed primitives.
ghost use Rattle.std.specs.Prelude.{◌≡◌};
ghost use Rattle.algebra.specs.Compare.{compare_placed};
ghost use Rattle.algebra.specs.Kind.{LegalNumbers};
ghost use Rattle.normal.specs.Placing.{placed_of};
ghost use Rattle.comparing.specs.Order.{any_numbers, any_order};

use algebra::numbers::Numbers;
use kinds::kind::Kind;
use normal::placed::PlacedNumbers;
use std::cmp::Ordering;

// The kind's comparing; numbers that no primitive has come last.
fn order_numbers<K: Kind>(first: Numbers, second: Numbers) -> Ordering
    ensures { result ≡ any_numbers K.Kind.model first second }
{
    match (K::make(first), K::make(second)) {
        (Some(left), Some(right)) => left.compare(&right),
        (Some(_), None) => Ordering::Less,
        (None, Some(_)) => Ordering::Greater,
        (None, None) => Ordering::Equal,
    }
}

// The order of two placed primitives: by onset, and at one onset by the kind's comparing.
pub fn order<K: Kind>(first: PlacedNumbers, second: PlacedNumbers) -> Ordering
    ensures any { result ≡ any_order K.Kind.model first second }
    ensures legal { LegalNumbers K.Kind.model first.numbers → LegalNumbers K.Kind.model second.numbers → result ≡ compare_placed K.Kind.model (placed_of first) (placed_of second) }
{
    first
        .onset
        .cmp(&second.onset)
        .then_with(|| order_numbers::<K>(first.numbers, second.numbers))
}
