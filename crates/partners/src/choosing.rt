// Those of a list that have a partner in another, and those that have none.
ghost use Rattle.std.specs.Prelude.{◌≡◌, ◌+◌, ◌≤◌, [], ◌++◌, length};
ghost use Rattle.partners.specs.Choosing.{chosen};

use crate::spending::Partners;
use algebra::limits::MOST_PRIMITIVES;
use kinds::kind::Kind;
use normal::placed::PlacedList;

// Appends those of a list that have a partner in another, or those that have none, as they stand.
pub fn choose<K: Kind>(
    list: &PlacedList<K>,
    other: &PlacedList<K>,
    partnered: bool,
    out: &mut PlacedList<K>,
)
    requires { length out.old + length (chosen partnered other.now [] list.now) ≤ MOST_PRIMITIVES }
    ensures { out.new ≡ out.old ++ chosen partnered other.now [] list.now }
{
    let mut partners = Partners::of(other);
    for item in list.items() {
        if partners.spend(*item) == partnered {
            out.push(*item);
        }
    }
}
