// Where a placed primitive stands in a list in order.
ghost use Rattle.std.specs.Prelude.{◌≡◌};
ghost use Rattle.algebra.specs.Kind.{LegalNumbers};
ghost use Rattle.normal.specs.Placing.{placed_of};
ghost use Rattle.partners.specs.Runs.{start_of_run};

use comparing::order::order;
use comparing::sorted::SortedList;
use kinds::kind::Kind;
use normal::placed::PlacedNumbers;

// Where the run of a placed primitive begins in a list in order: behind all that come before it.
pub fn run_start<K: Kind>(sorted: &SortedList<K>, sought: PlacedNumbers) -> usize
    requires { LegalNumbers K.Kind.model sought.numbers }
    ensures { result ≡ start_of_run K.Kind.model (placed_of sought) sorted.now }
{
    sorted
        .items()
        .partition_point(|item| order::<K>(*item, sought).is_lt())
}
