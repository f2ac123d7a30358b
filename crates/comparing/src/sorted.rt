// Placed primitives in order.
ghost use Rattle.std.specs.Prelude.{◌≡◌, ◌≤◌, [], length};
ghost use Rattle.algebra.specs.Meaning.{SameBag};
ghost use Rattle.normal.specs.Placing.{all_placed};
ghost use Rattle.comparing.specs.Order.{InOrder};

use crate::order::order;
use algebra::limits::MOST_PRIMITIVES;
use arrayvec::ArrayVec;
use kinds::kind::Kind;
use normal::placed::{PlacedList, PlacedNumbers};
use std::marker::{Model, PhantomData};

// A list of placed primitives of a kind, in order.
#[derive(Drop)]
pub struct SortedList<K: Kind> {
    items: ArrayVec<PlacedNumbers, MOST_PRIMITIVES>,
    kind: PhantomData<K>,
}

impl<K: Kind> Model for SortedList<K> {
    ghost use Rattle.std.specs.Prelude.{List};
    ghost use Rattle.algebra.specs.Score.{Placed};
    ghost use Rattle.normal.specs.Placing.{all_placed};
    ghost use Rattle.comparing.specs.Order.{InOrder};

    ghost Value = { List Placed };

    ghost view = { λ list. all_placed list.items.items };

    ghost invariant = { λ list. InOrder K.Kind.model (all_placed list.items.items) };
}

impl<K: Kind> SortedList<K> {
    // A list of none.
    pub fn new() -> Self
        ensures { result ≡ [] }
    {
        SortedList {
            items: ArrayVec::new(),
            kind: PhantomData,
        }
    }

    // The placed primitives of a list, put in order.
    pub fn of(list: &PlacedList<K>) -> Self
        ensures bag { SameBag result list.now }
        ensures order { InOrder K.Kind.model result }
    {
        let mut sorted = SortedList::new();
        sorted.fill(list);
        sorted
    }

    // Fills a list that has none with the placed primitives of another, put in order.
    pub fn fill(&mut self, list: &PlacedList<K>)
        requires { self.old ≡ [] }
        ensures bag { SameBag self.new list.now }
        ensures order { InOrder K.Kind.model self.new }
    {
        self.items.try_extend_from_slice(list.items()).unwrap();
        self.items
            .sort_unstable_by(|first, second| order::<K>(*first, *second));
    }

    // The placed primitives, in order.
    pub fn items(&self) -> &[PlacedNumbers]
        ensures placed { all_placed result.now ≡ self.now }
        ensures order { InOrder K.Kind.model self.now }
        ensures few { length result.now ≤ MOST_PRIMITIVES }
    {
        self.items.as_slice()
    }
}
