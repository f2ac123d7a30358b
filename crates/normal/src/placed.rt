// Primitives at onsets, and lists of them.
ghost use Rattle.std.specs.Prelude.{◌≡◌, ◌<◌, ◌≤◌, [], ◌∷◌, ◌++◌, length};
ghost use Rattle.algebra.specs.Kind.{LegalNumbers};
ghost use Rattle.normal.specs.Placing.{placed_of, all_placed, AllLegal};

use algebra::limits::MOST_PRIMITIVES;
use algebra::numbers::Numbers;
use arrayvec::ArrayVec;
use kinds::kind::Kind;
use std::marker::{Model, PhantomData};

// A primitive at an onset, by its numbers.
#[derive(Clone, Copy, Default, PartialEq, Eq)]
pub struct PlacedNumbers {
    pub onset: u32,
    pub numbers: Numbers,
}

// A list of placed primitives of a kind, with room for as many as a score may have.
#[derive(Drop)]
pub struct PlacedList<K: Kind> {
    items: ArrayVec<PlacedNumbers, MOST_PRIMITIVES>,
    kind: PhantomData<K>,
}

impl<K: Kind> Model for PlacedList<K> {
    ghost use Rattle.std.specs.Prelude.{List};
    ghost use Rattle.algebra.specs.Score.{Placed};
    ghost use Rattle.normal.specs.Placing.{all_placed, AllLegal};

    ghost Value = { List Placed };

    ghost view = { λ list. all_placed list.items.items };

    ghost invariant = { λ list. AllLegal K.Kind.model (all_placed list.items.items) };
}

impl<K: Kind> PlacedList<K> {
    // A list of none.
    pub fn new() -> Self
        ensures { result ≡ [] }
    {
        PlacedList {
            items: ArrayVec::new(),
            kind: PhantomData,
        }
    }

    // How many they are.
    pub fn len(&self) -> usize
        ensures length { result ≡ length self.now }
        ensures few { result ≤ MOST_PRIMITIVES }
    {
        self.items.len()
    }

    // The placed primitives, in order.
    pub fn items(&self) -> &[PlacedNumbers]
        ensures placed { all_placed result.now ≡ self.now }
        ensures legal { AllLegal K.Kind.model (all_placed result.now) }
        ensures few { length result.now ≤ MOST_PRIMITIVES }
    {
        self.items.as_slice()
    }

    // Appends a placed primitive, whose numbers are legal. There must be room.
    pub fn push(&mut self, item: PlacedNumbers)
        requires room { length self.old < MOST_PRIMITIVES }
        requires legal { LegalNumbers K.Kind.model item.numbers }
        ensures { self.new ≡ self.old ++ placed_of item ∷ [] }
    {
        self.items.push(item);
    }
}
