// Partners in a list, each spent once.
ghost use Rattle.std.specs.Prelude.{[]};
ghost use Rattle.algebra.specs.Kind.{LegalNumbers};
ghost use Rattle.normal.specs.Placing.{placed_of};
ghost use Rattle.partners.specs.Runs.{Noted, Spent};

use crate::runs::run_start;
use algebra::limits::MOST_PRIMITIVES;
use comparing::sorted::SortedList;
use kinds::kind::Kind;
use normal::placed::{PlacedList, PlacedNumbers};

// A list in order, and how many of each run there are spent, which is noted where the run begins.
#[derive(Drop)]
pub struct Partners<K: Kind> {
    sorted: SortedList<K>,
    spent: [u32; MOST_PRIMITIVES],
}

impl<K: Kind> Partners<K> {
    // The partners that a list has, of which none is spent.
    pub fn of(list: &PlacedList<K>) -> Self
        ensures { Noted K.Kind.model list.now [] result.sorted result.spent }
    {
        let mut partners = Partners {
            sorted: SortedList::new(),
            spent: [0; MOST_PRIMITIVES],
        };
        partners.sorted.fill(list);
        partners
    }

    // Whether the next of some placed primitives has a partner, which is then spent.
    pub fn spend(&mut self, item: PlacedNumbers) -> bool
        requires { LegalNumbers K.Kind.model item.numbers }
        ensures { Spent K.Kind.model self.old.sorted self.old.spent self.new.sorted self.new.spent (placed_of item) result }
    {
        let start = run_start(&self.sorted, item);
        let sorted = self.sorted.items();
        if start >= sorted.len() {
            return false;
        }
        let next = start + self.spent[start] as usize;
        if sorted.get(next) != Some(&item) {
            return false;
        }
        self.spent[start] += 1;
        true
    }
}
