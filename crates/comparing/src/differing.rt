// The least placed primitive whose counts differ in two lists.
ghost use Rattle.std.specs.Prelude.{◌≡◌};
ghost use Rattle.algebra.specs.Bag.{count};
ghost use Rattle.algebra.specs.Score.{same_placed};
ghost use Rattle.normal.specs.Placing.{placed_of};
ghost use Rattle.comparing.specs.Comparisons.{said, bag_answer, found, parting};

use crate::comparison::Comparison;
use crate::order::order;
use crate::sorted::SortedList;
use kinds::kind::Kind;
use normal::placed::{PlacedList, PlacedNumbers};
use std::cmp::Ordering;

// How often a placed primitive occurs in a list.
fn count_of<K: Kind>(list: &SortedList<K>, sought: PlacedNumbers) -> u32
    ensures { result ≡ count same_placed (placed_of sought) list.now }
{
    list.items().iter().filter(|item| sought == **item).count() as u32
}

// Where two lists first part, the lesser of what stands there.
fn first_parting<K: Kind>(first: &SortedList<K>, second: &SortedList<K>) -> Option<PlacedNumbers>
    ensures { found result ≡ parting K.Kind.model first.now second.now }
{
    let left = first.items();
    let right = second.items();
    for (x, y) in left.iter().zip(right) {
        match order::<K>(*x, *y) {
            Ordering::Less => return Some(*x),
            Ordering::Equal => {}
            Ordering::Greater => return Some(*y),
        }
    }
    let shared = left.len().min(right.len());
    left.get(shared).or(right.get(shared)).copied()
}

// What comparing answers for the placed primitives of two scores of one length.
pub fn compare_bags<K: Kind>(first: &PlacedList<K>, second: &PlacedList<K>) -> Comparison
    ensures { result ≡ said (bag_answer K.Kind.model first.now second.now) }
{
    let mut left = SortedList::new();
    left.fill(first);
    let mut right = SortedList::new();
    right.fill(second);
    match first_parting(&left, &right) {
        Some(placed) => Comparison::Differs {
            placed,
            first: count_of(&left, placed),
            second: count_of(&right, placed),
        },
        None => Comparison::Same,
    }
}
