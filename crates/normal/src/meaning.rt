// What a score means: a length, and placed primitives.
ghost use Rattle.std.specs.Prelude.{◌≡◌, ◌+◌, ◌^◌, ◌<◌, ◌≤◌, [], ◌++◌, map, length};
ghost use Rattle.algebra.specs.Score.{nodes, score_length, primitives, placed as placed_in, later};
ghost use Rattle.nodes.specs.Scores.{part_at};
ghost use Rattle.nodes.specs.Standing.{Limited};

use crate::placed::{PlacedList, PlacedNumbers};
use algebra::limits::MOST_PRIMITIVES;
use kinds::kind::Kind;
use nodes::join::Join;
use nodes::score::{Look, Score};

// A length, and placed primitives in some order.
#[derive(Drop)]
pub struct Meaning<K: Kind> {
    pub length: u32,
    pub placed: PlacedList<K>,
}

impl<K: Kind> Meaning<K> {
    // What a score means; its placed primitives as they stand from left to right.
    pub fn of(score: &Score<'_, K>) -> Self
        ensures length { result.length ≡ score_length K.Kind.model score.now }
        ensures placed { result.placed ≡ placed_in K.Kind.model score.now }
        ensures count { length result.placed ≡ primitives score.now }
        ensures limited { Limited K.Kind.model score.now }
    {
        let mut placed = PlacedList::new();
        let length = placed.fill(score);
        Meaning { length, placed }
    }
}

impl<K: Kind> PlacedList<K> {
    // Fills a list that has none with the placed primitives of a score, as they stand from left to right, and returns its length.
    pub fn fill(&mut self, score: &Score<'_, K>) -> u32
        requires { self.old ≡ [] }
        ensures length { result ≡ score_length K.Kind.model score.now }
        ensures placed { self.new ≡ placed_in K.Kind.model score.now }
        ensures count { length self.new ≡ primitives score.now }
        ensures limited { Limited K.Kind.model score.now }
    {
        let length = score.length();
        place_part(score, 0, 0, self);
        length
    }
}

// Appends the placed primitives of the part that begins at a node, later by an onset.
fn place_part<K: Kind>(score: &Score<'_, K>, at: usize, onset: u32, list: &mut PlacedList<K>)
    requires inside { at < nodes score.now }
    requires short { onset + score_length K.Kind.model (part_at score.now at) < 2 ^ 32 }
    requires room { length list.old + primitives (part_at score.now at) ≤ MOST_PRIMITIVES }
    ensures { list.new ≡ list.old ++ map (later onset) (placed_in K.Kind.model (part_at score.now at)) }
{
    match score.look_at(at) {
        Look::Rest(_) => {}
        Look::Primitive(primitive) => list.push(PlacedNumbers {
            onset,
            numbers: primitive.numbers(),
        }),
        Look::Pair(Join::Sequence, left, right) => {
            place_part(score, left, onset, list);
            place_part(score, right, onset + score.length_at(left), list);
        }
        Look::Pair(Join::Parallel, left, right) => {
            place_part(score, left, onset, list);
            place_part(score, right, onset, list);
        }
    }
}
