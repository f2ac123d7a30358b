// The placed primitives of a score in the order of a model.
ghost use Rattle.std.specs.Prelude.{◌≡◌, [], length as length_of};
ghost use Rattle.algebra.specs.Bag.{ordered_after};
ghost use Rattle.algebra.specs.Normal.{normal_after};
ghost use Rattle.algebra.specs.Score.{score_length, primitives, placed as placed_in, same_placed};
ghost use Rattle.nodes.specs.Standing.{Limited};
ghost use Rattle.normal.specs.Writing.{lines_of};

use crate::choosing::choose;
use kinds::kind::Kind;
use nodes::score::Score;
use normal::meaning::Meaning;
use normal::placed::PlacedList;

// Fills a list that has none with the placed primitives of a score in the order of a model's:
// first those that have a partner there, as they stand there, then the others.
fn fill_after<K: Kind>(score: &Score<'_, K>, model: &Score<'_, K>, ordered: &mut PlacedList<K>)
    requires { ordered.old ≡ [] }
    ensures { ordered.new ≡ ordered_after same_placed (placed_in K.Kind.model score.now) (placed_in K.Kind.model model.now) }
{
    let mut own = PlacedList::new();
    own.fill(score);
    let mut others = PlacedList::new();
    others.fill(model);
    choose(&others, &own, true, ordered);
    choose(&own, &others, false, ordered);
}

// What a score means; its placed primitives as they stand in its normal form after a model.
pub fn list_after<K: Kind>(score: &Score<'_, K>, model: &Score<'_, K>) -> Meaning<K>
    ensures length { result.length ≡ score_length K.Kind.model score.now }
    ensures count { length_of result.placed ≡ primitives score.now }
    ensures lines { lines_of K.Kind.model result.length result.placed ≡ normal_after K.Kind.model score.now model.now }
    ensures limited { Limited K.Kind.model score.now }
{
    let mut placed = PlacedList::new();
    let length = score.length();
    // between scores of two lengths no line has a partner
    if length == model.length() {
        fill_after(score, model, &mut placed);
    } else {
        placed.fill(score);
    }
    Meaning { length, placed }
}
