// The normal form of a score.
ghost use Rattle.std.specs.Prelude.{◌≡◌, ◌+◌, ◌≤◌, ◌++◌, length};
ghost use Rattle.algebra.specs.Layout.{preorder};
ghost use Rattle.algebra.specs.Normal.{normal};
ghost use Rattle.algebra.specs.Score.{nodes};

use crate::lines::write_lines;
use crate::placed::PlacedList;
use kinds::kind::Kind;
use nodes::list::NodeList;
use nodes::score::Score;

// Puts the normal form of a score behind the nodes of a list.
pub fn normalise_into<K: Kind>(score: &Score<'_, K>, out: &mut NodeList<'_, K>)
    requires { length out.old.items + nodes (normal K.Kind.model score.now) ≤ out.old.room }
    ensures items { out.new.items ≡ out.old.items ++ preorder (normal K.Kind.model score.now) }
    ensures room { out.new.room ≡ out.old.room }
{
    let mut placed = PlacedList::new();
    let length = placed.fill(score);
    write_lines(length, placed.items(), out);
}
