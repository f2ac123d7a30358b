// The first ticks of a score.
ghost use Rattle.std.specs.Prelude.{◌≡◌, ◌+◌, ◌<◌, ◌≤◌, ◌++◌, length};
ghost use Rattle.algebra.specs.Cuts.{taken};
ghost use Rattle.algebra.specs.Layout.{preorder};
ghost use Rattle.algebra.specs.Score.{nodes};
ghost use Rattle.nodes.specs.Scores.{part_at};

use crate::piece::piece_node;
use algebra::node::Node;
use kinds::kind::Kind;
use nodes::join::Join;
use nodes::list::NodeList;
use nodes::score::{Look, Score};

// Puts the first ticks of a score behind the nodes of a list.
pub fn take_into<K: Kind>(score: &Score<'_, K>, ticks: u32, out: &mut NodeList<'_, K>)
    requires { length out.old.items + nodes (taken K.Kind.model ticks score.now) ≤ out.old.room }
    ensures items { out.new.items ≡ out.old.items ++ preorder (taken K.Kind.model ticks score.now) }
    ensures room { out.new.room ≡ out.old.room }
{
    take_part(score, 0, ticks, out);
}

// Puts the first ticks of the part that begins at a node behind the nodes of a list.
fn take_part<K: Kind>(score: &Score<'_, K>, at: usize, ticks: u32, out: &mut NodeList<'_, K>)
    requires inside { at < nodes score.now }
    requires room { length out.old.items + nodes (taken K.Kind.model ticks (part_at score.now at)) ≤ out.old.room }
    ensures items { out.new.items ≡ out.old.items ++ preorder (taken K.Kind.model ticks (part_at score.now at)) }
    ensures room { out.new.room ≡ out.old.room }
{
    if score.length_at(at) <= ticks {
        return out.extend(score.nodes_at(at));
    }
    match score.look_at(at) {
        Look::Rest(_) => out.push(Node::Rest(ticks)),
        Look::Primitive(primitive) => out.push(piece_node(primitive.head(ticks))),
        Look::Pair(Join::Sequence, left, right) => {
            let length = score.length_at(left);
            if ticks <= length {
                take_part(score, left, ticks, out);
            } else {
                out.push(Node::Sequence);
                out.extend(score.nodes_at(left));
                take_part(score, right, ticks - length, out);
            }
        }
        Look::Pair(Join::Parallel, left, right) => {
            out.push(Node::Parallel);
            take_part(score, left, ticks, out);
            take_part(score, right, ticks, out);
        }
    }
}
