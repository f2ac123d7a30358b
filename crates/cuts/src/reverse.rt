// The reverse of a score.
ghost use Rattle.std.specs.Prelude.{◌≡◌, ◌+◌, ◌<◌, ◌≤◌, ◌++◌, length};
ghost use Rattle.algebra.specs.Cuts.{reversed};
ghost use Rattle.algebra.specs.Layout.{preorder};
ghost use Rattle.algebra.specs.Score.{nodes};
ghost use Rattle.nodes.specs.Scores.{part_at};
ghost use Rattle.cuts.specs.Padding.{padding};

use algebra::node::Node;
use kinds::kind::Kind;
use nodes::join::Join;
use nodes::list::NodeList;
use nodes::score::{Look, Score};

// Puts what comes before a part beside one of another length behind the nodes of a list.
fn pad_into<K: Kind>(own: u32, other: u32, out: &mut NodeList<'_, K>)
    requires { length out.old.items + length (padding other own) ≤ out.old.room }
    ensures items { out.new.items ≡ out.old.items ++ padding other own }
    ensures room { out.new.room ≡ out.old.room }
{
    if own < other {
        out.push(Node::Sequence);
        out.push(Node::Rest(other - own));
    }
}

// Puts the reverse of a score behind the nodes of a list.
pub fn reverse_into<K: Kind>(score: &Score<'_, K>, out: &mut NodeList<'_, K>)
    requires { length out.old.items + nodes (reversed K.Kind.model score.now) ≤ out.old.room }
    ensures items { out.new.items ≡ out.old.items ++ preorder (reversed K.Kind.model score.now) }
    ensures room { out.new.room ≡ out.old.room }
{
    reverse_part(score, 0, out);
}

// Puts the reverse of the part that begins at a node behind the nodes of a list.
fn reverse_part<K: Kind>(score: &Score<'_, K>, at: usize, out: &mut NodeList<'_, K>)
    requires inside { at < nodes score.now }
    requires room { length out.old.items + nodes (reversed K.Kind.model (part_at score.now at)) ≤ out.old.room }
    ensures items { out.new.items ≡ out.old.items ++ preorder (reversed K.Kind.model (part_at score.now at)) }
    ensures room { out.new.room ≡ out.old.room }
{
    match score.look_at(at) {
        Look::Rest(duration) => out.push(Node::Rest(duration)),
        Look::Primitive(primitive) => out.push(Node::Primitive(primitive.reverse())),
        Look::Pair(Join::Sequence, left, right) => {
            out.push(Node::Sequence);
            reverse_part(score, right, out);
            reverse_part(score, left, out);
        }
        Look::Pair(Join::Parallel, left, right) => {
            let first = score.length_at(left);
            let second = score.length_at(right);
            out.push(Node::Parallel);
            pad_into(first, second, out);
            reverse_part(score, left, out);
            pad_into(second, first, out);
            reverse_part(score, right, out);
        }
    }
}
