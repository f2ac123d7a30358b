// What stands at a node.
ghost use Rattle.std.specs.Prelude.{◌+◌, ◌<◌, ◌≤◌, length};
ghost use Rattle.algebra.specs.Layout.{view};
ghost use Rattle.nodes.specs.Held.{Whole};
ghost use Rattle.nodes.specs.Spans.{Spanned};
ghost use Rattle.nodes.specs.Sights.{Seen};

use crate::join::Join;
use crate::score::Look;
use crate::span::Span;
use algebra::node::Node;
use kinds::kind::Kind;

// What stands at a node, by the spans of the scores that begin behind it: of a pair the nodes where its parts begin.
pub fn look<K: Kind>(row: &[Node<K>], spans: &[Span], at: usize) -> Look<K, usize>
    requires whole { Whole (view K.Kind.numbers_of row.now) }
    requires inside { at < length row.now }
    requires small { length row.now ≤ 1023 }
    requires room { length row.now ≤ length spans.now }
    requires behind { Spanned K.Kind.model (view K.Kind.numbers_of row.now) spans.now (at + 1) }
    ensures { Seen K.Kind.numbers_of (view K.Kind.numbers_of row.now) at result }
{
    let node = row[at];
    match node {
        Node::Rest(ticks) => Look::Rest(ticks),
        Node::Primitive(primitive) => Look::Primitive(primitive),
        Node::Sequence => {
            let left = spans[at + 1];
            Look::Pair(Join::Sequence, at + 1, at + 1 + left.nodes as usize)
        }
        Node::Parallel => {
            let left = spans[at + 1];
            Look::Pair(Join::Parallel, at + 1, at + 1 + left.nodes as usize)
        }
    }
}
