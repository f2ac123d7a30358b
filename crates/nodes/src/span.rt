// The span of the score that begins at a node.
ghost use Rattle.std.specs.Prelude.{◌≡◌};
ghost use Rattle.algebra.specs.Layout.{seen};
ghost use Rattle.nodes.specs.Spans.{Inside, next_span};

use algebra::node::Node;
use kinds::kind::Kind;

// How many nodes the score that begins at a node has, and its length.
#[derive(Clone, Copy, Default)]
pub struct Span {
    pub nodes: u32,
    pub length: u32,
}

impl Span {
    // The span of the score that begins at a node, from the spans behind it.
    pub fn at<K: Kind>(node: Node<K>, spans: &[Span], at: usize) -> Span
        requires { Inside spans.now at (seen K.Kind.numbers_of node) }
        ensures { result ≡ next_span K.Kind.model spans.now at (seen K.Kind.numbers_of node) }
    {
        match node {
            Node::Rest(ticks) => Span {
                nodes: 1,
                length: ticks,
            },
            Node::Primitive(primitive) => Span {
                nodes: 1,
                length: primitive.length(),
            },
            Node::Sequence => {
                let left = spans[at + 1];
                let right = spans[at + 1 + left.nodes as usize];
                Span {
                    nodes: 1 + left.nodes + right.nodes,
                    length: left.length.saturating_add(right.length),
                }
            }
            Node::Parallel => {
                let left = spans[at + 1];
                let right = spans[at + 1 + left.nodes as usize];
                Span {
                    nodes: 1 + left.nodes + right.nodes,
                    length: left.length.max(right.length),
                }
            }
        }
    }
}
