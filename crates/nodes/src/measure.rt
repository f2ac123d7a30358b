// The length of a score that a row is.
ghost use Rattle.std.specs.Prelude.{◌≡◌};
ghost use Rattle.algebra.specs.Score.{score_length};
ghost use Rattle.nodes.specs.Standing.{Stands, standing_score};

use crate::span::Span;
use crate::spans::fill_spans;
use algebra::limits::MOST_NODES;
use algebra::node::Node;
use kinds::kind::Kind;

// The length in ticks, where nothing else is asked of the score: the table of spans is not handed on.
pub fn length_of<K: Kind>(nodes: &[Node<K>]) -> u32
    requires { Stands K.Kind.model K.Kind.numbers_of nodes.now }
    ensures { result ≡ score_length K.Kind.model (standing_score K.Kind.numbers_of nodes.now) }
{
    let mut spans = [Span::default(); MOST_NODES];
    fill_spans(nodes, &mut spans);
    let whole = spans[0];
    whole.length
}
