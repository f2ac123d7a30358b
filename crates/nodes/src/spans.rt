// The table of spans of a row.
ghost use Rattle.std.specs.Prelude.{◌≤◌, length};
ghost use Rattle.algebra.specs.Layout.{view};
ghost use Rattle.nodes.specs.Held.{Whole};
ghost use Rattle.nodes.specs.Spans.{Spanned};

use crate::span::Span;
use algebra::node::Node;
use kinds::kind::Kind;

// Fills a table with the span of the score that begins at each node of a row, from right to left.
pub fn fill_spans<K: Kind>(row: &[Node<K>], spans: &mut [Span])
    requires whole { Whole (view K.Kind.numbers_of row.now) }
    requires small { length row.now ≤ 1023 }
    requires room { length row.now ≤ length spans.old }
    ensures { Spanned K.Kind.model (view K.Kind.numbers_of row.now) spans.new 0 }
{
    for at in (0..row.len()).rev() {
        let node = row[at];
        let span = Span::at(node, spans, at);
        spans[at] = span;
    }
}
