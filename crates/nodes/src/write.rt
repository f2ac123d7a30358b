// Scores copied from one row into another.
ghost use Rattle.std.specs.Prelude.{◌+◌, ◌<◌, ◌≤◌, length};
ghost use Rattle.algebra.specs.Layout.{view, preorder, score_at};
ghost use Rattle.nodes.specs.Held.{Whole};
ghost use Rattle.nodes.specs.Spans.{Spanned};
ghost use Rattle.nodes.specs.Rows.{Wrote};

use crate::rows::{some_of, write_over};
use crate::span::Span;
use algebra::node::Node;
use kinds::kind::Kind;

// Writes a copy of the score that begins at a node, and returns the end of what is written.
pub fn copy_score<K: Kind>(
    row: &[Node<K>],
    spans: &[Span],
    at: usize,
    target: &mut [Node<K>],
    to: usize,
) -> usize
    requires whole { Whole (view K.Kind.numbers_of row.now) }
    requires inside { at < length row.now }
    requires room { length row.now ≤ length spans.now }
    requires spanned { Spanned K.Kind.model (view K.Kind.numbers_of row.now) spans.now 0 }
    requires fits { to + length (preorder (score_at (view K.Kind.numbers_of row.now) at)) ≤ length target.old }
    ensures { Wrote (view K.Kind.numbers_of target.old) (view K.Kind.numbers_of target.new) to result (preorder (score_at (view K.Kind.numbers_of row.now) at)) }
{
    let count = spans[at].nodes as usize;
    write_over(target, to, some_of(row, at, count));
    to + count
}
