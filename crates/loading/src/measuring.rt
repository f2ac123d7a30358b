// The length of the score in a file.
ghost use Rattle.std.specs.Prelude.{◌≡◌, ◌≤◌, length, None};
ghost use Rattle.algebra.specs.Score.{score_length};
ghost use Rattle.algebra.specs.Layout.{score_of};
ghost use Rattle.grammar.specs.Items.{nodes_of};
ghost use Rattle.grammar.specs.Loads.{illegal};
ghost use Rattle.nodes.specs.Held.{Whole};
ghost use Rattle.nodes.specs.Spans.{capped};

use crate::legality::legal_node_of;
use grammar::item::Item;
use kinds::kind::Kind;
use nodes::span::Span;

// The length of the score that the items are, and 4,294,967,295 where it is longer.
pub fn measure<K: Kind>(items: &[Item]) -> u32
    requires legal { illegal K.Kind.model items.now ≡ None }
    requires whole { Whole (nodes_of items.now) }
    requires small { length items.now ≤ 1023 }
    ensures { result ≡ capped (score_length K.Kind.model (score_of (nodes_of items.now))) }
{
    let mut spans = [Span {
        nodes: 0,
        length: 0,
    }; 1023];
    for (at, item) in items.iter().enumerate().rev() {
        let node = legal_node_of::<K>(item.node);
        let span = Span::at(node, &spans, at);
        spans[at] = span;
    }
    spans[0].length
}
