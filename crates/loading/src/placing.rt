// Items of a file, written as nodes.
ghost use Rattle.std.specs.Prelude.{◌≡◌, ◌+◌, ◌≤◌, length, None};
ghost use Rattle.algebra.specs.Layout.{view};
ghost use Rattle.grammar.specs.Items.{nodes_of};
ghost use Rattle.grammar.specs.Loads.{illegal};
ghost use Rattle.nodes.specs.Rows.{overlaid};

use crate::legality::legal_node_of;
use algebra::node::Node;
use grammar::item::Item;
use kinds::kind::Kind;

// Writes the items as nodes of the kind over a row, from a node on.
pub fn place<K: Kind>(items: &[Item], nodes: &mut [Node<K>], to: usize)
    requires legal { illegal K.Kind.model items.now ≡ None }
    requires room { to + length items.now ≤ length nodes.old }
    ensures { view K.Kind.numbers_of nodes.new ≡ overlaid (view K.Kind.numbers_of nodes.old) to (nodes_of items.now) }
{
    for (at, item) in items.iter().enumerate() {
        let node = legal_node_of::<K>(item.node);
        nodes[to + at] = node;
    }
}
