// Lists of nodes with room for the nodes of one score.
ghost use Rattle.std.specs.Prelude.{◌≡◌, ◌≤◌, [], length};
ghost use Rattle.algebra.specs.Layout.{view};

use crate::list::NodeList;
use algebra::node::Node;
use kinds::kind::Kind;
use std::marker::Model;

// A list in room for 1,023 nodes, as many as a score on a rack has at most.
#[derive(Drop)]
pub struct RoomyList<'a, K: Kind> {
    pub list: NodeList<'a, K>,
}

impl<'a, K: Kind> Model for RoomyList<'a, K> {
    ghost use Rattle.std.specs.Prelude.{List};
    ghost use Rattle.std.specs.Coded.{coded_list};
    ghost use Rattle.algebra.specs.declared.numbers.Numbers.{Numbers};
    ghost use Rattle.algebra.specs.declared.node.Node.{Node};
    ghost use Rattle.nodes.specs.Codes.{node_code};
    ghost use Rattle.nodes.specs.Lists.{Roomy};

    ghost Value = { List (Node Numbers) };

    ghost coded = { coded_list node_code };

    ghost view = { λ l. l.list.items };

    ghost invariant = { λ l. Roomy l.list };
}

impl<'a, K: Kind> RoomyList<'a, K> {
    // A list with nothing in it, in room for 1,023 nodes.
    pub fn over(room: &'a mut [Node<K>]) -> RoomyList<'a, K>
        requires { length room.old ≡ 1023 }
        ensures { result ≡ [] }
    {
        RoomyList {
            list: NodeList::over(room),
        }
    }

    // The nodes.
    pub fn as_slice(&self) -> &[Node<K>]
        ensures nodes { view K.Kind.numbers_of result.now ≡ self.now }
        ensures fits { length result.now ≤ 1023 }
    {
        self.list.as_slice()
    }
}
