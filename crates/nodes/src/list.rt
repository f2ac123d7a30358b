// Lists of nodes in lent room.
ghost use Rattle.std.specs.Prelude.{◌≡◌, ◌+◌, ◌<◌, ◌≤◌, [], ◌∷◌, ◌++◌, length, take};
ghost use Rattle.algebra.specs.Layout.{view, seen, preorder};
ghost use Rattle.algebra.specs.Score.{nodes};

use crate::rows::write_over;
use crate::score::Score;
use algebra::node::Node;
use kinds::kind::Kind;
use std::marker::Model;

// Nodes in their order, in room that the caller lends. A kind may be so large that no list by value could be had: only a
// rack's own nodes tell that an array of 1,023 can.
#[derive(Drop)]
pub struct NodeList<'a, K: Kind> {
    room: &'a mut [Node<K>],
    len: usize,
}

impl<'a, K: Kind> Model for NodeList<'a, K> {
    ghost use Rattle.nodes.specs.Lists.{Listed, listed_code, listed, HasRoom};

    ghost Value = { Listed };

    ghost coded = { listed_code };

    ghost view = { λ l. listed K.Kind.numbers_of l.room.now l.len };

    ghost invariant = { λ l. HasRoom l.room.now l.len };
}

impl<'a, K: Kind> NodeList<'a, K> {
    // A list with nothing in it, in some room.
    pub fn over(room: &'a mut [Node<K>]) -> NodeList<'a, K>
        ensures items { result.items ≡ [] }
        ensures room { result.room ≡ length room.old }
    {
        NodeList { room, len: 0 }
    }

    // The nodes.
    pub fn as_slice(&self) -> &[Node<K>]
        ensures nodes { view K.Kind.numbers_of result.now ≡ self.now.items }
        ensures fits { length result.now ≤ self.now.room }
    {
        &self.room[..self.len]
    }

    // How many nodes there are.
    pub fn len(&self) -> usize
        ensures count { result ≡ length self.now.items }
        ensures fits { result ≤ self.now.room }
    {
        self.as_slice().len()
    }

    // How many more nodes there is room for.
    pub fn spare(&self) -> usize
        ensures { length self.now.items + result ≡ self.now.room }
    {
        self.room.len() - self.len
    }

    // Puts a node behind the others.
    pub fn push(&mut self, node: Node<K>)
        requires { length self.old.items < self.old.room }
        ensures items { self.new.items ≡ self.old.items ++ (seen K.Kind.numbers_of node ∷ []) }
        ensures room { self.new.room ≡ self.old.room }
    {
        self.room[self.len] = node;
        self.len += 1;
    }

    // Puts nodes behind the others.
    pub fn extend(&mut self, nodes: &[Node<K>])
        requires { length self.old.items + length nodes.now ≤ self.old.room }
        ensures items { self.new.items ≡ self.old.items ++ view K.Kind.numbers_of nodes.now }
        ensures room { self.new.room ≡ self.old.room }
    {
        write_over(self.room, self.len, nodes);
        self.len += nodes.len();
    }

    // Puts the nodes of a score behind the others.
    pub fn push_score(&mut self, score: &Score<'_, K>)
        requires { length self.old.items + nodes score.now ≤ self.old.room }
        ensures items { self.new.items ≡ self.old.items ++ preorder score.now }
        ensures room { self.new.room ≡ self.old.room }
    {
        self.extend(score.nodes());
    }

    // Leaves the first nodes, as many as are said.
    pub fn truncate(&mut self, count: usize)
        requires { count ≤ length self.old.items }
        ensures items { self.new.items ≡ take count self.old.items }
        ensures room { self.new.room ≡ self.old.room }
    {
        self.len = count;
    }
}
