// The items of a term while its file is read.
ghost use Rattle.std.specs.Prelude.{◌≡◌, ◌≤◌, [], ◌∷◌, ◌++◌, length, take};
ghost use Rattle.grammar.specs.Drafts.{with_node};

use crate::item::Item;
use algebra::limits::MOST_NODES;
use algebra::node::Node;
use algebra::numbers::Numbers;
use std::marker::Model;

// The items that a draft has room for: one more than a score may have nodes.
const ROOM: usize = MOST_NODES + 1;

// The nodes of a term, in preorder, as far as there is room. An array and a count, and no list of fixed room of the kit's,
// which writes over each item that is taken out: to clear a draft costs the same however much is in it.
#[derive(Drop)]
pub struct Draft {
    items: [Item; ROOM],
    count: usize,
}

impl Model for Draft {
    ghost use Rattle.std.specs.Prelude.{◌≤◌, List, take};
    ghost use Rattle.grammar.specs.declared.item.Item.{Item};

    ghost Value = { List Item };

    ghost view = { λ d. take d.count d.items };

    ghost invariant = { λ d. d.count ≤ 1024 };
}

impl Draft {
    // A draft with nothing in it.
    pub fn new() -> Draft
        ensures { result ≡ [] }
    {
        let blank = Item {
            node: Node::Rest(0),
            offset: 0,
        };
        Draft {
            items: [blank; ROOM],
            count: 0,
        }
    }

    // Takes everything out.
    pub fn clear(&mut self)
        ensures { self.new ≡ [] }
    {
        self.count = 0;
    }

    // How many items there are.
    pub fn len(&self) -> usize
        ensures count { result ≡ length self.now }
        ensures fits { result ≤ 1024 }
    {
        self.items().len()
    }

    // The items.
    pub fn items(&self) -> &[Item]
        ensures same { result.now ≡ self.now }
        ensures fits { length result.now ≤ 1024 }
    {
        &self.items[..self.count]
    }

    // Puts an item behind the others, where there is room.
    pub fn push(&mut self, item: Item)
        ensures { self.new ≡ take 1024 (self.old ++ (item ∷ [])) }
    {
        if self.count < ROOM {
            self.items[self.count] = item;
            self.count += 1;
        }
    }

    // Puts another node at an item, where there is such an item.
    pub fn set_node(&mut self, at: usize, node: Node<Numbers>)
        ensures { self.new ≡ with_node self.old at node }
    {
        if at < self.count {
            self.items[at].node = node;
        }
    }
}
