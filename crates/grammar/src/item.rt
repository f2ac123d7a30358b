// Nodes as they stand in a file.
use algebra::node::Node;
use algebra::numbers::Numbers;

// A node of a term in a file, with the offset where it begins: of a pair, that of its parenthesis.
#[derive(Clone, Copy, Default)]
pub struct Item {
    pub node: Node<Numbers>,
    pub offset: u32,
}
