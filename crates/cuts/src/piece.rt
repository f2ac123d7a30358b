// The node of a piece of a primitive.
ghost use Rattle.std.specs.Prelude.{◌≡◌};
ghost use Rattle.algebra.specs.Layout.{seen};
ghost use Rattle.kinds.specs.Answers.{numbered};
ghost use Rattle.cuts.specs.Pieces.{node_of_piece};

use algebra::node::Node;
use kinds::kind::Kind;

// The node of a piece of a primitive; where there is none, an empty rest.
pub fn piece_node<K: Kind>(piece: Option<K>) -> Node<K>
    ensures { seen K.Kind.numbers_of result ≡ node_of_piece (numbered K.Kind.numbers_of piece) }
{
    piece.map_or(Node::Rest(0), |primitive| Node::Primitive(primitive))
}
