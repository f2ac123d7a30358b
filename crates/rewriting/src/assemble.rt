// Writes the score that a plan stands for.
ghost use Rattle.std.specs.Prelude.{◌≡◌, ◌+◌, ◌≤◌, ◌++◌, length};
ghost use Rattle.algebra.specs.Layout.{preorder};
ghost use Rattle.algebra.specs.Score.{nodes};
ghost use Rattle.rewriting.specs.Plans.{piece_score, pieces_score, plan_score};

use crate::plan::{Piece, Pieces, Plan};
use algebra::node::Node;
use kinds::kind::Kind;
use nodes::list::NodeList;

impl<'a, K: Kind> Piece<'a, K> {
    // Puts the score that a piece stands for behind the nodes of a list.
    fn write_into(&self, out: &mut NodeList<'_, K>)
        requires { length out.old.items + nodes (piece_score self.now) ≤ out.old.room }
        ensures items { out.new.items ≡ out.old.items ++ preorder (piece_score self.now) }
        ensures room { out.new.room ≡ out.old.room }
    {
        match self {
            Piece::Rest(ticks) => out.push(Node::Rest(*ticks)),
            Piece::Part(part) => out.push_score(part),
        }
    }
}

impl<'a, K: Kind> Pieces<'a, K> {
    // Puts the score that one piece or two stand for behind the nodes of a list.
    fn write_into(&self, out: &mut NodeList<'_, K>)
        requires { length out.old.items + nodes (pieces_score self.now) ≤ out.old.room }
        ensures items { out.new.items ≡ out.old.items ++ preorder (pieces_score self.now) }
        ensures room { out.new.room ≡ out.old.room }
    {
        match self {
            Pieces::One(piece) => piece.write_into(out),
            Pieces::Two(join, left, right) => {
                out.push(join.node());
                left.write_into(out);
                right.write_into(out);
            }
        }
    }
}

impl<'a, K: Kind> Plan<'a, K> {
    // Puts the score that a plan stands for behind the nodes of a list.
    pub fn write_into(&self, out: &mut NodeList<'_, K>)
        requires { length out.old.items + nodes (plan_score self.now) ≤ out.old.room }
        ensures items { out.new.items ≡ out.old.items ++ preorder (plan_score self.now) }
        ensures room { out.new.room ≡ out.old.room }
    {
        match self {
            Plan::Simple(pieces) => pieces.write_into(out),
            Plan::Joined(join, left, right) => {
                out.push(join.node());
                left.write_into(out);
                right.write_into(out);
            }
        }
    }
}
