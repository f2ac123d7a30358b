// How many nodes the score that a plan stands for has.
ghost use Rattle.std.specs.Prelude.{◌≡◌, ◌≤◌};
ghost use Rattle.algebra.specs.Score.{nodes};
ghost use Rattle.rewriting.specs.Plans.{piece_score, pieces_score, plan_score};

use crate::plan::{Piece, Pieces, Plan};
use kinds::kind::Kind;

impl<'a, K: Kind> Piece<'a, K> {
    // How many nodes a piece has.
    fn count(&self) -> usize
        ensures is { result ≡ nodes (piece_score self.now) }
        ensures few { result ≤ 1023 }
    {
        match self {
            Piece::Rest(_) => 1,
            Piece::Part(part) => part.count(),
        }
    }
}

impl<'a, K: Kind> Pieces<'a, K> {
    // How many nodes one piece or two have.
    fn count(&self) -> usize
        ensures is { result ≡ nodes (pieces_score self.now) }
        ensures few { result ≤ 2047 }
    {
        match self {
            Pieces::One(piece) => piece.count(),
            Pieces::Two(_, left, right) => 1 + left.count() + right.count(),
        }
    }
}

impl<'a, K: Kind> Plan<'a, K> {
    // How many nodes a plan has.
    pub fn count(&self) -> usize
        ensures is { result ≡ nodes (plan_score self.now) }
        ensures few { result ≤ 4095 }
    {
        match self {
            Plan::Simple(pieces) => pieces.count(),
            Plan::Joined(_, left, right) => 1 + left.count() + right.count(),
        }
    }
}
