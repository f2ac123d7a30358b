// Plans of a new score, made of rests and of scores that stand in nodes.
use kinds::kind::Kind;
use nodes::join::Join;
use nodes::score::Score;

// A rest, or a copy of a score.
#[derive(Drop)]
pub enum Piece<'a, K: Kind> {
    Rest(u32),
    Part(Score<'a, K>),
}

// One piece, or two joined.
#[derive(Drop)]
pub enum Pieces<'a, K: Kind> {
    One(Piece<'a, K>),
    Two(Join, Piece<'a, K>, Piece<'a, K>),
}

// One or two pieces, or a join of such.
#[derive(Drop)]
pub enum Plan<'a, K: Kind> {
    Simple(Pieces<'a, K>),
    Joined(Join, Pieces<'a, K>, Pieces<'a, K>),
}
