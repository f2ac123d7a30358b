// The first ticks of a score, what follows them, and its reverse, put behind the nodes of a list.
#![tactic(auto)]

pub mod count;
pub mod drop;
pub mod piece;
pub mod reverse;
pub mod take;
