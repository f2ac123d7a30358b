// Scores as rows of nodes in preorder, over any kind of primitive.
#![tactic(auto)]

pub mod join;
pub mod list;
pub mod measure;
pub mod measured;
pub mod roomy;
pub mod rows;
pub mod score;
pub mod sight;
pub mod span;
pub mod spans;
pub mod write;
