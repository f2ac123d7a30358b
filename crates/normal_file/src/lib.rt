// The file of a score's normal form after a model.
#![tactic(auto)]

pub mod write;
