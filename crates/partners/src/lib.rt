// Partners among the placed primitives of two scores, and the order of one after the other as a model.
#![tactic(auto)]

pub mod after;
mod choosing;
mod runs;
mod spending;
