// Scores made from another: changed or rewritten, within the limits of a place.
#![tactic(auto)]

pub mod change;
mod keeping;
pub mod making;
pub mod rewrite;
pub mod size;
pub mod step;
