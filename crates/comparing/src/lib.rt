// Comparing two scores.
#![tactic(auto)]

pub mod compare;
pub mod comparison;
mod differing;
pub mod order;
pub mod sorted;
