// What a score is and what it means: definitions, and the plain types that code and definitions share.
#![tactic(auto)]

pub mod limits;
pub mod node;
pub mod numbers;
pub mod rule;
pub mod theorems;
