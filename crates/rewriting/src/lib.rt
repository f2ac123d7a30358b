// One rewriting step of a score, written into a list of nodes.
#![tactic(auto)]

mod assemble;
mod associate;
mod count;
mod exchange;
mod matching;
mod plan;
mod planning;
mod rests;
pub mod rewrite;
pub mod step;
mod units;
