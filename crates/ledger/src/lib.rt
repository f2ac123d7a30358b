// Any calls in any order on one rack, and the ledger that is kept of them.
#![tactic(auto)]

pub mod call;
pub mod play;
