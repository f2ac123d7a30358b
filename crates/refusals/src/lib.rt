// Why a call is refused: a number, the part that refuses, and a detail.
#![tactic(auto)]

pub mod brief;
pub mod refusal;
pub mod sentence;
