// What a reading handed on, checked for a kind and written as nodes of the kind.
#![tactic(auto)]

pub mod checking;
mod counting;
mod legality;
pub mod load;
mod measuring;
pub mod placing;
