// The score file: its grammar, its fixed texts, and the nodes of a term as they stand in a file.
#![tactic(auto)]

pub mod draft;
pub mod head;
pub mod item;
pub mod lines;
pub mod theorems;
