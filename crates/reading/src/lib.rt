// Reads score files: words, numbers, lines and terms, and a reading in two steps, the head and the whole.
#![tactic(auto)]

mod reader;
pub mod states;
pub mod word;
