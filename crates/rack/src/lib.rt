// Scores of one kind at the places of a rack, in nodes that the caller brings.
#![tactic(auto)]

pub mod place;
pub mod rack;
