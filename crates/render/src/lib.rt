// Renderers: what a score is drawn on.
#![tactic(auto)]

pub mod entry;
pub mod examples;
mod front;
pub mod grid;
pub mod renderer;
pub mod roll;
pub mod theorems;
