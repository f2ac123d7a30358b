// Scores drawn on renderers.
#![tactic(auto)]

pub mod draw;
