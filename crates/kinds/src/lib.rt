// Kinds of primitive: the interface that a rack is generic over, and the kinds at hand.
#![tactic(auto)]

pub mod clip;
pub mod examples;
pub mod kind;
pub mod note;
