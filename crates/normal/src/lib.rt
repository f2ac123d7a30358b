// What scores mean, and their normal forms.
#![tactic(auto)]

pub mod lines;
pub mod meaning;
pub mod normal;
pub mod placed;
