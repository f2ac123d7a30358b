// Steps of rewriting.
use algebra::rule::{Rule, Way};

// A rule, the way in which it is used, and where a rest is split.
#[derive(Clone, Copy)]
pub struct Step {
    pub rule: Rule,
    pub way: Way,
    pub split: u32,
}
