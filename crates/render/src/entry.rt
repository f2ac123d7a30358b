// What is entered into a renderer.
use algebra::numbers::Numbers;

// A thing that sounds for `length` ticks from `onset` on, with the four numbers that it means.
#[derive(Clone, Copy)]
pub struct Entry {
    pub onset: u32,
    pub length: u32,
    pub numbers: Numbers,
}
