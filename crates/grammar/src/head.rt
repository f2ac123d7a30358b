// A number that stands in a file, with its offset.
#[derive(Clone, Copy)]
pub struct Figure {
    pub value: u32,
    pub offset: u32,
}

// The two numbers of a file's head: the length and the count of primitives.
#[derive(Clone, Copy)]
pub struct Head {
    pub ticks: Figure,
    pub count: Figure,
}
