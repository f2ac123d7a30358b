// How large a score may be.

// How many nodes a score may have.
pub const MOST_NODES: usize = 1023;

// How many primitives a score may have.
pub const MOST_PRIMITIVES: usize = 170;

// How long a score or a rest may be, in ticks.
pub const LONGEST: u32 = 16_777_215;
