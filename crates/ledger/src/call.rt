// Calls on a rack as values, and what they answer.
use comparing::comparison::Comparison;

// A call with its arguments. Loading has the text of its file.
#[derive(Clone, Copy)]
pub enum Call<'a> {
    Load {
        to: u32,
        text: &'a [u8],
    },
    Rest {
        to: u32,
        ticks: u32,
    },
    JoinSequence {
        to: u32,
        first: u32,
        second: u32,
    },
    JoinParallel {
        to: u32,
        first: u32,
        second: u32,
    },
    Reverse {
        to: u32,
        from: u32,
    },
    Take {
        to: u32,
        from: u32,
        ticks: u32,
    },
    Drop {
        to: u32,
        from: u32,
        ticks: u32,
    },
    Normalise {
        to: u32,
        from: u32,
    },
    Rewrite {
        place: u32,
        node: u32,
        rule: u32,
        way: u32,
        split: u32,
    },
    Clear {
        place: u32,
    },
    Tell {
        place: u32,
    },
    Compare {
        first: u32,
        second: u32,
    },
    Write {
        place: u32,
    },
    WriteNormal {
        place: u32,
        model: u32,
    },
    Draw {
        place: u32,
    },
}

// What a call answers that is not refused: nothing more; length, nodes and primitives; what comparing says; or a number of bytes.
#[derive(Clone, Copy)]
pub enum Reply {
    Done,
    Told {
        length: u32,
        nodes: u32,
        primitives: u32,
    },
    Compared(Comparison),
    Wrote(u32),
}
