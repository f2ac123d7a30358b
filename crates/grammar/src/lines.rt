// The fixed texts of a score file, which the reader compares and the writer writes, and how long a file may be.

// The most bytes that a file may have.
pub const MOST_BYTES: usize = 16_384;

// The first line.
pub const SIGNATURE: &[u8] = b"score=6\n";

// What begins the lines of the kind's name, the length, the count of primitives and the term.
pub const KIND: &[u8] = b"kind=";

pub const LENGTH: &[u8] = b"length=";

pub const COUNT: &[u8] = b"prims=";

pub const BODY: &[u8] = b"body=";

// What ends a line.
pub const NEWLINE: &[u8] = b"\n";

// What follows the term: the end of its line, and the last line.
pub const ENDING: &[u8] = b"\nend=score\n";
