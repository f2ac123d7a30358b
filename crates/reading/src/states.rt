// The states of a reading: fresh, and headed.
ghost use Rattle.std.proofs.Props.{props};
ghost use Rattle.reading.specs.Heads.{LinesTaken};

use crate::reader::head::Lines;

mod calls;

// A reading that has read nothing yet.
#[derive(Drop)]
pub struct FreshReading<'a> {
    text: &'a [u8],
}

// A reading whose head is read, with what the head says.
#[derive(Drop)]
pub struct HeadedReading<'a> {
    text: &'a [u8],
    lines: Lines<'a>,
    ghost headed: { LinesTaken text.now lines } by { Prim.hlevel props },
}
