// Refusals in words.
ghost use Rattle.std.specs.Prelude.{Some};
ghost use Rattle.refusals.specs.Briefs.{part_text};

use crate::refusal::{Part, Refusal, Section};
use std::fmt;

impl fmt::Display for Part {
    ghost output = { λ p. Some (part_text p) };

    fn fmt<W: fmt::Write>(&self, f: &mut fmt::Formatter<W>) -> fmt::Result {
        match *self {
            Part::Reading => f.write_str("reading"),
            Part::Kind => f.write_str("kind"),
            Part::Rack => f.write_str("rack"),
        }
    }
}

// A sentence that says what was wrong.
impl fmt::Display for Refusal {
    fn fmt<W: fmt::Write>(&self, f: &mut fmt::Formatter<W>) -> fmt::Result {
        match *self {
            Refusal::Oversize => f.write_str("the file has more than 16,384 bytes"),
            Refusal::Misfit(Section::Signature, offset) => write!(
                f,
                "the first line goes wrong at byte {offset}"
            ),
            Refusal::Misfit(Section::Head, offset) => write!(
                f,
                "the head goes wrong at byte {offset}"
            ),
            Refusal::OtherKind(offset) => write!(f, "the head names another kind at byte {offset}"),
            Refusal::Misfit(Section::Body, offset) => write!(
                f,
                "the body goes wrong at byte {offset}"
            ),
            Refusal::TooManyInFile(offset) => write!(
                f,
                "one node or primitive too many begins at byte {offset}"
            ),
            Refusal::IllegalNumbers(offset) => write!(
                f,
                "the kind has no primitive with the numbers at byte {offset}"
            ),
            Refusal::TooLongInFile(offset) => write!(
                f,
                "the score at byte {offset} is longer than 16,777,215 ticks"
            ),
            Refusal::UntrueHead(offset) => write!(
                f,
                "the head's value at byte {offset} is not that of the body"
            ),
            Refusal::BadValue(value) => write!(f, "the call does not take the value {value}"),
            Refusal::NoSuchPlace(place) => write!(f, "the rack has no place {place}"),
            Refusal::EmptyPlace(place) => write!(f, "place {place} is empty"),
            Refusal::FullPlace(place) => write!(f, "place {place} holds a score already"),
            Refusal::NoSuchNode(nodes) => write!(f, "the score has only {nodes} nodes"),
            Refusal::NoFit(node) => write!(f, "the rule does not fit at node {node}"),
            Refusal::TooMany(nodes) => write!(
                f,
                "the result would have {nodes} nodes, or more than 170 primitives"
            ),
            Refusal::TooLong(length) => write!(f, "the result would be {length} ticks long"),
            Refusal::ShortBuffer(bytes) => write!(f, "the buffer is too short for {bytes} bytes"),
        }
    }
}
