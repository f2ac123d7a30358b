// Reads the lines before the body.
ghost use Rattle.std.specs.Result.{MatchResult};
ghost use Rattle.grammar.specs.Refusals.{HeadRefused};
ghost use Rattle.reading.specs.Heads.{LinesTaken};

use crate::reader::Reader;
use crate::word::Lexeme;
use algebra::limits::{LONGEST, MOST_PRIMITIVES};
use grammar::head::Head;
use grammar::lines::{COUNT, LENGTH, MOST_BYTES, SIGNATURE};
use refusals::refusal::{Refusal, Section};

// What the lines before the body say, and where the body begins.
#[derive(Clone, Copy)]
pub struct Lines<'a> {
    pub kind: Lexeme<'a>,
    pub head: Head,
    pub end: usize,
}

impl<'a> Lines<'a> {
    // The lines before the body of a text.
    pub fn read(text: &'a [u8]) -> Result<Lines<'a>, Refusal>
        ensures { MatchResult result (λ h. LinesTaken text.now h) (λ e. HeadRefused text.now e) }
    {
        if text.len() > MOST_BYTES {
            return Err(Refusal::Oversize);
        }
        let mut reader = Reader {
            text,
            at: 0,
            section: Section::Signature,
        };
        reader.key(SIGNATURE)?;
        reader.section = Section::Head;
        let kind = reader.kind_line()?;
        let ticks = reader.number_line(LENGTH, LONGEST)?;
        let count = reader.number_line(COUNT, MOST_PRIMITIVES as u32)?;
        Ok(Lines {
            kind,
            head: Head { ticks, count },
            end: reader.at,
        })
    }
}
