// Reads the body and the last line.
ghost use Rattle.std.specs.Prelude.{◌≤◌, length, MatchResult};
ghost use Rattle.reading.specs.Languages.{Tail};
ghost use Rattle.reading.specs.Passing.{Nothing, Faulty};
ghost use Rattle.reading.specs.Terms.{BodyTaken};

use crate::reader::Reader;
use grammar::draft::Draft;
use grammar::lines::{BODY, ENDING};
use refusals::refusal::{Refusal, Section};

impl<'a> Reader<'a> {
    // The rest of a text from an offset on: the body, whose nodes go into the draft, and the last line.
    pub fn body(text: &'a [u8], at: usize, draft: &mut Draft) -> Result<(), Refusal>
        requires within { at ≤ length text.now }
        requires small { length text.now ≤ 16384 }
        ensures { MatchResult result (λ _. BodyTaken text.now at draft.old draft.new) (λ e. Faulty Tail Nothing text.now at Section.Body e) }
    {
        let mut reader = Reader {
            text,
            at,
            section: Section::Body,
        };
        reader.key(BODY)?;
        reader.term(draft)?;
        reader.key(ENDING)?;
        reader.end()
    }
}
