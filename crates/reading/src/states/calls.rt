// What is done with a reading: its head is read, told, and then the whole.
ghost use Rattle.std.specs.Prelude.{◌≡◌, MatchResult};
ghost use Rattle.grammar.specs.Described.{ReadAs};
ghost use Rattle.grammar.specs.Refusals.{HeadRefused, Refused};
ghost use Rattle.reading.specs.Readings.{HeadedAs};

use crate::reader::Reader;
use crate::reader::head::Lines;
use crate::states::{FreshReading, HeadedReading};
use grammar::draft::Draft;
use grammar::head::Head;
use refusals::refusal::Refusal;

impl<'a> FreshReading<'a> {
    // A reading of a text.
    pub fn new(text: &'a [u8]) -> Self
        ensures { result.text ≡ text.entry }
    {
        FreshReading { text }
    }

    // Reads the head.
    pub fn read_head(self) -> Result<HeadedReading<'a>, Refusal>
        ensures { MatchResult result (λ h. (h.text ≡ self.entry.text) × HeadedAs self.entry.text.now h) (λ e. HeadRefused self.entry.text.now e) }
    {
        let lines = Lines::read(self.text)?;
        Ok(HeadedReading {
            text: self.text,
            lines,
        })
    }
}

impl<'a> HeadedReading<'a> {
    // The kind's name, the length and the count of primitives, as the head says them.
    pub fn tell(&self) -> (&'a [u8], u32, u32)
        ensures kind { result.0 ≡ self.now.lines.kind.bytes }
        ensures length { result.1 ≡ self.now.lines.head.ticks.value }
        ensures count { result.2 ≡ self.now.lines.head.count.value }
    {
        let Lines { kind, head, .. } = self.lines;
        (kind.bytes, head.ticks.value, head.count.value)
    }

    // Reads the whole text as a file of a kind: the two numbers of its head, and the nodes of its term in the draft.
    pub fn read(self, kind: &[u8], draft: &mut Draft) -> Result<Head, Refusal>
        ensures { MatchResult result (λ head. ReadAs kind.now self.entry.text.now head draft.new) (λ e. Refused kind.now self.entry.text.now e) }
    {
        let lines = self.lines;
        if lines.kind.bytes != kind {
            return Err(Refusal::OtherKind(lines.kind.offset));
        }
        draft.clear();
        Reader::body(self.text, lines.end, draft)?;
        Ok(lines.head)
    }
}
