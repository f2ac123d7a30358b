// Reads numbers, in base ten with no leading zero.
ghost use Rattle.std.specs.Prelude.{◌≡◌, ◌+◌, ◌^◌, ◌<◌, ◌≤◌, length, decimal, MatchResult};
ghost use Rattle.reading.specs.Languages.{Numeral, Digits};
ghost use Rattle.reading.specs.Passing.{NoDigit, Fault};
ghost use Rattle.reading.specs.Taking.{NumberTaken, BadDigit};

use crate::reader::Reader;
use crate::word::Lexeme;
use grammar::head::Figure;
use refusals::refusal::{Refusal, Section};

impl<'a> Reader<'a> {
    // A number up to a limit, with its offset.
    #[inline(always)]
    pub fn number(&mut self, limit: u32) -> Result<Figure, Refusal>
        ensures { MatchResult result (λ f. NumberTaken limit self.old self.new f) (λ e. Fault (Numeral limit) NoDigit self.old e) }
    {
        let run = self.digits().lexeme();
        if run.bytes.is_empty() {
            return Err(Refusal::Misfit(self.section, run.offset));
        }
        let value = value_of(run, limit, self.section)?;
        Ok(Figure {
            value,
            offset: run.offset,
        })
    }
}

// The number that a run of digits writes, up to a limit.
fn value_of(run: Lexeme<'_>, limit: u32, section: Section) -> Result<u32, Refusal>
    requires digits { Digits run.bytes.now }
    requires some { 0 < length run.bytes.now }
    requires fits { run.offset + length run.bytes.now < 2 ^ 32 }
    ensures { MatchResult result (λ n. (n ≤ limit) × (run.entry.bytes.now ≡ decimal n)) (λ e. BadDigit limit run.entry.bytes.now run.entry.offset section e) }
{
    let mut value: u32 = 0;
    for (i, b) in run.bytes.iter().enumerate() {
        let offset = run.offset + i as u32;
        if i > 0 && value == 0 {
            return Err(Refusal::Misfit(section, offset));
        }
        let longer = u64::from(value) * 10 + u64::from(*b - b'0');
        if longer > u64::from(limit) {
            return Err(Refusal::Misfit(section, offset));
        }
        value = longer as u32;
    }
    Ok(value)
}
