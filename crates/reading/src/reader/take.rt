// Takes words from a text. No other function looks at the text.
ghost use Rattle.std.specs.Prelude.{◌≡◌, ℕ, ◌<◌, ◌≤◌, [], length, drop, true, false, slice_index, MatchResult};
ghost use Rattle.std.specs.Fn.{FnReturnsAt};
ghost use Rattle.algebra.specs.Kind.{Name};
ghost use Rattle.reading.specs.Languages.{Just};
ghost use Rattle.reading.specs.Passing.{Any, Nothing, NoLetter, Fault};
ghost use Rattle.reading.specs.Taking.{Covers, MarkTaken, NoMark, KeyTaken, DigitsTaken, NameTaken};

use crate::reader::Reader;
use crate::word::{Lexeme, Word};
use refusals::refusal::Refusal;

impl<'a> Reader<'a> {
    // The refusal of what comes next.
    fn misfit(&self) -> Refusal
        ensures { result ≡ Refusal.Misfit self.now.section self.now.at }
    {
        Refusal::Misfit(self.section, self.at as u32)
    }

    // The bytes that are read from an offset on.
    fn since(&self, start: usize) -> Lexeme<'a>
        requires { start ≤ self.now.at }
        ensures { Covers self.now start result }
    {
        Lexeme {
            bytes: &self.text[start..self.at],
            offset: start as u32,
        }
    }

    // The bytes that are not read yet.
    fn rest(&self) -> &'a [u8]
        ensures { result.now ≡ drop self.now.at self.now.text.now }
    {
        &self.text[self.at..]
    }

    // One byte, which has to be one of `wanted`.
    pub fn mark(&mut self, wanted: &[u8]) -> Result<Word<'a>, Refusal>
        ensures { MatchResult result (λ w. MarkTaken wanted.now self.old self.new w) (λ e. NoMark wanted.now self.old e) }
    {
        let start = self.at;
        match self.text.get(start) {
            Some(byte) if wanted.contains(byte) => {
                self.at = start + 1;
                Ok(Word::Mark(self.since(start)))
            }
            _ => Err(self.misfit()),
        }
    }

    // The bytes of `wanted`.
    pub fn key(&mut self, wanted: &[u8]) -> Result<Word<'a>, Refusal>
        ensures { MatchResult result (λ w. KeyTaken wanted.now self.old self.new w) (λ e. Fault (Just wanted.now) Any self.old e) }
    {
        let start = self.at;
        for b in wanted {
            self.mark(&[*b])?;
        }
        Ok(Word::Key(self.since(start)))
    }

    // The digits that come next, as many as there are.
    pub fn digits(&mut self) -> Word<'a>
        ensures { DigitsTaken self.old self.new result }
    {
        let start = self.at;
        let rest = self.rest();
        self.at += run_length(rest, rest.len(), u8::is_ascii_digit);
        Word::Digits(self.since(start))
    }

    // One to eight lower-case letters.
    pub fn name(&mut self) -> Result<Word<'a>, Refusal>
        ensures { MatchResult result (λ w. NameTaken self.old self.new w) (λ e. Fault Name NoLetter self.old e) }
    {
        let length = run_length(self.rest(), 8, u8::is_ascii_lowercase);
        if length == 0 {
            return Err(self.misfit());
        }
        let start = self.at;
        self.at += length;
        Ok(Word::Name(self.since(start)))
    }

    // Nothing more comes.
    pub fn end(&self) -> Result<(), Refusal>
        ensures { MatchResult result (λ _. self.now.at ≡ length self.now.text.now) (λ e. Fault (Just []) Nothing self.now e) }
    {
        match self.text.get(self.at) {
            Some(_) => Err(self.misfit()),
            None => Ok(()),
        }
    }
}

// How many bytes pass a test from the first on, up to a number of them.
fn run_length<F: Fn(&u8) -> bool>(bytes: &[u8], most: usize, test: F) -> usize
    requires { F.IsAlwaysCallable test }
    ensures few { result ≤ most }
    ensures within { result ≤ length bytes.now }
    ensures passes { (k : ℕ) → k < result → FnReturnsAt F.Fn test (slice_index bytes.now k) true }
    ensures ends { result < most → result < length bytes.now → FnReturnsAt F.Fn test (slice_index bytes.now result) false }
{
    bytes.iter().take(most).take_while(|b| test(b)).count()
}
