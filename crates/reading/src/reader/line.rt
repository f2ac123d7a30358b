// Reads the lines of the head.
ghost use Rattle.std.specs.Result.{MatchResult};
ghost use Rattle.reading.specs.Languages.{KindLine, NumberLine};
ghost use Rattle.reading.specs.Passing.{Any, Fault};
ghost use Rattle.reading.specs.Heads.{KindLineTaken, NumberLineTaken};

use crate::reader::Reader;
use crate::word::Lexeme;
use grammar::head::Figure;
use grammar::lines::{KIND, NEWLINE};
use refusals::refusal::Refusal;

impl<'a> Reader<'a> {
    // `kind=`, a name and a line's end: the name.
    pub fn kind_line(&mut self) -> Result<Lexeme<'a>, Refusal>
        ensures { MatchResult result (λ l. KindLineTaken self.old self.new l) (λ e. Fault KindLine Any self.old e) }
    {
        self.key(KIND)?;
        let name = self.name()?;
        self.key(NEWLINE)?;
        Ok(name.lexeme())
    }

    // A key, a number and a line's end: the number.
    pub fn number_line(&mut self, key: &[u8], limit: u32) -> Result<Figure, Refusal>
        ensures { MatchResult result (λ f. NumberLineTaken key.now limit self.old self.new f) (λ e. Fault (NumberLine key.now limit) Any self.old e) }
    {
        self.key(key)?;
        let number = self.number(limit)?;
        self.key(NEWLINE)?;
        Ok(number)
    }
}
