// The words that a reader hands out.
ghost use Rattle.std.specs.Prelude.{◌≡◌};
ghost use Rattle.reading.specs.Taking.{lexeme_of};

// Some bytes of a file, with the offset of the first.
#[derive(Clone, Copy)]
pub struct Lexeme<'a> {
    pub bytes: &'a [u8],
    pub offset: u32,
}

// What a reader hands out: one byte that stands for itself, a run of digits, a fixed text or a kind's name.
#[derive(Clone, Copy)]
pub enum Word<'a> {
    Mark(Lexeme<'a>),
    Digits(Lexeme<'a>),
    Key(Lexeme<'a>),
    Name(Lexeme<'a>),
}

impl<'a> Word<'a> {
    // The bytes of the word, with their offset.
    pub fn lexeme(self) -> Lexeme<'a>
        ensures { result ≡ lexeme_of self.entry }
    {
        match self {
            Word::Mark(lexeme) | Word::Digits(lexeme) | Word::Key(lexeme) | Word::Name(lexeme) =>
                lexeme,
        }
    }
}
