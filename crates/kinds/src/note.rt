// Notes.
ghost use Rattle.std.specs.Prelude.{◌≡◌, true};
ghost use Rattle.algebra.specs.Kind.{four};
ghost use Rattle.kinds.specs.Note.{note as note_model};
ghost use Rattle.kinds.specs.Notes.{note_laws};

use crate::kind::Kind;
use algebra::numbers::Numbers;
use std::cmp::Ordering;

// A note: its pitch, velocity and length. Its fourth number is 0.
#[derive(Clone, Copy)]
pub struct Note {
    pitch: u32,
    velocity: u32,
    length: u32,
    ghost ok: { note_model.legal (four pitch velocity length 0) ≡ true },
}

impl Kind for Note {
    ghost model = { note_model };

    ghost numbers_of = { λ n. four n.pitch n.velocity n.length 0 };

    ghost lawful = { note_laws };

    ghost legal = { λ n. n.ok };

    fn name<'a>() -> &'a str {
        "note"
    }

    fn make(numbers: Numbers) -> Option<Note> {
        let Numbers {
            first: pitch,
            second: velocity,
            third: length,
            fourth,
        } = numbers;
        if pitch <= 127
            && velocity >= 1
            && velocity <= 127
            && length >= 1
            && length <= 65_535
            && fourth == 0
        {
            Some(Note {
                pitch,
                velocity,
                length,
            })
        } else {
            None
        }
    }

    fn numbers(&self) -> Numbers {
        Numbers {
            first: self.pitch,
            second: self.velocity,
            third: self.length,
            fourth: 0,
        }
    }

    // A higher pitch comes first, then a greater velocity, then a shorter length.
    fn compare(&self, other: &Note) -> Ordering {
        let first = (other.pitch, other.velocity, self.length);
        first.cmp(&(self.pitch, self.velocity, other.length))
    }

    fn length(&self) -> u32 {
        self.length
    }

    fn reverse(self) -> Note {
        self
    }

    fn head(mut self, ticks: u32) -> Option<Note> {
        if ticks < 1 || ticks > self.length {
            return None;
        }
        self.length = ticks;
        Some(self)
    }

    fn tail(mut self, ticks: u32) -> Option<Note> {
        if ticks >= self.length {
            return None;
        }
        self.length -= ticks;
        Some(self)
    }
}
