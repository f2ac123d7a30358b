// Clips: parts of recordings.
ghost use Rattle.std.specs.Prelude.{◌≡◌, true};
ghost use Rattle.algebra.specs.Kind.{four};
ghost use Rattle.kinds.specs.Clip.{clip as clip_model};
ghost use Rattle.kinds.specs.Clips.{clip_laws};

use crate::kind::Kind;
use algebra::numbers::Numbers;
use std::cmp::Ordering;

// A part of a recording: its source, where it begins there, its length, and its way, 0 forward or 1 backward.
// Clips are in the order of these numbers.
#[derive(Clone, Copy, PartialEq, Eq, PartialOrd, Ord)]
pub struct Clip {
    source: u32,
    offset: u32,
    length: u32,
    way: u32,
    ghost ok: { clip_model.legal (four source offset length way) ≡ true },
}

impl Kind for Clip {
    ghost model = { clip_model };

    ghost numbers_of = { λ c. four c.source c.offset c.length c.way };

    ghost lawful = { clip_laws };

    ghost legal = { λ c. c.ok };

    fn name<'a>() -> &'a str {
        "clip"
    }

    fn make(numbers: Numbers) -> Option<Clip> {
        let Numbers {
            first: source,
            second: offset,
            third: length,
            fourth: way,
        } = numbers;
        if source <= 9_999
            && offset <= 16_777_215
            && length >= 1
            && length <= 65_535
            && way <= 1
            && offset + length <= 16_777_216
        {
            Some(Clip {
                source,
                offset,
                length,
                way,
            })
        } else {
            None
        }
    }

    fn numbers(&self) -> Numbers {
        Numbers {
            first: self.source,
            second: self.offset,
            third: self.length,
            fourth: self.way,
        }
    }

    // The smaller source comes first, then the smaller offset, length and way.
    fn compare(&self, other: &Clip) -> Ordering {
        self.cmp(other)
    }

    fn length(&self) -> u32 {
        self.length
    }

    fn reverse(mut self) -> Clip {
        self.way = 1 - self.way;
        self
    }

    fn head(mut self, ticks: u32) -> Option<Clip> {
        if ticks < 1 || ticks > self.length {
            return None;
        }
        if self.way == 1 {
            self.offset += self.length - ticks;
        }
        self.length = ticks;
        Some(self)
    }

    fn tail(mut self, ticks: u32) -> Option<Clip> {
        if ticks >= self.length {
            return None;
        }
        if self.way == 0 {
            self.offset += ticks;
        }
        self.length -= ticks;
        Some(self)
    }
}
