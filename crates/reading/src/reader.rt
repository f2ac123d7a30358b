// The reader of a text, which its modules teach words, numbers, lines and terms.
ghost use Rattle.std.specs.Prelude.{◌≤◌, length};

use refusals::refusal::Section;

mod body;
pub mod head;
mod line;
mod number;
mod take;
mod term;

// A text, how far it is read, and the section that is being read.
#[derive(Drop)]
pub struct Reader<'a> {
    text: &'a [u8],
    at: usize,
    section: Section,
    ghost within: { at ≤ length text.now },
    ghost small: { length text.now ≤ 16384 },
}
