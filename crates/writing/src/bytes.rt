// The bytes of a file while it is made.
ghost use Rattle.std.specs.Prelude.{◌≡◌, ◌+◌, ◌<◌, ◌≤◌, [], ◌∷◌, ◌++◌, length, decimal};
ghost use Rattle.grammar.specs.Files.{line};

use arrayvec::ArrayVec;
use grammar::lines::MOST_BYTES;
use itoa::Buffer;
use std::marker::Model;

// Bytes in their order, 16,384 at most.
#[derive(Drop)]
pub(crate) struct FileBytes {
    bytes: ArrayVec<u8, MOST_BYTES>,
}

impl Model for FileBytes {
    ghost use Rattle.std.specs.Prelude.{ℕ, List};

    ghost Value = { List ℕ };

    ghost view = { λ f. f.bytes.items };
}

impl FileBytes {
    // A file with nothing in it.
    pub(crate) fn new() -> FileBytes
        ensures { result ≡ [] }
    {
        FileBytes {
            bytes: ArrayVec::new(),
        }
    }

    // The bytes.
    pub(crate) fn as_slice(&self) -> &[u8]
        ensures bytes { result.now ≡ self.now }
        ensures fits { length result.now ≤ MOST_BYTES }
    {
        self.bytes.as_slice()
    }

    // Puts a byte behind the others.
    pub(crate) fn push(&mut self, byte: u8)
        requires { length self.old < MOST_BYTES }
        ensures { self.new ≡ self.old ++ (byte ∷ []) }
    {
        self.bytes.push(byte);
    }

    // Puts bytes behind the others.
    pub(crate) fn extend(&mut self, bytes: &[u8])
        requires { length self.old + length bytes.now ≤ MOST_BYTES }
        ensures { self.new ≡ self.old ++ bytes.now }
    {
        self.bytes.try_extend_from_slice(bytes).unwrap();
    }

    // Puts a number in base ten behind the others.
    pub(crate) fn push_number(&mut self, number: u32)
        requires { length self.old + length (decimal number) ≤ MOST_BYTES }
        ensures { self.new ≡ self.old ++ decimal number }
    {
        let mut digits = Buffer::new();
        // digit by digit, since a call that copies a few bytes costs more
        for digit in digits.format(number).as_bytes() {
            self.push(*digit);
        }
    }

    // Puts a line of a key and what it holds behind the others.
    pub(crate) fn push_line(&mut self, key: &[u8], value: &str)
        requires { length self.old + length (line key.now value.now) ≤ MOST_BYTES }
        ensures { self.new ≡ self.old ++ line key.now value.now }
    {
        self.extend(key);
        self.extend(value.as_bytes());
        self.push(b'\n');
    }
}
