// The file of a score.
ghost use Rattle.std.specs.Prelude.{◌≡◌, ◌+◌, ◌≤◌, ◌++◌, length};
ghost use Rattle.algebra.specs.Layout.{view, score_of};
ghost use Rattle.algebra.specs.Score.{primitives, score_length};
ghost use Rattle.grammar.specs.Loads.{file_bytes};
ghost use Rattle.nodes.specs.Held.{Whole};
ghost use Rattle.writing.specs.Writes.{written_answer, written_over};

use crate::bytes::FileBytes;
use crate::term::put_term;
use algebra::node::Node;
use grammar::lines::{BODY, COUNT, ENDING, KIND, LENGTH, MOST_BYTES, SIGNATURE};
use itoa::Buffer;
use kinds::kind::Kind;
use nodes::score::Score;
use refusals::refusal::Refusal;

// Puts the file of the score that a row is, whose length and count of primitives are told, behind other bytes.
fn put_file<K: Kind>(row: &[Node<K>], ticks: u32, count: u32, file: &mut FileBytes)
    requires whole { Whole (view K.Kind.numbers_of row.now) }
    requires measured { ticks ≡ score_length K.Kind.model (score_of (view K.Kind.numbers_of row.now)) }
    requires counted { count ≡ primitives (score_of (view K.Kind.numbers_of row.now)) }
    requires room { length file.old + length (file_bytes K.Kind.model (score_of (view K.Kind.numbers_of row.now))) ≤ MOST_BYTES }
    ensures { file.new ≡ file.old ++ file_bytes K.Kind.model (score_of (view K.Kind.numbers_of row.now)) }
{
    file.extend(SIGNATURE);
    file.push_line(KIND, K::name());
    file.push_line(LENGTH, Buffer::new().format(ticks));
    file.push_line(COUNT, Buffer::new().format(count));
    file.extend(BODY);
    put_term(row, file);
    file.extend(ENDING);
}

// Writes the file of the score that a row is, whose length and count of primitives are told, and returns how many bytes it has. A buffer that is too short is refused and left as it is.
pub fn write_told<K: Kind>(
    row: &[Node<K>],
    ticks: u32,
    count: u32,
    buffer: &mut [u8],
) -> Result<u32, Refusal>
    requires whole { Whole (view K.Kind.numbers_of row.now) }
    requires measured { ticks ≡ score_length K.Kind.model (score_of (view K.Kind.numbers_of row.now)) }
    requires counted { count ≡ primitives (score_of (view K.Kind.numbers_of row.now)) }
    requires small { length (file_bytes K.Kind.model (score_of (view K.Kind.numbers_of row.now))) ≤ 16384 }
    ensures answer { result ≡ written_answer (file_bytes K.Kind.model (score_of (view K.Kind.numbers_of row.now))) (length buffer.old) }
    ensures after { buffer.new ≡ written_over result (file_bytes K.Kind.model (score_of (view K.Kind.numbers_of row.now))) buffer.old }
{
    let mut file = FileBytes::new();
    put_file(row, ticks, count, &mut file);
    let bytes = file.as_slice();
    let size = bytes.len();
    if buffer.len() < size {
        return Err(Refusal::ShortBuffer(size as u32));
    }
    buffer[..size].copy_from_slice(bytes);
    Ok(size as u32)
}

// Writes the file of a score with so many primitives, and returns how many bytes it has. A buffer that is too short is refused and left as it is.
pub fn write_file<K: Kind>(
    score: &Score<'_, K>,
    count: u32,
    buffer: &mut [u8],
) -> Result<u32, Refusal>
    requires { count ≡ primitives score.now }
    ensures answer { result ≡ written_answer (file_bytes K.Kind.model score.now) (length buffer.old) }
    ensures after { buffer.new ≡ written_over result (file_bytes K.Kind.model score.now) buffer.old }
{
    write_told(score.nodes(), score.length(), count, buffer)
}
