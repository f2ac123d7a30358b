// The normal form of a score after a model, written as a file.
ghost use Rattle.std.specs.Prelude.{◌≡◌, ◌+◌, ◌≤◌, ◌++◌, length};
ghost use Rattle.algebra.specs.Layout.{preorder};
ghost use Rattle.algebra.specs.Normal.{normal_after};
ghost use Rattle.writing.specs.Writes.{written_answer, written_over};
ghost use Rattle.normal_file.specs.Bytes.{normal_bytes};

use algebra::limits::MOST_NODES;
use algebra::node::Node;
use kinds::kind::Kind;
use nodes::list::NodeList;
use nodes::roomy::RoomyList;
use nodes::score::Score;
use normal::lines::write_lines;
use partners::after::list_after;
use refusals::refusal::Refusal;
use writing::file::write_told;

// Writes the file of the normal form of a score after a model, and returns how many bytes it has. The form is put behind the nodes of a list. A buffer that is too short is refused and left as it is.
pub fn write_normal<K: Kind>(
    score: &Score<'_, K>,
    model: &Score<'_, K>,
    form: &mut NodeList<'_, K>,
    buffer: &mut [u8],
) -> Result<u32, Refusal>
    requires { length form.old.items + 1023 ≤ form.old.room }
    ensures answer { result ≡ written_answer (normal_bytes K.Kind.model score.now model.now) (length buffer.old) }
    ensures after { buffer.new ≡ written_over result (normal_bytes K.Kind.model score.now model.now) buffer.old }
    ensures form { form.new.items ≡ form.old.items ++ preorder (normal_after K.Kind.model score.now model.now) }
    ensures room { form.new.room ≡ form.old.room }
{
    let meaning = list_after(score, model);
    let placed = meaning.placed.items();
    let start = form.len();
    write_lines(meaning.length, placed, form);
    let nodes = &form.as_slice()[start..];
    write_told(nodes, meaning.length, placed.len() as u32, buffer)
}

// Writes it by way of room of its own. The nodes of a rack show that room for as many may be had.
pub fn write_normal_from<K: Kind>(
    nodes: &[Node<K>],
    score: &Score<'_, K>,
    model: &Score<'_, K>,
    buffer: &mut [u8],
) -> Result<u32, Refusal>
    requires { 1023 ≤ length nodes.now }
    ensures answer { result ≡ written_answer (normal_bytes K.Kind.model score.now model.now) (length buffer.old) }
    ensures after { buffer.new ≡ written_over result (normal_bytes K.Kind.model score.now model.now) buffer.old }
{
    let mut room = [Node::Rest(0); MOST_NODES];
    let mut form = RoomyList::over(&mut room);
    write_normal(score, model, &mut form.list, buffer)
}
