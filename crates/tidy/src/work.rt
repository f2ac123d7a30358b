// What tidying does with a text.
use algebra::limits::MOST_NODES;
use algebra::node::Node;
use grammar::lines::MOST_BYTES;
use kinds::clip::Clip;
use kinds::kind::Kind;
use kinds::note::Note;
use rack::rack::Rack;
use reading::states::{FreshReading, HeadedReading};
use refusals::refusal::Refusal;
use std::fs;

fn say_refused(rt: &HostRuntime, refusal: Refusal) -> anyhow::Result<()> {
    println!(rt;
        "refused: number {}, part {}, detail {}: {refusal}",
        refusal.number(),
        refusal.part(),
        refusal.detail()
    )?;
    Ok(())
}

// Writes a file under a name, or shows it.
fn hand_on(rt: &HostRuntime, file: &[u8], to: Option<String>) -> anyhow::Result<()> {
    let count = file.len();
    match to {
        Some(name) => {
            fs::write(rt, name.as_str(), file)?;
            println!(rt; "wrote {name}: {count} bytes")?;
        }
        None => {
            println!(rt; "wrote {count} bytes:")?;
            print!(rt; "{}", String::from_utf8_lossy(rt.alloc(), file)?)?;
        }
    }
    Ok(())
}

// Loads what follows a head on a rack of one place, tells of it, and writes its file into a buffer.
fn rewritten<K: Kind>(
    nodes: &mut [Node<K>],
    headed: HeadedReading<'_>,
    buffer: &mut [u8],
) -> Result<((u32, u32, u32), u32), Refusal> {
    let mut rack = Rack::new(nodes);
    rack.load(0, headed)?;
    let told = rack.tell(0)?;
    let count = rack.write(0, buffer)?;
    Ok((told, count))
}

fn tidy_kind<K: Kind>(
    rt: &HostRuntime,
    headed: HeadedReading<'_>,
    to: Option<String>,
) -> anyhow::Result<()> {
    let mut nodes: Vec<Node<K>> = vec![in rt.alloc(); Node::default(); MOST_NODES]?;
    let mut buffer = vec![in rt.alloc(); 0u8; MOST_BYTES]?;
    match rewritten(&mut nodes, headed, &mut buffer) {
        Ok(((length, nodes, primitives), count)) => {
            println!(rt; "score: length {length}, {nodes} nodes, {primitives} primitives")?;
            buffer.truncate(count as usize);
            hand_on(rt, &buffer, to)
        }
        Err(refusal) => say_refused(rt, refusal),
    }
}

// Reads the head, chooses the kind by it, and does the rest on a rack of that kind.
pub fn tidy(rt: &HostRuntime, text: &[u8], to: Option<String>) -> anyhow::Result<()> {
    let headed = match FreshReading::new(text).read_head() {
        Ok(headed) => headed,
        Err(refusal) => return say_refused(rt, refusal),
    };
    let (kind, length, primitives) = headed.tell();
    let name = String::from_utf8_lossy(rt.alloc(), kind)?;
    println!(rt; "head: kind {name}, length {length}, {primitives} primitives")?;
    if kind == b"clip".as_slice() {
        tidy_kind::<Clip>(rt, headed, to)
    } else {
        tidy_kind::<Note>(rt, headed, to)
    }
}
