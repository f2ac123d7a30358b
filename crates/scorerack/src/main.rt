// Plays a script of calls from standard input on one rack. Files named in it are read from the current folder.
#![tactic(auto)]

mod call;
mod draw;
mod play;
mod say;

use crate::call::{parse_opening, skipped, words_of};
use crate::play::Player;
use algebra::limits::MOST_NODES;
use algebra::node::Node;
use kinds::clip::Clip;
use kinds::kind::Kind;
use kinds::note::Note;
use rack::rack::Rack;

// Plays the rest of a script on a rack with memory for some places; a rack has 8 at most.
fn play_on<K: Kind>(
    rt: &HostRuntime,
    lines: &[String],
    first: usize,
    places: u32,
) -> anyhow::Result<()> {
    println!(rt; "ok")?;
    let count = places.min(8) as usize * MOST_NODES;
    let mut nodes: Vec<Node<K>> = vec![in rt.alloc(); Node::default(); count]?;
    let mut player = Player::new(rt, Rack::new(&mut nodes));
    player.play(lines, first)
}

fn run(rt: &HostRuntime) -> anyhow::Result<()> {
    let lines: Vec<String> = rt.lines(rt.alloc()).try_collect(rt.alloc())?;
    let Some(first) = lines.iter().position(|line| !skipped(line)) else {
        return Ok(());
    };
    match parse_opening(words_of(&lines[first]).as_slice()) {
        Some(("note", places)) => play_on::<Note>(rt, &lines, first + 1, places),
        Some(("clip", places)) => play_on::<Clip>(rt, &lines, first + 1, places),
        _ => {
            println!(rt;
                "line {}: a script begins with `rack note PLACES` or `rack clip PLACES`",
                first + 1
            )?;
            Ok(())
        }
    }
}

fn main(rt: HostRuntime) -> anyhow::Result<()> {
    run(&rt)
}
