// Loads the files of a table of edge cases, and compares what each gives with what the table says.
#![tactic(auto)]

mod case;

use crate::case::{Case, parse};
use algebra::limits::MOST_NODES;
use algebra::node::Node;
use kinds::clip::Clip;
use kinds::kind::Kind;
use kinds::note::Note;
use ledger::play::load;
use rack::rack::Rack;
use refusals::brief::Brief;
use refusals::refusal::Refusal;
use std::alloc::{AllocError, Global};
use std::fs;

// Loads a text at the one place of a fresh rack, and tells of it.
fn told<K: Kind>(nodes: &mut [Node<K>], text: &[u8]) -> Result<(u32, u32, u32), Refusal> {
    let mut rack = Rack::new(nodes);
    load(&mut rack, 0, text)?;
    rack.tell(0)
}

// What a text gives on a rack of a kind, in words.
fn answer<K: Kind>(alloc: Global, text: &[u8]) -> Result<String, AllocError> {
    let mut nodes: Vec<Node<K>> = vec![in alloc; Node::default(); MOST_NODES]?;
    match told(&mut nodes, text) {
        Ok((length, nodes, prims)) => format!(in alloc; "ok {length} {nodes} {prims}"),
        Err(refusal) => format!(in alloc; "{}", Brief(refusal)),
    }
}

// Whether the case's file gives what the table says; says what it gives where it does not.
fn holds(rt: &HostRuntime, case: Case<'_>) -> anyhow::Result<bool> {
    let mut text = fs::read(rt, case.file)?;
    if let Some(keep) = case.keep {
        text.truncate(keep);
    }
    let given = if case.kind == "clip" {
        answer::<Clip>(rt.alloc(), &text)?
    } else {
        answer::<Note>(rt.alloc(), &text)?
    };
    let right = given.as_str() == case.answer;
    if !right {
        println!(rt;
            "{} {}: {given}, and not {}",
            case.file,
            text.len(),
            case.answer
        )?;
    }
    Ok(right)
}

fn run(rt: &HostRuntime) -> anyhow::Result<()> {
    let table = fs::read_to_string(rt, "cases")?;
    let mut cases = 0u32;
    let mut wrong = 0u32;
    for line in table.lines() {
        if line.starts_with('#') {
            continue;
        }
        let Some(case) = parse(line) else {
            println!(rt; "no case: {line}")?;
            wrong = wrong.saturating_add(1);
            continue;
        };
        cases = cases.saturating_add(1);
        if !holds(rt, case)? {
            wrong = wrong.saturating_add(1);
        }
    }
    println!(rt; "{cases} cases, {wrong} wrong")?;
    Ok(())
}

fn main(rt: HostRuntime) -> anyhow::Result<()> {
    run(&rt)
}
