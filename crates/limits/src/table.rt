// The cases that were tried, and how many of them gave another answer than the table says.
use algebra::limits::MOST_NODES;
use algebra::node::Node;
use kinds::note::Note;
use ledger::call::{Call, Reply};
use ledger::play::make_call;
use rack::rack::Rack;
use refusals::brief::Brief;
use refusals::refusal::Refusal;
use render::roll::Roll;
use std::alloc::{AllocError, Global};

// The nodes of a rack of 8 places.
const NODES: usize = 8 * MOST_NODES;

// How many cases were tried, and how many were wrong.
#[derive(Drop)]
pub struct Table<'a> {
    rt: &'a HostRuntime,
    cases: u32,
    wrong: u32,
}

// An answer in words.
fn worded(alloc: Global, answer: Result<Reply, Refusal>) -> Result<String, AllocError> {
    match answer {
        Ok(
            Reply::Told {
                length,
                nodes,
                primitives,
            },
        ) => format!(in alloc; "ok {length} {nodes} {primitives}"),
        Ok(_) => format!(in alloc; "ok"),
        Err(refusal) => format!(in alloc; "{}", Brief(refusal)),
    }
}

// Makes calls one after the other: the reply of the last, or the first refusal.
fn play(rack: &mut Rack<'_, Note>, calls: &[Call<'_>]) -> Result<Reply, Refusal> {
    let mut reply = Reply::Done;
    for call in calls {
        reply = make_call(rack, *call, &mut [], &mut Roll::new(&mut []))?;
    }
    Ok(reply)
}

// What calls on a fresh rack answer, behind others that are to be carried out.
fn answer(
    nodes: &mut [Node<Note>],
    before: &[Call<'_>],
    calls: &[Call<'_>],
) -> Result<Reply, Refusal> {
    let mut rack = Rack::new(nodes);
    play(&mut rack, before)?;
    play(&mut rack, calls)
}

// Says that a case gives another answer than the right one.
fn say_wrong(rt: &HostRuntime, name: &str, given: &str, right: &str) -> anyhow::Result<()> {
    println!(rt; "{name}: {given}, and not {right}")?;
    Ok(())
}

// Whether a case gives what the table says; says what it gives where it does not.
fn holds(
    rt: &HostRuntime,
    name: &str,
    before: &[Call<'_>],
    calls: &[Call<'_>],
    right: &str,
) -> anyhow::Result<bool> {
    let mut nodes: Vec<Node<Note>> = vec![in rt.alloc(); Node::default(); NODES]?;
    let given = worded(rt.alloc(), answer(&mut nodes, before, calls))?;
    let same = given.as_str() == right;
    if !same {
        say_wrong(rt, name, &given, right)?;
    }
    Ok(same)
}

impl<'a> Table<'a> {
    // No case yet.
    pub fn new(rt: &'a HostRuntime) -> Table<'a> {
        Table {
            rt,
            cases: 0,
            wrong: 0,
        }
    }

    // Tries a case: what the last of some calls answers on a fresh rack, behind others. It is wrong too where it cannot be tried.
    pub fn case(&mut self, name: &str, before: &[Call<'_>], calls: &[Call<'_>], right: &str) {
        self.cases = self.cases.saturating_add(1);
        match holds(self.rt, name, before, calls, right) {
            Ok(true) => {}
            _ => self.wrong = self.wrong.saturating_add(1),
        }
    }

    // Says how many cases there were, and how many were wrong.
    pub fn close(&self) -> anyhow::Result<()> {
        println!(self.rt; "{} cases, {} wrong", self.cases, self.wrong)?;
        Ok(())
    }
}
