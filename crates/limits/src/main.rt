// Plays calls at the limits of a rack of notes, and compares each answer with what the rules say.
#![tactic(auto)]

mod call;
mod counts;
mod lengths;
mod places;
mod steps;
mod table;

use crate::table::Table;

fn run(rt: &HostRuntime) -> anyhow::Result<()> {
    let mut table = Table::new(rt);
    counts::nodes(&mut table);
    counts::joined_nodes(&mut table);
    counts::stepped_nodes(&mut table);
    counts::reversed_nodes(&mut table);
    counts::primitives(&mut table);
    counts::lines(&mut table);
    lengths::joins(&mut table);
    lengths::rests(&mut table);
    lengths::cuts(&mut table);
    places::unknown(&mut table);
    places::empty(&mut table);
    places::full(&mut table);
    places::order(&mut table);
    steps::values(&mut table);
    steps::fits(&mut table);
    steps::splits(&mut table);
    table.close()
}

fn main(rt: HostRuntime) -> anyhow::Result<()> {
    run(&rt)
}
