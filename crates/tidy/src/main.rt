// Tidies a score file: reads it, puts it on a rack and writes it back.
#![tactic(auto)]

mod work;

use crate::work::tidy;
use anyhow::anyhow;
use std::{env, fs};

// The score file IN is read; what is written goes to OUT, or is shown.
fn run(rt: &HostRuntime) -> anyhow::Result<()> {
    let mut args = env::args(rt)?.skip(1);
    let Some(from) = args.next() else {
        return Err(anyhow!("usage: tidy IN [OUT]"));
    };
    let text = fs::read(rt, from.as_str()).map_err(|_| anyhow!("the file cannot be read"))?;
    let count = text.len();
    println!(rt; "read {from}: {count} bytes")?;
    tidy(rt, &text, args.next())
}

fn main(rt: HostRuntime) -> anyhow::Result<()> {
    run(&rt)
}
