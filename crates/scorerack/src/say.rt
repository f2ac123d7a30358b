// What a call answers, in words.
use ledger::call::Reply;
use refusals::brief::Brief;
use refusals::refusal::Refusal;

// Says what a call answered, or why it was refused.
pub fn say(rt: &HostRuntime, answer: Result<Reply, Refusal>) -> anyhow::Result<()> {
    match answer {
        Ok(Reply::Done) => println!(rt; "ok")?,
        Ok(
            Reply::Told {
                length,
                nodes,
                primitives,
            },
        ) => println!(rt; "length={length} nodes={nodes} prims={primitives}")?,
        Ok(Reply::Compared(comparison)) => println!(rt; "{comparison}")?,
        Ok(Reply::Wrote(bytes)) => println!(rt; "bytes={bytes}")?,
        Err(refusal) => println!(rt; "{}", Brief(refusal))?,
    }
    Ok(())
}
