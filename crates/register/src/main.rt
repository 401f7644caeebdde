// Reads a parcel of paragraphs from standard input, and prints how many messages and notes it has, or why it is refused.
#![tactic(auto)]

use std::io::Read;
use summary::summarize;

// What lies beyond is left unread.
const INPUT_LIMIT: u64 = 60_000;

fn run(rt: &HostRuntime) -> anyhow::Result<()> {
    let mut input = Vec::new(rt.alloc());
    rt.stdin().take(INPUT_LIMIT).read_to_end(&mut input)?;
    let line = summarize(rt.alloc(), input.as_slice())?;
    rt.print(line.as_str())?;
    Ok(())
}

fn main(rt: HostRuntime) -> anyhow::Result<()> {
    run(&rt)
}
