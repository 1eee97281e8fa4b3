// The desk as a program: reads a file of calls from standard input, and writes the answers to standard output.
#![tactic(auto)]

use std::io::{Read, Write};

fn main(rt: HostRuntime) -> anyhow::Result<()> {
    let heap = rt.alloc();
    let mut file = Vec::new(heap);
    rt.stdin().read_to_end(&mut file)?;
    let out = transcript::answer_file(heap, file.as_slice())?;
    rt.stdout().write_all(out.as_slice())?;
    Ok(())
}
