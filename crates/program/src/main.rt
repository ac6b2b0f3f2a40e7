//! Reads a chart file from standard input and writes the report on it to standard output.
#![tactic(auto)]

mod fault_line;
mod page;
mod report;

use reader::file::MOST_BYTES;
use report::report;
use std::io::Read;

/// One byte more than a file may have, so that a longer one is seen to be too long.
const MOST_READ: u64 = MOST_BYTES as u64 + 1;

fn main(rt: HostRuntime) -> anyhow::Result<()> {
    let heap = rt.alloc();
    let mut bytes = Vec::new(heap);
    rt.stdin().take(MOST_READ).read_to_end(&mut bytes)?;
    let text = report(heap, &bytes)?;
    rt.print(text)?;
    Ok(())
}
