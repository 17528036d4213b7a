// Reads a schedule from standard input and writes the report of its replay to standard output.
#![tactic(auto)]

use report::report;
use std::io;
use std::io::Read;

fn main(rt: HostRuntime) -> io::Result<()> {
    // One byte more than the longest schedule, so that a longer file is seen to be too long.
    let mut bytes = [0u8; 8193];
    let read = io::copy(&mut rt.stdin().take(8193), &mut &mut bytes[..])?;
    // Enough for every report.
    let mut out = [0u8; 20480];
    if let Ok(count) = report(&bytes[..read.min(8193) as usize], &mut out) {
        rt.write_all(&out[..count])?;
    }
    Ok(())
}
