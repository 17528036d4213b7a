// Schedules from standard input, each after its length in two bytes; a line for each answer. checks/schedule.py, which reads 01 on its own,
// writes the input and works out what the lines should be.
#![tactic(auto)]

mod show;

use std::io;
use std::io::Read;

fn main(rt: HostRuntime) -> io::Result<()> {
    let mut buffer = [0u8; 65536];
    let n = io::copy(&mut rt.stdin().take(65536), &mut &mut buffer[..])?;
    each(&rt, &buffer[..n.min(65536) as usize])
}

// Shows the answer for each schedule, up to one that is cut short.
fn each(rt: &impl Print, bytes: &[u8]) -> io::Result<()> {
    let mut rest = bytes;
    while let Some((length, after)) = rest.split_first_chunk::<2>() {
        let size = u16::from_be_bytes(*length) as usize;
        let Some((schedule, after)) = after.split_at_checked(size) else {
            return Ok(());
        };
        show::found(rt, schedule::read(schedule))?;
        rest = after;
    }
    Ok(())
}
