// Schedules from standard input, each after its length in two bytes; the report of each, after a line with its number. incidents/make.py
// writes the input from the incidents, and what must come of them from their texts.
#![tactic(auto)]

use report::report;
use std::io;
use std::io::Read;

fn main(rt: HostRuntime) -> io::Result<()> {
    let mut buffer = [0u8; 65536];
    let n = io::copy(&mut rt.stdin().take(65536), &mut &mut buffer[..])?;
    each(&rt, &buffer[..n.min(65536) as usize])
}

// Cuts as schedule_cases does: no program can stand on another, and to share it would take one more library.
fn each(rt: &impl Print, bytes: &[u8]) -> io::Result<()> {
    let mut rest = bytes;
    // Each schedule has two bytes at least, so there are fewer of them than bytes.
    for k in 0..bytes.len() {
        if rest.is_empty() {
            break;
        }
        println!(rt; "incident {k}")?;
        let Some((schedule, after)) = first(rest) else {
            break;
        };
        replay(rt, schedule)?;
        rest = after;
    }
    Ok(())
}

// The schedule that stands first, and what comes after it.
fn first(bytes: &[u8]) -> Option<(&[u8], &[u8])> {
    let (length, rest) = bytes.split_first_chunk::<2>()?;
    rest.split_at_checked(usize::from(u16::from_be_bytes(*length)))
}

fn replay(rt: &impl Print, bytes: &[u8]) -> io::Result<()> {
    // Enough for every report.
    let mut out = [0u8; 20480];
    if let Ok(count) = report(bytes, &mut out) {
        rt.write_all(&out[..count])?;
    }
    Ok(())
}
