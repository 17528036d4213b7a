// A line for each answer.
use host::{Host, Refusal, Sent};
use std::io;

pub(crate) fn made(rt: &impl Print, answer: Result<Host, Refusal>, host: &Host) -> io::Result<()> {
    match answer {
        Ok(_) => print!(rt; "make {} {}", host.d, host.bound)?,
        Err(refusal) => refused(rt, "make", refusal)?,
    }
    state(rt, host)
}

pub(crate) fn sent(
    rt: &impl Print,
    call: &str,
    answer: Result<Sent, Refusal>,
    host: &Host,
) -> io::Result<()> {
    match answer {
        Ok(sent) => print!(rt; "{call} {} {}", sent.links, sent.hop)?,
        Err(refusal) => refused(rt, call, refusal)?,
    }
    state(rt, host)
}

// The bytes lent, up to the first that no entry has.
pub(crate) fn ticked(
    rt: &impl Print,
    answer: Result<usize, Refusal>,
    out: &[u8; 600],
    host: &Host,
) -> io::Result<()> {
    match answer {
        Ok(count) => {
            print!(rt; "tick {count}:")?;
            for byte in out.chunks(16).take(count).flatten() {
                print!(rt; " {byte}")?;
            }
        }
        Err(refusal) => refused(rt, "tick", refusal)?,
    }
    state(rt, host)
}

fn refused(rt: &impl Print, call: &str, refusal: Refusal) -> io::Result<()> {
    print!(rt; "{call} refused {}", u8::from(refusal))
}

fn state(rt: &impl Print, host: &Host) -> io::Result<()> {
    println!(rt; ", {} {} {}", host.held, host.started, host.last.0)
}
