// What reading answers as a line: the refusal, or the schedule with every copy whose delay is not 1.
use network::{Link, Plan};
use schedule::{Refusal, Schedule, Start};
use std::io;

pub(crate) fn found(rt: &impl Print, f: Result<Schedule, Refusal>) -> io::Result<()> {
    match f {
        Ok(s) => accepted(rt, s)?,
        Err(refusal) => refused(rt, refusal)?,
    }
    println!(rt)
}

fn refused(rt: &impl Print, refusal: Refusal) -> io::Result<()> {
    print!(rt; "refused")?;
    number(rt, u64::from(u8::from(refusal)))?;
    if let Refusal::OutsideRules(index) = refusal {
        number(rt, index as u64)?;
    }
    Ok(())
}

fn number(rt: &impl Print, n: u64) -> io::Result<()> {
    print!(rt; " {n}")
}

fn accepted(rt: &impl Print, s: Schedule) -> io::Result<()> {
    let p = s.plan;
    let first = s.bounds.first;
    let all = s.starts;
    let waits = s.delays;
    let set = s.offsets;
    plan(rt, p)?;
    print!(rt; " d")?;
    number(rt, s.bounds.d as u64)?;
    number(rt, first.bound)?;
    number(rt, first.window)?;
    print!(rt; " faults")?;
    number(rt, s.faults.hosts as u64)?;
    number(rt, s.faults.links as u64)?;
    offsets(rt, set)?;
    print!(rt; " end")?;
    number(rt, s.end.0)?;
    starts(rt, all, s.start_count)?;
    delays(rt, waits)
}

fn plan(rt: &impl Print, p: Plan) -> io::Result<()> {
    let pairs = p.links;
    print!(rt; "plan")?;
    number(rt, p.hosts as u64)?;
    number(rt, p.faulty_hosts as u64)?;
    number(rt, p.faulty_links as u64)?;
    number(rt, p.delay as u64)?;
    number(rt, p.skew as u64)?;
    print!(rt; " links")?;
    number(rt, p.link_count as u64)?;
    links(rt, pairs)
}

fn links(rt: &impl Print, pairs: [Link; 12]) -> io::Result<()> {
    for l in pairs {
        number(rt, l.a as u64)?;
        number(rt, l.b as u64)?;
    }
    Ok(())
}

fn offsets(rt: &impl Print, set: [u8; 8]) -> io::Result<()> {
    print!(rt; " offsets")?;
    for x in set {
        number(rt, x as u64)?;
    }
    Ok(())
}

fn starts(rt: &impl Print, all: [Start; 16], count: usize) -> io::Result<()> {
    print!(rt; " starts")?;
    number(rt, count as u64)?;
    for s in all {
        start(rt, s)?;
    }
    Ok(())
}

// A start in use, or one that is not zero.
fn start(rt: &impl Print, s: Start) -> io::Result<()> {
    let order = s.order;
    let share = orders::share(order) as u64;
    if orders::share_fits(order) {
        number(rt, s.tick.0)?;
        number(rt, s.host as u64)?;
        number(rt, orders::kind(order) as u64)?;
        number(rt, orders::image(order) as u64)?;
        number(rt, share)?;
    }
    Ok(())
}

fn delays(rt: &impl Print, all: [u8; 384]) -> io::Result<()> {
    print!(rt; " delays")?;
    for (i, x) in all.iter().enumerate() {
        if *x != 1 {
            number(rt, i as u64)?;
            number(rt, *x as u64)?;
        }
    }
    Ok(())
}
