// Planning, on the worst plans known.
ghost use Rattle.std.specs.Prelude.{◌<◌};

use crate::networks::{cube, octahedron};
use crate::timing;
use network::planning::plan;
use network::{Bounds, Plan, PlanRefusal};
use std::io;
use std::time::CpuClock;

pub(crate) fn times(rt: &(impl Print + CpuClock), rounds: u64) -> io::Result<()> {
    let rows = [
        ("cube 0 0", cube(0, 0)),
        ("cube 1 1", cube(1, 1)),
        ("cube 2 0", cube(2, 0)),
        ("cube 0 2", cube(0, 2)),
        ("cube 6 12", cube(6, 12)),
        ("octahedron 1 2", octahedron(1, 2)),
        ("octahedron 2 1", octahedron(2, 1)),
        ("octahedron 3 0", octahedron(3, 0)),
        ("octahedron 0 3", octahedron(0, 3)),
        ("octahedron 0 4", octahedron(0, 4)),
        ("octahedron 2 2", octahedron(2, 2)),
        ("octahedron 4 12", octahedron(4, 12)),
    ];
    for (name, p) in rows {
        row(rt, name, p, rounds)?;
    }
    Ok(())
}

fn row(rt: &(impl Print + CpuClock), name: &str, p: Plan, rounds: u64) -> io::Result<()> {
    match plan(p) {
        Ok(found) => print!(rt; "{name}: d {}", found.d)?,
        Err(refusal) => print!(rt; "{name}: refused {}", u8::from(refusal))?,
    }
    timing::timed(rt, rounds, |round| found(p, round))
}

// With another delay in each round: no round's work is that of the round before.
fn found(p: Plan, round: u64) -> u64 {
    let delay = (1 + round % 64) as u8;
    bound(plan(Plan { delay, ..p }))
}

// The bound found, or the refusal's number.
fn bound(answer: Result<Bounds, PlanRefusal>) -> u64
    ensures { result < 65536 }
{
    match answer {
        Ok(found) => found.second.bound % 65536,
        Err(refusal) => u64::from(u8::from(refusal)),
    }
}
