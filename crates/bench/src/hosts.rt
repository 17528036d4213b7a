// A host's calls, each on a state that stays as it is, at a reading that changes from call to call.
ghost use Rattle.std.specs.Prelude.{◌<◌};

use crate::{networks, timing};
use clock::Reading;
use host::{Held, Host, Refusal, Sent};
use orders::Order;
use std::io;
use std::time::CpuClock;

// The octahedron's host 2, whose Δ is 33.
pub(crate) fn times(rt: &(impl Print + CpuClock), rounds: u64) -> io::Result<()> {
    match host::make(networks::octahedron(1, 0), 1, 2) {
        Ok(fresh) => calls(rt, fresh, rounds),
        Err(refusal) => println!(rt; "refused {}", u8::from(refusal)),
    }
}

fn calls(rt: &(impl Print + CpuClock), none: Host, rounds: u64) -> io::Result<()> {
    let one = with_halts(none, 1);
    let most = with_halts(none, 31);
    let full = with_halts(none, 32);
    sound(rt, "soundness, 0 held", none, rounds)?;
    sound(rt, "soundness, 32 held", full, rounds)?;
    tick(rt, "idle tick, 0 held", none, 1000, rounds)?;
    tick(rt, "idle tick, 32 held", full, 1000, rounds)?;
    tick(rt, "delivering tick, 1 held", one, 1100, rounds)?;
    tick(rt, "delivering tick, 32 held", full, 1100, rounds)?;
    start(rt, "start, 0 held", none, rounds)?;
    start(rt, "start, 31 held", most, rounds)?;
    receive(rt, "receive, 0 held", none, 995, rounds)?;
    receive(rt, "receive, 31 held", most, 995, rounds)?;
    receive(rt, "receive of a known copy, 32 held", full, 1000, rounds)?;
    receive(rt, "receive past the bound, 32 held", full, 900, rounds)
}

// So many halts received at reading 1000, under the stamps from 1000 on.
fn with_halts(fresh: Host, count: u64) -> Host {
    let mut h = fresh;
    for i in 0..count {
        let received = host::after_receive(h, Reading(1000), 1, 0, halt(1000 + i % 32));
        h = received.host;
    }
    h
}

fn halt(stamp: u64) -> Held {
    Held {
        stamp: Reading(stamp),
        source: 0,
        order: Order::Halt(7),
    }
}

fn sound(rt: &(impl Print + CpuClock), name: &str, h: Host, rounds: u64) -> io::Result<()> {
    print!(rt; "{name}")?;
    if host::is_sound(h) {
        print!(rt; ": sound")?;
    }
    let mut g = h;
    timing::timed(rt, rounds, |round| {
        g.last = near(1000, round);
        u64::from(host::is_sound(g))
    })
}

fn tick(rt: &(impl Print + CpuClock), name: &str, h: Host, u: u64, rounds: u64) -> io::Result<()> {
    let mut out = [0u8; 512];
    let told = host::after_tick(h, Reading(u), &mut out).answer;
    print!(rt; "{name}: delivers {}", delivered(told))?;
    timing::timed(rt, rounds, |round| tick_once(h, near(u, round), &mut out))
}

fn tick_once(h: Host, u: Reading, out: &mut [u8]) -> u64
    ensures { result < 65537 }
{
    let ticked = host::after_tick(h, u, out);
    delivered(ticked.answer) + odd(ticked.host.last)
}

fn start(rt: &(impl Print + CpuClock), name: &str, h: Host, rounds: u64) -> io::Result<()> {
    print!(rt; "{name}")?;
    show(
        rt,
        host::after_start(h, Reading(1000), Order::Halt(7)).answer,
    )?;
    timing::timed(rt, rounds, |round| start_once(h, near(1000, round)))
}

fn start_once(h: Host, u: Reading) -> u64
    ensures { result < 65537 }
{
    let started = host::after_start(h, u, Order::Halt(7));
    sent(started.answer) + odd(started.host.last)
}

fn receive(
    rt: &(impl Print + CpuClock),
    name: &str,
    h: Host,
    stamp: u64,
    rounds: u64,
) -> io::Result<()> {
    print!(rt; "{name}")?;
    show(
        rt,
        host::after_receive(h, Reading(1000), 1, 0, halt(stamp)).answer,
    )?;
    timing::timed(rt, rounds, |round| {
        receive_once(h, halt(near(stamp, round).0))
    })
}

fn receive_once(h: Host, copy: Held) -> u64
    ensures { result < 65537 }
{
    let received = host::after_receive(h, Reading(1000), 1, 0, copy);
    sent(received.answer) + odd(received.host.last)
}

// One of four readings in turn.
fn near(u: u64, round: u64) -> Reading {
    Reading(u % 1_000_000 + round % 4)
}

// What the state made adds to the sum, so that it is made.
fn odd(last: Reading) -> u64
    ensures { result < 2 }
{
    last.0 % 2
}

fn delivered(answer: Result<usize, Refusal>) -> u64
    ensures { result < 65536 }
{
    (answer.unwrap_or(0) % 65536) as u64
}

fn sent(answer: Result<Sent, Refusal>) -> u64
    ensures { result < 65536 }
{
    answer.map_or(0, |sent| u64::from(sent.links))
}

fn show(rt: &impl Print, answer: Result<Sent, Refusal>) -> io::Result<()> {
    match answer {
        Ok(sent) => print!(rt; ": sends on the set {}", sent.links),
        Err(refusal) => print!(rt; ": refused {}", u8::from(refusal)),
    }
}
