// The calls that a service makes, over a state that is lent to them, and what sets a part of that state.
use crate::networks::network;
use crate::show;
use clock::Reading;
use host::{Held, Host};
use network::Link;
use orders::Order;
use std::io;

// What is asked of the host, or done to its state.
#[derive(Clone, Copy)]
pub(crate) enum Call {
    Make {
        network: u8,
        rules: u8,
        own: u8,
    },
    Start {
        u: Reading,
        order: Order,
    },
    Receive {
        u: Reading,
        arrival: u8,
        hop: u8,
        copy: Held,
    },
    Tick {
        u: Reading,
        room: usize,
    },
    Set(Part),
    Fill(u64),
}

// A part of the state, and what it is set to; of an array, the place too.
#[derive(Clone, Copy)]
pub(crate) enum Part {
    D(u8),
    Bound(u64),
    Own(u8),
    Rules(u8),
    Last(Reading),
    Started(usize),
    HeldCount(usize),
    Start(usize, Reading),
    Entry(usize, Held),
    Joined(usize, Link),
    Skew(u8),
}

// Makes the call, and prints its answer and the state after it.
pub(crate) fn run(rt: &impl Print, host: &mut Host, call: Call) -> io::Result<()> {
    match call {
        Call::Make {
            network: number,
            rules,
            own,
        } => {
            let made = host::make(network(number), rules, own);
            *host = host::made(made);
            show::made(rt, made, host)
        }
        Call::Start { u, order } => {
            let answer = host::start(host, u, order);
            show::sent(rt, "start", answer, host)
        }
        Call::Receive {
            u,
            arrival,
            hop,
            copy,
        } => {
            let answer = host::receive(host, u, arrival, hop, copy);
            show::sent(rt, "receive", answer, host)
        }
        Call::Tick { u, room } => {
            let mut out = [255; 600];
            let answer = host::tick(host, u, &mut out[..room.min(600)]);
            show::ticked(rt, answer, &out, host)
        }
        Call::Set(part) => {
            set(host, part);
            Ok(())
        }
        Call::Fill(count) => {
            fill(host, count);
            Ok(())
        }
    }
}

fn set(host: &mut Host, part: Part) {
    match part {
        Part::D(d) => host.d = d,
        Part::Bound(bound) => host.bound = bound,
        Part::Own(own) => host.own = own,
        Part::Rules(rules) => host.rules = rules,
        Part::Last(last) => host.last = last,
        Part::Started(started) => host.started = started,
        Part::HeldCount(held) => host.held = held,
        Part::Start(at, start) => host.starts[at % 4] = start,
        Part::Entry(at, entry) => host.history[at % 32] = entry,
        Part::Joined(at, link) => host.plan.links[at % 12] = link,
        Part::Skew(skew) => host.plan.skew = skew,
    }
}

// So many halts received at 1000, with stamps from there on.
fn fill(host: &mut Host, count: u64) {
    for i in 0..count {
        let copy = Held {
            stamp: Reading(1000 + i % 40),
            source: 0,
            order: Order::Halt(7),
        };
        _ = host::receive(host, Reading(1000), 0, 1, copy);
    }
}

// The zero state, as a refused making gives it.
pub(crate) fn zero() -> Host {
    host::made(host::make(network(5), 0, 0))
}
