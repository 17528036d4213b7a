// Calls drawn from a seed, close enough to one another that every answer comes often.
ghost use Rattle.std.specs.Prelude.{◌<◌, ◌≤◌};

use crate::calls::{Call, run, zero};
use clock::Reading;
use host::Held;
use orders::order_of;
use std::io;

pub(crate) fn many(rt: &impl Print, seed: u64, rules: u8, count: u64) -> io::Result<()> {
    let mut host = zero();
    let begin = Call::Make {
        network: 0,
        rules,
        own: 1,
    };
    run(rt, &mut host, begin)?;
    let mut s = seed;
    for _ in 0..count {
        let call = drawn(s, host.last.0, rules);
        run(rt, &mut host, call)?;
        s = after(s, 12);
    }
    Ok(())
}

// A call at a reading near the last one, of an order with a stamp near it.
fn drawn(seed: u64, last: u64, rules: u8) -> Call {
    let now = last % 1_000_000 + draw(seed, 1, 7);
    let u = Reading(now);
    let stamp = near(now + draw(seed, 5, 48));
    let image = draw(seed, 8, 3) as u32;
    let order = order_of(1 + small(seed, 7, 4), image, small(seed, 9, 103));
    match draw(seed, 2, 3) {
        0 => Call::Start { u, order },
        1 => Call::Receive {
            u,
            arrival: small(seed, 3, 4),
            hop: hop(rules, small(seed, 4, 10)),
            copy: Held {
                stamp: Reading(stamp),
                source: small(seed, 6, 4),
                order,
            },
        },
        _ => Call::Tick {
            u,
            room: (stamp % 601) as usize,
        },
    }
}

fn near(far: u64) -> u64 {
    far.saturating_sub(30) / 8 * 8
}

// Under the first rules most hops are 0.
fn hop(rules: u8, drawn: u8) -> u8 {
    if rules == 1 { drawn / 9 } else { drawn }
}

fn small(seed: u64, k: u64, n: u64) -> u8
    requires { (0 < n) × (n ≤ 256) }
    ensures { result < n }
{
    draw(seed, k, n) as u8
}

// The k-th draw from a seed, below n.
fn draw(seed: u64, k: u64, n: u64) -> u64
    requires { 0 < n }
    ensures { result < n }
{
    after(seed, k) / 64 % n
}

// The seed k steps on.
fn after(seed: u64, k: u64) -> u64 {
    (0..k).fold(seed, |s, _| (s % 65536 * 25173 + 13849) % 65536)
}
