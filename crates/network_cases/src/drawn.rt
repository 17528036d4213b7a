// Plans drawn from a fixed seed: a ring of hosts with chords over one host, and few faults, so that each answer comes often.
ghost use Rattle.std.specs.Prelude.{◌<◌, ◌≤◌};

use network::{Link, Plan};
use std::{array, io};

pub(crate) fn many(rt: &impl Print, count: u64) -> io::Result<()> {
    let mut seed: u64 = 2026;
    for _ in 0..count {
        crate::answer(rt, drawn(seed))?;
        seed = after(seed, 8);
    }
    Ok(())
}

// The plan of a seed: each number takes the next draw.
fn drawn(seed: u64) -> Plan {
    let hosts = 2 + draw(seed, 1, 7);
    Plan {
        hosts,
        faulty_hosts: draw(seed, 2, 4),
        link_count: hosts - 1 + draw(seed, 3, 14 - hosts),
        faulty_links: draw(seed, 4, 3),
        delay: 1 + draw(seed, 5, 64),
        skew: 1 + draw(seed, 6, 64),
        links: pairs(seed, hosts),
    }
}

fn pairs(seed: u64, hosts: u8) -> [Link; 12]
    requires { (2 ≤ hosts) × (hosts ≤ 9) }
{
    array::from_fn(|i| place(seed, hosts, i as u8))
}

// Link i: of the ring, or a chord over one host, which repeats another link where there are few hosts.
fn place(seed: u64, hosts: u8, i: u8) -> Link
    requires le_hosts { (2 ≤ hosts) × (hosts ≤ 9) }
    requires i_bound { i < 12 }
{
    if i + 1 < hosts {
        return joined(i, i + 1);
    }
    if i + 1 == hosts {
        return joined(0, i);
    }
    let from = i + draw(seed, 7, hosts);
    joined(from % hosts, (from + 2) % hosts)
}

fn joined(a: u8, b: u8) -> Link {
    Link {
        a: a.min(b),
        b: a.max(b),
    }
}

// The k-th draw after a seed, below a limit; 0 where the limit is 0.
fn draw(seed: u64, k: u64, limit: u8) -> u8
    ensures { result ≤ limit }
{
    if limit == 0 {
        return 0;
    }
    (after(seed, k) / 65536 % u64::from(limit)) as u8
}

// The seed k draws on.
fn after(seed: u64, k: u64) -> u64 {
    (0..k).fold(seed, |s, _| next(s))
}

// As in board_cases: no program can stand on another, and to share it would take one more library.
fn next(seed: u64) -> u64 {
    (seed % 2147483648 * 1103515245 + 12345) % 2147483648
}
