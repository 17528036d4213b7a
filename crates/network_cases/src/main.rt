// Plans at the edges of each refusal, one beside each edge, and plans drawn from a fixed seed; a line for the answer to each.
// What the lines should be is worked out by checks/network.py, which reads 01 on its own.
#![tactic(auto)]

ghost use Rattle.std.specs.Prelude.{◌<◌};

mod drawn;

use network::planning::plan;
use network::{Link, NO_LINK, Plan};
use std::io;

fn main(rt: HostRuntime) -> io::Result<()> {
    numbers(&rt, triangle())?;
    faults(&rt, triangle())?;
    links(&rt, triangle())?;
    drawn::many(&rt, 400)
}

// Refusal 1, number by number.
fn numbers(rt: &impl Print, p: Plan) -> io::Result<()> {
    for (hosts, faulty_hosts) in [(0, 255), (1, 255), (9, 0)] {
        answer(
            rt,
            Plan {
                hosts,
                faulty_hosts,
                ..p
            },
        )?;
    }
    for link_count in [0, 13, 255] {
        answer(rt, Plan { link_count, ..p })?;
    }
    for size in [0, 1, 64, 65, 255] {
        answer(rt, Plan { delay: size, ..p })?;
        answer(rt, Plan { skew: size, ..p })?;
    }
    Ok(())
}

// The planned numbers of faults: out of range, parting, and borne.
fn faults(rt: &impl Print, p: Plan) -> io::Result<()> {
    for (faulty_hosts, faulty_links) in [(2, 0), (1, 0), (0, 1), (0, 2), (0, 12), (0, 13)] {
        answer(
            rt,
            Plan {
                faulty_hosts,
                faulty_links,
                ..p
            },
        )?;
    }
    Ok(())
}

// Refusal 2, which comes after 1 and before 3; and a place that is not used.
fn links(rt: &impl Print, p: Plan) -> io::Result<()> {
    for (a, b) in [(0, 3), (3, 4), (2, 0), (1, 1), (0, 1)] {
        answer(rt, with_link(p, 1, Link { a, b }))?;
    }
    let twice = with_link(p, 1, Link { a: 0, b: 1 });
    answer(rt, Plan { skew: 0, ..twice })?;
    let again = with_link(p, 2, Link { a: 0, b: 2 });
    answer(
        rt,
        Plan {
            faulty_hosts: 1,
            ..again
        },
    )?;
    let behind = with_link(p, 5, Link { a: 9, b: 9 });
    answer(rt, behind)?;
    answer(
        rt,
        Plan {
            link_count: 2,
            ..behind
        },
    )
}

fn with_link(p: Plan, at: usize, link: Link) -> Plan
    requires { at < 12 }
{
    let mut q = p;
    q.links[at] = link;
    q
}

// As in worked and host_cases: no program can stand on another, and to share it would take one more library.
fn triangle() -> Plan {
    let mut links = [NO_LINK; 12];
    links[0] = Link { a: 0, b: 1 };
    links[1] = Link { a: 0, b: 2 };
    links[2] = Link { a: 1, b: 2 };
    Plan {
        hosts: 3,
        faulty_hosts: 0,
        link_count: 3,
        faulty_links: 0,
        delay: 10,
        skew: 3,
        links,
    }
}

// The refusal, or d and each rule set's bound and window.
pub(crate) fn answer(rt: &impl Print, p: Plan) -> io::Result<()> {
    match plan(p) {
        Ok(found) => {
            let (d, first, second) = (found.d, found.first, found.second);
            println!(rt;
                "d {d}, {} {}, {} {}",
                first.bound, first.window, second.bound, second.window
            )
        }
        Err(refusal) => println!(rt; "refused {}", u8::from(refusal)),
    }
}
