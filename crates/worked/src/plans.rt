// The rows of the planning table, "With δ = 10, ε = 3".
ghost use Rattle.std.specs.Prelude.{◌≤◌, length};

use network::{Link, NO_LINK, Plan};
use std::io;

pub(crate) fn rows(rt: &impl Print) -> io::Result<()> {
    row(rt, "ring of four, 1, 0", ring_of_four(1))?;
    row(rt, "ring of four, 2, 0", ring_of_four(2))?;
    row(rt, "cube, 0, 0", cube())
}

// The triangle that bears one faulty host.
pub(crate) fn triangle() -> Plan {
    plan(3, 1, &[(0, 1), (0, 2), (1, 2)])
}

fn ring_of_four(faulty_hosts: u8) -> Plan {
    plan(4, faulty_hosts, &[(0, 1), (1, 2), (2, 3), (0, 3)])
}

fn cube() -> Plan {
    let edges = [
        (0, 1),
        (0, 2),
        (0, 4),
        (1, 3),
        (1, 5),
        (2, 3),
        (2, 6),
        (3, 7),
        (4, 5),
        (4, 6),
        (5, 7),
        (6, 7),
    ];
    plan(8, 0, &edges)
}

fn plan(hosts: u8, faulty_hosts: u8, joined: &[(u8, u8)]) -> Plan
    requires { length joined.now ≤ 12 }
{
    let mut links = [NO_LINK; 12];
    for (link, &(a, b)) in links.iter_mut().zip(joined) {
        *link = Link { a, b };
    }
    Plan {
        hosts,
        faulty_hosts,
        link_count: joined.len() as u8,
        faulty_links: 0,
        delay: 10,
        skew: 3,
        links,
    }
}

fn row(rt: &impl Print, name: &str, p: Plan) -> io::Result<()> {
    print!(rt; "{name}: ")?;
    match network::planning::plan(p) {
        Ok(found) => {
            let (first, second) = (found.first.bound, found.second.bound);
            println!(rt; "d {}, bound {first} first, {second} second", found.d)
        }
        Err(refusal) => println!(rt; "refusal {}", u8::from(refusal)),
    }
}
