// The networks that hosts are made for, by number.
use network::{Link, NO_LINK, Plan};

// The triangle (0), a pair (1), a ring of four that a host parts (2), the triangle with a link that repeats (3) or ends nowhere (4), with no delay
// (5), and with a place behind its links in use (6).
pub(crate) fn network(number: u8) -> Plan {
    let mut p = triangle();
    match number {
        1 => {
            p.hosts = 2;
            p.faulty_hosts = 0;
            p.link_count = 1;
        }
        2 => {
            p.hosts = 4;
            p.faulty_hosts = 2;
            p.link_count = 4;
            p.links[1] = Link { a: 1, b: 2 };
            p.links[2] = Link { a: 2, b: 3 };
            p.links[3] = Link { a: 0, b: 3 };
        }
        3 => p.links[1] = Link { a: 0, b: 1 },
        4 => p.links[1] = Link { a: 0, b: 3 },
        5 => p.delay = 0,
        6 => p.links[7] = Link { a: 3, b: 9 },
        _ => {}
    }
    p
}

// As in worked and network_cases: no program can stand on another, and to share it would take one more library.
fn triangle() -> Plan {
    let mut links = [NO_LINK; 12];
    links[0] = Link { a: 0, b: 1 };
    links[1] = Link { a: 0, b: 2 };
    links[2] = Link { a: 1, b: 2 };
    Plan {
        hosts: 3,
        faulty_hosts: 1,
        link_count: 3,
        faulty_links: 0,
        delay: 10,
        skew: 3,
        links,
    }
}
