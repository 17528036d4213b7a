// The networks of the table: the cube, whose hosts have three links each, and the octahedron, whose hosts have four.
use network::{Link, Plan};

// As in worked: no program can stand on another, and to share it would take one more library.
pub(crate) fn cube(faulty_hosts: u8, faulty_links: u8) -> Plan {
    let edges = [
        (0, 1),
        (0, 2),
        (0, 4),
        (1, 3),
        (1, 5),
        (2, 3),
        (2, 6),
        (3, 7),
        (4, 5),
        (4, 6),
        (5, 7),
        (6, 7),
    ];
    plan(8, faulty_hosts, faulty_links, edges)
}

pub(crate) fn octahedron(faulty_hosts: u8, faulty_links: u8) -> Plan {
    let edges = [
        (0, 1),
        (0, 2),
        (0, 3),
        (0, 4),
        (1, 2),
        (1, 3),
        (1, 5),
        (2, 4),
        (2, 5),
        (3, 4),
        (3, 5),
        (4, 5),
    ];
    plan(6, faulty_hosts, faulty_links, edges)
}

fn plan(hosts: u8, faulty_hosts: u8, faulty_links: u8, edges: [(u8, u8); 12]) -> Plan {
    Plan {
        hosts,
        faulty_hosts,
        link_count: 12,
        faulty_links,
        delay: 10,
        skew: 3,
        links: edges.map(|(a, b)| Link { a, b }),
    }
}
