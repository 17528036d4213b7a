// Planning of a network: which plans are refused, and for the others the largest diameter that a fault set leaves, with the bounds made of it.
#![tactic(auto)]

mod pairs;
pub mod planning;
mod proper;
mod reach;
mod rules;
mod sets;
mod worst;

pub use proper::is_proper;
pub use reach::{link_of, link_survives};
pub use rules::{bound, window};
pub use sets::is_in;

// A link joins two hosts, a < b.
#[repr(C)]
#[derive(Clone, Copy, Debug, PartialEq, Eq)]
pub struct Link {
    pub a: u8,
    pub b: u8,
}

// What a place past the last holds.
pub const NO_LINK: Link = Link { a: 0, b: 0 };

// The network, and what it is planned to bear. Of the 12 places the first `link_count` hold links (no heap: places and a count); planning does
// not look at the others.
#[repr(C)]
#[derive(Clone, Copy)]
pub struct Plan {
    pub hosts: u8, // n
    pub faulty_hosts: u8, // π
    pub link_count: u8, // m
    pub faulty_links: u8, // L
    pub delay: u8, // δ
    pub skew: u8, // ε
    pub links: [Link; 12],
}

// The plan that is zero everywhere.
pub const NO_PLAN: Plan = Plan {
    hosts: 0,
    faulty_hosts: 0,
    link_count: 0,
    faulty_links: 0,
    delay: 0,
    skew: 0,
    links: [NO_LINK; 12],
};

// A fault set: a set of hosts and a set of links, each a number with bit i for host or link i.
#[derive(Clone, Copy)]
pub struct Faults {
    pub hosts: u32,
    pub links: u32,
}

// What a rule set promises of a network: the bound Δ on delivery, and the starting window W.
#[repr(C)]
#[derive(Clone, Copy)]
pub struct Timing {
    pub bound: u64,
    pub window: u64,
}

// What planning finds: the largest diameter d over all fault sets, and the two rule sets' timing.
#[derive(Clone, Copy)]
pub struct Bounds {
    pub d: u8,
    pub first: Timing,
    pub second: Timing,
}

// Why a plan is refused, under the build paper's number, in the order of check.
#[derive(Clone, Copy, Debug, PartialEq, Eq)]
pub enum PlanRefusal {
    OutOfRange = 1, // a plan number is out of range
    BadLink = 2, // a link end is n or more, a ≥ b, or a pair repeats
    Parted = 3, // some fault set leaves survivors not connected
}
