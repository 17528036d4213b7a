// The door for a service that is not written in Rattle: the calls that `service_c` exports, over flat memory, which holds no enum and no reference.
// A host's calls and a board's work on that memory itself, by the host's and the board's own rules.
// Every byte of the memory is some field's, and any bytes are allowed: what is not the memory of a sound state is refused 9.
#![tactic(auto)]

mod answers;
mod boards;
mod calls;
mod changes;
pub mod exports;
mod frames;
mod memory;
pub mod messages;
mod numbers;
mod orders_in;
mod stands;
mod stored;

use clock::Reading;
use network::{Plan, Timing};

// A place of the history: all zero where it is unused. An order is numbers here, as C has no enum with values.
#[repr(C)]
#[derive(Clone, Copy)]
pub struct HeldMemory {
    pub stamp: Reading, // T
    pub image: u32,
    pub source: u8,
    pub kind: u8, // 1 publish, 2 halt, 3 resume, 4 withdraw
    pub share: u16, // 1..100 of a publish, else 0
}

const NO_HELD: HeldMemory = HeldMemory {
    stamp: Reading(0),
    image: 0,
    source: 0,
    kind: 0,
    share: 0,
};

// A host's state.
#[repr(C)]
#[derive(Clone, Copy)]
pub struct HostMemory {
    pub bound: u64, // Δ
    pub last: Reading,
    pub own: u64,
    pub started: usize,
    pub held: usize,
    pub starts: [Reading; 4],
    pub history: [HeldMemory; 32],
    pub plan: Plan,
    pub rules: u8,
    pub d: u8,
}

// A place of a board: all zero where it is unused. A stand is numbers here, as C has no enum with values.
#[repr(C)]
#[derive(Clone, Copy)]
pub struct PlaceMemory {
    pub image: u32,
    pub stand: u16, // 1 offered, 2 halted
    pub share: u16,
}

#[repr(C)]
#[derive(Clone, Copy)]
pub struct BoardMemory {
    pub count: usize,
    pub places: [PlaceMemory; 16],
}

// A plan, and what planning finds of it.
#[repr(C)]
#[derive(Clone, Copy)]
pub struct PlanMemory {
    pub first: Timing,
    pub second: Timing,
    pub plan: Plan,
    pub d: u16,
}
