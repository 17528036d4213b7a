// A host: its state, and the calls that make it, start an order, receive a copy and deliver what is due, by value and over a lent state.
#![tactic(auto)]

mod checks;
mod entries;
mod history;
mod lent;
mod links;
mod making;
mod receiving;
mod sound;
mod starting;
mod starts;
mod stored;
mod ticking;
mod unused;
mod walks;

pub use checks::number_of;
use clock::Reading;
pub use entries::entry;
pub use lent::{receive, start, tick};
pub use making::{made, make};
use network::Plan;
use orders::Order;
pub use receiving::{after_receive, receive_answer};
pub use sound::{is_framed, is_sound};
pub use starting::{after_start, start_answer};
pub use starts::{newest, one_more, with_start};
pub use stored::Stored;
pub use ticking::{after_tick, is_idle, tick_answer};
pub use unused::NO_HELD;
pub use walks::{due_in_front, is_sound_in, look};

// An order under its name, which is its stamp and its source.
#[derive(Clone, Copy, Debug, PartialEq, Eq)]
pub struct Held {
    pub stamp: Reading, // T
    pub source: u8,
    pub order: Order,
}

// A host's state. There is no heap: of the four places for starts the first `started` are used, oldest first; of the 32 of the
// history the first `held`.
#[derive(Clone, Copy)]
pub struct Host {
    pub plan: Plan,
    pub rules: u8, // a number: make takes any, and refuses all but 1 and 2
    pub d: u8,
    pub bound: u64, // Δ
    pub own: u8,
    pub last: Reading,
    pub started: usize,
    pub starts: [Reading; 4],
    pub held: usize,
    pub history: [Held; 32],
}

// A state but for its history. Not a part of Host: Host's fields are public, and definitions name them there (`bare`).
#[derive(Clone, Copy)]
pub struct Frame {
    pub plan: Plan,
    pub rules: u8,
    pub d: u8,
    pub bound: u64, // Δ
    pub own: u8,
    pub last: Reading,
    pub started: usize,
    pub starts: [Reading; 4],
    pub held: usize,
}

// What a history holds under an order's name: the same order, another, any. Three flags, since of a history that is not sound both can hold.
#[derive(Clone, Copy)]
pub struct Seen {
    pub same: bool,
    pub other: bool,
    pub named: bool,
}

// Why a call was refused, under the build paper's number.
#[derive(Clone, Copy, Debug, PartialEq, Eq)]
pub enum Refusal {
    OutOfRange = 1, // a plan number is out of range
    BadLink = 2, // a link end is n or more, a ≥ b, or a pair repeats
    Parted = 3, // some fault set leaves survivors not connected
    Unsound = 9, // the lent state is not sound
    BadReading = 10, // U is out of range, or on a start above the largest stamp
    Behind = 11, // U is less than the last reading
    SameStart = 12, // a start at the reading of the last start
    WindowFull = 13, // the fourth last start lies less than W back
    HistoryFull = 14, // 32 orders are held
    NotInPlan = 15, // a host, own link or source that the plan lacks
    Early = 16, // second rules, U + hε ≤ T
    Late = 17, // second rules, U ≥ T + h(δ+ε)
    Past = 18, // U ≥ T + Δ
    Known = 19, // the same order is held under (T, source)
    OtherHeld = 20, // another order is held under (T, source)
    OwnNotHeld = 21, // the source is this host, and (T, source) is not held
    ShortBuffer = 22, // the lent buffer is too short for all that is due
    BadValue = 23, // a rule set other than 1 or 2, a stamp, hop or share out of range
}

// What an accepted start or copy is sent on: the links, bit i for link i of the plan, and the hop to send.
#[derive(Clone, Copy, Debug, PartialEq, Eq)]
pub struct Sent {
    pub links: u16,
    pub hop: u8,
}

// The state that a start or a received copy leaves, and what it is answered.
#[derive(Clone, Copy)]
pub struct Acted {
    pub host: Host,
    pub answer: Result<Sent, Refusal>,
}

// The state that a tick leaves, and how many entries it wrote.
#[derive(Clone, Copy)]
pub struct Ticked {
    pub host: Host,
    pub answer: Result<usize, Refusal>,
}
