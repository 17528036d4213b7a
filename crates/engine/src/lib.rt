// The run of a schedule by the hosts' own calls, from any bytes.
#![tactic(auto)]

mod arriving;
mod clocks;
mod opening;
mod playing;
mod sending;
mod starting;
mod ticking;

ghost use Rattle.std.specs.Prelude.{◌≡◌};
ghost use Rattle.schedule.specs.Calls.{says, answered};
ghost use Rattle.engine.specs.Calls.{outcome_in, outcome_of};
ghost use Rattle.engine.specs.Inside.{InPlaces};

use clock::{Reading, Tick};
use host::{Held, Host};
use schedule::Refusal;

// An order delivered, and the reading that the host's clock showed.
#[derive(Clone, Copy)]
pub struct Delivery {
    pub at: Reading,
    pub what: Held,
}

// What a host has delivered, in order: the first `count` of the places, since there is no heap.
#[derive(Clone, Copy)]
pub struct Log {
    pub count: usize,
    pub entries: [Delivery; 16],
}

// A host's state, and what it has delivered.
#[derive(Clone, Copy)]
pub struct Station {
    pub host: Host,
    pub log: Log,
}

// The copies: the tick at which each arrives, by start, link and direction, with 0 for none under way, as `send` has it; and how
// many were sent.
#[derive(Clone, Copy)]
pub struct Post {
    pub arrivals: [Tick; 384],
    pub copies: usize,
}

// All that changes in a run. The definitions speak of it (`play`); the run keeps its parts, which its loops change one by one.
#[derive(Clone, Copy)]
pub struct World {
    pub stations: [Station; 8],
    pub post: Post,
    pub refusals: [u8; 16],
}

// What a run leaves: of the 16 starts the first `starts` are there, of the 8 hosts the first `hosts`, since there is no heap. No ghost field says so: the
// fields are public, and the clause `in_places` holds it.
#[derive(Clone, Copy)]
pub struct Outcome {
    pub bound: u64, // Δ
    pub hosts: u8, // n
    pub starts: usize,
    pub refusals: [u8; 16], // of each start, and 0 for none, as `outcome` has them
    pub logs: [Log; 8],
    pub copies: usize,
}

// The run of the schedule that the bytes are; or why they are none.
pub fn run(bytes: &[u8]) -> Result<Outcome, Refusal>
    ensures numbers { says result ≡ answered bytes.now }
    ensures outcome { outcome_in result ≡ outcome_of bytes.now }
    ensures in_places { InPlaces (outcome_in result) }
{
    let schedule = schedule::read(bytes)?;
    Ok(playing::play_all(&schedule))
}
