// Copies arrive, by start, link and direction.
ghost use Rattle.std.specs.Prelude.{◌≡◌, ◌&&◌, ◌≤◌, ◌<◌, ltb, eqb};
ghost use Rattle.host.specs.Answers.{says};
ghost use Rattle.host.specs.Receive.{receive_says, receive_host};
ghost use Rattle.engine.specs.Parts.{clock, order, start_of, link_of, receiver};
ghost use Rattle.engine.specs.Inside.{Playable, with_host};

use crate::Station;
use crate::clocks::{clock_of, order_of};
use clock::Tick;
use host::{Refusal, Sent};
use schedule::Schedule;

// The copy at place c is handed to host q. Not inlined: few places have a copy at a tick, and the loop over all
// is faster without it.
#[inline(never)]
pub(crate) fn hand(
    s: &Schedule,
    t: Tick,
    c: usize,
    q: u8,
    station: &mut Station,
) -> Result<Sent, Refusal>
    requires { Playable s.now × (t.0 ≤ 65_535) × (c < 384) × (q < 8) }
    ensures left { station.new ≡ with_host station.old (receive_host station.old.host (clock s.now t q) (link_of c) 0 (order s.now (start_of c))) }
    ensures answer { says result ≡ receive_says station.old.host (clock s.now t q).0 (link_of c) 0 (order s.now (start_of c)) }
{
    host::receive(
        &mut station.host,
        clock_of(s, t, q),
        (c % 24 / 2) as u8,
        0,
        order_of(s, c / 24),
    )
}

pub(crate) fn receiver_of(s: &Schedule, c: usize) -> u8
    requires { Playable s.now × (c < 384) }
    ensures { (result ≡ receiver s.now.plan c) × (result < 8) }
{
    let link = s.plan.links[c % 24 / 2];
    if c % 2 == 0 { link.b } else { link.a }
}

// Whether an arrival is at this tick, which is not 0.
pub(crate) fn is_now(arrival: Tick, t: Tick) -> bool
    ensures { result ≡ (ltb 0 t.0 && eqb arrival.0 t.0) }
{
    0 < t.0 && arrival == t
}
