// Orders are started.
ghost use Rattle.std.specs.Prelude.{◌≡◌, ◌≤◌, ◌<◌, eqb};
ghost use Rattle.host.specs.Answers.{says};
ghost use Rattle.host.specs.Start.{start_says, start_host};
ghost use Rattle.engine.specs.Parts.{clock};
ghost use Rattle.engine.specs.Inside.{with_host};

use crate::Station;
use crate::clocks::clock_of;
use clock::Tick;
use host::{Refusal, Sent, number_of};
use schedule::{Schedule, Start};

// The host of a start is told to start its order.
pub(crate) fn tell(
    s: &Schedule,
    t: Tick,
    start: Start,
    station: &mut Station,
) -> Result<Sent, Refusal>
    requires { (t.0 ≤ 65_535) × (start.host < 8) }
    ensures left { station.new ≡ with_host station.old (start_host station.old.host (clock s.now t start.host) start.order) }
    ensures answer { says result ≡ start_says station.old.host (clock s.now t start.host).0 start.order }
{
    host::start(&mut station.host, clock_of(s, t, start.host), start.order)
}

pub(crate) fn is_now(start: Start, t: Tick) -> bool
    ensures { result ≡ eqb start.tick.0 t.0 }
{
    start.tick == t
}

// The number of a refusal, and 0 for none.
pub(crate) fn refusal_of(answer: Result<Sent, Refusal>) -> u8
    ensures { result ≡ (says answer).refusal }
{
    answer.err().map_or(0, |refusal| number_of(refusal))
}
