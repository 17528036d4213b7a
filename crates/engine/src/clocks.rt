// What a host's clock shows, and the order of a start under its name.
ghost use Rattle.std.specs.Prelude.{◌≡◌, ◌≤◌, ◌<◌};
ghost use Rattle.engine.specs.Parts.{clock, order};
ghost use Rattle.engine.specs.Inside.{Playable};

use clock::{Reading, Tick, reading_at};
use host::Held;
use schedule::Schedule;

// The reading at a tick on a host's clock; none passes the largest reading within a run.
pub(crate) fn clock_of(s: &Schedule, t: Tick, p: u8) -> Reading
    requires { (t.0 ≤ 65_535) × (p < 8) }
    ensures { result ≡ clock s.now t p }
{
    reading_at(t, s.offsets[p as usize]).unwrap()
}

// What start k starts.
pub(crate) fn order_of(s: &Schedule, k: usize) -> Held
    requires { Playable s.now × (k < 16) }
    ensures { result ≡ order s.now k }
{
    let start = s.starts[k];
    Held {
        stamp: clock_of(s, start.tick, start.host),
        source: start.host,
        order: start.order,
    }
}
