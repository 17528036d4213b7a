// A host ticks, and what it delivers is kept.
ghost use Rattle.std.specs.Prelude.{◌≡◌, ◌++◌, map, ◌+◌, ◌≤◌, take};
ghost use Rattle.engine.specs.Parts.{list_of, log_of};
ghost use Rattle.engine.specs.Run.{delivery, ticked};
ghost use Rattle.engine.specs.Inside.{Room, later_at};

use crate::{Delivery, Log, Station};
use clock::Reading;
use host::Held;

// The station at a later reading, all else as it was.
pub(crate) fn be_at(station: &mut Station, u: Reading)
    ensures { station.new ≡ later_at u station.old }
{
    station.host.last = u;
}

pub(crate) fn tick_one(station: &mut Station, u: Reading)
    requires { Room station.old u }
    ensures { station.new ≡ ticked u station.old }
{
    let mut out = [0u8; 512];
    let history = station.host.history;
    if let Ok(count) = host::tick(&mut station.host, u, &mut out) {
        station.log = more(station.log, history, count, u);
    }
}

// The log with the first so many of a history more, delivered at a reading. By index: of `&history[..count]` the proof knows no length.
fn more(log: Log, history: [Held; 32], count: usize, u: Reading) -> Log
    requires { (log ≡ log_of (list_of log)) × (log.count + count ≤ 16) }
    ensures { result ≡ log_of (list_of log ++ map (delivery u) (take count history)) }
{
    let mut entries = log.entries;
    for i in 0..count {
        entries[log.count + i] = Delivery {
            at: u,
            what: history[i],
        };
    }
    Log {
        count: log.count + count,
        entries,
    }
}
