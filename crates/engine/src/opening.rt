// Before the first tick.
ghost use Rattle.std.specs.Prelude.{◌≡◌};
ghost use Rattle.lists.specs.Lists.{listed};
ghost use Rattle.engine.specs.Run.{opening};
ghost use Rattle.engine.specs.Inside.{Playable, fresh_station};

use crate::{Delivery, Log, Station};
use clock::Reading;
use host::{Host, NO_HELD};
use schedule::Schedule;
use std::array;

// What stands in an unused place of a log.
const NO_DELIVERY: Delivery = Delivery {
    at: Reading(0),
    what: NO_HELD,
};

// Fresh hosts, that have delivered nothing; planning accepts the plan, so one is made.
pub(crate) fn open(s: &Schedule) -> [Station; 8]
    requires { Playable s.now }
    ensures { result ≡ (opening s.now).stations }
{
    fresh_stations(host::make(s.plan, 1, 0).unwrap())
}

fn fresh_stations(first: Host) -> [Station; 8]
    ensures { result ≡ listed 8 (fresh_station first) }
{
    array::from_fn(|p| fresh_station(first, p as u8))
}

fn fresh_station(first: Host, p: u8) -> Station
    ensures { result ≡ fresh_station first p }
{
    Station {
        host: Host { own: p, ..first },
        log: Log {
            count: 0,
            entries: [NO_DELIVERY; 16],
        },
    }
}
