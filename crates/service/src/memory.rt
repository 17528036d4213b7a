// A host's flat memory: made of a state, and what stands in a place of it.
ghost use Rattle.std.specs.Prelude.{◌≡◌};
ghost use Rattle.service.specs.Memory.{own_from};

use crate::orders_in::order_from;
use crate::{HeldMemory, HostMemory, NO_HELD};
use host::{Held, Host};

impl From<HeldMemory> for Held {
    ghost use Rattle.std.specs.Prelude.{◌≡◌};
    ghost use Rattle.service.specs.Memory.{held_from};

    ghost from_gives = { λ e x. x ≡ held_from e };

    fn from(e: HeldMemory) -> Held {
        Held {
            stamp: e.stamp,
            source: e.source,
            order: order_from(e.kind, e.image, e.share),
        }
    }
}

// An order that no host can hold has no kind.
impl From<Held> for HeldMemory {
    ghost use Rattle.std.specs.Prelude.{◌≡◌};
    ghost use Rattle.service.specs.Memory.{held_memory};

    ghost from_gives = { λ x e. e ≡ held_memory x };

    fn from(x: Held) -> HeldMemory {
        let order = x.order;
        if !orders::share_fits(order) {
            return HeldMemory {
                stamp: x.stamp,
                source: x.source,
                ..NO_HELD
            };
        }
        HeldMemory {
            stamp: x.stamp,
            image: orders::image(order),
            source: x.source,
            kind: orders::kind(order),
            share: u16::from(orders::share(order)),
        }
    }
}

// A host's number, which has one byte. Not From: what comes in is a loose number of C, no type of ours.
pub(crate) fn own_from(own: u64) -> u8
    ensures { result ≡ own_from own }
{
    if own < 8 { own as u8 } else { 255 }
}

impl From<Host> for HostMemory {
    ghost use Rattle.std.specs.Prelude.{◌≡◌};
    ghost use Rattle.service.specs.Memory.{host_memory};

    ghost from_gives = { λ host memory. memory ≡ host_memory host };

    fn from(host: Host) -> HostMemory {
        let starts = host.starts;
        // Not by `map`, which is slower here: the places then stand in memory twice.
        let mut history = [NO_HELD; 32];
        for (i, x) in host.history.iter().enumerate() {
            history[i] = HeldMemory::from(*x);
        }
        HostMemory {
            bound: host.bound,
            last: host.last,
            own: u64::from(host.own),
            started: host.started,
            held: host.held,
            starts,
            history,
            plan: host.plan,
            rules: host.rules,
            d: host.d,
        }
    }
}
