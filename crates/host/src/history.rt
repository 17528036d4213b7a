// The history: what is due, and one order more.
ghost use Rattle.std.specs.Prelude.{◌≡◌, true, ◌+◌, ◌<◌, drop, length};
ghost use Rattle.lists.specs.Lists.{all, rising, insert, pad};
ghost use Rattle.host.specs.State.{no_held, is_no_held, held_of, before, with};
ghost use Rattle.host.specs.Tick.{due};
ghost use Rattle.lists.proofs.Ranks.{by_two};

use crate::{Held, Host};
use clock::{Reading, reached};
use lists::Ranked;

// Whether an order is due.
pub(crate) fn is_due(e: Held, bound: u64, u: Reading) -> bool
    ensures { result ≡ due bound u.0 e }
{
    reached(e.stamp, bound, u)
}

impl Ranked for Held {
    ghost before = { before };

    fn is_before(self, other: Held) -> bool {
        // Not derived: the order under the name counts for nothing.
        (self.stamp < other.stamp) | ((self.stamp == other.stamp) & (self.source < other.source))
    }

    ghost transitive = { by_two (λ e. e.stamp.0) (λ e. e.source) };
}

// One order more is held, in its place.
pub(crate) fn hold(host: &mut Host, x: Held)
    requires { (host.old.held < 32) × (rising before (held_of host.old) ≡ true) × (all is_no_held (drop host.old.held host.old.history) ≡ true) }
    ensures { host.new ≡ with host.old host.old.last host.old.starts host.old.started (pad 32 no_held (insert before x (held_of host.old))) (length (insert before x (held_of host.old))) }
{
    lists::insert(&mut host.history, host.held, x);
    host.held += 1;
}
