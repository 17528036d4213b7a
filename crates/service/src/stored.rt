// A place of a host's flat history, for the host's own walks and for the search of a place.
ghost use Rattle.std.specs.Prelude.{◌≡◌};
ghost use Rattle.service.specs.Bits.{memory_bits, memory_zero, word};

use crate::HeldMemory;
use crate::orders_in::is_formed;
use clock::{Reading, is_stamp};
use host::{Held, Stored};
use lists::Ranked;

impl Stored for HeldMemory {
    ghost use Rattle.service.specs.Memory.{held_from};

    ghost as_held = { λ e. held_from e };

    ghost bits_of = { memory_bits };

    fn stamp(self) -> Reading {
        self.stamp
    }

    fn source(self) -> u8 {
        self.source
    }

    fn held(self) -> Held {
        Held::from(self)
    }

    // Every call makes it at each place that holds an order, so it stops as soon as it knows.
    fn is_fit(self, hosts: u8) -> bool {
        is_stamp(self.stamp) && self.source < hosts && is_formed(self.kind, self.share)
    }

    fn bits(self) -> u64 {
        self.stamp.0 | word(self)
    }

    ghost unused = { memory_zero };
}

// Its bytes but the stamp's as one number, in their order in memory, so that to read it is to load them.
fn word(e: HeldMemory) -> u64
    ensures { result ≡ word e }
{
    u64::from(e.image)
        + 4_294_967_296 * u64::from(e.source)
        + 1_099_511_627_776 * u64::from(e.kind)
        + 281_474_976_710_656 * u64::from(e.share)
}

impl Ranked for HeldMemory {
    ghost use Rattle.std.specs.Prelude.{◌≡◌};
    ghost use Rattle.service.specs.Memory.{held_from};
    ghost use Rattle.service.specs.Inside.{before_in};
    ghost use Rattle.host.proofs.Names.{before_trans};

    ghost before = { before_in };

    fn is_before(self, other: Self) -> bool {
        self.stamp < other.stamp || (self.stamp == other.stamp && self.source < other.source)
    }

    ghost transitive = { λ x y z. before_trans (held_from x) (held_from y) (held_from z) };
}
