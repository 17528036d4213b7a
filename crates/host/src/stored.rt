// An order held under its name, in the form in which a history stores it: a host's own, or a service's flat memory.
ghost use Rattle.std.specs.Prelude.{◌≡◌, ℕ, eqb};
ghost use Rattle.host.specs.State.{fits, is_no_held};
ghost use Rattle.host.specs.Bits.{held_bits, held_zero, order_bits};

use crate::Held;
use clock::{Reading, is_stamp};
use orders::{Order, share_fits};

pub trait Stored: Copy {
    ghost use Rattle.host.specs.declared.Held.{Held};

    ghost as_held: { Self → Held };

    // A number that tells an unused place.
    ghost bits_of: { Self → ℕ };

    fn stamp(self) -> Reading
        ensures { result ≡ (as_held self).stamp };

    fn source(self) -> u8
        ensures { result ≡ (as_held self).source };

    fn held(self) -> Held
        ensures { result ≡ as_held self };

    // Whether it may be held: its stamp, its source and its order are in range.
    fn is_fit(self, hosts: u8) -> bool
        ensures { result ≡ fits hosts (as_held self) };

    // Many places are tested as one number.
    fn bits(self) -> u64
        ensures { result ≡ bits_of self };

    // 0 just where the place is unused.
    ghost unused: { (x : Self) → eqb (bits_of x) 0 ≡ is_no_held (as_held x) };
}

impl Stored for Held {
    ghost as_held = { λ e. e };

    ghost bits_of = { held_bits };

    fn stamp(self) -> Reading {
        self.stamp
    }

    fn source(self) -> u8 {
        self.source
    }

    fn held(self) -> Held {
        self
    }

    fn is_fit(self, hosts: u8) -> bool {
        is_stamp(self.stamp) & (self.source < hosts) & share_fits(self.order)
    }

    fn bits(self) -> u64 {
        self.stamp.0 | u64::from(self.source) | order_bits(self.order)
    }

    ghost unused = { held_zero };
}

// 0 of the blank order alone.
fn order_bits(order: Order) -> u64
    ensures { result ≡ order_bits order }
{
    match order {
        Order::Publish { image, share } => u64::from(image) | u64::from(share),
        _ => 1,
    }
}
