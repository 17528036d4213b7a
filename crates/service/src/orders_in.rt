// An order as it comes in: three numbers, which need not be any order's.
ghost use Rattle.std.specs.Prelude.{◌≡◌};
ghost use Rattle.service.specs.Memory.{formed, zeros, order_from};

use orders::{BLANK, Order, order_of};

// Whether kind and share are some order's. As one number they are 2, 3 or 4 of a halt, a resume and a withdrawal, which is one test for the two.
pub(crate) fn is_formed(kind: u8, share: u16) -> bool
    ensures { result ≡ formed kind share }
{
    let both = (kind as u32) + 256 * (share as u32);
    if (2 <= both) & (both <= 4) {
        return true;
    }
    (kind == 1) & (1 <= share) & (share <= 100)
}

// Whether they are all zero, as in an unused place.
pub(crate) fn is_zero(kind: u8, image: u32, share: u16) -> bool
    ensures { result ≡ zeros kind image share }
{
    (kind == 0) & (image == 0) & (share == 0)
}

// The order; where the numbers are no order's, one that every call refuses: the blank one of zeros alone.
// Not From: what comes in is three loose numbers of C, no type of ours.
pub(crate) fn order_from(kind: u8, image: u32, share: u16) -> Order
    ensures { result ≡ order_from kind image share }
{
    if is_formed(kind, share) {
        return order_of(kind, image, share as u8);
    }
    if is_zero(kind, image, share) {
        return BLANK;
    }
    Order::Publish {
        image: 0,
        share: 255,
    }
}
