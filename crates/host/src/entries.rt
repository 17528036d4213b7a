// The 16 bytes of a delivered order.
ghost use Rattle.std.specs.Prelude.{◌≡◌, ◌+◌, ◌≤◌, length};
ghost use Rattle.std.proofs.Math.Seq.{paste};
ghost use Rattle.host.specs.Entries.{entry_of};

use crate::Held;
use orders::{image, kind, share};

// An entry written to a place.
pub(crate) fn put_entry(out: &mut [u8], at: usize, e: Held)
    requires { at + 16 ≤ length out.old }
    ensures { out.new ≡ paste out.old at (entry_of e) 16 }
{
    let bytes = entry(e);
    // copy_from_slice was tried, and is slower.
    for j in 0..16 {
        out[at + j] = bytes[j];
    }
}

// The bytes of a held order.
pub fn entry(e: Held) -> [u8; 16]
    ensures { result ≡ entry_of e }
{
    let order = e.order;
    let t = e.stamp.0.to_be_bytes();
    let of = image(order).to_be_bytes();
    [
        t[0],
        t[1],
        t[2],
        t[3],
        t[4],
        t[5],
        t[6],
        t[7],
        e.source,
        kind(order),
        of[0],
        of[1],
        of[2],
        of[3],
        share(order),
        0,
    ]
}
