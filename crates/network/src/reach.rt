// The pairs of hosts within k links of each other, over the links that survive.
ghost use Rattle.std.specs.Prelude.{◌≡◌, Bool, ℕ, ◌+◌, ◌≤◌, get_or};
ghost use Rattle.lists.specs.Searches.{least};
ghost use Rattle.network.specs.Network.{no_link, survives};
ghost use Rattle.network.specs.Inside.{Pairs, paired, alike, spreads, Spreads};

use crate::pairs::ITSELF;
use crate::sets::is_in;
use crate::{Faults, Link, NO_LINK, Plan};

// How many of k links are left over when the pairs within reach are all that are wanted; `near` are within reach already.
// By recursion, as `by_index` has it: each link more shifts the tests by one.
pub(crate) fn reach(joined: u64, all: u64, near: u64, k: u8) -> u8
    ensures upper_bound { result ≤ k }
    ensures by_index { (t : ℕ → ℕ → ℕ → Bool) → Pairs near (t 0) → Spreads joined t → result + least k (λ i. alike (paired all) (t i)) ≡ k }
{
    if (near == all) | (k == 0) {
        return k;
    }
    reach(joined, all, spread(joined, near), k - 1)
}

// Each host with itself, and with the hosts that are paired in `near` with one that it is joined to: the row of c in `near` is put at the
// row of each host joined to c, by one product.
fn spread(joined: u64, near: u64) -> u64
    ensures { Pairs result (spreads joined (paired near)) }
{
    let mut out = ITSELF;
    for c in 0..8u32 {
        let row = (near >> (8 * c)) % 256;
        let column = (joined >> c) & 0x0101_0101_0101_0101;
        out |= row * column;
    }
    out
}

// Whether neither link i nor one of its ends is faulty; a number that has no place is the zero link's.
pub fn link_survives(p: Plan, f: Faults, i: u8) -> bool
    ensures { result ≡ survives p f i }
{
    let links = p.links;
    let l = link_of(links, i);
    !is_in(f.links, i) & !is_in(f.hosts, l.a) & !is_in(f.hosts, l.b)
}

// The link at a place, and the zero link past the last.
pub fn link_of(links: [Link; 12], i: u8) -> Link
    ensures { result ≡ get_or links i no_link }
{
    links.get(i as usize).copied().unwrap_or(NO_LINK)
}
