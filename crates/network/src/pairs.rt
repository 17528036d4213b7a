// Sets of pairs of hosts as numbers: bit 8a + b for the pair of a and b.
ghost use Rattle.std.specs.Prelude.{◌&&◌, ◌||◌, ◌<◌, ◌≤◌, eqb, ltb};
ghost use Rattle.network.specs.Inside.{Pairs, joins, linked};

use crate::Link;
use crate::proper::ProperPlan;

// Each host with itself.
pub(crate) const ITSELF: u64 = 0x8040_2010_0804_0201;

// The pairs that a link joins.
pub(crate) fn joined(p: ProperPlan) -> u64
    ensures { Pairs result (linked p.plan) }
{
    let links = &p.plan.links[..p.plan.link_count as usize];
    let mut pairs: u64 = 0;
    for link in links {
        pairs |= ends(*link);
    }
    pairs
}

// A link's two ends, both ways.
pub(crate) fn ends(l: Link) -> u64
    requires { (l.a < 8) × (l.b < 8) }
    ensures { Pairs result (joins l) }
{
    let a = l.a as u32;
    let b = l.b as u32;
    (1u64 << (8 * a + b)) | (1u64 << (8 * b + a))
}

// The pairs of the first n hosts.
pub(crate) fn square(n: u8) -> u64
    requires { (1 ≤ n) × (n ≤ 8) }
    ensures { Pairs result (λ a b. ltb a n && ltb b n) }
{
    let rows = 0xffff_ffff_ffff_ffffu64 >> (64 - 8 * (n as u32));
    let columns = 0x0101_0101_0101_0101u64 * ((1u64 << (n as u32)) - 1);
    rows & columns
}

// The pairs of which one is host h.
pub(crate) fn with_host(h: u8) -> u64
    requires { h < 8 }
    ensures { Pairs result (λ a b. eqb a h || eqb b h) }
{
    (255u64 << (8 * (h as u32))) | (0x0101_0101_0101_0101u64 << (h as u32))
}
