// A host's own links, as a set.
ghost use Rattle.std.specs.Prelude.{◌≡◌};
ghost use Rattle.host.specs.OwnLinks.{set_of, placed, ends, ends_but};

use network::{Plan, link_of};

// All links of the host but one; all, where no link has that number.
pub(crate) fn links_but(plan: Plan, own: u8, arrival: u8) -> u16
    ensures { result ≡ set_of (placed plan) (ends_but plan own arrival) }
{
    let mut set: u16 = 0;
    for i in (0..places(plan)).rev() {
        set = u16::from(is_end_but(plan, own, arrival, i)) + 2 * set;
    }
    set
}

fn places(plan: Plan) -> u8
    ensures { result ≡ placed plan }
{
    plan.link_count.min(12)
}

fn is_end_but(plan: Plan, own: u8, arrival: u8, i: u8) -> bool
    ensures { result ≡ ends_but plan own arrival i }
{
    is_end(plan, own, i) & (i != arrival)
}

// Whether link i ends at the host; a number that has no place is the zero link's.
pub(crate) fn is_end(plan: Plan, own: u8, i: u8) -> bool
    ensures { result ≡ ends plan own i }
{
    let links = plan.links;
    let l = link_of(links, i);
    (l.a == own) | (l.b == own)
}
