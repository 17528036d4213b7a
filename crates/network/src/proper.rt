// Refusals 1 and 2: the plan's numbers, and its links.
ghost use Rattle.std.specs.Prelude.{◌≡◌, ◌&&◌, not, ◌≤◌};
ghost use Rattle.network.specs.Network.{in_range, bad_links};
ghost use Rattle.network.specs.Inside.{Small};

use crate::Plan;

// A plan that is clear of 1 and 2, and what follows for the searches.
#[derive(Clone, Copy)]
pub(crate) struct ProperPlan {
    pub plan: Plan,
    ghost small: { Small plan },
}

// Whether a plan is clear of 1 and 2.
pub fn is_proper(p: Plan) -> bool
    ensures { result ≡ (in_range p && not (bad_links p)) }
{
    in_range(p) && !has_bad_link(p)
}

// Whether every number of the plan is in its range. By `(2..=8).contains(&p.hosts)` it would be no plainer, for the definition lists ten tests.
pub(crate) fn in_range(p: Plan) -> bool
    ensures { result ≡ in_range p }
{
    (2 <= p.hosts)
        & (p.hosts <= 8)
        & (1 <= p.link_count)
        & (p.link_count <= 12)
        & ((p.faulty_hosts as u32) + 2 <= p.hosts as u32)
        & (p.faulty_links <= 12)
        & (1 <= p.delay)
        & (p.delay <= 64)
        & (1 <= p.skew)
        & (p.skew <= 64)
}

// The pairs seen are bits 8a + b of one number, so that a repeat is one look.
pub(crate) fn has_bad_link(p: Plan) -> bool
    requires hosts_bound { p.hosts ≤ 8 }
    requires link_count_bound { p.link_count ≤ 12 }
    ensures { result ≡ bad_links p }
{
    let links = &p.links[..p.link_count as usize];
    let mut seen: u64 = 0;
    for link in links {
        if (link.a >= link.b) | (link.b >= p.hosts) {
            return true;
        }
        let at = 8 * (link.a as u32) + (link.b as u32);
        if (seen >> at) % 2 == 1 {
            return true;
        }
        seen |= 1u64 << at;
    }
    false
}
