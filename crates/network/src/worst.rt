// d: the largest diameter over all fault sets. The sets are tried in halves, from the highest place down: with host or link i - 1 out, and
// without. No diameter is above n, so a search that has met n stops.
ghost use Rattle.std.specs.Prelude.{◌≡◌, ℕ, ◌+◌, ◌^◌, max};
ghost use Rattle.lists.specs.Searches.{largest};
ghost use Rattle.network.specs.Network.{n, m, π, L, worst};
ghost use Rattle.network.specs.Inside.{Pairs, Upper, linked, next_to, well_both, wanted, at_links, at_hosts};

use crate::pairs::{ITSELF, ends, joined, square, with_host};
use crate::proper::ProperPlan;
use crate::reach::reach;

pub(crate) fn worst_of(p: ProperPlan) -> u8
    ensures { result ≡ worst p.plan }
{
    hosts_out(p, joined(p), p.plan.hosts, 0, square(p.plan.hosts))
}

// The largest diameter over the fault sets whose hosts are hs from host i on. A set that is full stands for itself alone.
fn hosts_out(p: ProperPlan, links: u64, i: u8, hs: u32, survivors: u64) -> u8
    requires upper { Upper i (n p.plan) (π p.plan) hs }
    requires pairs { Pairs links (linked p.plan) }
    requires pairs_2 { Pairs survivors (well_both p.plan hs) }
    ensures { result ≡ largest (2 ^ i) (λ j. at_hosts p.plan (hs + j)) }
{
    if (i == 0) | (u32::count_ones(hs) >= p.plan.faulty_hosts as u32) {
        return links_out(
            p,
            survivors | ITSELF,
            p.plan.link_count,
            0,
            links & survivors,
        );
    }
    let h = i - 1;
    let d = hosts_out(
        p,
        links,
        h,
        hs + (1u32 << (h as u32)),
        survivors & !with_host(h),
    );
    if d >= p.plan.hosts {
        return d;
    }
    d.max(hosts_out(p, links, h, hs, survivors))
}

// The same for links: `all` are the pairs that are wanted where hosts hs are out, and `joined` those that a surviving link joins. A link that
// joins no survivors is not tried: with it out, the survivors and their links are the same and the set is larger.
fn links_out(p: ProperPlan, all: u64, i: u8, ls: u32, joined: u64) -> u8
    requires upper { Upper i (m p.plan) (L p.plan) ls }
    ensures { (hs : ℕ) → Pairs all (wanted p.plan hs) → Pairs joined (next_to p.plan (record { hosts = hs; links = ls })) → result ≡ largest (2 ^ i) (λ j. at_links p.plan hs (ls + j)) }
{
    if (i == 0) | (u32::count_ones(ls) >= p.plan.faulty_links as u32) {
        return p.plan.hosts - reach(joined, all, ITSELF, p.plan.hosts);
    }
    let l = i - 1;
    let at = l as usize;
    let link = p.plan.links[at];
    let pairs = ends(link);
    if joined & pairs == 0 {
        return links_out(p, all, l, ls, joined);
    }
    let d = links_out(p, all, l, ls + (1u32 << (l as u32)), joined & !pairs);
    if d >= p.plan.hosts {
        return d;
    }
    d.max(links_out(p, all, l, ls, joined))
}
