// Unused places: what they hold, and whether they hold it.
ghost use Rattle.std.specs.Prelude.{◌≡◌, drop};
ghost use Rattle.lists.specs.Lists.{all};
ghost use Rattle.host.specs.State.{is_no_link, is_no_reading};

use crate::Held;
use clock::Reading;
use network::{Link, NO_LINK};
use orders::BLANK;

// What an unused place of a history holds.
pub const NO_HELD: Held = Held {
    stamp: Reading(0),
    source: 0,
    order: BLANK,
};

// Whether the link places from `used` on are zero.
pub(crate) fn links_unused(links: [Link; 12], used: usize) -> bool
    ensures { result ≡ all is_no_link (drop used links) }
{
    links[used.min(12)..].iter().all(|l| is_no_link(*l))
}

fn is_no_link(l: Link) -> bool
    ensures { result ≡ is_no_link l }
{
    l == NO_LINK
}

// Whether the start places from `used` on are zero.
pub(crate) fn starts_unused(starts: [Reading; 4], used: usize) -> bool
    ensures { result ≡ all is_no_reading (drop used starts) }
{
    starts[used.min(4)..].iter().all(|s| is_no_reading(*s))
}

fn is_no_reading(s: Reading) -> bool
    ensures { result ≡ is_no_reading s }
{
    s == Reading(0)
}
