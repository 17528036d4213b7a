// Copies sent: each with the tick at which it arrives, unless it is lost.
ghost use Rattle.std.specs.Prelude.{◌≡◌, cond, ◌+◌, ◌≤◌, ◌<◌, eqb};
ghost use Rattle.host.specs.Answers.{says};
ghost use Rattle.network.specs.Network.{m};
ghost use Rattle.engine.specs.Parts.{later, copy_from};
ghost use Rattle.engine.specs.Run.{send};

use crate::Post;
use clock::Tick;
use host::{Refusal, Sent};
use network::{Link, Plan, is_in};
use schedule::Schedule;

// The copies of start k that host p sends at a tick, on the links that its host answered. Not inlined, as `hand`.
#[inline(never)]
pub(crate) fn send_all(
    s: &Schedule,
    t: Tick,
    k: usize,
    p: u8,
    answer: Result<Sent, Refusal>,
    post: &mut Post,
)
    requires { (m s.now.plan ≤ 12) × (t.0 ≤ 65_535) × (k < 16) × (post.old.copies ≤ 1_000_000_000) }
    ensures { post.new ≡ send s.now t k p (says answer).links post.old }
{
    let links = links_of(answer);
    for l in 0..s.plan.link_count {
        if is_in(links as u32, l) {
            let c = place(&s.plan, k, p, l);
            let delay = s.delays[c];
            post.copies += 1;
            if delay != 0 {
                post.arrivals[c] = later(t, delay);
            }
        }
    }
}

// None, where it is a refusal.
fn links_of(answer: Result<Sent, Refusal>) -> u16
    ensures { result ≡ (says answer).links }
{
    answer.map_or(0, |sent| sent.links)
}

fn place(plan: &Plan, k: usize, p: u8, l: u8) -> usize
    requires { (k < 16) × (l < 12) }
    ensures { (result ≡ copy_from plan.now k p l) × (result < 384) }
{
    let at = l as usize;
    let ends = plan.links[at];
    (k * 12 + at) * 2 + direction(ends, p)
}

// Which way a host sends on a link.
fn direction(ends: Link, p: u8) -> usize
    ensures { (result ≡ cond (eqb ends.a p) 0 1) × (result ≤ 1) }
{
    if ends.a == p { 0 } else { 1 }
}

fn later(t: Tick, delay: u8) -> Tick
    requires { t.0 ≤ 65_535 }
    ensures { result ≡ later t delay }
{
    Tick(t.0 + (delay as u64))
}
