// Receive a copy of an order at a reading, over a link.
ghost use Rattle.std.specs.Prelude.{◌≡◌, cond, ◌+◌, ◌≤◌, eqb, leb};
ghost use Rattle.lists.specs.Tests.{first_of};
ghost use Rattle.host.specs.State.{bare};
ghost use Rattle.host.specs.Answers.{refusal_of, says};
ghost use Rattle.host.specs.OwnLinks.{set_of, placed, ends_but};
ghost use Rattle.host.specs.Receive.{in_plan, copy_fits, early, late, receive_checks, receive_refusal, relay_hop, receive_answer, receive_says, receive_host};

use crate::checks::refuse_if;
use crate::history::{hold, is_due};
use crate::lent::receive;
use crate::links::{is_end, links_but};
use crate::{Acted, Frame, Held, Host, Refusal, Seen, Sent};
use clock::{Reading, is_reading, is_stamp, reached};
use network::Plan;
use orders::{hop_fits, share_fits};

// The call `receive`, by value.
pub fn after_receive(mut host: Host, u: Reading, arrival: u8, hop: u8, copy: Held) -> Acted
    ensures { (result.host ≡ receive_host host u arrival hop copy) × (says result.answer ≡ receive_says host u.0 arrival hop copy) }
{
    let answer = receive(&mut host, u, arrival, hop, copy);
    Acted { host, answer }
}

// What a received copy is answered, by all of a sound state but its history, and by what was seen there.
pub fn receive_answer(
    frame: Frame,
    u: Reading,
    arrival: u8,
    hop: u8,
    copy: Held,
    seen: Seen,
) -> Result<Sent, Refusal>
    ensures { says result ≡ receive_answer (bare frame) u.0 arrival hop copy seen.same seen.other seen.named }
{
    receive_checks(frame, u, arrival, hop, copy, seen)?;
    let plan = frame.plan;
    Ok(Sent {
        links: relay_links(plan, frame.own, arrival, hop),
        hop: relay_hop(frame.rules, hop),
    })
}

fn receive_checks(
    frame: Frame,
    u: Reading,
    arrival: u8,
    hop: u8,
    copy: Held,
    seen: Seen,
) -> Result<(), Refusal>
    ensures { refusal_of result ≡ first_of (receive_checks (bare frame) u.0 arrival hop copy seen.same seen.other seen.named) }
{
    let plan = frame.plan;
    let rules = frame.rules;
    let stamp = copy.stamp;
    let own = copy.source == frame.own;
    refuse_if(
        !is_in_plan(plan, frame.own, arrival, copy.source),
        Refusal::NotInPlan,
    )?;
    refuse_if(!is_fit_copy(rules, hop, copy), Refusal::BadValue)?;
    refuse_if(!is_reading(u), Refusal::BadReading)?;
    // By their numbers: with the derived order the proof of so long a chain did not close.
    refuse_if(u.0 < frame.last.0, Refusal::Behind)?;
    refuse_if(is_early(rules, plan, u, hop, stamp), Refusal::Early)?;
    refuse_if(is_late(rules, plan, u, hop, stamp), Refusal::Late)?;
    refuse_if(is_due(copy, frame.bound, u), Refusal::Past)?;
    refuse_if(seen.same, Refusal::Known)?;
    refuse_if(seen.other, Refusal::OtherHeld)?;
    refuse_if(own & !seen.named, Refusal::OwnNotHeld)?;
    refuse_if(32 <= frame.held, Refusal::HistoryFull)
}

fn is_in_plan(plan: Plan, own: u8, arrival: u8, source: u8) -> bool
    ensures { result ≡ in_plan plan own arrival source }
{
    if arrival >= plan.link_count {
        return false;
    }
    is_end(plan, own, arrival) & (source < plan.hosts)
}

fn is_fit_copy(rules: u8, hop: u8, copy: Held) -> bool
    ensures { result ≡ copy_fits rules hop copy }
{
    let order = copy.order;
    is_stamp(copy.stamp) & hop_fits(rules, hop) & share_fits(order)
}

fn is_early(rules: u8, plan: Plan, u: Reading, hop: u8, stamp: Reading) -> bool
    ensures { result ≡ early rules plan u.0 hop stamp.0 }
{
    (rules == 2) & is_ahead(u, u64::from(hop) * u64::from(plan.skew), stamp)
}

// Whether U + span ≤ T, by the sum: T less the span would go below 0 at a small stamp.
fn is_ahead(u: Reading, span: u64, stamp: Reading) -> bool
    ensures { result ≡ leb (u.0 + span) stamp.0 }
{
    reached(u, span, stamp)
}

fn is_late(rules: u8, plan: Plan, u: Reading, hop: u8, stamp: Reading) -> bool
    ensures { result ≡ late rules plan u.0 hop stamp.0 }
{
    (rules == 2)
        & reached(
            stamp,
            u64::from(hop) * (u64::from(plan.delay) + u64::from(plan.skew)),
            u,
        )
}

pub(crate) fn receive_held(host: &mut Host, u: Reading, arrival: u8, hop: u8, copy: Held)
    requires { receive_refusal host.old u.0 arrival hop copy ≡ 0 }
    ensures { host.new ≡ receive_host host.old u arrival hop copy }
{
    hold(host, copy);
    host.last = u;
}

fn relay_links(plan: Plan, own: u8, arrival: u8, hop: u8) -> u16
    ensures { result ≡ cond (eqb hop 8) 0 (set_of (placed plan) (ends_but plan own arrival)) }
{
    if hop == 8 {
        return 0;
    }
    links_but(plan, own, arrival)
}

fn relay_hop(rules: u8, hop: u8) -> u8
    requires { hop ≤ 8 }
    ensures { result ≡ relay_hop rules hop }
{
    if hop == 8 {
        return 0;
    }
    if rules == 2 { hop + 1 } else { 0 }
}
