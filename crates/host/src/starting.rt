// Start an order at a reading.
ghost use Rattle.std.specs.Prelude.{◌≡◌, cond, eqb};
ghost use Rattle.lists.specs.Tests.{first_of};
ghost use Rattle.host.specs.State.{bare};
ghost use Rattle.host.specs.Answers.{refusal_of, says};
ghost use Rattle.host.specs.Start.{start_checks, start_refusal, start_answer, start_says, start_host};

use crate::checks::refuse_if;
use crate::history::hold;
use crate::lent::start;
use crate::links::links_but;
use crate::starts::{newest, one_more, with_start};
use crate::{Acted, Frame, Held, Host, Refusal, Sent};
use clock::{Reading, is_stamp, reached};
use network::window;
use orders::{Order, share_fits};

// The call `start`, by value.
pub fn after_start(mut host: Host, u: Reading, order: Order) -> Acted
    ensures { (result.host ≡ start_host host u order) × (says result.answer ≡ start_says host u.0 order) }
{
    let answer = start(&mut host, u, order);
    Acted { host, answer }
}

// What a start answers, by all of a sound state but its history.
pub fn start_answer(frame: Frame, u: Reading, order: Order) -> Result<Sent, Refusal>
    ensures { says result ≡ start_answer (bare frame) u.0 order }
{
    start_checks(frame, u, order)?;
    let plan = frame.plan;
    Ok(Sent {
        links: links_but(plan, frame.own, NO_ARRIVAL),
        hop: first_hop(frame.rules),
    })
}

fn start_checks(frame: Frame, u: Reading, order: Order) -> Result<(), Refusal>
    ensures { refusal_of result ≡ first_of (start_checks (bare frame) u.0 order) }
{
    let plan = frame.plan;
    let starts = frame.starts;
    let started = frame.started;
    let fourth_last = starts[0];
    let last = newest(starts, started);
    let open = reached(fourth_last, window(frame.rules, plan, frame.d), u);
    refuse_if(!share_fits(order), Refusal::BadValue)?;
    refuse_if(!is_stamp(u), Refusal::BadReading)?;
    refuse_if(u < frame.last, Refusal::Behind)?;
    refuse_if((0 < started) & (u == last), Refusal::SameStart)?;
    refuse_if((4 <= started) & !open, Refusal::WindowFull)?;
    refuse_if(32 <= frame.held, Refusal::HistoryFull)
}

pub(crate) fn start_held(host: &mut Host, u: Reading, order: Order)
    requires { start_refusal host.old u.0 order ≡ 0 }
    ensures { host.new ≡ start_host host.old u order }
{
    let x = Held {
        stamp: u,
        source: host.own,
        order,
    };
    let more = with_start(host.starts, host.started, u);
    host.starts = more;
    host.started = one_more(host.started);
    hold(host, x);
    host.last = u;
}

// A start came over no link, and no link of at most 12 has this number. A number, as receive has it: arrival is C's byte there.
const NO_ARRIVAL: u8 = 255;

fn first_hop(rules: u8) -> u8
    ensures { result ≡ cond (eqb rules 2) 1 0 }
{
    if rules == 2 { 1 } else { 0 }
}
