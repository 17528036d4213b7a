// Deliver what is due at a reading.
ghost use Rattle.std.specs.Prelude.{◌≡◌, true, not, ◌||◌, ◌*◌, ◌≤◌, eqb, length, get_or};
ghost use Rattle.lists.specs.Lists.{pad};
ghost use Rattle.lists.specs.Tests.{first_of};
ghost use Rattle.host.specs.State.{no_held, sound, bare};
ghost use Rattle.host.specs.Answers.{refusal_of, says_tick};
ghost use Rattle.host.specs.Tick.{due, due_of, due_in, waiting_in, written, tick_checks, tick_refusal, tick_answer, tick_says, tick_host, tick_list};

use crate::checks::refuse_if;
use crate::entries::put_entry;
use crate::history::is_due;
use crate::lent::tick;
use crate::unused::NO_HELD;
use crate::walks::due_in_front;
use crate::{Frame, Held, Host, Refusal, Ticked};
use clock::{Reading, is_reading};

// The call `tick`, by value.
pub fn after_tick(mut host: Host, u: Reading, out: &mut [u8]) -> Ticked
    ensures { (result.host ≡ tick_host host u (length out.old)) × ((says_tick result.answer ≡ tick_says host u.0 (length out.old)) × (out.new ≡ tick_list host u.0 out.old)) }
{
    let answer = tick(&mut host, u, out);
    Ticked { host, answer }
}

// What a tick answers, by all of a sound state but its history, and by how many are due there.
pub fn tick_answer(frame: Frame, u: Reading, room: usize, count: usize) -> Result<usize, Refusal>
    ensures { says_tick result ≡ tick_answer (bare frame) u.0 room count }
{
    tick_checks(frame, u, room, count)?;
    Ok(count)
}

fn tick_checks(frame: Frame, u: Reading, room: usize, count: usize) -> Result<(), Refusal>
    ensures { refusal_of result ≡ first_of (tick_checks (bare frame) u.0 room count) }
{
    refuse_if(!is_reading(u), Refusal::BadReading)?;
    refuse_if(u < frame.last, Refusal::Behind)?;
    refuse_if(room / 16 < count, Refusal::ShortBuffer)
}

pub(crate) fn tick_left(host: &mut Host, u: Reading, out: &mut [u8])
    requires { tick_refusal host.old u.0 (length out.old) ≡ 0 }
    ensures value { host.new ≡ tick_host host.old u (length out.old) }
    ensures out_after { out.new ≡ tick_list host.old u.0 out.old }
{
    if is_idle(host, u) {
        host.last = u;
        return;
    }
    let held = &host.history[..host.held];
    let left = deliver(out, held, host.bound, u);
    let rest = left.history;
    host.history = rest;
    host.held = left.held;
    host.last = u;
}

// What a delivery leaves of the history: places and how many are used, since there is no heap.
#[derive(Clone, Copy)]
pub(crate) struct Rest {
    pub held: usize,
    pub history: [Held; 32],
}

// How many orders are due.
pub(crate) fn due_count(host: &Host, u: Reading) -> usize
    requires { sound host.now ≡ true }
    ensures { result ≡ length (due_of host.now u.0) }
{
    let held = &host.history[..host.held];
    due_in_front(held, host.bound, u)
}

// Whether nothing is due, of a sound state: the first of those held is due before all others.
pub fn is_idle(host: &Host, u: Reading) -> bool
    ensures { result ≡ (eqb host.now.held 0 || not (due host.now.bound u.0 (get_or host.now.history 0 no_held))) }
{
    (host.held == 0) | !is_due(host.history[0], host.bound, u)
}

// Writes the entries of those that are due from the front of the lent list, and keeps the others.
fn deliver(out: &mut [u8], history: &[Held], bound: u64, u: Reading) -> Rest
    requires { (length history.now ≤ 32) × (16 * length (due_in bound u.0 history.now) ≤ length out.old) }
    ensures held_value { result.held ≡ length (waiting_in bound u.0 history.now) }
    ensures history_value { result.history ≡ pad 32 no_held (waiting_in bound u.0 history.now) }
    ensures out_after { out.new ≡ written (due_in bound u.0 history.now) out.old }
{
    let mut rest = [NO_HELD; 32];
    let mut waiting: usize = 0;
    let mut delivered: usize = 0;
    for e in history {
        if is_due(*e, bound, u) {
            put_entry(out, 16 * delivered, *e);
            delivered += 1;
        } else {
            rest[waiting] = *e;
            waiting += 1;
        }
    }
    Rest {
        held: waiting,
        history: rest,
    }
}
