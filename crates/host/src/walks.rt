// The walks over a history, in whatever form it is stored: whether it is that of a sound state, how many are due, and what is held under a name.
ghost use Rattle.std.specs.Prelude.{◌≡◌, ◌≤◌, length, map};
ghost use Rattle.lists.specs.Lists.{any, follows, lead};
ghost use Rattle.clock.specs.Clock.{largest_stamp};
ghost use Rattle.host.specs.State.{bare, before, last_start, same_name, sound};
ghost use Rattle.host.specs.Receive.{same_held, other_held};
ghost use Rattle.host.specs.Tick.{due};
ghost use Rattle.host.specs.Inside.{stored, past_own, end_started};

use crate::sound::is_framed;
use crate::starts::newest;
use crate::stored::Stored;
use crate::{Frame, Held, Seen};
use clock::{Reading, reached};

// Whether a frame and a history are those of a sound state: one walk, which stops at the first order that is out of range or out of order. Stamps rise,
// so of the host's own orders the last tells of all; the unused places are gathered into one number, so that they are read with no branch.
pub fn is_sound_in<E: Stored>(frame: Frame, history: &[E]) -> bool
    ensures { result ≡ sound (stored frame (map E.as_held history.now)) }
{
    if !is_framed(frame) {
        return false;
    }
    if frame.held > 32 {
        return false;
    }
    let (used, unused) = history.split_at(frame.held.min(history.len()));
    let mut own_end = 0;
    let mut previous: Option<E> = None;
    for e in used {
        if !e.is_fit(frame.plan.hosts) {
            return false;
        }
        if !may_follow(previous, *e) {
            return false;
        }
        own_end = past_own(*e, frame.own, own_end);
        previous = Some(*e);
    }
    if !is_started(frame, own_end) {
        return false;
    }
    let mut bits = 0;
    for e in unused {
        bits |= e.bits();
    }
    bits == 0
}

// Whether an order may come next: its name goes behind that of the one before it, if there is one.
fn may_follow<E: Stored>(previous: Option<E>, e: E) -> bool
    ensures { result ≡ follows (λ x y. before (E.as_held x) (E.as_held y)) previous e }
{
    match previous {
        Some(p) => { p.stamp() < e.stamp() || p.stamp() == e.stamp() && p.source() < e.source() }
        None => true,
    }
}

// One past the stamp of the last order of the host's own, where `end` was so for those before this one: 0 where there is none. Not an
// Option: this number is the definition's (`past_own`).
fn past_own<E: Stored>(e: E, own: u8, end: u64) -> u64
    requires { (E.as_held e).stamp.0 ≤ largest_stamp }
    ensures { result ≡ past_own own (E.as_held e) end }
{
    if e.source() == own {
        return e.stamp().0 + 1;
    }
    end
}

// Whether the last order of the host's own, if there is one, was started.
fn is_started(frame: Frame, end: u64) -> bool
    ensures { result ≡ end_started frame.started (last_start (bare frame)) end }
{
    if end == 0 {
        return true;
    }
    let last = newest(frame.starts, frame.started);
    (0 < frame.started) & (end - 1 <= last.0)
}

// How many of the orders in front are due, up to the first that is not: all that are due, where stamps rise.
pub fn due_in_front<E: Stored>(entries: &[E], bound: u64, u: Reading) -> usize
    ensures { result ≡ length (lead (due bound u.0) (map E.as_held entries.now)) }
{
    for (i, e) in entries.iter().enumerate() {
        if !reached(e.stamp(), bound, u) {
            return i;
        }
    }
    entries.len()
}

// Whether the order's name is held: for the same order, for another, for any. Orders are compared only under one name.
pub fn look<E: Stored>(entries: &[E], x: Held) -> Seen
    ensures same_value { result.same ≡ any (same_held x) (map E.as_held entries.now) }
    ensures other_value { result.other ≡ any (other_held x) (map E.as_held entries.now) }
    ensures named_value { result.named ≡ any (same_name x) (map E.as_held entries.now) }
{
    let mut seen = Seen {
        same: false,
        other: false,
        named: false,
    };
    for e in entries {
        if x.stamp == e.stamp() && x.source == e.source() {
            seen.named = true;
            if x.order == e.held().order {
                seen.same = true;
            } else {
                seen.other = true;
            }
        }
    }
    seen
}
