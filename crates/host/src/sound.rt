// Which states are sound: all but the history, and the history.
ghost use Rattle.std.specs.Prelude.{◌≡◌};
ghost use Rattle.host.specs.State.{bare, frame_of, framed, sound};

use crate::starts::{starts_passed, starts_rise};
use crate::unused::{links_unused, starts_unused};
use crate::walks::is_sound_in;
use crate::{Frame, Host};
use network::{bound, is_proper};
use orders::is_rules;

// Whether a state is sound.
pub fn is_sound(host: Host) -> bool
    ensures { result ≡ sound host }
{
    is_lent_sound(&host)
}

pub(crate) fn is_lent_sound(host: &Host) -> bool
    ensures { result ≡ sound host.now }
{
    is_sound_in(frame_of(host), &host.history)
}

// A state but for its history.
pub(crate) fn frame_of(host: &Host) -> Frame
    ensures { result ≡ frame_of host.now }
{
    Frame {
        plan: host.plan,
        rules: host.rules,
        d: host.d,
        bound: host.bound,
        own: host.own,
        last: host.last,
        started: host.started,
        starts: host.starts,
        held: host.held,
    }
}

// Whether all of a state but its history is sound: the tests in the order in which the build paper lists them.
pub fn is_framed(frame: Frame) -> bool
    ensures { result ≡ framed (bare frame) }
{
    let started = frame.started;
    if started > 4 {
        return false;
    }
    let plan = frame.plan;
    let links = plan.links;
    let starts = frame.starts;
    is_proper(plan)
        & (1 <= frame.d)
        & (frame.d <= 7)
        & (frame.bound == bound(frame.rules, plan, frame.d))
        & (started <= 4)
        & starts_rise(starts, started)
        & starts_passed(starts, started, frame.last)
        & is_rules(frame.rules)
        & (frame.own < plan.hosts)
        & links_unused(links, usize::from(plan.link_count))
        & starts_unused(starts, started)
}
