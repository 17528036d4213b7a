// What planning answers.
ghost use Rattle.std.specs.Prelude.{◌≡◌, Some};
ghost use Rattle.network.specs.Network.{planned, says, number, words, timing};

use crate::proper::{ProperPlan, has_bad_link, in_range};
use crate::rules::{bound, window};
use crate::worst::worst_of;
use crate::{Bounds, Plan, PlanRefusal, Timing};
use std::fmt;

// Refusal 1, 2 or 3 in that order, or d with each rule set's Δ and W; for every plan, whatever its bytes.
pub fn plan(p: Plan) -> Result<Bounds, PlanRefusal>
    ensures { says result ≡ planned p }
{
    if !in_range(p) {
        return Err(PlanRefusal::OutOfRange);
    }
    if has_bad_link(p) {
        return Err(PlanRefusal::BadLink);
    }
    let d = worst_of(ProperPlan { plan: p });
    if d >= p.hosts {
        return Err(PlanRefusal::Parted);
    }
    Ok(Bounds {
        d,
        first: timing_of(1, p, d),
        second: timing_of(2, p, d),
    })
}

fn timing_of(rules: u8, p: Plan, d: u8) -> Timing
    ensures { result ≡ timing rules p d }
{
    Timing {
        bound: bound(rules, p, d),
        window: window(rules, p, d),
    }
}

impl From<PlanRefusal> for u8 {
    ghost from_gives = { λ refusal r. r ≡ number refusal };

    fn from(refusal: PlanRefusal) -> u8 {
        refusal as u8
    }
}

impl fmt::Display for PlanRefusal {
    ghost output = { λ refusal. Some (words refusal) };

    fn fmt<W: fmt::Write>(&self, f: &mut fmt::Formatter<W>) -> fmt::Result {
        match self {
            PlanRefusal::OutOfRange => write!(f, "plan number out of range"),
            PlanRefusal::BadLink => write!(f, "plan link of no two hosts, or twice"),
            PlanRefusal::Parted => write!(f, "plan parted by a fault set"),
        }
    }
}
