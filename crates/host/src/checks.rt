// A refusal: where one is given, and its number.
ghost use Rattle.std.specs.Prelude.{◌≡◌, cond, Some};
ghost use Rattle.host.specs.Answers.{number, of_plan, words};

use crate::Refusal;
use network::PlanRefusal;
use std::fmt;

// One check of an order of checks: the first test that passes gives its refusal.
pub(crate) fn refuse_if(test: bool, refusal: Refusal) -> Result<(), Refusal>
    ensures { result ≡ cond test (Err refusal) (Ok tt) }
{
    if test { Err(refusal) } else { Ok(()) }
}

// The build paper's number of a refusal.
pub fn number_of(refusal: Refusal) -> u8
    ensures { result ≡ number refusal }
{
    refusal as u8
}

impl From<Refusal> for u8 {
    ghost from_gives = { λ refusal n. n ≡ number refusal };

    fn from(refusal: Refusal) -> u8 {
        number_of(refusal)
    }
}

// Planning's refusals come first, as a making's.
impl From<PlanRefusal> for Refusal {
    ghost from_gives = { λ plan refusal. refusal ≡ of_plan plan };

    fn from(plan: PlanRefusal) -> Refusal {
        match plan {
            PlanRefusal::OutOfRange => Refusal::OutOfRange,
            PlanRefusal::BadLink => Refusal::BadLink,
            PlanRefusal::Parted => Refusal::Parted,
        }
    }
}

impl fmt::Display for Refusal {
    ghost output = { λ refusal. Some (words refusal) };

    fn fmt<W: fmt::Write>(&self, f: &mut fmt::Formatter<W>) -> fmt::Result {
        match self {
            Refusal::OutOfRange => write!(f, "plan number out of range"),
            Refusal::BadLink => write!(f, "plan link of no two hosts, or twice"),
            Refusal::Parted => write!(f, "plan parted by a fault set"),
            Refusal::Unsound => write!(f, "state not sound"),
            Refusal::BadReading => write!(f, "reading out of range"),
            Refusal::Behind => write!(f, "reading less than the last"),
            Refusal::SameStart => write!(f, "start at the reading of the last start"),
            Refusal::WindowFull => write!(f, "fourth last start within the window"),
            Refusal::HistoryFull => write!(f, "32 orders held"),
            Refusal::NotInPlan => write!(f, "host, link or source not in the plan"),
            Refusal::Early => write!(f, "copy too early for its hop"),
            Refusal::Late => write!(f, "copy too late for its hop"),
            Refusal::Past => write!(f, "copy past its bound"),
            Refusal::Known => write!(f, "same order held under the name"),
            Refusal::OtherHeld => write!(f, "other order held under the name"),
            Refusal::OwnNotHeld => write!(f, "own order not held"),
            Refusal::ShortBuffer => write!(f, "lent buffer too short"),
            Refusal::BadValue => write!(f, "rule set, stamp, hop or share out of range"),
        }
    }
}
