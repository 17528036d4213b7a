// A schedule, read from any bytes: the plan, the fault set, the clocks' offsets, the starts and the delay of each copy; or what is wrong first.
#![tactic(auto)]

mod answers;
mod fates;
mod record;
mod rules;
mod shape;
mod starts;
mod steps;
mod taking;
mod walk;

ghost use Rattle.std.specs.Prelude.{◌≡◌};
ghost use Rattle.schedule.specs.Calls.{says, found, answered, schedule_read};

use crate::rules::Terms;
use crate::shape::Tally;
use crate::starts::NO_START;
use crate::taking::Records;
pub use answers::{index_of, number_of};
use clock::Tick;
use network::{Bounds, Faults, NO_PLAN, Plan, PlanRefusal, Timing};
use orders::Order;

// An order started on a host at a tick.
#[derive(Clone, Copy)]
pub struct Start {
    pub tick: Tick,
    pub host: u8,
    pub order: Order,
}

// No heap: places and a count.
#[derive(Clone, Copy)]
pub struct Schedule {
    pub plan: Plan,
    pub bounds: Bounds, // what planning finds
    pub faults: Faults,
    pub offsets: [u8; 8],
    pub end: Tick,
    pub start_count: usize,
    pub starts: [Start; 16],
    pub delays: [u8; 384], // of each copy, by start, link and direction; 0 is lost: a number, as definition schedule_read has it
}

// Why bytes are refused.
#[derive(Clone, Copy, Debug, PartialEq, Eq)]
pub enum Refusal {
    NotASchedule,
    Plan(PlanRefusal),
    OutsideRules(usize), // the index of the first record outside the rules
}

impl From<PlanRefusal> for Refusal {
    ghost use Rattle.schedule.specs.declared.Refusal.TheVariants.{Plan};

    ghost from_gives = { λ plan refusal. refusal ≡ Plan plan };

    fn from(plan: PlanRefusal) -> Refusal {
        Refusal::Plan(plan)
    }
}

// The longest schedule, in bytes.
const LONGEST: usize = 8192;

// 31, or 1 to 3 by planning, or 32 with the index of the first record outside the rules, or the schedule; for any bytes.
pub fn read(bytes: &[u8]) -> Result<Schedule, Refusal>
    ensures numbers { says result ≡ answered bytes.now }
    ensures schedule { found result ≡ schedule_read bytes.now }
{
    if bytes.len() > LONGEST {
        return Err(Refusal::NotASchedule);
    }
    let tally = Tally::of(bytes);
    if !tally.is_schedule() {
        return Err(Refusal::NotASchedule);
    }
    let records = Records { tally };
    let plan = records.plan();
    let bounds = network::planning::plan(plan)?;
    let schedule = records.schedule(plan, bounds);
    let terms = Terms {
        plan,
        faults: schedule.faults,
        end: schedule.end,
    };
    let first = terms.first_outside(records);
    if first < tally.count {
        return Err(Refusal::OutsideRules(first));
    }
    Ok(schedule)
}

// The schedule of what `read` answers; of a refusal the one that is zero everywhere.
pub fn found(answer: Result<Schedule, Refusal>) -> Schedule
    ensures { result ≡ found answer }
{
    match answer {
        Ok(schedule) => schedule,
        Err(_) => NOTHING,
    }
}

const NO_TIMING: Timing = Timing {
    bound: 0,
    window: 0,
};

const NOTHING: Schedule = Schedule {
    plan: NO_PLAN,
    bounds: Bounds {
        d: 0,
        first: NO_TIMING,
        second: NO_TIMING,
    },
    faults: Faults { hosts: 0, links: 0 },
    offsets: [0; 8],
    end: Tick(0),
    start_count: 0,
    starts: [NO_START; 16],
    delays: [0; 384],
};
