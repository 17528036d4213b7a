// The rules of a schedule (refusal 32).
ghost use Rattle.std.specs.Prelude.{◌≡◌, ◌+◌, ◌≤◌};
ghost use Rattle.lists.specs.Searches.{least};
ghost use Rattle.schedule.specs.Rules.{faults_within, offsets_out, start_out, fate_out, out_at, outside};

use crate::record::{END, FATE, FAULTS, OFFSETS, Record, START};
use crate::taking::Records;
use clock::Tick;
use network::{Faults, Plan};

// What the rules speak of beside the records.
#[derive(Clone, Copy)]
pub(crate) struct Terms {
    pub plan: Plan,
    pub faults: Faults,
    pub end: Tick,
    ghost hosts_few: { plan.hosts ≤ 8 },
    ghost links_few: { plan.link_count ≤ 12 },
}

// A record and the last one before it.
#[derive(Clone, Copy)]
struct Step<'a> {
    last: Record<'a>,
    here: Record<'a>,
    ghost same: { last.bytes.now ≡ here.bytes.now },
}

impl Terms {
    // The first record outside the rules, and the number of records where there is none.
    pub(crate) fn first_outside(self, records: Records) -> usize
        ensures { result ≡ least records.entry.tally.count (outside self.plan self.faults self.end records.entry.tally.bytes.now) }
    {
        let bytes = records.tally.bytes;
        let mut before = 0;
        let mut at = 0;
        // Not by a `Walk`: a step needs the place before too.
        for k in 0..records.tally.count {
            let here = Record { bytes, at };
            let last = Record { bytes, at: before };
            if self.is_out(Step { last, here }) {
                return k;
            }
            before = at;
            at = here.end();
        }
        records.tally.count
    }

    fn is_out(self, step: Step) -> bool
        ensures { result ≡ out_at self.plan self.faults self.end step.entry.here.bytes.now step.entry.last.at step.entry.here.at }
    {
        match step.here.tag() {
            FAULTS => !self.faults_within(),
            OFFSETS => self.offsets_out(step.here),
            END => self.end.0 > 4096,
            START => self.start_out(step),
            FATE => self.fate_out(step),
            _ => false,
        }
    }

    fn faults_within(self) -> bool
        ensures { result ≡ faults_within self.plan self.faults }
    {
        let plan = self.plan;
        let faults = self.faults;
        (faults.hosts < 1u32 << (plan.hosts as u32))
            & (faults.links < 1u32 << (plan.link_count as u32))
            & (u32::count_ones(faults.hosts) <= plan.faulty_hosts as u32)
            & (u32::count_ones(faults.links) <= plan.faulty_links as u32)
    }

    // Whether some offset is ε or more.
    fn offsets_out(self, here: Record) -> bool
        ensures { result ≡ offsets_out self.plan here.entry.bytes.now (here.entry.at + 3) }
    {
        (0..self.plan.hosts).any(|i| here.byte(i) >= self.plan.skew)
    }

    // A start past the end, or before the start that it follows.
    fn start_out(self, step: Step) -> bool
        ensures { result ≡ start_out self.end step.entry.here.bytes.now step.entry.last.at step.entry.here.at }
    {
        let tick = step.here.tick();
        let last = step.last.tick();
        (self.end < tick) | ((step.last.tag() == START) & (tick < last))
    }

    // A delay above δ, a lost copy where nothing is faulty, or a fate not above the one that it follows.
    fn fate_out(self, step: Step) -> bool
        ensures { result ≡ fate_out self.plan self.faults step.entry.here.bytes.now step.entry.last.at step.entry.here.at }
    {
        let link = step.here.byte(1);
        let delay = step.here.byte(3);
        let copy = step.here.copy();
        let last = step.last.copy();
        (delay > self.plan.delay)
            | ((delay == 0) & network::link_survives(self.plan, self.faults, link))
            | ((step.last.tag() == FATE) & (copy <= last))
    }
}
