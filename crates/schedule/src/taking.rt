// The schedule that stands in the records.
ghost use Rattle.std.specs.Prelude.{◌≡◌, ◌+◌, ◌≤◌, ◌<◌};
ghost use Rattle.schedule.specs.Shape.{place};
ghost use Rattle.schedule.specs.Schedule.{link_at, links_of, plan_of, faults_at, offsets_at, schedule_of};
ghost use Rattle.schedule.specs.Inside.{Judged};

use crate::Schedule;
use crate::record::Record;
use crate::shape::Tally;
use crate::walk::Walk;
use network::{Bounds, Faults, Link, NO_LINK, Plan};

// The records of bytes that are a schedule.
#[derive(Clone, Copy)]
pub(crate) struct Records<'a> {
    pub tally: Tally<'a>,
    ghost few_links: { tally.links ≤ 12 },
    ghost few_starts: { tally.starts ≤ 16 },
    ghost enough: { tally.links + tally.starts + 4 ≤ tally.count },
}

impl<'a> Records<'a> {
    pub(crate) fn record(self, k: usize) -> Record<'a>
        requires { k < self.tally.count }
        ensures bytes { result.bytes.now ≡ self.entry.tally.bytes.now }
        ensures place { result.at ≡ place self.entry.tally.bytes.now k }
    {
        let bytes = self.tally.bytes;
        let mut at = 0;
        // Not by a `Walk`, which begins where this ends.
        for _ in 0..k {
            at = Record { bytes, at }.end();
        }
        Record { bytes, at }
    }

    // The records from `first` on, so many of them.
    pub(crate) fn walk(self, first: usize, count: usize) -> Walk<'a>
        requires some { 0 < first }
        requires there { first + count ≤ self.tally.count }
        ensures bytes { result.bytes.now ≡ self.entry.tally.bytes.now }
        ensures first { result.first ≡ first }
        ensures count { result.count ≡ count }
        ensures fresh { result.i ≡ 0 }
    {
        Walk {
            bytes: self.tally.bytes,
            first,
            i: 0,
            count,
            at: self.record(first - 1).end(),
        }
    }

    pub(crate) fn plan(self) -> Plan
        ensures { result ≡ plan_of self.entry.tally.bytes.now }
    {
        let plan = self.record(0);
        Plan {
            hosts: plan.byte(0),
            faulty_hosts: plan.byte(1),
            link_count: self.tally.links as u8,
            faulty_links: plan.byte(2),
            delay: plan.byte(3),
            skew: plan.byte(4),
            links: self.links(),
        }
    }

    fn links(self) -> [Link; 12]
        ensures { result ≡ links_of self.entry.tally.bytes.now self.entry.tally.links }
    {
        let mut links = [NO_LINK; 12];
        for (i, here) in self.walk(1, self.tally.links) {
            links[i] = link_of(here);
        }
        links
    }

    pub(crate) fn schedule(self, plan: Plan, bounds: Bounds) -> Schedule
        requires { Judged self.tally.bytes.now plan bounds }
        ensures { result ≡ schedule_of self.entry.tally.bytes.now }
    {
        let past = self.tally.links;
        let faults = faults_of(self.record(past + 1));
        let offsets = offsets_of(self.record(past + 2), plan.hosts);
        let end = self.record(past + 3).tick();
        Schedule {
            plan,
            bounds,
            faults,
            offsets,
            end,
            start_count: self.tally.starts,
            starts: self.starts(),
            delays: self.delays(),
        }
    }
}

fn link_of(here: Record) -> Link
    ensures { result ≡ link_at here.entry.bytes.now (here.entry.at + 3) }
{
    Link {
        a: here.byte(0),
        b: here.byte(1),
    }
}

fn faults_of(here: Record) -> Faults
    ensures { result ≡ faults_at here.entry.bytes.now (here.entry.at + 3) }
{
    Faults {
        hosts: here.byte(0) as u32,
        links: here.number(1) as u32,
    }
}

fn offsets_of(here: Record, hosts: u8) -> [u8; 8]
    requires { hosts ≤ 8 }
    ensures { result ≡ offsets_at here.entry.bytes.now (here.entry.at + 3) hosts }
{
    let mut offsets = [0u8; 8];
    for i in 0..hosts {
        offsets[i as usize] = here.byte(i);
    }
    offsets
}
