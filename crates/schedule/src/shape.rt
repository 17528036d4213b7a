// Which bytes are a schedule (refusal 31): records one after the other, their tags in order, and each as its tag asks.
ghost use Rattle.std.specs.Prelude.{◌≡◌, ◌+◌, ◌≤◌, length};
ghost use Rattle.lists.specs.Searches.{each};
ghost use Rattle.fields.specs.Fields.{stated_at};
ghost use Rattle.schedule.specs.Shape as spec;

use crate::record::{END, FATE, FAULTS, LINK, OFFSETS, PLAN, Record, START};

// The records of bytes that are not too long: how many there are, how many of them are links and starts, and where the last one ends.
#[derive(Clone, Copy)]
pub(crate) struct Tally<'a> {
    pub bytes: &'a [u8],
    pub count: usize,
    pub links: usize,
    pub starts: usize,
    pub end: usize,
    ghost short: { length bytes.now ≤ 8192 },
    ghost few: { count ≤ 8192 },
    ghost few_links: { links ≤ count },
    ghost few_starts: { starts ≤ count },
    ghost count_is: { count ≡ spec.records bytes.now },
    ghost links_are: { links ≡ spec.links bytes.now },
    ghost starts_are: { starts ≡ spec.starts bytes.now },
    ghost end_is: { end ≡ spec.place bytes.now count },
}

impl<'a> Tally<'a> {
    pub(crate) fn of(bytes: &'a [u8]) -> Self
        requires { length bytes.now ≤ 8192 }
        ensures { result.bytes.now ≡ bytes.now }
    {
        let mut count = 0;
        let mut links = 0;
        let mut starts = 0;
        let mut end = 0;
        // No `for`: how many records there are is what the walk finds.
        while end < bytes.len() {
            let here = Record { bytes, at: end };
            let tag = here.tag();
            count += 1;
            links += usize::from(tag == LINK);
            starts += usize::from(tag == START);
            end = here.end();
        }
        Tally {
            bytes,
            count,
            links,
            starts,
            end,
        }
    }

    pub(crate) fn is_schedule(self) -> bool
        ensures { result ≡ spec.is_schedule self.entry.bytes.now }
    {
        (self.end == self.bytes.len())
            & (self.links <= 12)
            & (self.starts <= 16)
            & (self.links + self.starts + 4 <= self.count)
            & self.all_right()
    }

    fn all_right(self) -> bool
        ensures { result ≡ each (spec.records self.entry.bytes.now) (spec.right self.entry.bytes.now) }
    {
        let bytes = self.bytes;
        let mut at = 0;
        for k in 0..self.count {
            let here = Record { bytes, at };
            if !self.is_right(k, here) {
                return false;
            }
            at = here.end();
        }
        true
    }

    // Whether record k has the tag of its turn and is as that tag asks.
    fn is_right(self, k: usize, here: Record) -> bool
        ensures { result ≡ spec.right_at here.entry.bytes.now self.entry.links self.entry.starts k here.entry.at }
    {
        (here.tag() == self.tag_of(k)) & self.fits(here)
    }

    // The tag of record k among so many links and starts.
    fn tag_of(self, k: usize) -> u8
        ensures { result ≡ spec.tag_among self.entry.links self.entry.starts k }
    {
        if k == 0 {
            return PLAN;
        }
        if k <= self.links {
            return LINK;
        }
        if k == self.links + 1 {
            return FAULTS;
        }
        if k == self.links + 2 {
            return OFFSETS;
        }
        if k == self.links + 3 {
            return END;
        }
        if k < self.links + self.starts + 4 {
            return START;
        }
        FATE
    }

    fn fits(self, here: Record) -> bool
        ensures { result ≡ spec.fits_at here.entry.bytes.now self.entry.links self.entry.starts here.entry.at }
    {
        let size = here.size();
        match here.tag() {
            PLAN => size == 5,
            LINK => size == 2,
            FAULTS => size == 3,
            OFFSETS => size == here.hosts() as u16,
            END => size == 2,
            START => start_fits(here),
            _ => self.fate_fits(here),
        }
    }

    // A fate's start and link are there, and its direction is 0 or 1.
    fn fate_fits(self, here: Record) -> bool
        ensures { result ≡ spec.fate_fits here.entry.bytes.now self.entry.links self.entry.starts (here.entry.at + 3) (stated_at here.entry.bytes.now here.entry.at) }
    {
        let start = here.byte(0) as usize;
        let link = here.byte(1) as usize;
        let direction = here.byte(2);
        (here.size() == 4) & (start < self.starts) & (link < self.links) & (direction <= 1)
    }
}

// A start's host is one of n, and its order is one.
fn start_fits(here: Record) -> bool
    ensures { result ≡ spec.start_fits here.entry.bytes.now (here.entry.at + 3) (stated_at here.entry.bytes.now here.entry.at) }
{
    let kind = here.byte(3);
    let share = here.byte(8);
    let order = here.size().saturating_sub(3); // what is left of it past the host
    (here.byte(2) < here.hosts())
        & !orders::wrong_size(kind, order as usize)
        & !orders::wrong_value(kind, share)
}
