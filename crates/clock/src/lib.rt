// Clock readings and real ticks are never added or compared as if they were one thing: only a host's offset turns one into the other.
#![tactic(auto)]

ghost use Rattle.std.specs.Prelude.{◌≡◌, ◌+◌, leb};
ghost use Rattle.clock.specs.Clock.{largest_reading, largest_stamp, shown, showing};

// What a host's clock shows.
#[repr(C)]
#[derive(Clone, Copy, Debug, PartialEq, Eq, PartialOrd, Ord)]
pub struct Reading(pub u64);

// Real time.
#[derive(Clone, Copy, Debug, PartialEq, Eq, PartialOrd, Ord)]
pub struct Tick(pub u64);

pub const LARGEST_READING: u64 = 1_099_511_627_775;

pub const LARGEST_STAMP: u64 = 1_099_511_623_679;

// The reading at a tick on a clock of this offset, unless it is past the largest reading.
pub fn reading_at(tick: Tick, offset: u8) -> Option<Reading>
    ensures { result ≡ shown tick offset }
{
    let reading = Reading(tick.0.checked_add(u64::from(offset))?);
    is_reading(reading).then_some(reading)
}

// The tick at which a clock of this offset shows a reading; one that it is set past, or cannot show, it shows at none.
pub fn tick_at(reading: Reading, offset: u8) -> Option<Tick>
    ensures { result ≡ showing reading offset }
{
    let tick = Tick(reading.0.checked_sub(u64::from(offset))?);
    is_reading(reading).then_some(tick)
}

// Whether a reading is in range.
pub fn is_reading(reading: Reading) -> bool
    ensures { result ≡ leb reading.0 largest_reading }
{
    reading.0 <= LARGEST_READING
}

// Whether a reading can be a stamp.
pub fn is_stamp(reading: Reading) -> bool
    ensures { result ≡ leb reading.0 largest_stamp }
{
    reading.0 <= LARGEST_STAMP
}

// Whether the reading `from` with a span added is at most the reading `now`, whatever the three are: no sum is made.
pub fn reached(from: Reading, span: u64, at: Reading) -> bool
    ensures { result ≡ leb (from.0 + span) at.0 }
{
    span <= at.0 && from.0 <= at.0 - span
}
