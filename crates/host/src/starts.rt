// The last four starts, oldest first. Places and count are apart, as in Host, whose fields are public, and in C's HostMemory.
ghost use Rattle.std.specs.Prelude.{◌≡◌, ◌+◌, ◌-◌, ◌≤◌, take, get_or};
ghost use Rattle.lists.specs.Lists.{all, rising, pad};
ghost use Rattle.host.specs.State.{no_reading, earlier, not_above};
ghost use Rattle.host.specs.Start.{with_start};

use clock::Reading;

// The last start; any reading where there is none, and the zero reading where its place is past the last.
pub fn newest(starts: [Reading; 4], started: usize) -> Reading
    ensures { result ≡ get_or starts (started - 1) no_reading }
{
    starts
        .get(started.saturating_sub(1))
        .copied()
        .unwrap_or(Reading(0))
}

// Whether the starts rise strictly.
pub(crate) fn starts_rise(starts: [Reading; 4], started: usize) -> bool
    requires { started ≤ 4 }
    ensures { result ≡ rising earlier (take started starts) }
{
    // is_sorted_by was tried, and is slower.
    let mut ok = true;
    let mut previous = starts[0];
    for (i, s) in starts[..started].iter().enumerate() {
        ok = ok & ((i == 0) | is_earlier(previous, *s));
        previous = *s;
    }
    ok
}

fn is_earlier(s: Reading, t: Reading) -> bool
    ensures { result ≡ earlier s t }
{
    s < t
}

// Whether no start is above the last reading.
pub(crate) fn starts_passed(starts: [Reading; 4], started: usize, last: Reading) -> bool
    requires { started ≤ 4 }
    ensures { result ≡ all (not_above last.0) (take started starts) }
{
    starts[..started].iter().all(|s| is_passed(*s, last))
}

fn is_passed(s: Reading, last: Reading) -> bool
    ensures { result ≡ not_above last.0 s }
{
    s <= last
}

// The last four starts with one more; the places behind them zero.
pub fn with_start(starts: [Reading; 4], started: usize, u: Reading) -> [Reading; 4]
    ensures { result ≡ pad 4 no_reading (with_start (take started starts) u) }
{
    let none = Reading(0);
    match started {
        0 => [u, none, none, none],
        1 => [starts[0], u, none, none],
        2 => [starts[0], starts[1], u, none],
        3 => [starts[0], starts[1], starts[2], u],
        _ => [starts[1], starts[2], starts[3], u],
    }
}

// How many starts are then kept.
pub fn one_more(started: usize) -> usize
    ensures { result ≡ started - (started - 3) + 1 }
{
    started.min(3) + 1
}
