// The rows of standard input, a call to a line: nine numbers, which are the call, the reading, the link of arrival, the hop, the stamp, the source,
// and the order's kind, image and share. To make a host, the source is the network, the kind the rule set, and the share the host's number; a tick's
// stamp is the length lent; to set a part of the state, the stamp is its value and the source its place. A line with a # is a comment.
ghost use Rattle.std.specs.Prelude.{◌<◌};

use crate::calls::{Call, Part, run, zero};
use clock::Reading;
use host::Held;
use network::Link;
use orders::{Order, order_of};
use std::io;
use std::io::Read;

pub(crate) fn each(rt: &impl Print, input: impl Read + Drop) -> io::Result<()> {
    let mut bytes = [0u8; 65536];
    let n = io::copy(&mut input.take(65536), &mut &mut bytes[..])?;
    let mut host = zero();
    let text = &bytes[..n.min(65536) as usize];
    for line in text.split_inclusive(|byte| *byte == b'\n') {
        if let Some(row) = row(line) {
            run(rt, &mut host, call(row))?;
        }
    }
    Ok(())
}

// The nine numbers of a line, each behind one space but the first; none where it is a comment, has fewer or more, or does not end.
fn row(line: &[u8]) -> Option<[u64; 9]> {
    let (end, text) = line.split_last()?;
    if *end != b'\n' || text.contains(&b'#') {
        return None;
    }
    let mut words = text.split(|byte| *byte == b' ');
    let mut row = [0u64; 9];
    for cell in &mut row {
        *cell = number(words.next()?);
    }
    match words.next() {
        Some(_) => None,
        None => Some(row),
    }
}

// The last nineteen digits of a number. Not by `parse`, which refuses a longer one, and a byte that is no digit.
fn number(word: &[u8]) -> u64 {
    word.iter().fold(0, |n, byte| {
        n % 1_000_000_000_000_000_000 * 10 + digit(*byte)
    })
}

fn digit(byte: u8) -> u64
    ensures { result < 10 }
{
    u64::from(byte.saturating_sub(b'0') % 10)
}

// The call is 0 to make, 1 to start, 2 to receive, 3 to tick; 4 to 15 set a part of the state, and any other fills the history.
fn call(row: [u64; 9]) -> Call {
    let [call, u, arrival, hop, stamp, source, kind, _, share] = row;
    let u = Reading(u);
    let order = order(row);
    match small(call) {
        0 => Call::Make {
            network: small(source),
            rules: small(kind),
            own: small(share),
        },
        1 => Call::Start { u, order },
        2 => Call::Receive {
            u,
            arrival: small(arrival),
            hop: small(hop),
            copy: Held {
                stamp: Reading(stamp),
                source: small(source),
                order,
            },
        },
        3 => Call::Tick {
            u,
            room: (stamp % 601) as usize,
        },
        4..=15 => Call::Set(part(row)),
        _ => Call::Fill(stamp % 40),
    }
}

fn part(row: [u64; 9]) -> Part {
    let [call, u, _, hop, stamp, source, ..] = row;
    let at = (source % 4) as usize;
    match small(call) {
        4 => Part::D(small(stamp)),
        5 => Part::Bound(stamp),
        6 => Part::Own(small(stamp)),
        7 => Part::Rules(small(stamp)),
        8 => Part::Last(Reading(stamp)),
        9 => Part::Started((stamp % 9) as usize),
        10 => Part::HeldCount((stamp % 40) as usize),
        11 => Part::Start(at, Reading(stamp)),
        12 => Part::Entry(
            at,
            Held {
                stamp: Reading(u),
                source: small(hop),
                order: order(row),
            },
        ),
        13 => Part::Joined(at, link(small(stamp), 2)),
        14 => Part::Skew(small(stamp)),
        _ => Part::Joined(11, link(0, small(stamp))),
    }
}

fn order(row: [u64; 9]) -> Order {
    let [.., kind, image, share] = row;
    order_of(small(kind), (image % 4_294_967_296) as u32, small(share))
}

fn link(a: u8, b: u8) -> Link {
    Link { a, b }
}

fn small(number: u64) -> u8 {
    (number % 256) as u8
}
