// Bytes near a message, read again.
use crate::text;
use message::{Message, ReadRefusal};
use std::io;

// Refused 30; read, and written back to the same bytes; neither.
#[derive(Clone, Copy, Default)]
pub(crate) struct Tally {
    pub refused: u32,
    pub same: u32,
    pub wrong: u32,
}

// How many messages came back the same, and sums over bytes.
#[derive(Clone, Copy, Default)]
pub(crate) struct Sums {
    pub same: u32,
    pub bytes: u64,
    pub orders: u64,
}

pub(crate) fn print(rt: &impl Print, name: &str, tally: Tally) -> io::Result<()> {
    text::word(rt, name)?;
    text::number(rt, tally.refused as u64)?;
    text::number(rt, tally.same as u64)?;
    text::number(rt, tally.wrong as u64)?;
    text::line(rt, "")
}

// Each of the first n bytes from a place on set to each value, one at a time.
pub(crate) fn each_byte(rules: u8, bytes: &mut [u8], from: usize, n: usize) -> Tally {
    let mut tally = Tally::default();
    for at in from..n.min(bytes.len()) {
        let old = bytes[at];
        for value in 0..=u8::MAX {
            bytes[at] = value;
            tally = read_again(rules, first(bytes, n), tally);
        }
        bytes[at] = old;
    }
    tally
}

// Each part from the front that is shorter than n.
pub(crate) fn each_cut(rules: u8, bytes: &[u8], n: usize) -> Tally {
    let mut tally = Tally::default();
    for i in 0..n {
        tally = read_again(rules, first(bytes, i), tally);
    }
    tally
}

// The first n bytes, and all of them where there are fewer.
pub(crate) fn first(bytes: &[u8], n: usize) -> &[u8] {
    &bytes[..n.min(bytes.len())]
}

fn read_again(rules: u8, bytes: &[u8], tally: Tally) -> Tally {
    let mut t = tally;
    let count = match message::read(rules, bytes) {
        Ok(found) if writes_back(rules, found.message, bytes) => &mut t.same,
        Err(ReadRefusal::NotAMessage) => &mut t.refused,
        _ => &mut t.wrong,
    };
    *count = count.wrapping_add(1);
    t
}

fn writes_back(rules: u8, message: Message, bytes: &[u8]) -> bool {
    let mut again = [0u8; 32];
    message::write(rules, message, &mut again).is_ok_and(|n| first(&again, n) == bytes)
}

// A message written and read, with its bytes and its order's bytes added to the sums.
pub(crate) fn again(rules: u8, message: Message, sums: Sums) -> Sums {
    let mut bytes = [0u8; 32];
    let Ok(n) = message::write(rules, message, &mut bytes) else {
        return sums;
    };
    let whole = first(&bytes, n);
    let same = message::read(rules, whole).is_ok_and(|found| found.message == message);
    Sums {
        same: sums.same.wrapping_add(u32::from(same)),
        bytes: digest(whole, sums.bytes),
        orders: digest(message::order_part(rules, whole), sums.orders),
    }
}

fn digest(bytes: &[u8], start: u64) -> u64 {
    bytes.iter().fold(
        start,
        |sum, byte| (sum % 1_000_003 * 257 + *byte as u64) % 1_000_003,
    )
}
