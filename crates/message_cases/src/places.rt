// What a reader answers at each field of a message, and the place that it comes to.
use crate::text;
use message::Reader;
use std::io;

// Stamp, source and hop, whatever the rules: each its fault or 0, its number, and the place. Then the order's bytes.
pub(crate) fn print(rt: &impl Print, rules: u8, bytes: &[u8]) -> io::Result<()> {
    text::word(rt, "reader")?;
    let mut reader = Reader::open(bytes);
    for slot in [message::STAMP, message::SOURCE, message::HOP] {
        let (fault, x) = match reader.next_number(slot) {
            Ok(x) => (0, x),
            Err(fault) => (u8::from(fault), 0),
        };
        text::number(rt, fault as u64)?;
        text::number(rt, x)?;
        text::number(rt, reader.at as u64)?;
    }
    text::line(rt, "")?;
    text::hex(rt, reader.order_bytes(rules))?;
    text::line(rt, "")
}
