// Reading a field. Every place is good: a byte past the end counts as 0, and a field past the end is cut short.
ghost use Rattle.std.specs.Prelude.{◌≡◌, min, get_or};
ghost use Rattle.lists.specs.Tests.{first_of};
ghost use Rattle.fields.specs.Fields.{number_at, cut, head_checks, value_checks};
ghost use Rattle.fields.specs.Faults.{verdict};
ghost use Rattle.fields.specs.Slots.{slot_checks};

use crate::{Fault, Slot};

// The byte at a place, and 0 past the end.
pub fn byte_at(bytes: &[u8], at: usize) -> u8
    ensures { result ≡ get_or bytes.now at 0 }
{
    bytes.get(at).copied().unwrap_or(0)
}

// The number in the bytes from a place on, of which it has 8 at most.
pub fn value_at(bytes: &[u8], at: usize, width: u8) -> u64
    ensures { result ≡ number_at bytes.now at width }
{
    if bytes.len() <= at {
        return 0;
    }
    let mut x = 0;
    for i in 0..width.min(8) as usize {
        x = x * 256 + byte_at(bytes, at + i) as u64;
    }
    x
}

// Whether the head of a field, or the length that it states, runs past the end.
fn is_cut(bytes: &[u8], at: usize) -> bool
    ensures { result ≡ cut bytes.now at }
{
    bytes.len() < 3
        || bytes.len() - 3 < at
        || bytes.len() - 3 - at < value_at(bytes, at + 1, 2) as usize
}

// What is wrong with the head of a field: cut short, then another tag.
pub fn head_fault(bytes: &[u8], at: usize, tag: u8) -> Result<(), Fault>
    ensures { verdict result ≡ first_of (head_checks bytes.now at tag) }
{
    if is_cut(bytes, at) {
        return Err(Fault::CutShort);
    }
    if byte_at(bytes, at) != tag {
        return Err(Fault::WrongTag);
    }
    Ok(())
}

// What is wrong with the field of a slot: its head, then its length, then its value.
pub fn slot_fault(bytes: &[u8], at: usize, slot: Slot) -> Result<(), Fault>
    ensures { verdict result ≡ first_of (slot_checks bytes.now at slot) }
{
    head_fault(bytes, at, slot.tag)?;
    let mismatch = value_at(bytes, at + 1, 2) != slot.width as u64;
    let x = value_at(bytes, at + 3, slot.width);
    value_fault(mismatch, !(slot.least..=slot.largest).contains(&x))
}

// What is wrong past the head, by whether the length is another and whether the value is outside its range.
pub fn value_fault(mismatch: bool, outside: bool) -> Result<(), Fault>
    ensures { verdict result ≡ first_of (value_checks mismatch outside) }
{
    if mismatch {
        return Err(Fault::WrongLength);
    }
    if outside {
        return Err(Fault::WrongValue);
    }
    Ok(())
}
