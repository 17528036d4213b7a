// Writing at a place. Where there is no room for the whole, nothing is written and the answer is false.
ghost use Rattle.std.specs.Prelude.{◌≡◌, ◌+◌, ◌≤◌, length, leb};
ghost use Rattle.std.proofs.lemmas.List.Edits.{sets};
ghost use Rattle.lists.specs.Bytes.{be};
ghost use Rattle.fields.specs.Fields.{field, placed};

use crate::Slot;

// A number in so many bytes.
pub fn put(out: &mut [u8], at: usize, width: u8, x: u64) -> bool
    ensures { (result ≡ leb (at + width) (length out.old)) × (out.new ≡ placed out.old at (be width x)) }
{
    if !has_room(out.len(), at, width as usize) {
        return false;
    }
    store(out, at, width, x);
    true
}

// A number in its slot's field.
pub fn put_slot(out: &mut [u8], at: usize, slot: Slot, x: u64) -> bool
    ensures { (result ≡ leb (at + (3 + slot.width)) (length out.old)) × (out.new ≡ placed out.old at (field slot.tag (be slot.width x))) }
{
    if !has_room(out.len(), at, 3 + slot.width as usize) {
        return false;
    }
    store(out, at, 1, slot.tag as u64);
    store(out, at + 1, 2, slot.width as u64);
    store(out, at + 3, slot.width, x);
    true
}

// Whether n bytes fit at a place, whatever the three are: no sum is made.
fn has_room(len: usize, at: usize, n: usize) -> bool
    ensures { result ≡ leb (at + n) len }
{
    n <= len && at <= len - n
}

// Not by to_be_bytes, which gives eight bytes: the clause of put has any width, and zeros in front past the eighth.
// A compiler turns this loop into one store of the whole number where the width is known.
fn store(out: &mut [u8], at: usize, width: u8, x: u64)
    requires { at + width ≤ length out.old }
    ensures { out.new ≡ sets out.old at (be width x) }
{
    let mut left = x;
    for i in (0..width as usize).rev() {
        out[at + i] = (left % 256) as u8;
        left /= 256;
    }
}
