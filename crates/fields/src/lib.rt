// Fields of a one-byte tag, a two-byte length and the value, read and written at any place of a slice.
#![tactic(auto)]

mod read;
mod write;

ghost use Rattle.std.specs.Prelude.{◌≡◌};
ghost use Rattle.fields.specs.Faults.{fault};

pub use read::{byte_at, head_fault, slot_fault, value_at, value_fault};
pub use write::{put, put_slot};

// What is wrong with a field, under the build paper's number; and bytes after the last one.
#[derive(Clone, Copy, Debug, PartialEq, Eq)]
pub enum Fault {
    CutShort = 33,
    WrongTag = 34,
    WrongLength = 35,
    WrongValue = 36,
    LeftOver = 37,
}

impl From<Fault> for u8 {
    ghost from_gives = { λ f n. n ≡ fault f };

    fn from(f: Fault) -> u8 {
        f as u8
    }
}

// A field that holds one number: its tag, its bytes, and its least and largest value.
#[derive(Clone, Copy)]
pub struct Slot {
    pub tag: u8,
    pub width: u8,
    pub least: u64,
    pub largest: u64,
}
