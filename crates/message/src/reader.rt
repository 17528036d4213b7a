// The reader, which keeps the message it was lent and its place in it.
ghost use Rattle.std.specs.Prelude.{◌≡◌};
ghost use Rattle.message.specs.Calls.{read_says, read_of, part_of, place_of};
ghost use Rattle.message.specs.Reader.{opened, number_says, next_number, moved};

use crate::{Found, ReadRefusal};
use fields::{Fault, Slot};

#[derive(Clone, Copy)]
pub struct Reader<'a> {
    pub message: &'a [u8],
    pub at: usize,
}

impl<'a> Reader<'a> {
    // A reader at the start of a message.
    pub fn open(message: &'a [u8]) -> Reader<'a>
        ensures { result ≡ opened message.entry }
    {
        Reader { message, at: 0 }
    }

    // The number in the next field, past which the place moves; at a fault it stays.
    pub fn next_number(&mut self, slot: Slot) -> Result<u64, Fault>
        ensures { (number_says result ≡ next_number self.old.message.now self.old.at slot) × (self.new ≡ moved self.old slot) }
    {
        fields::slot_fault(self.message, self.at, slot)?;
        let start = self.at + 3;
        self.at = start + slot.width as usize;
        Ok(fields::value_at(self.message, start, slot.width))
    }

    // The whole message, wherever the place is.
    pub fn whole(self, rules: u8) -> Result<Found, ReadRefusal>
        ensures { read_says result ≡ read_of rules self.entry.message.now }
    {
        crate::read(rules, self.message)
    }

    // The order's bytes, as that part of the message, wherever the place is.
    pub fn order_bytes(self, rules: u8) -> &'a [u8]
        ensures { (result.ref_ptr ≡ place_of rules self.entry.message.now self.entry.message.ref_ptr) × (result.now ≡ part_of rules self.entry.message.now) }
    {
        crate::order_part(rules, self.message)
    }
}
