// A record of a schedule: a tag of one byte, a length of two, and its value.
ghost use Rattle.std.specs.Prelude.{◌≡◌, ◌+◌, ◌≤◌, get_or};
ghost use Rattle.lists.specs.Bytes.{val_at};
ghost use Rattle.fields.specs.Fields.{stated_at};
ghost use Rattle.schedule.specs.Shape.{hosts};
ghost use Rattle.schedule.specs.Schedule.{tick_at, copy_at};

use clock::Tick;

// The tags, in the order in which they stand. Numbers: bytes may have any tag, and an enum would need a case for the rest.
pub(crate) const PLAN: u8 = 16;

pub(crate) const LINK: u8 = 17;

pub(crate) const FAULTS: u8 = 18;

pub(crate) const OFFSETS: u8 = 19;

pub(crate) const END: u8 = 20;

pub(crate) const START: u8 = 21;

pub(crate) const FATE: u8 = 22;

// The record that begins at a place of a schedule; zero past the last byte.
#[derive(Clone, Copy)]
pub(crate) struct Record<'a> {
    pub bytes: &'a [u8],
    pub at: usize,
    ghost low: { at ≤ 8192 },
}

impl<'a> Record<'a> {
    pub(crate) fn tag(self) -> u8
        ensures { result ≡ get_or self.entry.bytes.now self.entry.at 0 }
    {
        fields::byte_at(self.bytes, self.at)
    }

    // How long its value is, as it states.
    pub(crate) fn size(self) -> u16
        ensures { result ≡ stated_at self.entry.bytes.now self.entry.at }
    {
        number_at(self.bytes, self.at + 1)
    }

    // n, which stands in the first record.
    pub(crate) fn hosts(self) -> u8
        ensures { result ≡ hosts self.entry.bytes.now }
    {
        fields::byte_at(self.bytes, 3)
    }

    // Byte i of its value.
    pub(crate) fn byte(self, i: u8) -> u8
        ensures { result ≡ get_or self.entry.bytes.now (self.entry.at + 3 + i) 0 }
    {
        fields::byte_at(self.bytes, self.at + 3 + i as usize)
    }

    // The number in two bytes from byte i of its value on.
    pub(crate) fn number(self, i: u8) -> u16
        ensures { result ≡ val_at self.entry.bytes.now (self.entry.at + 3 + i) 2 }
    {
        number_at(self.bytes, self.at + 3 + i as usize)
    }

    // The tick that begins its value.
    pub(crate) fn tick(self) -> Tick
        ensures { result ≡ tick_at self.entry.bytes.now (self.entry.at + 3) }
    {
        Tick(self.number(0) as u64)
    }

    // The copy of a fate.
    pub(crate) fn copy(self) -> usize
        ensures { result ≡ copy_at self.entry.bytes.now (self.entry.at + 3) }
    {
        let start = self.byte(0) as usize;
        let link = self.byte(1) as usize;
        let direction = self.byte(2) as usize;
        (start * 12 + link) * 2 + direction
    }

    // Where the next one begins.
    pub(crate) fn end(self) -> usize
        ensures { result ≡ self.entry.at + 3 + stated_at self.entry.bytes.now self.entry.at }
    {
        self.at + 3 + self.size() as usize
    }
}

fn number_at(bytes: &[u8], at: usize) -> u16
    ensures { result ≡ val_at bytes.now at 2 }
{
    fields::value_at(bytes, at, 2) as u16
}
