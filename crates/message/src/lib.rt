// The message of an order: stamp, source, hop and order, each in a field, by one layout that is written and read.
#![tactic(auto)]

mod reader;
mod reading;
mod writing;

ghost use Rattle.std.specs.Prelude.{◌≡◌};
ghost use Rattle.message.specs.Layout.{order_place};
ghost use Rattle.message.specs.Calls.{write_number, read_number};

use clock::{LARGEST_STAMP, Reading};
use fields::Slot;
use orders::Order;
pub use reader::Reader;
pub use reading::{order_part, read};
pub use writing::write;

#[derive(Clone, Copy, Debug, PartialEq, Eq)]
pub struct Message {
    pub stamp: Reading,
    pub source: u8,
    // 1..8 under the second rules, 0 under the first; a number, as `write` takes any and refuses the rest.
    pub hop: u8,
    pub order: Order,
}

// Why a message is not written, under the build paper's number.
#[derive(Clone, Copy, Debug, PartialEq, Eq)]
pub enum WriteRefusal {
    OutOfRange = 23,
    NoRoom = 22,
}

impl From<WriteRefusal> for u8 {
    ghost from_gives = { λ r n. n ≡ write_number r };

    fn from(refusal: WriteRefusal) -> u8 {
        refusal as u8
    }
}

// A message that was read, with the place and the size of its order's bytes: numbers, as C is given them.
#[derive(Clone, Copy, Debug, PartialEq, Eq)]
pub struct Found {
    pub message: Message,
    pub start: usize,
    pub size: usize,
}

// Why bytes are not read, under the build paper's number.
#[derive(Clone, Copy, Debug, PartialEq, Eq)]
pub enum ReadRefusal {
    WrongRules = 23,
    NotAMessage = 30,
}

impl From<ReadRefusal> for u8 {
    ghost from_gives = { λ r n. n ≡ read_number r };

    fn from(refusal: ReadRefusal) -> u8 {
        refusal as u8
    }
}

pub const STAMP: Slot = Slot {
    tag: 1,
    width: 8,
    least: 0,
    largest: LARGEST_STAMP,
};

pub const SOURCE: Slot = Slot {
    tag: 2,
    width: 1,
    least: 0,
    largest: 7,
};

pub const HOP: Slot = Slot {
    tag: 3,
    width: 1,
    least: 1,
    largest: 8,
};

// Where the order's field begins: after stamp and source, and under the second rules the hop.
// A rule set is a number, as `write` and `read` take any and refuse the rest.
fn order_place(rules: u8) -> usize
    ensures { result ≡ order_place rules }
{
    if rules == 2 { 19 } else { 15 }
}
