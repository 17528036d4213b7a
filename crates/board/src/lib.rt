// The release board: which images are offered or halted, and what an order makes of it, by value and over a lent board.
#![tactic(auto)]

mod lent;
mod placed;
mod places;
mod sound;
mod table;

ghost use Rattle.std.specs.Prelude.{◌≡◌};
ghost use Rattle.board.specs.Board.{says, board_refusal, board_after};

pub use lent::{apply, apply_in};
use orders::Order;
pub use placed::Placed;
pub use sound::absent;
use std::fmt;
pub use table::outcome_of;

// What a board says of an image; the number is its share.
#[derive(Clone, Copy, Debug, PartialEq, Eq)]
pub enum Stand {
    Absent,
    Offered(u8),
    Halted(u8),
}

impl fmt::Display for Stand {
    ghost use Rattle.std.specs.Prelude.{Some};
    ghost use Rattle.board.specs.Board.{words};

    ghost output = { λ stand. Some (words stand) };

    fn fmt<W: fmt::Write>(&self, f: &mut fmt::Formatter<W>) -> fmt::Result {
        match self {
            Stand::Absent => write!(f, "absent"),
            Stand::Offered(share) => write!(f, "offered {share}"),
            Stand::Halted(share) => write!(f, "halted {share}"),
        }
    }
}

#[derive(Clone, Copy, Debug, PartialEq, Eq)]
pub struct Place {
    pub image: u32,
    pub stand: Stand,
}

// An unused place.
pub const NO_PLACE: Place = Place {
    image: 0,
    stand: Stand::Absent,
};

// The first `count` places are in use, in rising image; the others are all zero: no heap, so places and a count. The type has no invariant,
// as its fields are public and a board of any numbers is taken: one that is not sound is refused 9.
#[derive(Clone, Copy)]
pub struct Board {
    pub count: usize,
    pub places: [Place; 16],
}

#[derive(Clone, Copy, Debug, PartialEq, Eq)]
pub enum Refusal {
    Unsound = 9,
    OutOfRange = 23,
}

impl From<Refusal> for u8 {
    ghost use Rattle.std.specs.Prelude.{◌≡◌};
    ghost use Rattle.board.specs.Board.{number};

    ghost from_gives = { λ refusal n. n ≡ number refusal };

    fn from(refusal: Refusal) -> u8 {
        refusal as u8
    }
}

// A board, and what it answered to an order: refused, it is the board as it was.
#[derive(Clone, Copy)]
pub struct Applied {
    pub board: Board,
    pub answer: Result<(), Refusal>,
}

// What an order makes of a board; refused 9 or 23, in that order, and then the board as it was.
pub fn after_order(mut board: Board, order: Order) -> Applied
    ensures { (result.board ≡ board_after board order) × (says result.answer ≡ board_refusal board order) }
{
    let answer = apply(&mut board, order);
    Applied { board, answer }
}
