// The twelve cells of the board's table, boards that are not sound, a full board, and orders drawn from a fixed seed; a line for each answer.
// What the lines should be is worked out by checks/board.py, which reads 01 on its own.
#![tactic(auto)]

mod drawn;
mod lent;
mod show;

use board::{Board, NO_PLACE, Place, Stand};
use lent::told;
use orders::Order;
use std::io;

fn main(rt: HostRuntime) -> io::Result<()> {
    for stand in [
        Stand::Absent,
        Stand::Offered(30),
        Stand::Halted(30),
        Stand::Halted(0),
    ] {
        cells(&rt, stand)?;
    }
    unsound(&rt)?;
    drawn::full(&rt)?;
    drawn::many(&rt, 600)
}

// Each order on image 7 where it stands so.
fn cells(rt: &impl Print, stand: Stand) -> io::Result<()> {
    let b = only(7, stand);
    for order in [
        publish(7, 45),
        Order::Halt(7),
        Order::Resume(7),
        Order::Withdraw(7),
    ] {
        told(rt, b, order)?;
    }
    Ok(())
}

pub(crate) fn publish(image: u32, share: u8) -> Order {
    Order::Publish { image, share }
}

// The board with that image standing so; the empty board where it is absent.
fn only(image: u32, stand: Stand) -> Board {
    let mut b = empty();
    if stand != Stand::Absent {
        b.count = 1;
        b.places[0] = Place { image, stand };
    }
    b
}

pub(crate) fn empty() -> Board {
    Board {
        count: 0,
        places: [NO_PLACE; 16],
    }
}

// The board with one place more in use, behind the others.
fn beside(b: Board, image: u32, stand: Stand) -> Board {
    let mut more = b;
    if more.count < 16 {
        more.places[more.count] = Place { image, stand };
        more.count += 1;
    }
    more
}

// The board with another count.
fn counting(b: Board, count: usize) -> Board {
    Board { count, ..b }
}

// Each way of not being sound, with an order that would be refused 23: 9 comes first. Then that order on a sound board, and shares at the edge.
fn unsound(rt: &impl Print) -> io::Result<()> {
    let out = publish(9, 0);
    let five = only(5, Stand::Offered(100));
    let twice = beside(five, 5, Stand::Halted(100));
    let six = beside(five, 6, Stand::Halted(100));
    for b in [
        counting(empty(), 17),
        counting(empty(), 1),
        only(0, Stand::Offered(0)),
        only(0, Stand::Offered(101)),
        only(0, Stand::Halted(101)),
        counting(twice, 1),
        twice,
        six,
    ] {
        told(rt, b, out)?;
    }
    for order in [publish(9, 101), publish(9, 1), publish(6, 101)] {
        told(rt, six, order)?;
    }
    Ok(())
}
