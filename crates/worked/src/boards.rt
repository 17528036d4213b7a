// The table of the board: each order on image 7, where it is absent, offered 30, halted 30 and halted 0.
use board::{Board, NO_PLACE, Place, Stand};
use orders::Order;
use std::io;

pub(crate) fn table(rt: &impl Print) -> io::Result<()> {
    println!(rt; "board: absent | offered 30 | halted 30 | halted 0")?;
    row(
        rt,
        "publish 45",
        Order::Publish {
            image: 7,
            share: 45,
        },
    )?;
    row(rt, "halt", Order::Halt(7))?;
    row(rt, "resume", Order::Resume(7))?;
    row(rt, "withdraw", Order::Withdraw(7))
}

fn row(rt: &impl Print, name: &str, order: Order) -> io::Result<()> {
    print!(rt; "{name}: ")?;
    cell(rt, empty(), order)?;
    for stand in [Stand::Offered(30), Stand::Halted(30), Stand::Halted(0)] {
        print!(rt; " | ")?;
        cell(rt, only(stand), order)?;
    }
    println!(rt)
}

// How image 7 stands after the order.
fn cell(rt: &impl Print, before: Board, order: Order) -> io::Result<()> {
    let applied = board::after_order(before, order);
    match applied.answer {
        Ok(()) => print!(rt; "{}", applied.board.places[0].stand),
        Err(refusal) => print!(rt; "refusal {}", u8::from(refusal)),
    }
}

// The board with image 7 standing so.
fn only(stand: Stand) -> Board {
    let mut board = empty();
    board.count = 1;
    board.places[0] = Place { image: 7, stand };
    board
}

fn empty() -> Board {
    Board {
        count: 0,
        places: [NO_PLACE; 16],
    }
}
