// The call that a service makes, over a board that is lent to it.
use crate::show;
use board::{Applied, Board};
use orders::Order;
use std::io;

pub(crate) fn after_order(mut board: Board, order: Order) -> Applied {
    let answer = board::apply(&mut board, order);
    Applied { board, answer }
}

// What an order makes of the board, as a line.
pub(crate) fn told(rt: &impl Print, board: Board, order: Order) -> io::Result<()> {
    show::applied(rt, after_order(board, order))
}
