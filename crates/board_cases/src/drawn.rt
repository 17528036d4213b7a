// A board filled to its last place, and orders drawn from a fixed seed.
use crate::lent::{after_order, told};
use crate::publish;
use board::Board;
use orders::Order;
use std::io;

// Sixteen images, a seventeenth that changes nothing, and its room once another is withdrawn.
pub(crate) fn full(rt: &impl Print) -> io::Result<()> {
    let mut b = crate::empty();
    for i in 0..16 {
        b = after(b, Order::Halt(32 - 2 * i));
    }
    let seventeenth = [
        publish(7, 50),
        Order::Halt(7),
        Order::Resume(7),
        publish(8, 50),
    ];
    for order in seventeenth {
        told(rt, b, order)?;
    }
    b = after(b, Order::Withdraw(32));
    told(rt, b, Order::Halt(1))?;
    b = after(b, Order::Resume(2));
    told(rt, b, publish(40, 50))
}

fn after(b: Board, order: Order) -> Board {
    after_order(b, order).board
}

pub(crate) fn many(rt: &impl Print, count: u64) -> io::Result<()> {
    let mut b = crate::empty();
    let mut seed: u64 = 2026;
    for _ in 0..count {
        let order = drawn(seed);
        told(rt, b, order)?;
        b = after(b, order);
        seed = next(next(next(seed)));
    }
    Ok(())
}

// Four kinds, twenty-four images, shares 0 to 102.
fn drawn(seed: u64) -> Order {
    let kind = (1 + draw(seed) % 4) as u8;
    let image = (draw(next(seed)) % 24) as u32;
    let share = (draw(next(next(seed))) % 103) as u8;
    orders::order_of(kind, image, share)
}

fn draw(seed: u64) -> u64 {
    seed / 65536 % 32768
}

fn next(seed: u64) -> u64 {
    (seed % 2147483648 * 1103515245 + 12345) % 2147483648
}
