// Messages written, passed by a reader, damaged, cut, lengthened and read again; what is counted is compared with the file stdout.
#![tactic(auto)]

mod places;
mod sweep;
mod text;

ghost use Rattle.std.specs.Prelude.{◌<◌};

use clock::Reading;
use message::Message;
use orders::Order;
use std::io;

#[derive(Clone, Copy)]
struct Case {
    rules: u8,
    message: Message,
}

fn main(rt: HostRuntime) -> io::Result<()> {
    // Halt of image 7, stamp 100, source 0, first rules.
    let vector = made(1, 100, 0, 0, Order::Halt(7));
    let mut bytes = [0u8; 23];
    let _ = message::write(1, vector.message, &mut bytes);
    text::hex(&rt, &bytes)?;
    text::line(&rt, "")?;
    damage(&rt, vector)?;
    damage(
        &rt,
        made(1, 1_099_511_623_679, 7, 0, publish(4_294_967_295, 100)),
    )?;
    damage(&rt, made(2, 0, 3, 8, Order::Withdraw(0)))?;
    damage(&rt, made(2, 258, 1, 1, publish(65_536, 1)))?;
    refuse(&rt)?;
    shuffle(&rt)?;
    mislead(&rt)
}

fn made(rules: u8, stamp: u64, source: u8, hop: u8, order: Order) -> Case {
    let message = Message {
        stamp: Reading(stamp),
        source,
        hop,
        order,
    };
    Case { rules, message }
}

fn publish(image: u32, share: u8) -> Order {
    Order::Publish { image, share }
}

// Each byte set to each value; each shorter message; each byte after the message.
fn damage(rt: &impl Print, case: Case) -> io::Result<()> {
    let mut bytes = [0u8; 32];
    let Ok(n) = message::write(case.rules, case.message, &mut bytes) else {
        return text::line(rt, "not written");
    };
    places::print(rt, case.rules, sweep::first(&bytes, n))?;
    let damaged = sweep::each_byte(case.rules, &mut bytes, 0, n);
    sweep::print(rt, "damaged", damaged)?;
    sweep::print(rt, "cut", sweep::each_cut(case.rules, &bytes, n))?;
    let longer = sweep::each_byte(case.rules, &mut bytes, n, n.saturating_add(1));
    sweep::print(rt, "longer", longer)
}

// The refusals of writing, and of reading.
fn refuse(rt: &impl Print) -> io::Result<()> {
    text::word(rt, "write")?;
    let halt = Order::Halt(7);
    for (case, room) in [
        (made(0, 0, 0, 0, halt), 32),
        (made(3, 0, 0, 1, halt), 32),
        (made(1, 1_099_511_623_680, 0, 0, halt), 32),
        (made(1, 0, 8, 0, halt), 32),
        (made(1, 0, 0, 1, halt), 32),
        (made(2, 0, 0, 0, halt), 32),
        (made(2, 0, 0, 9, halt), 32),
        (made(1, 0, 0, 0, publish(7, 0)), 32),
        (made(1, 0, 0, 0, publish(7, 101)), 0),
        (made(1, 0, 0, 0, halt), 22),
        (made(2, 0, 0, 1, publish(7, 1)), 27),
        (made(2, 0, 0, 1, publish(7, 1)), 28),
    ] {
        text::number(rt, write_number(case, room) as u64)?;
    }
    text::line(rt, "")?;
    text::word(rt, "read")?;
    for rules in [0, 1] {
        text::number(rt, refusal_or_0(message::read(rules, b"")) as u64)?;
    }
    text::line(rt, "")
}

// The refusal of writing to so many bytes, 32 at most, or 0.
fn write_number(case: Case, room: usize) -> u8 {
    let mut bytes = [0u8; 32];
    refusal_or_0(message::write(case.rules, case.message, &mut bytes[..room.min(32)]))
}

fn refusal_or_0<T: Drop, E: Into<u8>>(answer: Result<T, E>) -> u8 {
    answer.map_or_else(|refusal| refusal.into(), |_| 0)
}

// A thousand messages from a fixed seed, written, read and compared; then a sum over all their bytes, and over their orders' bytes.
fn shuffle(rt: &impl Print) -> io::Result<()> {
    let mut seed: u64 = 20;
    let mut sums = sweep::Sums::default();
    for _ in 0..1000 {
        let case = random_case(seed);
        sums = sweep::again(case.rules, case.message, sums);
        seed = random(random(random(random(seed))));
    }
    text::word(rt, "random")?;
    text::number(rt, sums.same as u64)?;
    text::number(rt, sums.bytes)?;
    text::number(rt, sums.orders)?;
    text::line(rt, "")
}

// A reader over a message that ends within its source, and over one with another tag there.
fn mislead(rt: &impl Print) -> io::Result<()> {
    let mut bytes = [0u8; 27];
    let case = made(2, 100, 7, 8, Order::Resume(7));
    let _ = message::write(2, case.message, &mut bytes);
    places::print(rt, 2, sweep::first(&bytes, 14))?;
    bytes[11] = 3;
    places::print(rt, 2, &bytes)
}

// The next number below 2^31 of a linear congruence.
fn random(x: u64) -> u64
    ensures { result < 2_147_483_648 }
{
    (x % 2_147_483_648 * 1_103_515_245 + 12_345) % 2_147_483_648
}

fn random_case(seed: u64) -> Case {
    let a = random(seed);
    let b = random(a);
    let c = random(b);
    let d = random(c);
    let rules = (1 + a / 65_536 % 2) as u8;
    let hop = if rules == 2 {
        (1 + d / 65_536 % 8) as u8
    } else {
        0
    };
    let stamp = (b * 4_096 + c / 1_024) % 1_099_511_623_680;
    let source = (c / 65_536 % 8) as u8;
    let image = (a * 2 + b / 65_536 % 2) as u32;
    let kind = (1 + d / 1_048_576 % 4) as u8;
    let share = (1 + b / 1_024 % 100) as u8;
    made(
        rules,
        stamp,
        source,
        hop,
        orders::order_of(kind, image, share),
    )
}
