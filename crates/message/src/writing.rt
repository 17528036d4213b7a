// Writing: refusals first, then field by field from the front.
ghost use Rattle.std.specs.Prelude.{◌≡◌, ◌+◌, ◌≤◌, cond, [], eqb, length};
ghost use Rattle.lists.specs.Bytes.{be};
ghost use Rattle.fields.specs.Fields.{field, placed};
ghost use Rattle.orders.specs.Orders.{order_bytes};
ghost use Rattle.message.specs.Layout.{layout};
ghost use Rattle.message.specs.Calls.{in_range, write_says, written, written_to};
ghost use Rattle.message.specs.Inside.{order_start};

use crate::{Message, WriteRefusal};
use orders::Order;

// Writes a message from the first byte on, and answers its length; or refuses: out of range, then no room.
pub fn write(rules: u8, message: Message, out: &mut [u8]) -> Result<usize, WriteRefusal>
    ensures { (write_says result ≡ written rules message (length out.old)) × (out.new ≡ written_to rules message out.old) }
{
    if !in_range(rules, message) {
        return Err(WriteRefusal::OutOfRange);
    }
    let n = crate::order_place(rules) + 3 + orders::size(message.order);
    if out.len() < n {
        return Err(WriteRefusal::NoRoom);
    }
    put_message(out, rules, message);
    Ok(n)
}

#[tactic(auto, unfolding(crate::specs::Calls::in_range, lists::specs::Tests::all_of))]
fn in_range(rules: u8, message: Message) -> bool
    ensures { result ≡ in_range rules message }
{
    orders::is_rules(rules)
        && clock::is_stamp(message.stamp)
        && message.source <= 7
        && orders::hop_fits(rules, message.hop)
        && orders::share_fits(message.order)
}

fn put_message(out: &mut [u8], rules: u8, message: Message)
    requires { length (layout rules message) ≤ length out.old }
    ensures { out.new ≡ placed out.old 0 (layout rules message) }
{
    fields::put_slot(out, 0, crate::STAMP, message.stamp.0);
    fields::put_slot(out, 11, crate::SOURCE, message.source as u64);
    put_hop(out, rules, message.hop);
    put_order(out, crate::order_place(rules), message.order);
}

// The hop's field, which the second rules have.
#[tactic(auto, using(fields::proofs::Placing::placed_none))]
fn put_hop(out: &mut [u8], rules: u8, hop: u8)
    ensures { out.new ≡ placed out.old 15 (cond (eqb rules 2) (field 3 (be 1 hop)) []) }
{
    if rules == 2 {
        fields::put_slot(out, 15, crate::HOP, hop as u64);
    }
}

// Field 4.
fn put_order(out: &mut [u8], at: usize, order: Order)
    requires { at + length (field 4 (order_bytes order)) ≤ length out.old }
    ensures { out.new ≡ placed out.old at (field 4 (order_bytes order)) }
{
    put_start(out, at, order);
    if let Order::Publish { share, .. } = order {
        fields::put(out, at + 8, 1, share as u64);
    }
}

// What every order's field begins with: tag, length, kind and image.
fn put_start(out: &mut [u8], at: usize, order: Order)
    requires { at + 8 ≤ length out.old }
    ensures { out.new ≡ placed out.old at (order_start order) }
{
    fields::put(out, at, 1, 4);
    fields::put(out, at + 1, 2, orders::size(order) as u64);
    fields::put(out, at + 3, 1, orders::kind(order) as u64);
    fields::put(out, at + 4, 4, orders::image(order) as u64);
}
