// Reading: the bytes are judged field by field from the front, and then the message is taken from where it stands.
// Rules and bytes are no struct: the public calls take the two, and the definitions of specs/Layout and specs/Calls are over the two.
ghost use Rattle.std.specs.Prelude.{◌≡◌, cond, eqb, [], ◌∷◌, get_or};
ghost use Rattle.lists.specs.Tests.{first_of};
ghost use Rattle.fields.specs.Faults.{verdict, first};
ghost use Rattle.fields.specs.Slots.{slot_checks};
ghost use Rattle.message.specs.Layout.{order_checks, ending, message_fields, found_at};
ghost use Rattle.message.specs.Calls.{read_says, read_of, part_of, place_of};
ghost use Rattle.message.specs.Inside.{judged, hop_fields};

use crate::{Found, Message, ReadRefusal};
use clock::Reading;
use fields::{Fault, Slot};

// Reads a message, or refuses: wrong rules, then no message, whatever is wrong with the bytes.
pub fn read(rules: u8, bytes: &[u8]) -> Result<Found, ReadRefusal>
    ensures { read_says result ≡ read_of rules bytes.now }
{
    if !orders::is_rules(rules) {
        return Err(ReadRefusal::WrongRules);
    }
    judge(rules, bytes).map_err(|_| ReadRefusal::NotAMessage)?;
    Ok(found_at(rules, bytes))
}

// The order's bytes, as that part of the message; where there is none, the empty part at its start.
pub fn order_part(rules: u8, bytes: &[u8]) -> &[u8]
    ensures { (result.ref_ptr ≡ place_of rules bytes.now bytes.entry.ref_ptr) × (result.now ≡ part_of rules bytes.now) }
{
    match read(rules, bytes) {
        Ok(found) => {
            let end = found.start + found.size;
            &bytes[found.start..end]
        }
        Err(_) => &bytes[..0],
    }
}

// A fault, and the place where its field begins; for bytes left over, the first of them.
#[derive(Clone, Copy)]
struct Misplaced {
    fault: Fault,
    place: usize,
}

// The first fault, field by field from the front.
fn judge(rules: u8, bytes: &[u8]) -> Result<(), Misplaced>
    ensures { judged result ≡ first (message_fields rules bytes.now) }
{
    judge_slot(bytes, 0, crate::STAMP)?;
    judge_slot(bytes, 11, crate::SOURCE)?;
    judge_hop(rules, bytes)?;
    judge_order(bytes, crate::order_place(rules))
}

fn judge_slot(bytes: &[u8], place: usize, slot: Slot) -> Result<(), Misplaced>
    ensures { judged result ≡ first ((place, slot_checks bytes.now place slot) ∷ []) }
{
    fields::slot_fault(bytes, place, slot).map_err(|fault| Misplaced { fault, place })
}

// The hop's field, which the second rules have.
#[tactic(auto, unfolding(fields::specs::Faults::first))]
fn judge_hop(rules: u8, bytes: &[u8]) -> Result<(), Misplaced>
    ensures { judged result ≡ first (hop_fields rules bytes.now) }
{
    if rules == 2 {
        judge_slot(bytes, 15, crate::HOP)
    } else {
        Ok(())
    }
}

// Field 4, and that nothing follows it.
fn judge_order(bytes: &[u8], place: usize) -> Result<(), Misplaced>
    ensures { judged result ≡ first (ending bytes.now place) }
{
    order_fault(bytes, place).map_err(|fault| Misplaced { fault, place })?;
    let end = place + 3 + fields::value_at(bytes, place + 1, 2) as usize;
    if end < bytes.len() {
        return Err(Misplaced {
            fault: Fault::LeftOver,
            place: end,
        });
    }
    Ok(())
}

fn order_fault(bytes: &[u8], at: usize) -> Result<(), Fault>
    ensures { verdict result ≡ first_of (order_checks bytes.now at) }
{
    fields::head_fault(bytes, at, 4)?;
    let size = fields::value_at(bytes, at + 1, 2) as usize;
    let kind = fields::byte_at(bytes, at + 3);
    let share = fields::byte_at(bytes, at + 8);
    fields::value_fault(
        orders::wrong_size(kind, size),
        orders::wrong_value(kind, share),
    )
}

// The message that stands in bytes with no fault.
fn found_at(rules: u8, bytes: &[u8]) -> Found
    ensures { result ≡ found_at rules bytes.now }
{
    let at = crate::order_place(rules);
    let start = at + 3;
    let image = fields::value_at(bytes, start + 1, 4) as u32;
    let share = fields::byte_at(bytes, start + 5);
    let message = Message {
        stamp: Reading(fields::value_at(bytes, 3, 8)),
        source: fields::byte_at(bytes, 14),
        hop: hop_at(rules, bytes),
        order: orders::order_of(fields::byte_at(bytes, start), image, share),
    };
    Found {
        message,
        start,
        size: fields::value_at(bytes, at + 1, 2) as usize,
    }
}

fn hop_at(rules: u8, bytes: &[u8]) -> u8
    ensures { result ≡ cond (eqb rules 2) (get_or bytes.now 18 0) 0 }
{
    if rules == 2 {
        fields::byte_at(bytes, 18)
    } else {
        0
    }
}
