// The calls on lent memory that `service_c` exports. What C passes as numbers is gathered into a reading, an order or a copy here, and each answer is made a number.
ghost use Rattle.std.specs.Prelude.{◌≡◌, length};
ghost use Rattle.network.specs.Network.{planned};
ghost use Rattle.host.specs.Make.{make_refusal};
ghost use Rattle.host.specs.Start.{start_says};
ghost use Rattle.host.specs.Receive.{receive_says};
ghost use Rattle.host.specs.Tick.{tick_says, tick_list};
ghost use Rattle.host.specs.Calls.{start, receive, ticks};
ghost use Rattle.board.specs.Board.{board_refusal};
ghost use Rattle.service.specs.Memory.{order_from, copy_from, host_from, board_from};
ghost use Rattle.service.specs.Calls.{call_left, send_number, tick_number, make_left, order_left, plan_left};

use crate::boards::apply;
use crate::calls::{make, receive, start, tick};
use crate::numbers::{done_number, number, send_number};
use crate::orders_in::order_from;
use crate::{BoardMemory, HostMemory, PlanMemory};
use clock::Reading;
use host::Held;
use network::planning::plan;

pub fn loom_plan(memory: &mut PlanMemory) -> u64
    ensures { (memory.new ≡ plan_left memory.old) × (result ≡ (planned memory.old.plan).refusal) }
{
    match plan(memory.plan) {
        Ok(bounds) => {
            memory.first = bounds.first;
            memory.second = bounds.second;
            memory.d = u16::from(bounds.d);
            0
        }
        Err(refusal) => done_number(Err(refusal)),
    }
}

// Makes a host of the plan that stands in the memory.
pub fn loom_make(memory: &mut HostMemory, rules: u8, own: u8) -> u64
    ensures { (memory.new ≡ make_left memory.old rules own) × (result ≡ make_refusal memory.old.plan rules own) }
{
    done_number(make(memory, rules, own))
}

pub fn loom_start(memory: &mut HostMemory, u: u64, kind: u8, image: u32, share: u16) -> u64
    ensures { (memory.new ≡ call_left memory.old (record { 0 = u }) (start (order_from kind image share))) × (result ≡ send_number (start_says (host_from memory.old) u (order_from kind image share))) }
{
    let order = order_from(kind, image, share);
    send_number(start(memory, Reading(u), order))
}

pub fn loom_receive(
    memory: &mut HostMemory,
    u: u64,
    link: u8,
    hop: u8,
    stamp: u64,
    source: u8,
    kind: u8,
    image: u32,
    share: u16,
) -> u64
    ensures { (memory.new ≡ call_left memory.old (record { 0 = u }) (receive link hop (copy_from stamp source kind image share))) × (result ≡ send_number (receive_says (host_from memory.old) u link hop (copy_from stamp source kind image share))) }
{
    let copy = Held {
        stamp: Reading(stamp),
        source,
        order: order_from(kind, image, share),
    };
    send_number(receive(memory, Reading(u), link, hop, copy))
}

pub fn loom_tick(memory: &mut HostMemory, u: u64, out: &mut [u8]) -> u64
    ensures { (memory.new ≡ call_left memory.old (record { 0 = u }) (ticks (length out.old))) × ((result ≡ tick_number (tick_says (host_from memory.old) u (length out.old))) × (out.new ≡ tick_list (host_from memory.old) u out.old)) }
{
    number(tick(memory, Reading(u), out))
}

pub fn loom_apply(memory: &mut BoardMemory, kind: u8, image: u32, share: u16) -> u64
    ensures { (memory.new ≡ order_left memory.old (order_from kind image share)) × (result ≡ board_refusal (board_from memory.old) (order_from kind image share)) }
{
    done_number(apply(memory, order_from(kind, image, share)))
}
