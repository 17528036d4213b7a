// The calls of a host on its flat memory, in place: refused, the memory is as it was.
// Not by the host's own calls: to make a Host of 32 places and store it back was slower than all the rest of a call.
ghost use Rattle.std.specs.Prelude.{◌≡◌, length};
ghost use Rattle.host.specs.Answers.{refusal_of, says, says_tick};
ghost use Rattle.host.specs.Make.{make_refusal};
ghost use Rattle.host.specs.Start.{start_says};
ghost use Rattle.host.specs.Receive.{receive_says};
ghost use Rattle.host.specs.Tick.{tick_says, tick_list};
ghost use Rattle.host.specs.Calls.{start, receive, ticks};
ghost use Rattle.service.specs.Memory.{host_from};
ghost use Rattle.service.specs.Calls.{call_left, make_left};

use crate::HostMemory;
use crate::answers::{receive_answer, start_answer, tick_answer};
use crate::changes::{drop_due, hold, write_due};
use crate::memory::own_from;
use clock::Reading;
use host::{Held, Refusal, Sent, one_more, with_start};
use orders::Order;

// A fresh host of the plan that stands in the memory.
pub(crate) fn make(memory: &mut HostMemory, rules: u8, own: u8) -> Result<(), Refusal>
    ensures { (memory.new ≡ make_left memory.old rules own) × (refusal_of result ≡ make_refusal memory.old.plan rules own) }
{
    let host = host::make(memory.plan, rules, own)?;
    *memory = HostMemory::from(host);
    Ok(())
}

pub(crate) fn start(memory: &mut HostMemory, u: Reading, order: Order) -> Result<Sent, Refusal>
    ensures { (memory.new ≡ call_left memory.old u (start order)) × (says result ≡ start_says (host_from memory.old) u.0 order) }
{
    let sent = start_answer(memory, u, order)?;
    let source = own_from(memory.own);
    memory.last = u;
    memory.starts = with_start(memory.starts, memory.started, u);
    memory.started = one_more(memory.started);
    hold(
        memory,
        Held {
            stamp: u,
            source,
            order,
        },
    );
    Ok(sent)
}

pub(crate) fn receive(
    memory: &mut HostMemory,
    u: Reading,
    link: u8,
    hop: u8,
    copy: Held,
) -> Result<Sent, Refusal>
    ensures { (memory.new ≡ call_left memory.old u (receive link hop copy)) × (says result ≡ receive_says (host_from memory.old) u.0 link hop copy) }
{
    let sent = receive_answer(memory, u, link, hop, copy)?;
    memory.last = u;
    hold(memory, copy);
    Ok(sent)
}

// The entries of those that are due are written to the lent list. Of most ticks none is.
pub(crate) fn tick(memory: &mut HostMemory, u: Reading, out: &mut [u8]) -> Result<usize, Refusal>
    ensures { (memory.new ≡ call_left memory.old u (ticks (length out.old))) × ((says_tick result ≡ tick_says (host_from memory.old) u.0 (length out.old)) × (out.new ≡ tick_list (host_from memory.old) u.0 out.old)) }
{
    let count = tick_answer(memory, u, out.len())?;
    memory.last = u;
    if count == 0 {
        return Ok(count);
    }
    write_due(&memory.history[..count], out);
    drop_due(memory, count);
    Ok(count)
}
