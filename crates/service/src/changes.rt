// A host's flat history changed in place: one order more, and those that are due out of it.
ghost use Rattle.std.specs.Prelude.{◌≡◌, true, map, ◌+◌, ◌*◌, ◌≤◌, ◌<◌, ◌-◌, take, drop, length};
ghost use Rattle.lists.specs.Lists.{all, rising, insert, pad};
ghost use Rattle.std.proofs.Math.Seq.{paste};
ghost use Rattle.host.specs.Entries.{entry_of};
ghost use Rattle.host.specs.Tick.{written};
ghost use Rattle.service.specs.Memory.{held_from, held_memory};
ghost use Rattle.service.specs.Inside.{before_in, unused_in, memory_with, none};

use crate::{HeldMemory, HostMemory, NO_HELD};
use host::Held;

// Puts an order among those held, in its place.
pub(crate) fn hold(memory: &mut HostMemory, x: Held)
    requires { (memory.old.held < 32) × (rising before_in (take memory.old.held memory.old.history) ≡ true) × (all unused_in (drop memory.old.held memory.old.history) ≡ true) }
    ensures { memory.new ≡ memory_with memory.old memory.old.last memory.old.started memory.old.starts (memory.old.held + 1) (pad 32 none (insert before_in (held_memory x) (take memory.old.held memory.old.history))) }
{
    lists::insert(&mut memory.history, memory.held, HeldMemory::from(x));
    memory.held += 1;
}

// Writes the entries of those that are due to the front of the lent list.
pub(crate) fn write_due(due: &[HeldMemory], out: &mut [u8])
    requires { 16 * length due.now ≤ length out.old }
    ensures { out.new ≡ written (map held_from due.now) out.old }
{
    for (i, e) in due.iter().enumerate() {
        put_entry(out, 16 * i, Held::from(*e));
    }
}

// Not the host's own put_entry: a public function would have no requires, and would test the place.
fn put_entry(out: &mut [u8], at: usize, e: Held)
    requires { at + 16 ≤ length out.old }
    ensures { out.new ≡ paste out.old at (entry_of e) 16 }
{
    // copy_from_slice is slower here: the bytes then stand in memory first.
    for (j, byte) in host::entry(e).iter().enumerate() {
        out[at + j] = *byte;
    }
}

// Takes the first so many out of those held; the others move to the front.
pub(crate) fn drop_due(memory: &mut HostMemory, count: usize)
    requires { (count ≤ memory.old.held) × (memory.old.held ≤ 32) }
    ensures { memory.new ≡ memory_with memory.old memory.old.last memory.old.started memory.old.starts (memory.old.held - count) (pad 32 none (drop count (take memory.old.held memory.old.history))) }
{
    let waiting = memory.held - count;
    memory.history.copy_within(count..memory.held, 0);
    memory.history[waiting..].fill(NO_HELD);
    memory.held = waiting;
}
