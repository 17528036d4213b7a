// The calls that C and Rust link with: each is the call of `service` under the same name, with the same clauses.
// A crate of its own: Rattle builds a crate as a library or as an archive, not as both.
#![tactic(auto)]

ghost use Rattle.std.specs.Prelude.{◌≡◌, length};
ghost use Rattle.network.specs.Network.{planned};
ghost use Rattle.host.specs.Make.{make_refusal};
ghost use Rattle.host.specs.Start.{start_says};
ghost use Rattle.host.specs.Receive.{receive_says};
ghost use Rattle.host.specs.Tick.{tick_says, tick_list};
ghost use Rattle.host.specs.Calls.{start, receive, ticks};
ghost use Rattle.board.specs.Board.{board_refusal};
ghost use Rattle.service.specs.Memory.{order_from, copy_from, host_from, board_from, message_from};
ghost use Rattle.service.specs.Calls.{call_left, send_number, tick_number, make_left, order_left, plan_left, pair_number, read_answer, read_left};
ghost use Rattle.message.specs.Calls.{written, written_to};
ghost use Rattle.report.specs.Calls.{reported, told, left};

use service::{BoardMemory, HostMemory, PlanMemory, exports, messages};

#[unsafe(no_mangle)]
pub extern "C" fn loom_plan(memory: &mut PlanMemory) -> u64
    ensures { (memory.new ≡ plan_left memory.old) × (result ≡ (planned memory.old.plan).refusal) }
{
    exports::loom_plan(memory)
}

// Makes a host of the plan that stands in the memory.
#[unsafe(no_mangle)]
pub extern "C" fn loom_make(memory: &mut HostMemory, rules: u8, own: u8) -> u64
    ensures { (memory.new ≡ make_left memory.old rules own) × (result ≡ make_refusal memory.old.plan rules own) }
{
    exports::loom_make(memory, rules, own)
}

#[unsafe(no_mangle)]
pub extern "C" fn loom_start(
    memory: &mut HostMemory,
    u: u64,
    kind: u8,
    image: u32,
    share: u16,
) -> u64
    ensures { (memory.new ≡ call_left memory.old (record { 0 = u }) (start (order_from kind image share))) × (result ≡ send_number (start_says (host_from memory.old) u (order_from kind image share))) }
{
    exports::loom_start(memory, u, kind, image, share)
}

#[unsafe(no_mangle)]
pub extern "C" fn loom_receive(
    memory: &mut HostMemory,
    u: u64,
    link: u8,
    hop: u8,
    stamp: u64,
    source: u8,
    kind: u8,
    image: u32,
    share: u16,
) -> u64
    ensures { (memory.new ≡ call_left memory.old (record { 0 = u }) (receive link hop (copy_from stamp source kind image share))) × (result ≡ send_number (receive_says (host_from memory.old) u link hop (copy_from stamp source kind image share))) }
{
    exports::loom_receive(memory, u, link, hop, stamp, source, kind, image, share)
}

#[unsafe(no_mangle)]
pub extern "C" fn loom_tick(memory: &mut HostMemory, u: u64, out: &mut [u8]) -> u64
    ensures { (memory.new ≡ call_left memory.old (record { 0 = u }) (ticks (length out.old))) × ((result ≡ tick_number (tick_says (host_from memory.old) u (length out.old))) × (out.new ≡ tick_list (host_from memory.old) u out.old)) }
{
    exports::loom_tick(memory, u, out)
}

#[unsafe(no_mangle)]
pub extern "C" fn loom_apply(memory: &mut BoardMemory, kind: u8, image: u32, share: u16) -> u64
    ensures { (memory.new ≡ order_left memory.old (order_from kind image share)) × (result ≡ board_refusal (board_from memory.old) (order_from kind image share)) }
{
    exports::loom_apply(memory, kind, image, share)
}

// Writes a message; answers its length above the refusal's byte.
#[unsafe(no_mangle)]
pub extern "C" fn loom_write(
    rules: u8,
    stamp: u64,
    source: u8,
    hop: u8,
    kind: u8,
    image: u32,
    share: u16,
    out: &mut [u8],
) -> u64
    ensures { (result ≡ pair_number (written rules (message_from stamp source hop kind image share) (length out.old))) × (out.new ≡ written_to rules (message_from stamp source hop kind image share) out.old) }
{
    messages::loom_write(rules, stamp, source, hop, kind, image, share, out)
}

// Reads a message: stamp, source, hop, kind, image, share, and the place and the size of the order's bytes, as the first eight of the lent numbers.
#[unsafe(no_mangle)]
pub extern "C" fn loom_read(rules: u8, bytes: &[u8], out: &mut [u64]) -> u64
    ensures { (result ≡ read_answer rules bytes.now (length out.old)) × (out.new ≡ read_left rules bytes.now out.old) }
{
    messages::loom_read(rules, bytes, out)
}

// Replays a schedule and writes the report's text; answers its length above the refusal's byte.
#[unsafe(no_mangle)]
pub extern "C" fn loom_replay(bytes: &[u8], out: &mut [u8]) -> u64
    ensures { (result ≡ pair_number (told (reported bytes.now) out.old)) × (out.new ≡ left (reported bytes.now) out.old) }
{
    messages::loom_replay(bytes, out)
}
