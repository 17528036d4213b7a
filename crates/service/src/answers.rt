// What each call of a host answers, by its flat memory: soundness is tested there, and the rules are the host's own.
ghost use Rattle.std.specs.Prelude.{◌≡◌, cond, Ok, Err};
ghost use Rattle.host.specs.declared.Refusal.TheVariants.{Unsound};
ghost use Rattle.host.specs.State.{sound, frame_of};
ghost use Rattle.host.specs.Answers.{says, says_tick};
ghost use Rattle.host.specs.Start.{start_says};
ghost use Rattle.host.specs.Receive.{receive_says};
ghost use Rattle.host.specs.Tick.{tick_says};
ghost use Rattle.service.specs.Memory.{host_from};

use crate::HostMemory;
use clock::Reading;
use host::{Frame, Held, Refusal, Sent, is_sound_in};
use orders::Order;

pub(crate) fn start_answer(memory: &HostMemory, u: Reading, order: Order) -> Result<Sent, Refusal>
    ensures { says result ≡ start_says (host_from memory.now) u.0 order }
{
    let frame = sound_frame(memory)?;
    host::start_answer(frame, u, order)
}

pub(crate) fn receive_answer(
    memory: &HostMemory,
    u: Reading,
    link: u8,
    hop: u8,
    copy: Held,
) -> Result<Sent, Refusal>
    ensures { says result ≡ receive_says (host_from memory.now) u.0 link hop copy }
{
    let frame = sound_frame(memory)?;
    let seen = host::look(&memory.history[..memory.held], copy);
    host::receive_answer(frame, u, link, hop, copy, seen)
}

// How many orders a tick delivers.
pub(crate) fn tick_answer(memory: &HostMemory, u: Reading, room: usize) -> Result<usize, Refusal>
    ensures { says_tick result ≡ tick_says (host_from memory.now) u.0 room }
{
    let frame = sound_frame(memory)?;
    let count = host::due_in_front(&memory.history[..memory.held], memory.bound, u);
    host::tick_answer(frame, u, room, count)
}

// All but the history of memory that stands for a sound state.
fn sound_frame(memory: &HostMemory) -> Result<Frame, Refusal>
    ensures { result ≡ cond (sound (host_from memory.now)) (Ok (frame_of (host_from memory.now))) (Err Unsound) }
{
    let frame = Frame::from(memory);
    if is_sound_in(frame, &memory.history) {
        Ok(frame)
    } else {
        Err(Refusal::Unsound)
    }
}
