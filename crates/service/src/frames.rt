// What a host's flat memory holds but for the history.
use crate::HostMemory;
use crate::memory::own_from;
use host::Frame;

impl From<&HostMemory> for Frame {
    ghost use Rattle.std.specs.Prelude.{◌≡◌};
    ghost use Rattle.host.specs.State.{frame_of};
    ghost use Rattle.service.specs.Memory.{host_from};

    ghost from_gives = { λ memory frame. frame ≡ frame_of (host_from memory.now) };

    fn from(memory: &HostMemory) -> Frame {
        Frame {
            plan: memory.plan,
            rules: memory.rules,
            d: memory.d,
            bound: memory.bound,
            own: own_from(memory.own),
            last: memory.last,
            started: memory.started,
            starts: memory.starts,
            held: memory.held,
        }
    }
}
