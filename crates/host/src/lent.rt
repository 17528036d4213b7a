// The calls that a service makes, over the one state that it lends. A refused one leaves the state as it was.
ghost use Rattle.std.specs.Prelude.{◌≡◌, length};
ghost use Rattle.host.specs.Answers.{says, says_tick};
ghost use Rattle.host.specs.Start.{start_says, start_host};
ghost use Rattle.host.specs.Receive.{receive_says, receive_host};
ghost use Rattle.host.specs.Tick.{tick_says, tick_host, tick_list};

use crate::checks::refuse_if;
use crate::receiving::{receive_answer, receive_held};
use crate::sound::{frame_of, is_lent_sound};
use crate::starting::{start_answer, start_held};
use crate::ticking::{due_count, tick_answer, tick_left};
use crate::walks::look;
use crate::{Held, Host, Refusal, Sent};
use clock::Reading;
use orders::Order;

// Start an order at a reading: it is held under the reading and the host's number, to be sent on all own links.
pub fn start(host: &mut Host, u: Reading, order: Order) -> Result<Sent, Refusal>
    ensures { (host.new ≡ start_host host.old u order) × (says result ≡ start_says host.old u.0 order) }
{
    refuse_if(!is_lent_sound(host), Refusal::Unsound)?;
    let frame = frame_of(host);
    let sent = start_answer(frame, u, order)?;
    start_held(host, u, order);
    Ok(sent)
}

// Receive a copy of an order at a reading, over a link: it is held, to be relayed on all own links but that one.
pub fn receive(
    host: &mut Host,
    u: Reading,
    arrival: u8,
    hop: u8,
    copy: Held,
) -> Result<Sent, Refusal>
    ensures { (host.new ≡ receive_host host.old u arrival hop copy) × (says result ≡ receive_says host.old u.0 arrival hop copy) }
{
    refuse_if(!is_lent_sound(host), Refusal::Unsound)?;
    let frame = frame_of(host);
    let held = &host.history[..host.held];
    let seen = look(held, copy);
    let sent = receive_answer(frame, u, arrival, hop, copy, seen)?;
    receive_held(host, u, arrival, hop, copy);
    Ok(sent)
}

// Deliver what is due at a reading: it leaves the history for the lent list. Refused, the list keeps its bytes too.
pub fn tick(host: &mut Host, u: Reading, out: &mut [u8]) -> Result<usize, Refusal>
    ensures { (host.new ≡ tick_host host.old u (length out.old)) × ((says_tick result ≡ tick_says host.old u.0 (length out.old)) × (out.new ≡ tick_list host.old u.0 out.old)) }
{
    refuse_if(!is_lent_sound(host), Refusal::Unsound)?;
    let frame = frame_of(host);
    let count = due_count(host, u);
    let delivered = tick_answer(frame, u, out.len(), count)?;
    tick_left(host, u, out);
    Ok(delivered)
}
