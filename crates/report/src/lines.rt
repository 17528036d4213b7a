// The lines of the report.
ghost use Rattle.std.specs.Prelude.{◌≡◌};
ghost use Rattle.schedule.specs.Calls.{numbers, says};
ghost use Rattle.engine.specs.Calls.{outcome_in};
ghost use Rattle.engine.specs.Inside.{InPlaces};
ghost use Rattle.report.specs.Text.{order_text, held_text, delivery_line, start_line, outcome_text, refused_text};
ghost use Rattle.report.specs.Text.{text as text_of};
ghost use Rattle.report.specs.Inside.{Wrote};

use crate::runs;
use crate::writers::Writer;
use engine::{Delivery, Outcome};
use host::Held;
use orders::Order;
use schedule::Refusal;

// The line of a refused file, or all lines of a run.
pub(crate) fn text(w: &mut Writer<'_>, ran: &Result<Outcome, Refusal>)
    requires { InPlaces (outcome_in ran.now) }
    ensures { Wrote w.old (text_of (says ran.now) (outcome_in ran.now)) w.new }
{
    match ran {
        Ok(outcome) => whole(w, outcome),
        Err(refusal) => refused(w, *refusal),
    }
}

// With the index of a record outside the rules.
fn refused(w: &mut Writer<'_>, refusal: Refusal)
    ensures { Wrote w.old (refused_text (numbers refusal)) w.new }
{
    w.item(b"refused ", u64::from(u8::from(refusal)));
    if let Refusal::OutsideRules(index) = refusal {
        w.item(b" ", index as u64);
    }
    w.put(b'\n');
}

fn whole(w: &mut Writer<'_>, outcome: &Outcome)
    requires { InPlaces outcome.now }
    ensures { Wrote w.old (outcome_text outcome.now) w.new }
{
    w.line(b"delta ", outcome.bound);
    runs::starts(w, outcome);
    runs::hosts(w, outcome);
    w.line(b"copies ", outcome.copies as u64);
}

// Nothing for a start that was not refused.
pub(crate) fn start(w: &mut Writer<'_>, k: usize, refusal: u8)
    ensures { Wrote w.old (start_line k refusal) w.new }
{
    if refusal == 0 {
        return;
    }
    w.item(b"start ", k as u64);
    w.line(b" refused ", refusal as u64);
}

pub(crate) fn delivery(w: &mut Writer<'_>, host: usize, d: Delivery)
    ensures { Wrote w.old (delivery_line host d) w.new }
{
    w.item(b"host ", host as u64);
    w.item(b" at ", d.at.0);
    held(w, d.what);
    w.put(b'\n');
}

fn held(w: &mut Writer<'_>, what: Held)
    ensures { Wrote w.old (held_text what) w.new }
{
    w.item(b" stamp ", what.stamp.0);
    w.item(b" from ", what.source as u64);
    ordered(w, what.order);
}

fn ordered(w: &mut Writer<'_>, order: Order)
    ensures { Wrote w.old (order_text order) w.new }
{
    match order {
        Order::Publish { image, share } => {
            w.item(b" publish ", image as u64);
            w.item(b" ", share as u64);
        }
        Order::Halt(image) => w.item(b" halt ", image as u64),
        Order::Resume(image) => w.item(b" resume ", image as u64),
        Order::Withdraw(image) => w.item(b" withdraw ", image as u64),
    }
}
