// The starts of a schedule.
ghost use Rattle.std.specs.Prelude.{◌≡◌, ◌+◌};
ghost use Rattle.lists.specs.Bytes.{val_at};
ghost use Rattle.orders.specs.Orders.{order_at};
ghost use Rattle.schedule.specs.Schedule.{start_at, starts_of, first_start};

use crate::Start;
use crate::record::Record;
use crate::taking::Records;
use clock::Tick;
use orders::{BLANK, Order};

pub(crate) const NO_START: Start = Start {
    tick: Tick(0),
    host: 0,
    order: BLANK,
};

impl<'a> Records<'a> {
    pub(crate) fn starts(self) -> [Start; 16]
        ensures { let bs = self.entry.tally.bytes.now in result ≡ starts_of bs (first_start bs) self.entry.tally.starts }
    {
        let mut starts = [NO_START; 16];
        for (i, here) in self.walk(self.tally.links + 4, self.tally.starts) {
            starts[i] = start_of(here);
        }
        starts
    }
}

fn start_of(here: Record) -> Start
    ensures { result ≡ start_at here.entry.bytes.now (here.entry.at + 3) }
{
    Start {
        tick: here.tick(),
        host: here.byte(2),
        order: order_of(here),
    }
}

fn order_of(here: Record) -> Order
    ensures { result ≡ order_at here.entry.bytes.now (here.entry.at + 3 + 3) }
{
    let image = image_at(here.bytes, here.at + 7);
    orders::order_of(here.byte(3), image, here.byte(8))
}

fn image_at(bytes: &[u8], at: usize) -> u32
    ensures { result ≡ val_at bytes.now at 4 }
{
    fields::value_at(bytes, at, 4) as u32
}
