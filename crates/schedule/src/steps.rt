// A step of a walk.
ghost use Rattle.std.specs.Prelude.{◌-◌};
ghost use Rattle.std.specs.Iterator.{at_most};
ghost use Rattle.schedule.specs.Inside.{Walked};

use crate::record::Record;
use crate::walk::Walk;

impl<'a> Iterator for Walk<'a> {
    type Item = (usize, Record<'a>);

    ghost next_gives = { Walked };

    ghost remaining = { λ w. at_most (w.count - w.i) };

    fn next(&mut self) -> Option<(usize, Record<'a>)> {
        if self.i == self.count {
            return None;
        }
        let i = self.i;
        let here = Record {
            bytes: self.bytes,
            at: self.at,
        };
        *self = Walk {
            bytes: self.bytes,
            first: self.first,
            i: i + 1,
            count: self.count,
            at: here.end(),
        };
        Some((i, here))
    }
}
