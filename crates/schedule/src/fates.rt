// The delay of each copy, by the fates of a schedule.
ghost use Rattle.std.specs.Prelude.{◌≡◌, ◌-◌, set};
ghost use Rattle.schedule.specs.Schedule.{delays_of, first_fate};

use crate::taking::Records;

impl<'a> Records<'a> {
    pub(crate) fn delays(self) -> [u8; 384]
        ensures { let bs = self.entry.tally.bytes.now in result ≡ delays_of bs (first_fate bs) (self.entry.tally.count - first_fate bs) }
    {
        let first = self.tally.links + self.tally.starts + 4;
        let mut delays = [1u8; 384];
        for (_, here) in self.walk(first, self.tally.count - first) {
            set_delay(&mut delays, here.copy(), here.byte(3));
        }
        delays
    }
}

// One delay set; a number past the last copy is no copy.
fn set_delay(delays: &mut [u8], copy: usize, delay: u8)
    ensures { delays.new ≡ set delays.old copy delay }
{
    // Not by `get_mut`: of the place that is not there its proof does not know that the slice stays.
    if copy < delays.len() {
        delays[copy] = delay;
    }
}
