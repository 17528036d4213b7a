// A place of a board's flat memory, for the board's own rules: what stands there, and back.
ghost use Rattle.std.specs.Prelude.{◌≡◌};
ghost use Rattle.service.specs.Memory.{stand_from};

use crate::PlaceMemory;
use board::{Place, Placed, Stand};

impl Placed for PlaceMemory {
    ghost use Rattle.service.specs.Memory.{place_from, place_memory};
    ghost use Rattle.service.specs.Stands.{place_back, one_form};

    ghost place = { λ p. place_from p };

    ghost of_place = { place_memory };

    fn image(self) -> u32 {
        self.image
    }

    fn stand(self) -> Stand {
        stand_from(self.stand, self.share)
    }

    // Offered with a share of 1 to 100, or halted with one of at most 100.
    fn is_fit(self) -> bool {
        if self.share > 100 {
            return false;
        }
        if self.stand == 2 {
            return true;
        }
        (self.stand == 1) & (self.share != 0)
    }

    // One test of the sum, as one of each number costs a branch.
    fn is_blank(self) -> bool {
        u64::from(self.image) + u64::from(self.stand) + u64::from(self.share) == 0
    }

    fn of(p: Place) -> PlaceMemory {
        let image = p.image;
        match p.stand {
            Stand::Absent => PlaceMemory {
                image,
                stand: 0,
                share: 0,
            },
            Stand::Offered(share) => PlaceMemory {
                image,
                stand: 1,
                share: u16::from(share),
            },
            Stand::Halted(share) => PlaceMemory {
                image,
                stand: 2,
                share: u16::from(share),
            },
        }
    }

    ghost comes_back = { place_back };

    ghost exact = { one_form };
}

// What two numbers stand for; those that are no stand's are an image offered to none.
fn stand_from(stand: u16, share: u16) -> Stand
    ensures { result ≡ stand_from stand share }
{
    if (stand == 0) & (share == 0) {
        return Stand::Absent;
    }
    if (stand == 1) & (share <= 100) {
        return Stand::Offered(share as u8);
    }
    if (stand == 2) & (share <= 100) {
        return Stand::Halted(share as u8);
    }
    Stand::Offered(0)
}
