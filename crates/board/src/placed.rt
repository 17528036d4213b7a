// A place of a board, in whatever form it is kept.
ghost use Rattle.std.specs.Prelude.{◌≡◌, refl, true, ◌||◌};
ghost use Rattle.board.specs.declared.Place.{Place};
ghost use Rattle.board.specs.Board.{place_fits, is_blank, Placeable};

use crate::sound::absent;
use crate::{Place, Stand};

pub trait Placed: Copy {
    // The place that it stands for, and what stands for a place.
    ghost place: { Self → Place };

    ghost of_place: { Place → Self };

    fn image(self) -> u32
        ensures { result ≡ (place self).image };

    fn stand(self) -> Stand
        ensures { result ≡ (place self).stand };

    fn is_fit(self) -> bool
        ensures { result ≡ place_fits (place self) };

    fn is_blank(self) -> bool
        ensures { result ≡ is_blank (place self) };

    fn of(p: Place) -> Self
        ensures { result ≡ of_place p };

    // A stand that no board has need not come back.
    ghost comes_back: { (p : Place) → Placeable p.stand → place (of_place p) ≡ p };

    // A place of a sound board has one form.
    ghost exact: { (x y : Self) → (place_fits (place x) || is_blank (place x)) ≡ true → place x ≡ place y → x ≡ y };
}

impl Placed for Place {
    ghost place = { λ p. p };

    ghost of_place = { λ p. p };

    fn image(self) -> u32 {
        self.image
    }

    fn stand(self) -> Stand {
        self.stand
    }

    fn is_fit(self) -> bool {
        match self.stand {
            Stand::Absent => false,
            Stand::Offered(share) => (1..=100).contains(&share),
            Stand::Halted(share) => share <= 100,
        }
    }

    fn is_blank(self) -> bool {
        self.image == 0 && absent(self.stand)
    }

    fn of(p: Place) -> Place {
        p
    }

    ghost comes_back = { λ p may. refl };

    ghost exact = { λ x y fits same. same };
}
