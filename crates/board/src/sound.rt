// Soundness of a board (refusal 9).
ghost use Rattle.std.specs.Prelude.{◌≡◌};
ghost use Rattle.lists.specs.Lists.{follows};
ghost use Rattle.board.specs.Board.{sound, board_in, before, is_absent};

use crate::{Placed, Stand};

pub(crate) fn is_sound<P: Placed>(places: &[P; 16], count: usize) -> bool
    ensures { result ≡ sound (board_in P.place places.now count) }
{
    if count > 16 {
        return false;
    }
    let (used, unused) = places.split_at(count);
    // One walk, which stops at the first place that fails: by `all` and then `is_sorted_by`, a board that does not rise is refused later.
    let mut previous: Option<P> = None;
    for p in used {
        if !p.is_fit() {
            return false;
        }
        if !may_follow(previous, *p) {
            return false;
        }
        previous = Some(*p);
    }
    unused.iter().all(|p| p.is_blank())
}

// Whether a place may come next: its image is larger than that of the one before it, if there is one.
fn may_follow<P: Placed>(previous: Option<P>, p: P) -> bool
    ensures { result ≡ follows (λ x y. before (P.place x) (P.place y)) previous p }
{
    match previous {
        Some(q) => q.image() < p.image(),
        None => true,
    }
}

pub fn absent(stand: Stand) -> bool
    ensures { result ≡ is_absent stand }
{
    matches!(stand, Stand::Absent)
}
