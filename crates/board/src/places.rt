// The places of a board: finding an image.
ghost use Rattle.std.specs.Prelude.{◌≡◌, true, map, MatchResult};
ghost use Rattle.lists.specs.Lists.{rising};
ghost use Rattle.board.specs.Board.{before};
ghost use Rattle.board.specs.Inside.{StandsAt, WouldStandAt};

use crate::Placed;

// Where an image stands, or would stand.
pub(crate) fn find<P: Placed>(used: &[P], image: u32) -> Result<usize, usize>
    requires { rising before (map P.place used.now) ≡ true }
    ensures { MatchResult result (StandsAt (map P.place used.now) image) (WouldStandAt (map P.place used.now) image) }
{
    used.binary_search_by_key(&image, |p| p.image())
}
