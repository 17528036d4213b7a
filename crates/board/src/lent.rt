// The call that a service makes, over the one board that it lends, and what it rests on: the same over places in any form.
ghost use Rattle.std.specs.Prelude.{◌≡◌, true, OnErr};
ghost use Rattle.orders.specs.Orders.{share_fits};
ghost use Rattle.board.specs.Board.{says, sound, board_refusal, board_after, board_in, holding, images_after, images};

use crate::places::find;
use crate::sound::{absent, is_sound};
use crate::{Board, NO_PLACE, Place, Placed, Refusal, Stand, outcome_of};
use orders::Order;

// What an order makes of the board; refused, the board is as it was.
pub fn apply(board: &mut Board, order: Order) -> Result<(), Refusal>
    ensures { (board.new ≡ board_after board.old order) × (says result ≡ board_refusal board.old order) }
{
    apply_in(&mut board.places, &mut board.count, order)
}

// The same over places in whatever form they are kept; refused 9 or 23, in that order, and then nothing is written.
// Places and count come apart: they lie in Board and in C's BoardMemory, two types that definitions name (board_after, board_from).
pub fn apply_in<P: Placed>(
    places: &mut [P; 16],
    count: &mut usize,
    order: Order,
) -> Result<(), Refusal>
    ensures board { board_in P.place places.new count.new ≡ board_after (board_in P.place places.old count.old) order }
    ensures answer { says result ≡ board_refusal (board_in P.place places.old count.old) order }
    ensures refused { OnErr result ((places.new ≡ places.old) × (count.new ≡ count.old)) }
{
    if !is_sound(places, *count) {
        return Err(Refusal::Unsound);
    }
    if !orders::share_fits(order) {
        return Err(Refusal::OutOfRange);
    }
    change(places, count, order);
    Ok(())
}

fn change<P: Placed>(places: &mut [P; 16], count: &mut usize, order: Order)
    requires sound { sound (board_in P.place places.old count.old) ≡ true }
    requires fits { share_fits order ≡ true }
    ensures { board_in P.place places.new count.new ≡ holding (images_after order (images (board_in P.place places.old count.old))) }
{
    let image = orders::image(order);
    let (used, _) = places.split_at(*count);
    match find(used, image) {
        Ok(at) => {
            let stand = outcome_of(order, places[at].stand());
            if absent(stand) {
                lists::close_at(places, at, P::of(NO_PLACE));
                *count -= 1;
            } else {
                places[at] = P::of(Place { image, stand });
            }
        }
        Err(at) => {
            let stand = outcome_of(order, Stand::Absent);
            if !absent(stand) && *count < 16 {
                lists::open_at(places, at, P::of(Place { image, stand }));
                *count += 1;
            }
        }
    }
}
