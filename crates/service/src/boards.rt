// An order on a board's flat memory, in place, by the board's own rules.
ghost use Rattle.std.specs.Prelude.{◌≡◌};
ghost use Rattle.board.specs.Board.{says, board_refusal};
ghost use Rattle.service.specs.Memory.{board_from};
ghost use Rattle.service.specs.Calls.{order_left};

use crate::BoardMemory;
use board::{Refusal, apply_in};
use orders::Order;

// Refused, the memory is as it was.
pub(crate) fn apply(memory: &mut BoardMemory, order: Order) -> Result<(), Refusal>
    ensures { (memory.new ≡ order_left memory.old order) × (says result ≡ board_refusal (board_from memory.old) order) }
{
    apply_in(&mut memory.places, &mut memory.count, order)
}
