// What each order does in each state: one fixed table of effects.
ghost use Rattle.std.specs.Prelude.{◌≡◌, ◌≤◌};
ghost use Rattle.board.specs.Board.{outcome};
ghost use Rattle.board.specs.Inside.{state_of, old_share, effect_of, effected};

use crate::Stand;
use orders::Order;

#[derive(Clone, Copy)]
enum Effect {
    Keeps,
    // With the order's share.
    Offers,
    // With the old share, 0 where the image was absent.
    Halts,
    // Offers with the old share; removes where that is 0.
    Resumes,
    Removes,
}

use Effect::{Halts, Keeps, Offers, Removes, Resumes};

// A row for each kind of order: on an absent image, an offered one, a halted one. 01 asks for a constant table by kind and state.
const EFFECTS: [[Effect; 3]; 4] = [
    // publish
    [Offers, Offers, Keeps],
    // halt
    [Halts, Halts, Keeps],
    // resume
    [Keeps, Keeps, Resumes],
    // withdraw
    [Keeps, Removes, Removes],
];

// How the image of an order stands after it.
pub fn outcome_of(order: Order, old: Stand) -> Stand
    ensures { result ≡ outcome order old }
{
    let effect = effect_of(orders::kind(order), state_of(old));
    effected(effect, orders::share(order), old)
}

fn effect_of(kind: u8, state: u8) -> Effect
    requires le_kind { (1 ≤ kind) × (kind ≤ 4) }
    requires state_bound { state ≤ 2 }
    ensures { result ≡ effect_of kind state }
{
    EFFECTS[(kind - 1) as usize][state as usize]
}

fn effected(effect: Effect, share: u8, old: Stand) -> Stand
    ensures { result ≡ effected effect share old }
{
    match effect {
        Keeps => old,
        Offers => Stand::Offered(share),
        Halts => Stand::Halted(share_of(old)),
        Resumes if share_of(old) == 0 => Stand::Absent,
        Resumes => Stand::Offered(share_of(old)),
        Removes => Stand::Absent,
    }
}

fn state_of(stand: Stand) -> u8
    ensures { result ≡ state_of stand }
{
    match stand {
        Stand::Absent => 0,
        Stand::Offered(_) => 1,
        Stand::Halted(_) => 2,
    }
}

fn share_of(stand: Stand) -> u8
    ensures { result ≡ old_share stand }
{
    match stand {
        Stand::Absent => 0,
        Stand::Offered(share) | Stand::Halted(share) => share,
    }
}
