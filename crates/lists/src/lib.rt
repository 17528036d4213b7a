// What is done to the elements of a slice, whatever they are: one more in its place, one put in or taken out. The searches and lists that every
// floor's definitions share stand in specs/, their laws in proofs/.
#![tactic(auto)]

mod ranked;
mod shifts;

pub use ranked::{Ranked, insert};
pub use shifts::{close_at, open_at};
