//! The levels of a book: for each side, restriction and limit the queue of its orders, with their number and the sum of
//! their rests, and for each group of limits the sum of their units.
#![tactic(auto)]

mod ladder;
mod ladders;
mod level;

pub use crate::ladder::Ladder;
pub use crate::ladders::{Ladders, SideLadders};
pub use crate::level::{Level, MAX_LEVEL_UNITS};
