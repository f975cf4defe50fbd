//! The story of a command, put together from plain values: what is asked of the state before it, the trades that it added, the stops
//! that it triggered, the price of an interruption, and the number of sweeps and the phase behind it.
//!
//! Begin at `stories`. `around` has the values, `arrivals` what orders tell that come in, `orders` entries and changes, `calls` the end
//! of a call, `leaving` what is deleted. `rests` gives each fill what is left of its order, by the `sums` of what the events behind it
//! take.
#![tactic(auto)]

mod around;
mod arrivals;
mod calls;
mod desks;
pub mod laws;
mod leaving;
mod orders;
mod rests;
mod stories;
mod sums;
#[cfg(test)]
mod tests;

pub use crate::around::{After, Before, Touched};
pub use crate::desks::{Taken, take};
pub use crate::rests::{Left, with_rests};
pub use crate::stories::{seen_story, tell};
