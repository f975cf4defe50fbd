//! Why the price of a call is the price: the candidates with what accepts each, the rule that decided, and the ranges that the stage
//! of the call asks.
//!
//! Begin at `reasons` in `calls`. `candidates` is a limit with what accepts it; `walks` puts them into rows, the highest first: the
//! sells are walked once along their levels, and then buys and sells together, down from the highest limit. `rules` finds by a few
//! passes over the rows which rule decides, and `ranges` has the ranges that a stage asks. `laws` promises that the rule told is the
//! one by which the rows give the price.
#![tactic(auto)]

mod calls;
mod candidates;
pub mod examples;
pub mod laws;
mod ranges;
mod rules;
mod walks;

pub use crate::calls::{CallReasons, reasons};
pub use crate::candidates::Candidate;
pub use crate::ranges::{AskedRange, RangeAnswer};
pub use crate::rules::PriceRule;
