//! What each member bought, sold, paid and received of one security, and what was traded of it.
//!
//! `positions` has all public calls, and `sums` those of a member. The trades of `history` are there for clauses alone.
#![tactic(auto)]

mod history;
mod positions;
mod sums;

pub use crate::positions::Positions;
