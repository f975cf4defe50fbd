//! The end of a call: its price, and the allotment of its volume.
//!
//! `price` asks `covered` for the best price at which a side covers the other, for both sides. It walks along the curves of
//! both, level by level, from where `narrowing` brings it, group of prices by group, once for both sides; `depth` is the
//! curve of a side by levels, and `bound` that by groups.
//! `allotment` has the best buy order trade with the best sell order until the volume is reached.
#![tactic(auto)]

mod allotment;
mod bound;
mod covered;
mod depth;
mod narrowing;
mod price;

pub use crate::allotment::allocate;
pub use crate::price::auction_price;
