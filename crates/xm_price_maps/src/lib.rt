//! Prices in use: a set that finds the next member by a few words of bits, a map to values, and sums of
//! numbers by groups of neighbours. Each takes room for a price beforehand, so that no change can fail.
#![tactic(auto)]

mod bits;
mod bounded;
mod levels;
mod map;
mod marks;
mod page;
mod set;
mod sums;
mod words;

pub use crate::levels::Levels;
pub use crate::map::PriceMap;
pub use crate::marks::PRICES;
pub use crate::set::PriceSet;
pub use crate::sums::{GroupWidth, PriceSums};
