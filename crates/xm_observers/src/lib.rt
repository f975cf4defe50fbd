//! What is seen of the rows of a day, beside their answers: a row at a time, by the desks before it and behind it.
//!
//! An `observer` sees a row as it is taken; `observing` reads the order files and has one see all rows, in their order.
#![tactic(auto)]

mod observer;
mod observing;

pub use crate::observer::Observer;
pub use crate::observing::{ObservedDay, observe_rows};
