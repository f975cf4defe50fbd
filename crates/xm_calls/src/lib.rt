//! The calls of a security, told as tables: why the price of each is the price.
//!
//! Begin at `call_tables` in `tables`. `asked` says which calls are told, and `told` sees the rows of the day, and tells a call before
//! the row that ends it, or before the record that was asked for.
#![tactic(auto)]

mod asked;
mod tables;
mod told;

pub use crate::asked::{CallsAsked, Form};
pub use crate::tables::call_tables;
