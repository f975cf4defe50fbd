//! The texts of the reasons of a call: for people, and as lines of CSV.
//!
//! `blocks` writes a block for people: the candidates in columns, the last price, the ranges, and the rule that decided. `rows` writes
//! the same as lines of CSV, and their header. `aligned` has the columns, `words` the words of both.
#![tactic(auto)]

mod aligned;
mod blocks;
mod rows;
mod words;

pub use crate::blocks::push_block;
pub use crate::rows::{push_header, push_rows};
pub use crate::words::CallMoment;
