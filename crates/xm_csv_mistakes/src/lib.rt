//! What is wrong with order files and carry files, and which of their records is meant by a number.
//!
//! Of each file the first mistake is the fault of the run, told by the run's own readers (`faults`), and the calls promise that it is. All
//! words are only tested, by the files in `tests/mistakes`, and no rule of a format is written here again: what a record or a field may be
//! is asked of those readers, over small texts (`run`, `templates`). What a field was meant to be is the first of several texts near to it
//! (`mends`) that they take.
//!
//! `orders` has the files. `csv_file` goes from one mistaken record to the next; `records` finds where it stands, `titles` tells of
//! headers, `counts` of too few or too many fields, `fields` of single ones, with the words in `columns`. `found` has records that are told
//! by their numbers.
#![tactic(auto)]

mod columns;
mod counts;
mod csv_file;
mod faults;
mod fields;
mod found;
mod mends;
mod orders;
mod records;
mod run;
mod templates;
mod titles;
mod words_near;

pub use crate::found::{FoundRecord, find_records};
pub use crate::orders::{carry_mistakes, order_mistakes};
