//! The day of a segment as a value: its files are opened, its rows are taken in one of three ways, and its texts are made: its
//! statement, beside it the answers to its rows, its trades, the events of its orders and the levels behind its rows, and what it
//! leaves to the next day.
//!
//! `opening` reads the segment file and the carry file. `taking` has the three ways, and makes the statement, in the pieces of
//! `statement_text`; for each way `order_files` has the order files read and their rows taken. `value` makes all texts. `calls` has days
//! with readers and writers, and `send_statement`, which the program writes with too. `checks` makes the line of the command `check`.
#![tactic(auto)]

mod calls;
mod checks;
pub mod examples;
mod opening;
mod order_files;
mod statement_text;
mod taking;
mod value;

pub use crate::calls::{
    carry, carry_alone, carry_day, run_alone, run_day, run_orders, send_statement, statement,
};
pub use crate::checks::check;
pub use crate::opening::{open_carried_files, open_day_files, open_files};
pub use crate::statement_text::StatementText;
pub use crate::taking::{TakenDay, take_in_order, take_on_threads, take_shared};
pub use crate::value::{Completeness, DayTexts, HandsOn, completeness_of, day_texts};
pub use xm_replay::{DayFault, DayReport};
pub use xm_texts::AskedTexts;
