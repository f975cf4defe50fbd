//! The rows of a day, taken in their order by the desks of a segment, which tell the texts that are asked for.
//!
//! `runs` asks the file for batch after batch, and `desks` hands each row to its desk, which answers it; `with_events` does where events
//! are told. `faults` says why a day has no statement, for all crates above, and `report` counts rows.
#![tactic(auto)]

mod desks;
mod faults;
mod report;
mod runs;
mod with_events;

pub use crate::desks::{OpenDay, answer_row};
pub use crate::faults::DayFault;
pub use crate::report::DayReport;
pub use crate::runs::run_rows;
