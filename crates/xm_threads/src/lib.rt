//! The rows of a day, taken on several threads, each those of its securities, with what one thread gives.
//!
//! `lanes` has each desk as a lane. A thread has some of the lanes: it goes through all rows of a batch, and each lane takes its own.
//! No lane tells anything to another, so there is no lock. `batches` has the next batch read meanwhile. A lane keeps what it tells
//! (`kept_rows`, `kept_lines`), and `merged` puts that in the order of the rows. `row_texts` are the texts so far: there each line gets
//! the number of its record and its free text. `sections` makes the lines of the statement, each security's by itself.
#![tactic(auto)]

mod batches;
mod kept_lines;
mod kept_rows;
mod lanes;
mod merged;
mod row_texts;
mod sections;

pub use crate::batches::run_apart;
pub use crate::sections::security_texts;
