//! The files that a day is read from: what the bytes of a segment file, of a carry file and of an order file give.
//!
//! `bytes` reads a file whole. `segment` reads the first. `carry` puts into the settings what the second lists: `listed` is what a
//! record says, and `entry_lists` what a security has. `orders` reads the third, a `batch` at a time, as far as `part` says: so many rows,
//! or a round. `order_files` has those of a day, which may be several, and keeps the numbers of their records. `headers` finds a file's
//! format, and `order_format` says which `columns`, commands and conditions that has. `records` finds the fields of a record: a line
//! without quotes by `marks` where it stands, any other by `csv_records`. `entries` tells what the record says, with words and numbers
//! from `fields` and indices from `names`. A row has no free text: `record_texts` reads it again where it is told. `timetable` finds the
//! phase rows of a round, and the share of each worker.
//!
//! For several threads `file_parts` also cuts the text at line feeds, and guesses the number of each part's first record. A part is
//! kept only where it begins at the byte, and with the number, at which those before it ended. Nothing is proved of a guess; quotes
//! over lines, faults and limits are told as by one thread.
#![tactic(auto)]

mod batch;
mod bytes;
mod carry;
mod columns;
mod csv_records;
mod entries;
mod entry_lists;
pub mod examples;
mod fields;
mod file_faults;
mod file_parts;
mod headers;
pub mod laws;
mod listed;
mod marks;
mod names;
mod order_files;
mod order_format;
mod orders;
mod part;
mod record_texts;
mod records;
mod segment;
mod tables;
mod timetable;
mod wide;

pub use crate::batch::Batch;
pub use crate::bytes::{MAX_BYTES, ReadFault, read_file};
pub use crate::carry::read_carry;
pub use crate::file_faults::{FileCause, FileFault, OrdersFault};
pub use crate::file_parts::FileParts;
pub use crate::names::SegmentNames;
pub use crate::order_files::{MAX_FILES, OrderFile, OrderFiles};
pub use crate::orders::{
    MAX_BEFORE, MAX_LINES, MAX_RECORDS, MAX_ROWS, RowReader, read_orders, read_rows,
};
pub use crate::part::Part;
pub use crate::record_texts::RecordTexts;
pub use crate::segment::read_segment;
pub use crate::timetable::{Round, first_phase, rounds, share, sole_worker};
