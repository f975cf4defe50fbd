//! What is wrong with segment files, and why a segment isn't opened.
//!
//! Of each file the first mistake is the fault of the run, told by the run's own reader (`faults`), and the calls promise that it is. All
//! words are only tested, by the files in `tests/mistakes`, and no rule of a format is written here again: what a value may be is asked of
//! that reader, over small texts (`values`).
//!
//! `segment` has the files, with the words in `keys` and the places in `key_lines`, `syntax` those that are no TOML, `opening` segments
//! that aren't opened.
#![tactic(auto)]

mod faults;
mod key_lines;
mod keys;
mod opening;
mod segment;
mod syntax;
mod values;

pub use crate::opening::opening_mistakes;
pub use crate::segment::segment_mistakes;
