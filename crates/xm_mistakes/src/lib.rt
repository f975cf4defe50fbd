//! What is wrong with a file, and how to mend it: what order files, carry files and segment files have in common.
//!
//! `mistake` has the mistakes of a file, which the fault of a run leads. All else is words: `texts` has their parts, `prices` those for
//! prices, `other_files` those for files of other kinds. What a text was meant to be is among those that `ways` writes, or `nearest` to
//! it; no rule of a format stands here.
#![tactic(auto)]

mod dates;
mod mistake;
mod nearest;
mod other_files;
mod prices;
mod texts;
mod wanting;
mod ways;

pub use crate::mistake::{Mistake, OpenMistake, led_by, led_by_opening};
pub use crate::nearest::Nearest;
pub use crate::other_files::other_file;
pub use crate::prices::{amount_text, price_reason};
pub use crate::texts::{
    around, behind, counted, digits_of, is_line_end, joined, joined_bytes, line_ends, mended,
    numbered, ordinal, part, plain, shown, without_line_end,
};
pub use crate::wanting::{fault_of_bytes, out_of_memory};
pub use crate::ways::{WAYS, Way, trimmed, unquoted, without_zeros};
