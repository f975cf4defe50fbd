//! What is wrong with the files of a day, and where there is nothing, what its statement leaves unsaid.
//!
//! Begin at `explain` in `explaining`: it has the mistakes of the files as they were `read_files`, of which the first is the fault of the
//! run, in `mistaken`; or, where there is none, what is `unsaid` of the rows of their day. `lines` has the text, with the words of `notes`.
#![tactic(auto)]

mod explaining;
mod lines;
mod mistaken;
mod notes;
mod read_files;
mod running;
mod unsaid;

pub use crate::explaining::{Explanation, explain};
pub use crate::lines::explanation_text;
pub use crate::mistaken::{Found, MistakenFile};
pub use crate::read_files::{ReadDay, ReadFile};
pub use crate::running::UnsaidDay;
pub use crate::unsaid::{RefusedRows, Standing};
