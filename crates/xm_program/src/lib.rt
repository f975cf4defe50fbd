//! What the program `xetra-day` does with its command line: it runs a day of its files, also one that opens with
//! what earlier days left, tells of its auctions or of what is wrong with its files, checks a segment file, or prints its help.
//!
//! `requests` reads the command line, which `command_lines` describes and whose help stands in `help_texts`, and `program` does that.
//! `concurrency` says whether threads or workers take the rows, and a `count` how many. `outputs` makes the files of the texts, by what
//! lies at their `places`; `inputs` opens those that are read. `auctions` has the calls of a security, and `explanations` what is wrong with
//! files. `outcome` is what comes of a call, and `fault_lines` has the line that
//! tells a fault; `complaints` is standard error, as a writer.
#![tactic(auto)]

mod auctions;
mod command_lines;
mod complaints;
mod concurrency;
mod count;
pub mod examples;
mod explanations;
mod fault_lines;
mod help_texts;
mod inputs;
mod outcome;
mod outputs;
mod places;
mod program;
mod requests;

pub use crate::auctions::auction;
pub use crate::concurrency::Concurrency;
pub use crate::count::Count;
pub use crate::explanations::explain_day;
pub use crate::fault_lines::fault_line;
pub use crate::inputs::{Input, open_input, open_inputs, open_where_given};
pub use crate::outcome::{Outcome, Strictness};
pub use crate::outputs::{Output, TextFiles};
pub use crate::program::{carry_over, check, run, run_program, run_words};
pub use crate::requests::{
    AuctionRequest, Carrying, DayRequest, ExplanationRequest, Failure, Request, TextPaths,
    read_words,
};
pub use xm_calls::Form;
