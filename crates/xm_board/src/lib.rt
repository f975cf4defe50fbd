//! The quote of one security, which one pen writes and watches read without a lock.
//!
//! `board` has what a pen and a watch are given to: `publish` writes the quote, and `tell` tells a watch what was published. `watch` reads it.
//!
//! A board has eight words that all threads share: a sequence and the seven words of the quote (`words`). The sequence is twice the
//! version that is published, and one more while the pen writes:
//!
//!     the pen   42 -> 43   word 1 .. word 7   43 -> 44
//!     a watch        44 ?   word 1 .. word 7   44 ?        the same twice, and even: the words are of one quote
//!
//! What holds at every moment, whatever other threads do, is the record `Kept` of `specs/Rule`. Each step of the `pen` and of a
//! `watch` is a type of `rule`, proved to keep it.
#![tactic(auto)]

mod board;
mod journal;
pub mod laws;
mod naming;
mod opened;
mod pen;
mod rule;
mod seats;
mod watch;
mod words;

pub use board::Board;
pub use journal::{Entry, NumberedJournal};
pub use naming::BoardNaming;
pub use opened::OpenedBoard;
pub use pen::Pen;
pub use watch::{Known, Watch};
