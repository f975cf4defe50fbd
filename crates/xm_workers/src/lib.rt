//! The rows of a day, taken by several workers, each those of its members.
//!
//! A `worker` is a seat with its counts. A share is here a worker's rows of a round; the `Shares` of `xm_segment` are parts of ledgers.
//! `shared_day` reads a round at a time. `shares` has the members' rows taken: several shares by a thread each (`standing`), one alone
//! by the calling thread. When all are joined, the first worker takes the round's phase rows. In the end the segment is gathered into
//! desks again.
#![tactic(auto)]

mod shared_day;
mod shares;
mod standing;
mod worker;

pub use crate::shared_day::run_shared;
