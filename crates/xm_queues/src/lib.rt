//! Queues of keys that are linked by index, so that a key leaves its queue, from anywhere, in constant time.
#![tactic(auto)]

pub mod laws;
mod links;
mod queues;

pub use crate::links::MAX_KEYS;
pub use crate::queues::{Ends, Queues};
