//! The stops that are held of one security until the last price reaches their triggers, and those that wait to come in.
//!
//! `stops` has all public calls. `stop_queues` has the held ones by side and trigger, and in `taking` reached ones leave;
//! `entry_queue` has those that wait.
#![tactic(auto)]

mod entry_queue;
mod stop_queues;
mod stops;
mod taking;
mod trigger_queues;
mod trigger_table;

pub use crate::stops::{Pending, Stops};
