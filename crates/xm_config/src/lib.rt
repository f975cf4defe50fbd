//! The settings of a segment: which of them open it, and the rows that it takes.
#![tactic(auto)]

mod config;
mod opening;
mod rows;

pub use crate::config::{Securities, SecurityConfig, SegmentConfig};
pub use crate::opening::{MAX_MEMBERS, MAX_SECURITIES, MAX_WORKERS, OpenFault, open_fault};
pub use crate::rows::Row;
