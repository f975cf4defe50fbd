//! The key of each member and reference, with room that is reserved by member.
//!
//! Begin at `names`. Below it, `members` has the references of each member in `member_names`: a `table` of `bucket`s, each of four
//! `slot`s, with the hash of `seed`. `storage` is the allocator and the seed.
#![tactic(auto)]

mod bucket;
mod member_names;
mod members;
mod names;
mod seed;
mod slot;
mod storage;
mod table;

pub use crate::names::Names;
pub use crate::seed::{Seed, SeededHasher};
pub use crate::storage::Storage;
