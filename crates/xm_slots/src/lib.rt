//! Items under keys that are given and come back, and the list of them in order of entry.
#![tactic(auto)]

mod entry;
mod listing;
mod room;
mod slot;
mod slots;

pub use crate::entry::{Entry, Rests};
pub use crate::listing::{Listed, Listing};
pub use crate::room::hold;
pub use crate::slot::VACANT;
pub use crate::slots::Slots;
