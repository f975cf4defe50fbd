//! Continuous trading: an incoming order is executed against the other side of the book.
//!
//! `sweeping` does it, and `filling` says beforehand whether a fill-or-kill order can be filled. `terms` are fixed before the first
//! fill; `meeting` is what the order meets next.
#![tactic(auto)]

mod filling;
mod meeting;
mod sweeping;
mod terms;

pub use crate::filling::fillable;
pub use crate::meeting::would_execute;
pub use crate::sweeping::{Swept, sweep};
