//! What is held of one security: its orders in time order, found by name and by priority, and its trades.
//!
//! `book` has all public calls. `order_queues` has the orders under the keys of their slots, in the queues of `levels`. `places` are
//! counted where they are reserved: clauses alone see which. `expiry` deletes what is valid no more; `trades` is a list with room
//! for more.
//!
//! For each side and restriction there is a ladder, with a level of market orders and one for each limit that has an order. A phase
//! asks whole ladders: one in continuous trading, at most three in a call. Nothing is kept in time order: the list of orders is
//! sorted by the number of their add. Only `next_after`, in a call, walks along queues: those of other restrictions at the order's
//! own limit, up to the first order that is later.
#![tactic(auto)]

mod book;
mod expiry;
mod items;
mod levels;
mod order_queues;
mod places;
mod trades;

pub use crate::book::Book;
pub use crate::places::{MAX_PLACES, Place};
pub use crate::trades::Trades;
