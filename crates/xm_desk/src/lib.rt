//! One security: its state is the replay of the commands that it accepted.
//!
//! `Desk::apply` takes a command through three calls of `Market`, of which each goes by what the one before it answered: `check`,
//! which answers the refusal or an `Accepted`; `reserve`, the only growth beside that of the journal; and `step`, which can't fail.
//! Then `Market::record_from` puts its trades into the positions. A clause sees an `Accepted` as the command that it was made of
//! (`IsAccepted`).
//!
//! Nothing fails once a command has begun, however long its cascade. Each order, each stop and what is ready for the command has room
//! for one trade, and each trade lowers by one how many are still possible (`possible_trades`). A stop holds a place in the book from
//! its entry on, until it is deleted or its order leaves no rest. The invariant `IsFramed` says that this room is there.
//!
//! - `desk`: the journal, the market and the positions. `journal`: what is kept of it. `desks`: those of a segment. `open_entries`: book
//!   and stops filled with what earlier days left.
//! - `accepted`, `entries`: `Accepted` and its `Action`; the fields of an entry.
//! - `tape`: the trades with the last price and the last auction price; here a call is allotted and an order swept.
//! - `unsettled`: a security in the middle of a command, with its pending stops and what is `Ready`. All that changes orders, trades
//!   and stops stands on it. Below it `checks` has every check, and `growth` what each action may need. `incoming`, `changes` and
//!   `calls` do the actions; `calls` also ends a call and the day. `settling` is the cascade, turn by turn: reached stops become
//!   pending, and the first pending one comes in. `before_day` is a security before the day, `market` one between commands.
#![tactic(auto)]

mod accepted;
mod desk;
mod desks;
mod entries;
mod journal;
mod open_entries;
mod tape;
mod unsettled;

pub use crate::desk::Desk;
pub use crate::desks::{desks_of, open_desks};
pub use crate::journal::{Journaling, KeptJournal, UnkeptJournal};
pub use crate::tape::MAX_TRADES;
