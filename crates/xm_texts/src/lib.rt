//! The texts of a day: its statement, the carry file of the next day, and what is told of its rows: the answers, the trades, the
//! events of orders, and the levels behind rows.
//!
//! `statements` makes the statement from `traded`, `remaining` and `sums`, and `carry_file` what is left. `told` adds to what is
//! `asked` for: `answers` a line for each row, `trades` one for each trade, `depth` the levels where they changed, for the option
//! `--depth`. `row_events` has desks take rows, and adds the lines of what happened by them, which `events` makes. `lines` is such a
//! text so far, from its header on. `fields`, `quoted` and `words` are what lines are made of.
#![tactic(auto)]

mod answers;
mod asked;
mod carry_file;
mod depth;
mod events;
pub mod fields;
pub mod laws;
mod lines;
mod quoted;
mod remaining;
mod row_events;
mod statements;
mod sums;
mod told;
mod traded;
mod trades;
mod words;

pub use crate::answers::{begun_answers, push_known, push_unknown};
pub use crate::asked::AskedTexts;
pub use crate::carry_file::carry_text;
pub use crate::depth::{Depths, MarketDepth, begun_levels, push_change};
pub use crate::events::{Owner, begun_events, push_events, push_refused};
pub use crate::lines::Lines;
pub use crate::quoted::push_field;
pub use crate::row_events::{take_row, take_told, tell_unknown};
pub use crate::statements::{push_day, push_rows, push_security, room_for_trades, statement_text};
pub use crate::told::Told;
pub use crate::traded::push_members;
pub use crate::trades::{begun_trades, push_trade, trades_by};
pub use crate::words::{phase_word, range_word, refusal_word, side_word};
