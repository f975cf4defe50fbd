//! The rules of a trading day: the types of the market model, and in `specs/` its definitions.
#![tactic(auto)]

mod carried;
mod commands;
pub mod examples;
pub mod laws;
mod orders;
mod phases;
mod replies;
mod settings;
mod totals;

pub use carried::{Carried, MAX_CARRIED};
pub use commands::{Command, Condition, Kind, MAX_NUMBER, is_given_in_range, is_in_range};
pub use orders::{Order, OrderKind, Restriction, Side, Stop, Trade, TradeKind, Validity};
pub use phases::{Auction, CallStage, Phase};
pub use replies::{Quote, REFUSALS, Refusal, Reply, Totals};
pub use settings::{DeskSettings, PHASE_COMMANDS_MORE, Widths};
pub use totals::{MAX_TRADED_MONEY, MAX_TRADED_QUANTITY, last_price, total_money, total_quantity};
