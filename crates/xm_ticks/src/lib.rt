//! Prices, quantities and tick sizes, and the texts of prices and money.
#![tactic(auto)]

mod digits;
pub mod examples;
mod numbers;
mod ranges;
mod reading;
mod writing;

pub use numbers::{
    JournalLimit, MAX_JOURNAL_LIMIT, MAX_PRICE, MAX_QUANTITY, MAX_TICK_SIZE, Price, TickSize,
};
pub use ranges::{MAX_WIDTH, inside};
pub use reading::{MAX_NUMBER_LENGTH, PriceFault, read_number, read_price};
pub use writing::{write_money, write_price, write_whole};
