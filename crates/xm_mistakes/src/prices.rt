//! Prices, in words.
use crate::texts::{joined, numbered};
use std::alloc::Global;
use xm_memory::OutOfMemory;
use xm_ticks::{MAX_PRICE, PriceFault, TickSize, read_price};

/// The text of ten-thousandths of a euro.
pub fn amount_text(alloc: Global, amount: u64) -> Result<String, OutOfMemory> {
    let (whole, rest) = (amount / 10_000, amount % 10_000);
    Ok(format!(in alloc; "{whole}.{rest:04}")?)
}

/// Why a text is no price of a security with this tick.
pub fn price_reason(alloc: Global, text: &[u8], tick: TickSize) -> Result<String, OutOfMemory> {
    match read_price(text, tick) {
        Err(PriceFault::TooManyDecimals) => {
            let said = "is no price, as it has more than four decimals; the tick is ";
            with_step(alloc, said, tick)
        }
        Err(PriceFault::OffTick) => {
            let said = "is no price of the security, as it is no multiple of the tick, ";
            with_step(alloc, said, tick)
        }
        Err(PriceFault::OutOfRange) => {
            let said = "is no price of the security, which are 1 to ";
            let range = numbered(alloc, said, MAX_PRICE as usize, " ticks of ")?;
            with_step(alloc, range.as_str(), tick)
        }
        _ => joined(alloc, &["is no number, such as 10.05"]),
    }
}

/// Words, and behind them a tick.
fn with_step(alloc: Global, said: &str, tick: TickSize) -> Result<String, OutOfMemory> {
    let step = amount_text(alloc, u64::from(tick.get()))?;
    joined(alloc, &[said, step.as_str()])
}
