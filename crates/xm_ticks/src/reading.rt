//! The number and the price of a text.
ghost use Rattle.std.specs.Prelude.{◌≡◌, ℕ, ◌<◌, ◌≤◌, ◌-◌, ◌/◌, ◌%◌, ◌^◌, length, if◌then◌else◌, Some, None, IfSome, ◌+◌, ◌*◌};
ghost use Rattle.std.specs.Option.{ForSome};
ghost use Rattle.xm_ticks.specs.Digits.{IsPlaces};
ghost use Rattle.xm_ticks.specs.Reading.{is_digit, number_of, point_of, price_of, price_of_parts, price_of_amount};

use crate::digits::joined;
use crate::numbers::{Price, TickSize};

/// The most bytes that the text of a number or a price has.
pub const MAX_NUMBER_LENGTH: usize = 16;

/// Why a text is no price, in the order of the checks.
#[derive(Clone, Copy, PartialEq, Eq, Debug)]
pub enum PriceFault {
    /// It isn't at most `MAX_NUMBER_LENGTH` bytes of digits, with or without a point between digits.
    NotANumber,
    /// It has more than four decimals.
    TooManyDecimals,
    /// It is no multiple of the tick size.
    OffTick,
    /// It is not 1 to `MAX_PRICE` ticks.
    OutOfRange,
}

/// Reads a price in euros, as `12.345`.
///
/// A price text has at most `MAX_NUMBER_LENGTH` bytes: digits, then optionally a point and digits.
#[inline(always)]
pub fn read_price(text: &[u8], tick: TickSize) -> Result<Price, PriceFault>
    ensures { result ≡ price_of text.now tick }
{
    match short_amount(text) {
        Some(amount) => price_of_amount(u128::from(amount), tick),
        None => read_any_price(text, tick),
    }
}

/// The ten-thousandths of a euro that a short text writes, if it has one to four digits before a point and behind it, or
/// up to five alone. Nearly every price has.
#[inline(always)]
fn short_amount(text: &[u8]) -> Option<u32>
    ensures { IfSome result (λ amount. (tick : ℕ) → price_of text.now tick ≡ price_of_amount amount tick) }
{
    match places(text) {
        Some(places) => {
            let whole = text.len() - places - 1;
            if whole > 4 {
                return None;
            }
            joined(text, whole, places)
        }
        None => whole_amount(text),
    }
}

/// The ten-thousandths of a euro that up to five digits write.
fn whole_amount(text: &[u8]) -> Option<u32>
    ensures { IfSome result (λ amount. (tick : ℕ) → price_of text.now tick ≡ price_of_amount amount tick) }
{
    if text.len() > 5 {
        return None;
    }
    let euros = read_digits(text)? as u32;
    Some(euros * 10_000)
}

/// How many characters stand behind a point: one to four, in a text of at least four and not behind its first character.
fn places(text: &[u8]) -> Option<usize>
    ensures { IfSome result (λ n. IsPlaces text.now n) }
{
    match text {
        [_, .., b'.', _, _, _, _] => Some(4),
        [_, .., b'.', _, _, _] => Some(3),
        [_, .., b'.', _, _] => Some(2),
        [_, _, .., b'.', _] => Some(1),
        _ => None,
    }
}

/// Reads the price of any text. Few come here.
#[inline(never)]
fn read_any_price(text: &[u8], tick: TickSize) -> Result<Price, PriceFault>
    ensures { result ≡ price_of text.now tick }
{
    if text.len() > MAX_NUMBER_LENGTH {
        return Err(PriceFault::NotANumber);
    }
    match point(text) {
        None => price_of_parts(read_digits(text), Some(0), 0, tick),
        Some(i) => price_of_parts(
            read_digits(&text[..i]),
            read_digits(&text[i + 1..]),
            text.len() - (i + 1),
            tick,
        ),
    }
}

/// Where the point stands.
fn point(text: &[u8]) -> Option<usize>
    ensures place { result ≡ point_of text.now }
    ensures within { IfSome result (λ i. i < length text.now) }
{
    text.iter().position(|byte| *byte == b'.')
}

/// The number that up to `MAX_NUMBER_LENGTH` digits write, if there is a digit and nothing else.
#[inline(always)]
pub fn read_number(text: &[u8]) -> Option<u64>
    requires { length text.now ≤ MAX_NUMBER_LENGTH }
    ensures value { result ≡ number_of text.now }
    ensures small { IfSome result (λ n. n < 10 ^ MAX_NUMBER_LENGTH) }
{
    if (4..=8).contains(&text.len())
        && let Some(number) = joined(text, text.len() - 4, 4)
    {
        return Some(u64::from(number));
    }
    read_digits(text)
}

/// A number with this digit behind it, if the character is one.
fn with_digit(number: u64, byte: u8) -> Option<u64>
    requires { number < 10 ^ 15 }
    ensures { result ≡ (if is_digit byte then Some (number * 10 + (byte - 48)) else None) }
{
    let digit = u64::from(byte).wrapping_sub(48);
    if digit > 9 {
        return None;
    }
    Some(number * 10 + digit)
}

/// The number that digits write, one after the other.
fn read_digits(text: &[u8]) -> Option<u64>
    requires { length text.now ≤ MAX_NUMBER_LENGTH }
    ensures value { result ≡ number_of text.now }
    ensures small { IfSome result (λ n. n < 10 ^ MAX_NUMBER_LENGTH) }
    ensures by_length { IfSome result (λ n. n < 10 ^ length text.now) }
{
    if text.is_empty() {
        return None;
    }
    let mut number = 0u64;
    for byte in text {
        number = with_digit(number, *byte)?;
    }
    Some(number)
}

/// The price of the numbers before and after a point, of which the second has so many digits.
fn price_of_parts(
    whole: Option<u64>,
    decimals: Option<u64>,
    places: usize,
    tick: TickSize,
) -> Result<Price, PriceFault>
    requires { ForSome decimals (λ n. n < 10 ^ MAX_NUMBER_LENGTH) }
    ensures { result ≡ price_of_parts whole decimals places tick }
{
    match whole {
        None => Err(PriceFault::NotANumber),
        Some(whole) => match decimals {
            None => Err(PriceFault::NotANumber),
            Some(decimals) => {
                if places > 4 {
                    return Err(PriceFault::TooManyDecimals);
                }
                let part = u128::from(decimals) * u128::from(scale(places));
                price_of_amount(u128::from(whole) * 10_000 + part, tick)
            }
        },
    }
}

/// How many ten-thousandths a unit of the last of so many decimals has.
fn scale(places: usize) -> u64
    requires { places ≤ 4 }
    ensures { result ≡ 10 ^ (4 - places) }
{
    match places {
        0 => 10_000,
        1 => 1_000,
        2 => 100,
        3 => 10,
        _ => 1,
    }
}

/// The price of ten-thousandths of a euro.
fn price_of_amount(amount: u128, tick: TickSize) -> Result<Price, PriceFault>
    ensures { result ≡ price_of_amount amount tick }
{
    let (ticks, rest) = ticks_of(amount, tick);
    if rest != 0 {
        return Err(PriceFault::OffTick);
    }
    match u32::try_from(ticks) {
        Ok(ticks) => match Price::new(ticks) {
            Some(price) => Ok(price),
            None => Err(PriceFault::OutOfRange),
        },
        Err(_) => Err(PriceFault::OutOfRange),
    }
}

/// How many ticks an amount has, and what is left over. Nearly every amount fits 64 bits, which are divided faster.
fn ticks_of(amount: u128, tick: TickSize) -> (u128, u128)
    ensures ticks { result.0 ≡ amount / tick }
    ensures rest { result.1 ≡ amount % tick }
{
    match u64::try_from(amount) {
        Ok(small) => {
            let tick = u64::from(tick.get());
            (u128::from(small / tick), u128::from(small % tick))
        }
        Err(_) => {
            let tick = u128::from(tick.get());
            (amount / tick, amount % tick)
        }
    }
}
