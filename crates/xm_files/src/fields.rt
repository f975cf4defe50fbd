//! The texts of the fields of the order file.
ghost use Rattle.std.specs.Prelude.{◌≡◌};
ghost use Rattle.std.specs.Str.{bytes_eq};
ghost use Rattle.xm_ticks.specs.Reading.{price_of};
ghost use Rattle.xm_files.specs.Rows.{condition_of, date_of, raw_price, restriction_of, side_named, validity_of, whole_of};

use xm_rules::{Condition, Restriction, Side, Validity};
use xm_ticks::{PriceFault, TickSize, read_number, read_price};

/// The most bytes of the free text of a record.
pub(crate) const MAX_TEXT: usize = 64;

/// Whether a field is this word.
#[inline(always)]
pub(crate) fn is_word(text: &[u8], word: &str) -> bool
    ensures { result ≡ bytes_eq text.now word.now }
{
    text == word.as_bytes()
}

/// The number that one to ten digits write, if 32 bits hold it.
#[inline(always)]
pub(crate) fn whole(text: &[u8]) -> Option<u32>
    ensures { result ≡ whole_of text.now }
{
    if text.len() > 10 {
        return None;
    }
    match read_number(text) {
        Some(number) => u32::try_from(number).ok(),
        None => None,
    }
}

/// The raw price of a text: 0 where it is a number and no price, so that its row is refused.
pub(crate) fn price(text: &[u8], tick: TickSize) -> Option<u32>
    ensures { result ≡ raw_price (price_of text.now tick) }
{
    match read_price(text, tick) {
        Ok(price) => Some(price.get()),
        Err(PriceFault::NotANumber) => None,
        Err(_) => Some(0),
    }
}

/// The side that a text names.
#[inline(always)]
pub(crate) fn side(text: &[u8]) -> Option<Side>
    ensures { result ≡ side_named text.now }
{
    if is_word(text, "buy") {
        Some(Side::Buy)
    } else if is_word(text, "sell") {
        Some(Side::Sell)
    } else {
        None
    }
}

/// The date that exactly eight digits write.
fn date(text: &[u8]) -> Option<u32>
    ensures { result ≡ date_of text.now }
{
    if text.len() == 8 { whole(text) } else { None }
}

/// How long an order is valid; an empty text is the day.
#[inline(always)]
pub(crate) fn validity(text: &[u8]) -> Option<Validity>
    ensures { result ≡ validity_of text.now }
{
    if text.is_empty() || is_word(text, "day") {
        Some(Validity::Day)
    } else if is_word(text, "gtc") {
        Some(Validity::TillCancelled)
    } else {
        date(text).map(Validity::TillDate)
    }
}

/// The restriction of an order; an empty text is none.
#[inline(always)]
pub(crate) fn restriction(text: &[u8]) -> Option<Restriction>
    ensures { result ≡ restriction_of text.now }
{
    if text.is_empty() || is_word(text, "free") {
        Some(Restriction::Free)
    } else if is_word(text, "opening") {
        Some(Restriction::OpeningOnly)
    } else if is_word(text, "auctions") {
        Some(Restriction::AuctionsOnly)
    } else if is_word(text, "closing") {
        Some(Restriction::ClosingOnly)
    } else {
        None
    }
}

/// The condition of an order; an empty text is none.
#[inline(always)]
pub(crate) fn condition(text: &[u8]) -> Option<Condition>
    ensures { result ≡ condition_of text.now }
{
    if text.is_empty() || is_word(text, "plain") {
        Some(Condition::Plain)
    } else if is_word(text, "ioc") {
        Some(Condition::Ioc)
    } else if is_word(text, "fok") {
        Some(Condition::Fok)
    } else if is_word(text, "boc") {
        Some(Condition::Boc)
    } else {
        None
    }
}
