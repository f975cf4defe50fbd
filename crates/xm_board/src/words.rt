//! The words of a quote, and the quote of its words.
ghost use Rattle.std.specs.Option.{ForSome};
ghost use Rattle.std.specs.Prelude.{◌≡◌, ◌≤◌, ℕ, Option, ◌∷◌, ◌++◌, replicate};
ghost use Rattle.xm_board.specs.Words.{HasPricesInRange, IsPrice, phase_at, phase_number, price_word, quote_words};
ghost use Rattle.xm_board.specs.declared.words.TheConstants.{UNUSED_WORDS};
ghost use Rattle.xm_rules.specs.declared.replies.Quote.{Quote};
ghost use Rattle.xm_ticks.specs.declared.numbers.TheConstants.{MAX_PRICE};

use xm_rules::{Auction, CallStage, Phase, Quote};
use xm_ticks::Price;

/// How many words a quote has.
pub(crate) const QUOTE_WORDS: usize = 7;

/// How many words of a board's table are never used. They lie behind the others and fill a cache line, so that the words of two
/// boards share none.
pub(crate) const UNUSED_WORDS: usize = 8;

/// The words of a quote.
pub(crate) fn words_from(quote: &Quote) -> [u64; QUOTE_WORDS]
    ensures words { result ≡ quote_words quote.now }
    ensures prices { HasPricesInRange quote.now }
{
    [
        quote.version,
        phase_number(quote.phase),
        price_word(quote.best_buy),
        price_word(quote.best_sell),
        u64::from(quote.ref1.get()),
        u64::from(quote.ref2.get()),
        quote.quantity,
    ]
}

/// The words of a board's table: the version of no entry, those of the quote, and the unused ones.
pub(crate) fn opening_words(quote: &Quote) -> [u64; QUOTE_WORDS + 1 + UNUSED_WORDS]
    ensures words { result ≡ 0 ∷ (quote_words quote.now ++ replicate UNUSED_WORDS 0) }
    ensures prices { HasPricesInRange quote.now }
{
    let [version, phase, best_buy, best_sell, ref1, ref2, quantity] = words_from(quote);
    [
        0, version, phase, best_buy, best_sell, ref1, ref2, quantity, 0, 0, 0, 0, 0, 0, 0, 0,
    ]
}

/// The number of a phase, each call stage by itself.
fn phase_number(phase: Phase) -> u64
    ensures { result ≡ phase_number phase }
{
    match phase {
        Phase::PreTrading => 0,
        Phase::Call(Auction::Opening, CallStage::Ordinary) => 1,
        Phase::Call(Auction::Opening, CallStage::Interrupted) => 2,
        Phase::Call(Auction::Opening, CallStage::Extended) => 3,
        Phase::Call(Auction::Intraday, CallStage::Ordinary) => 4,
        Phase::Call(Auction::Intraday, CallStage::Interrupted) => 5,
        Phase::Call(Auction::Intraday, CallStage::Extended) => 6,
        Phase::Call(Auction::Closing, CallStage::Ordinary) => 7,
        Phase::Call(Auction::Closing, CallStage::Interrupted) => 8,
        Phase::Call(Auction::Closing, CallStage::Extended) => 9,
        Phase::Call(Auction::Interruption, CallStage::Interrupted) => 10,
        Phase::Call(Auction::Interruption, CallStage::Extended) => 11,
        Phase::Continuous => 12,
        Phase::PostTrading => 13,
        Phase::Ended => 14,
        Phase::Call(Auction::Interruption, CallStage::Ordinary) => 15,
    }
}

/// The phase of its number.
fn phase_from(word: u64) -> Phase
    ensures { result ≡ phase_at word }
{
    match word {
        0 => Phase::PreTrading,
        1 => Phase::Call(Auction::Opening, CallStage::Ordinary),
        2 => Phase::Call(Auction::Opening, CallStage::Interrupted),
        3 => Phase::Call(Auction::Opening, CallStage::Extended),
        4 => Phase::Call(Auction::Intraday, CallStage::Ordinary),
        5 => Phase::Call(Auction::Intraday, CallStage::Interrupted),
        6 => Phase::Call(Auction::Intraday, CallStage::Extended),
        7 => Phase::Call(Auction::Closing, CallStage::Ordinary),
        8 => Phase::Call(Auction::Closing, CallStage::Interrupted),
        9 => Phase::Call(Auction::Closing, CallStage::Extended),
        10 => Phase::Call(Auction::Interruption, CallStage::Interrupted),
        11 => Phase::Call(Auction::Interruption, CallStage::Extended),
        12 => Phase::Continuous,
        13 => Phase::PostTrading,
        14 => Phase::Ended,
        _ => Phase::Call(Auction::Interruption, CallStage::Ordinary),
    }
}

/// A limit in ticks, and 0 for none.
fn price_word(price: Option<Price>) -> u64
    ensures word { result ≡ price_word price }
    ensures price { ForSome price IsPrice }
{
    match price {
        Some(price) => u64::from(price.get()),
        None => 0,
    }
}

/// The limit of its word.
fn price_from(word: u64) -> Option<Price>
    requires { word ≤ MAX_PRICE }
    ensures { (price : Option ℕ) → ForSome price IsPrice → word ≡ price_word price → result ≡ price }
{
    Price::new(word as u32)
}

/// The reference price of its word.
fn reference_from(word: u64) -> Price
    requires low { 1 ≤ word }
    requires high { word ≤ MAX_PRICE }
    ensures { result ≡ word }
{
    Price::new(word as u32).unwrap()
}

/// The quote of its words.
pub(crate) fn quote_from(words: &[u64; QUOTE_WORDS]) -> Quote
    requires { (q : Quote) × HasPricesInRange q × (words.now ≡ quote_words q) }
    ensures { (q : Quote) → HasPricesInRange q → words.now ≡ quote_words q → result ≡ q }
{
    Quote {
        version: words[0],
        phase: phase_from(words[1]),
        best_buy: price_from(words[2]),
        best_sell: price_from(words[3]),
        ref1: reference_from(words[4]),
        ref2: reference_from(words[5]),
        quantity: words[6],
    }
}
