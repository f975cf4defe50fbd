//! The words of the reasons of a call.
ghost use Rattle.std.specs.Prelude.{◌≡◌};
ghost use Rattle.xm_reason_texts.specs.Words.{range_answer_word, auction_word, rule_mark, stage_word};

use xm_reasons::{PriceRule, RangeAnswer};
use xm_rules::{Auction, CallStage};

/// Where a call stands to which reasons are told.
#[derive(Clone, Copy, PartialEq, Eq, Debug)]
pub enum CallMoment {
    /// The record ends it.
    AtItsEnd,
    /// It goes on behind the record.
    SoFar,
}

/// What a call is called before its auction, by its stage. The call that follows an interruption of trading is interrupted from its
/// beginning on, so that this isn't said.
pub(crate) fn stage_word(auction: Auction, stage: CallStage) -> &'static str
    ensures { result.now ≡ stage_word auction stage }
{
    match stage {
        CallStage::Ordinary => "",
        CallStage::Interrupted => match auction {
            Auction::Interruption => "",
            _ => "interrupted ",
        },
        CallStage::Extended => "extended ",
    }
}

/// The word of an auction.
pub(crate) fn auction_word(auction: Auction) -> &'static str
    ensures { result.now ≡ auction_word auction }
{
    match auction {
        Auction::Opening => "opening",
        Auction::Intraday => "intraday",
        Auction::Closing => "closing",
        Auction::Interruption => "interruption",
    }
}

/// Whether a range is kept, in a word.
pub(crate) fn range_answer_word(answer: RangeAnswer) -> &'static str
    ensures { result.now ≡ range_answer_word answer }
{
    match answer {
        RangeAnswer::Kept => "kept",
        RangeAnswer::Left => "left",
    }
}

/// The rule that decides a price, as a field of CSV tells it.
pub(crate) fn rule_mark(rule: &PriceRule) -> &'static str
    ensures { result.now ≡ rule_mark rule.now }
{
    match rule {
        PriceRule::NothingExecutable => "nothing",
        PriceRule::NoLimit => "no-limit",
        PriceRule::MostVolume => "most-volume",
        PriceRule::LeastSurplus => "least-surplus",
        PriceRule::HighestOfBuys => "highest-of-buys",
        PriceRule::LowestOfSells => "lowest-of-sells",
        PriceRule::LastPriceBetween { .. } => "last-price-between",
    }
}
