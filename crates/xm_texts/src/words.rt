//! The words of the texts.
ghost use Rattle.std.specs.Prelude.{◌≡◌};
ghost use Rattle.xm_texts.specs.Carry.{kind_word};
ghost use Rattle.xm_texts.specs.RowAnswers.{refusal_word};
ghost use Rattle.xm_texts.specs.RowEvents.{range_word};
ghost use Rattle.xm_texts.specs.Statement.{phase_word, restriction_word, side_word, trade_word};

use xm_events::PriceRange;
use xm_rules::{Auction, CallStage, OrderKind, Phase, Refusal, Restriction, Side, TradeKind};

/// The word of a phase.
pub fn phase_word(phase: Phase) -> &'static str
    ensures { result.now ≡ phase_word phase }
{
    use CallStage::{Extended, Interrupted, Ordinary};
    match phase {
        Phase::PreTrading => "pre-trading",
        Phase::Call(Auction::Opening, Ordinary) => "opening-call",
        Phase::Call(Auction::Opening, Interrupted) => "opening-interrupted",
        Phase::Call(Auction::Opening, Extended) => "opening-extended",
        Phase::Call(Auction::Intraday, Ordinary) => "intraday-call",
        Phase::Call(Auction::Intraday, Interrupted) => "intraday-interrupted",
        Phase::Call(Auction::Intraday, Extended) => "intraday-extended",
        Phase::Call(Auction::Closing, Ordinary) => "closing-call",
        Phase::Call(Auction::Closing, Interrupted) => "closing-interrupted",
        Phase::Call(Auction::Closing, Extended) => "closing-extended",
        Phase::Call(Auction::Interruption, Ordinary) => "interruption-call",
        Phase::Call(Auction::Interruption, Interrupted) => "interruption-interrupted",
        Phase::Call(Auction::Interruption, Extended) => "interruption-extended",
        Phase::Continuous => "continuous",
        Phase::PostTrading => "post-trading",
        Phase::Ended => "ended",
    }
}

/// The word of a kind of trade: a trade of an auction is named by the call at whose end it was made.
pub fn trade_word(kind: TradeKind) -> &'static str
    ensures { result.now ≡ trade_word kind }
{
    match kind {
        TradeKind::Continuous => phase_word(Phase::Continuous),
        TradeKind::Auction(auction, stage) => phase_word(Phase::Call(auction, stage)),
    }
}

/// The word of a side.
pub fn side_word(side: Side) -> &'static str
    ensures { result.now ≡ side_word side }
{
    match side {
        Side::Buy => "buy",
        Side::Sell => "sell",
    }
}

/// The word of the kind of an order, or of the stop with this trigger that becomes one.
pub fn kind_word(trigger: Option<u32>, kind: OrderKind) -> &'static str
    ensures { result.now ≡ kind_word trigger kind }
{
    match trigger {
        None => match kind {
            OrderKind::Market => "market",
            OrderKind::Limit(_) => "limit",
        },
        Some(_) => match kind {
            OrderKind::Market => "stop-market",
            OrderKind::Limit(_) => "stop-limit",
        },
    }
}

/// The word of a restriction.
pub fn restriction_word(restriction: Restriction) -> &'static str
    ensures { result.now ≡ restriction_word restriction }
{
    match restriction {
        Restriction::Free => "free",
        Restriction::OpeningOnly => "opening",
        Restriction::AuctionsOnly => "auctions",
        Restriction::ClosingOnly => "closing",
    }
}

/// The word of a price range.
pub fn range_word(range: PriceRange) -> &'static str
    ensures { result.now ≡ range_word range }
{
    match range {
        PriceRange::Dynamic => "dynamic",
        PriceRange::Static => "static",
        PriceRange::Wide => "wide",
    }
}

/// The word of a refusal.
pub fn refusal_word(refusal: Refusal) -> &'static str
    ensures { result.now ≡ refusal_word refusal }
{
    match refusal {
        Refusal::UnknownSecurity => "unknown-security",
        Refusal::UnknownMember => "unknown-member",
        Refusal::DayEnded => "day-ended",
        Refusal::BadQuantity => "bad-quantity",
        Refusal::BadPrice => "bad-price",
        Refusal::BadValidity => "bad-validity",
        Refusal::BadCombination => "bad-combination",
        Refusal::WrongPhase => "wrong-phase",
        Refusal::DuplicateReference => "duplicate-reference",
        Refusal::UnknownOrder => "unknown-order",
        Refusal::NotChangeable => "not-changeable",
        Refusal::TriggerReached => "trigger-reached",
        Refusal::JournalFull => "journal-full",
        Refusal::OutOfMemory(_) => "out-of-memory",
        Refusal::WouldExecute => "would-execute",
    }
}
