//! The reasons of a call, told to people.
ghost use Rattle.std.specs.Prelude.{◌≡◌, ◌++◌, codes, OnOk};
ghost use Rattle.std.specs.List.{flat_map};
ghost use Rattle.xm_reason_texts.specs.Blocks.{block, call_words, candidate_line, columns_line, last_line, moment_text, priced_text, range_line, rule_text, surplus_text, title_line};

use crate::aligned::{push_aligned_number, push_aligned_price};
use crate::words::{CallMoment, auction_word, range_answer_word, stage_word};
use std::alloc::Allocator;
use xm_memory::OutOfMemory;
use xm_reasons::{AskedRange, CallReasons, Candidate, PriceRule};
use xm_rules::{Auction, CallStage, Side};
use xm_texts::fields::{push_line_feed, push_number, push_price, push_space, push_text};
use xm_texts::{range_word, side_word};
use xm_ticks::{Price, TickSize};

/// The names of the columns.
const COLUMNS: &str = "            price        demand        supply        volume       surplus\n";

/// How wide the column of prices is, in characters, and how wide each of the others.
const PRICE_COLUMN: usize = 17;

const COLUMN: usize = 14;

/// The block of a call: title, candidates, last price, ranges, and the price with the rule that decided it, with a blank line behind
/// them. The security has this name and tick size, and the record this number. Prices are in euros. `OutOfMemory` where the growth of
/// the text was refused; part of the block may be there then.
pub fn push_block<A: Allocator + Copy>(
    alloc: A,
    text: &mut Vec<u8, A>,
    security: &str,
    tick: TickSize,
    number: u64,
    moment: CallMoment,
    reasons: &CallReasons<A>,
) -> Result<(), OutOfMemory>
    ensures { OnOk result (text.new.items ≡ text.old.items ++ block security.now tick number moment reasons.now) }
{
    push_title(
        text,
        security,
        number,
        moment,
        reasons.auction,
        reasons.stage,
    )?;
    push_text(text, COLUMNS)?;
    push_candidates(alloc, text, tick, &reasons.candidates)?;
    push_last(text, tick, reasons.last)?;
    push_ranges(text, tick, &reasons.ranges)?;
    push_priced(text, tick, &reasons.price)?;
    push_rule(text, tick, &reasons.rule)?;
    push_text(text, "\n\n")
}

/// The title: the security, the record and the call.
fn push_title<A: Allocator>(
    text: &mut Vec<u8, A>,
    security: &str,
    number: u64,
    moment: CallMoment,
    auction: Auction,
    stage: CallStage,
) -> Result<(), OutOfMemory>
    ensures { OnOk result (text.new.items ≡ text.old.items ++ title_line security.now number moment auction stage) }
{
    push_text(text, security)?;
    push_text(text, ", record ")?;
    push_number(text, number)?;
    push_text(text, ": ")?;
    push_moment(text, moment, auction, stage)?;
    push_line_feed(text)
}

/// Whether the call ends, and its words.
fn push_moment<A: Allocator>(
    text: &mut Vec<u8, A>,
    moment: CallMoment,
    auction: Auction,
    stage: CallStage,
) -> Result<(), OutOfMemory>
    ensures { OnOk result (text.new.items ≡ text.old.items ++ moment_text moment auction stage) }
{
    match moment {
        CallMoment::AtItsEnd => {
            push_text(text, "the end of the ")?;
            push_call(text, auction, stage)
        }
        CallMoment::SoFar => {
            push_text(text, "the ")?;
            push_call(text, auction, stage)?;
            push_text(text, " so far")
        }
    }
}

/// The words of a call.
fn push_call<A: Allocator>(
    text: &mut Vec<u8, A>,
    auction: Auction,
    stage: CallStage,
) -> Result<(), OutOfMemory>
    ensures { OnOk result (text.new.items ≡ text.old.items ++ call_words auction stage) }
{
    push_text(text, stage_word(auction, stage))?;
    push_text(text, auction_word(auction))?;
    push_text(text, " call")
}

/// The lines of the candidates.
fn push_candidates<A: Allocator + Copy>(
    alloc: A,
    text: &mut Vec<u8, A>,
    tick: TickSize,
    candidates: &[Candidate],
) -> Result<(), OutOfMemory>
    ensures { OnOk result (text.new.items ≡ text.old.items ++ flat_map (candidate_line tick) candidates.now) }
{
    for candidate in candidates {
        push_candidate(alloc, text, tick, candidate)?;
    }
    Ok(())
}

/// The line of a candidate.
fn push_candidate<A: Allocator + Copy>(
    alloc: A,
    text: &mut Vec<u8, A>,
    tick: TickSize,
    candidate: &Candidate,
) -> Result<(), OutOfMemory>
    ensures { OnOk result (text.new.items ≡ text.old.items ++ candidate_line tick candidate.now) }
{
    push_aligned_price(alloc, text, PRICE_COLUMN, candidate.price, tick)?;
    push_aligned_number(alloc, text, COLUMN, candidate.demand)?;
    push_aligned_number(alloc, text, COLUMN, candidate.supply)?;
    push_aligned_number(alloc, text, COLUMN, candidate.volume())?;
    push_surplus(alloc, text, &candidate.surplus())?;
    push_line_feed(text)
}

/// A surplus, and the side that has it.
fn push_surplus<A: Allocator + Copy>(
    alloc: A,
    text: &mut Vec<u8, A>,
    surplus: &Option<(Side, u64)>,
) -> Result<(), OutOfMemory>
    ensures { OnOk result (text.new.items ≡ text.old.items ++ surplus_text surplus.now) }
{
    match surplus {
        None => push_aligned_number(alloc, text, COLUMN, 0),
        Some((side, units)) => {
            push_aligned_number(alloc, text, COLUMN, *units)?;
            push_space(text)?;
            push_text(text, side_word(*side))
        }
    }
}

/// The line of the last price.
fn push_last<A: Allocator>(
    text: &mut Vec<u8, A>,
    tick: TickSize,
    last: Price,
) -> Result<(), OutOfMemory>
    ensures { OnOk result (text.new.items ≡ text.old.items ++ last_line tick last) }
{
    push_text(text, "   last price ")?;
    push_price(text, last, tick)?;
    push_line_feed(text)
}

/// The lines of the ranges.
fn push_ranges<A: Allocator>(
    text: &mut Vec<u8, A>,
    tick: TickSize,
    ranges: &[AskedRange],
) -> Result<(), OutOfMemory>
    ensures { OnOk result (text.new.items ≡ text.old.items ++ flat_map (range_line tick) ranges.now) }
{
    for asked in ranges {
        push_range(text, tick, asked)?;
    }
    Ok(())
}

/// The line of a range.
fn push_range<A: Allocator>(
    text: &mut Vec<u8, A>,
    tick: TickSize,
    asked: &AskedRange,
) -> Result<(), OutOfMemory>
    ensures { OnOk result (text.new.items ≡ text.old.items ++ range_line tick asked.now) }
{
    push_text(text, "   ")?;
    push_text(text, range_word(asked.range))?;
    push_text(text, " range ")?;
    push_price(text, asked.low, tick)?;
    push_text(text, " to ")?;
    push_price(text, asked.high, tick)?;
    push_text(text, " around ")?;
    push_price(text, asked.around, tick)?;
    push_text(text, ": ")?;
    push_text(text, range_answer_word(asked.answer))?;
    push_line_feed(text)
}

/// The price and the volume, where there is a price.
fn push_priced<A: Allocator>(
    text: &mut Vec<u8, A>,
    tick: TickSize,
    price: &Option<(Price, u64)>,
) -> Result<(), OutOfMemory>
    ensures { OnOk result (text.new.items ≡ text.old.items ++ priced_text tick price.now) }
{
    match price {
        None => push_text(text, "   no price: "),
        Some((price, volume)) => {
            push_text(text, "   price ")?;
            push_price(text, *price, tick)?;
            push_text(text, ", volume ")?;
            push_number(text, *volume)?;
            push_text(text, ": ")
        }
    }
}

/// The rule that decided.
fn push_rule<A: Allocator>(
    text: &mut Vec<u8, A>,
    tick: TickSize,
    rule: &PriceRule,
) -> Result<(), OutOfMemory>
    ensures { OnOk result (text.new.items ≡ text.old.items ++ rule_text tick rule.now) }
{
    match rule {
        PriceRule::NothingExecutable => push_text(text, "nothing can be executed"),
        PriceRule::NoLimit => push_text(text, "no order has a limit, so the last price"),
        PriceRule::MostVolume => push_text(text, "most volume"),
        PriceRule::LeastSurplus => push_text(text, "most volume, then least surplus"),
        PriceRule::HighestOfBuys => push_text(text, "all surpluses buy: the highest"),
        PriceRule::LowestOfSells => push_text(text, "all surpluses sell: the lowest"),
        PriceRule::LastPriceBetween { low, high } => {
            push_text(text, "last price kept between ")?;
            push_price(text, *low, tick)?;
            push_text(text, " and ")?;
            push_price(text, *high, tick)
        }
    }
}
