//! The reasons of a call as lines of CSV.
ghost use Rattle.std.specs.Prelude.{◌≡◌, ◌++◌, OnOk};
ghost use Rattle.std.specs.List.{flat_map};
ghost use Rattle.xm_reason_texts.specs.Rows.{bounds_fields, candidate_row, last_row, price_row, priced_columns, range_row, reason_rows, reasons_header, row_start, call_rows, surplus_fields};

use crate::words::{range_answer_word, rule_mark};
use std::alloc::Allocator;
use xm_memory::OutOfMemory;
use xm_reasons::{AskedRange, CallReasons, Candidate, PriceRule};
use xm_rules::{Auction, CallStage, Phase, Side};
use xm_texts::fields::{push_comma, push_line_feed, push_number, push_price, push_text};
use xm_texts::{phase_word, range_word, side_word};
use xm_ticks::{Price, TickSize};

/// The names of the fields.
const HEADER: &str =
    "record,security,phase,row,price,demand,supply,volume,surplus,side,low,high,told\n";

/// The names of the fields, with which a file of such lines begins.
pub fn push_header<A: Allocator>(text: &mut Vec<u8, A>) -> Result<(), OutOfMemory>
    ensures { OnOk result (text.new.items ≡ text.old.items ++ reasons_header) }
{
    push_text(text, HEADER)
}

/// The lines of a call: the candidates, the highest first, the last price, the ranges, and the price with the rule that decided it.
/// The security has this name and tick size, and the record this number. Prices are in euros. `OutOfMemory` where the growth of the
/// text was refused; part of the lines may be there then.
pub fn push_rows<A: Allocator + Copy>(
    alloc: A,
    text: &mut Vec<u8, A>,
    security: &str,
    tick: TickSize,
    number: u64,
    reasons: &CallReasons<A>,
) -> Result<(), OutOfMemory>
    ensures { OnOk result (text.new.items ≡ text.old.items ++ reason_rows security.now tick number reasons.now) }
{
    let mut start = Vec::new(alloc);
    push_start(&mut start, security, number, reasons.auction, reasons.stage)?;
    push_rows_from(text, &start, tick, reasons)
}

/// The lines of a call, each of which begins so.
fn push_rows_from<A: Allocator + Copy>(
    text: &mut Vec<u8, A>,
    start: &[u8],
    tick: TickSize,
    reasons: &CallReasons<A>,
) -> Result<(), OutOfMemory>
    ensures { OnOk result (text.new.items ≡ text.old.items ++ call_rows start.now tick reasons.now) }
{
    push_candidates(text, start, tick, &reasons.candidates)?;
    push_last(text, start, tick, reasons.last)?;
    push_ranges(text, start, tick, &reasons.ranges)?;
    push_priced(text, start, tick, &reasons.price, &reasons.rule)
}

/// With what each line begins.
fn push_start<A: Allocator>(
    text: &mut Vec<u8, A>,
    security: &str,
    number: u64,
    auction: Auction,
    stage: CallStage,
) -> Result<(), OutOfMemory>
    ensures { OnOk result (text.new.items ≡ text.old.items ++ row_start security.now number auction stage) }
{
    push_number(text, number)?;
    push_comma(text)?;
    push_text(text, security)?;
    push_comma(text)?;
    push_text(text, phase_word(Phase::Call(auction, stage)))?;
    push_comma(text)
}

/// Bytes as they are.
fn push_bytes<A: Allocator>(text: &mut Vec<u8, A>, bytes: &[u8]) -> Result<(), OutOfMemory>
    ensures { OnOk result (text.new.items ≡ text.old.items ++ bytes.now) }
{
    text.extend_from_slice(bytes)?;
    Ok(())
}

/// The lines of the candidates.
fn push_candidates<A: Allocator>(
    text: &mut Vec<u8, A>,
    start: &[u8],
    tick: TickSize,
    candidates: &[Candidate],
) -> Result<(), OutOfMemory>
    ensures { OnOk result (text.new.items ≡ text.old.items ++ flat_map (candidate_row start.now tick) candidates.now) }
{
    for candidate in candidates {
        push_candidate(text, start, tick, candidate)?;
    }
    Ok(())
}

/// The line of a candidate.
fn push_candidate<A: Allocator>(
    text: &mut Vec<u8, A>,
    start: &[u8],
    tick: TickSize,
    candidate: &Candidate,
) -> Result<(), OutOfMemory>
    ensures { OnOk result (text.new.items ≡ text.old.items ++ candidate_row start.now tick candidate.now) }
{
    push_bytes(text, start)?;
    push_text(text, "candidate,")?;
    push_price(text, candidate.price, tick)?;
    push_comma(text)?;
    push_number(text, candidate.demand)?;
    push_comma(text)?;
    push_number(text, candidate.supply)?;
    push_comma(text)?;
    push_number(text, candidate.volume())?;
    push_comma(text)?;
    push_surplus(text, &candidate.surplus())?;
    push_text(text, ",,,\n")
}

/// The fields of a surplus.
fn push_surplus<A: Allocator>(
    text: &mut Vec<u8, A>,
    surplus: &Option<(Side, u64)>,
) -> Result<(), OutOfMemory>
    ensures { OnOk result (text.new.items ≡ text.old.items ++ surplus_fields surplus.now) }
{
    match surplus {
        None => push_text(text, "0,"),
        Some((side, units)) => {
            push_number(text, *units)?;
            push_comma(text)?;
            push_text(text, side_word(*side))
        }
    }
}

/// The line of the last price.
fn push_last<A: Allocator>(
    text: &mut Vec<u8, A>,
    start: &[u8],
    tick: TickSize,
    last: Price,
) -> Result<(), OutOfMemory>
    ensures { OnOk result (text.new.items ≡ text.old.items ++ last_row start.now tick last) }
{
    push_bytes(text, start)?;
    push_text(text, "last,")?;
    push_price(text, last, tick)?;
    push_text(text, ",,,,,,,,\n")
}

/// The lines of the ranges.
fn push_ranges<A: Allocator>(
    text: &mut Vec<u8, A>,
    start: &[u8],
    tick: TickSize,
    ranges: &[AskedRange],
) -> Result<(), OutOfMemory>
    ensures { OnOk result (text.new.items ≡ text.old.items ++ flat_map (range_row start.now tick) ranges.now) }
{
    for asked in ranges {
        push_range(text, start, tick, asked)?;
    }
    Ok(())
}

/// The line of a range.
fn push_range<A: Allocator>(
    text: &mut Vec<u8, A>,
    start: &[u8],
    tick: TickSize,
    asked: &AskedRange,
) -> Result<(), OutOfMemory>
    ensures { OnOk result (text.new.items ≡ text.old.items ++ range_row start.now tick asked.now) }
{
    push_bytes(text, start)?;
    push_text(text, range_word(asked.range))?;
    push_comma(text)?;
    push_price(text, asked.around, tick)?;
    push_text(text, ",,,,,,")?;
    push_price(text, asked.low, tick)?;
    push_comma(text)?;
    push_price(text, asked.high, tick)?;
    push_comma(text)?;
    push_text(text, range_answer_word(asked.answer))?;
    push_line_feed(text)
}

/// The line of the price.
fn push_priced<A: Allocator>(
    text: &mut Vec<u8, A>,
    start: &[u8],
    tick: TickSize,
    price: &Option<(Price, u64)>,
    rule: &PriceRule,
) -> Result<(), OutOfMemory>
    ensures { OnOk result (text.new.items ≡ text.old.items ++ price_row start.now tick price.now rule.now) }
{
    push_bytes(text, start)?;
    push_text(text, "price,")?;
    push_price_fields(text, tick, price)?;
    push_text(text, ",,,")?;
    push_bounds(text, tick, rule)?;
    push_comma(text)?;
    push_text(text, rule_mark(rule))?;
    push_line_feed(text)
}

/// The fields of a price and its volume.
fn push_price_fields<A: Allocator>(
    text: &mut Vec<u8, A>,
    tick: TickSize,
    price: &Option<(Price, u64)>,
) -> Result<(), OutOfMemory>
    ensures { OnOk result (text.new.items ≡ text.old.items ++ priced_columns tick price.now) }
{
    match price {
        None => push_text(text, ",,,"),
        Some((price, volume)) => {
            push_price(text, *price, tick)?;
            push_text(text, ",,,")?;
            push_number(text, *volume)
        }
    }
}

/// The fields of the prices between which a rule keeps the last price.
fn push_bounds<A: Allocator>(
    text: &mut Vec<u8, A>,
    tick: TickSize,
    rule: &PriceRule,
) -> Result<(), OutOfMemory>
    ensures { OnOk result (text.new.items ≡ text.old.items ++ bounds_fields tick rule.now) }
{
    match rule {
        PriceRule::LastPriceBetween { low, high } => {
            push_price(text, *low, tick)?;
            push_comma(text)?;
            push_price(text, *high, tick)
        }
        _ => push_comma(text),
    }
}
