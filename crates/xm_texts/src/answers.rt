//! The answers to rows, line by line.
ghost use Rattle.std.specs.Prelude.{◌≡◌, ◌≢◌, ◌*◌, ◌++◌, map, option_map, pos, slice_get, true, IfOk, None, Some, OnErr, OnOk};
ghost use Rattle.xm_texts.specs.RowAnswers.{answer_fields, answer_line, answer_word, answers_header, market_fields, number_field, priced_fields, reply_fields, rest_named, security_fields, unknown_fields, where_asked, with_text};
ghost use Rattle.xm_rules.specs.Step.{replay};
ghost use Rattle.xm_ticks.specs.Writing.{money_text};
ghost use Rattle.xm_files.specs.RecordTexts.{texts_in};

use crate::fields::{
    push_comma, push_line_feed, push_money, push_number, push_price, push_text, security_name,
};
use crate::lines::{Lines, begun};
use crate::quoted::push_field;
use crate::words::{phase_word, refusal_word};
use std::alloc::{Allocator, Global};
use xm_config::Row;
use xm_desk::Desk;
use xm_files::{RecordTexts, SegmentNames};
use xm_memory::OutOfMemory;
use xm_rules::{Command, Refusal, Reply, Side};
use xm_ticks::{Price, TickSize};

/// The names of the fields.
pub(crate) const HEADER: &str =
    "record,security,answer,version,phase,first_trade,trades,quantity,money,rest,best_buy,buy_quantity,best_sell,sell_quantity,last,auction,indicative,indicative_quantity,text\n";

/// Adds the line of a row that was answered so by the desks, which have taken it. The texts are those of its file.
#[inline(always)]
pub(crate) fn tell_answer<A: Allocator + Copy>(
    lines: &mut Lines,
    names: &SegmentNames,
    texts: &mut RecordTexts<'_>,
    desks: &[Desk<A>],
    row: &Row,
    answer: &Result<Reply, Refusal>,
) -> Result<(), OutOfMemory>
    ensures told { OnOk result (lines.new ≡ with_text (answer_line names.now row.now (texts_in texts.old row.now.line) answer.now (slice_get (map replay desks.now) row.now.security)) lines.old) }
    ensures texts { texts_in texts.new ≡ texts_in texts.old }
    ensures asked { OnErr result (lines.old ≢ None) }
{
    let Some(text) = &mut lines.text else {
        return Ok(());
    };
    texts.read(row.line)?;
    push_answer(text, names, desks, row, texts.text(), *answer)?;
    Ok(())
}

/// The answers to no row: the header, if they are asked for.
pub fn begun_answers(alloc: Global, asked: bool) -> Result<Option<Vec<u8>>, OutOfMemory>
    ensures begun { IfOk result (λ text. option_map (λ told. told.items) text ≡ where_asked asked answers_header) }
    ensures asked { OnErr result (asked ≡ true) }
{
    begun(alloc, asked, HEADER)
}

/// The line of a row, whose record has this free text. The answer comes by value, so that it is written down only where it is told.
#[inline(never)]
fn push_answer<A: Allocator, B: Allocator + Copy>(
    text: &mut Vec<u8, A>,
    names: &SegmentNames,
    desks: &[Desk<B>],
    row: &Row,
    own: &[u8],
    answer: Result<Reply, Refusal>,
) -> Result<(), OutOfMemory>
    ensures { OnOk result (text.new.items ≡ text.old.items ++ answer_line names.now row.now own.now answer (slice_get (map replay desks.now) row.now.security)) }
{
    push_number(text, u64::from(row.line))?;
    push_comma(text)?;
    push_security(text, names, desks, row, &answer)?;
    push_comma(text)?;
    push_field(text, own)?;
    push_line_feed(text)?;
    Ok(())
}

/// The fields of a line from the security on.
fn push_security<A: Allocator, B: Allocator + Copy>(
    text: &mut Vec<u8, A>,
    names: &SegmentNames,
    desks: &[Desk<B>],
    row: &Row,
    answer: &Result<Reply, Refusal>,
) -> Result<(), OutOfMemory>
    ensures { OnOk result (text.new.items ≡ text.old.items ++ security_fields names.now row.now answer.now (slice_get (map replay desks.now) row.now.security)) }
{
    let index = row.security as usize;
    if index < desks.len() {
        push_known(text, names, &desks[index], row, answer)
    } else {
        push_unknown(text, answer)
    }
}

/// The fields of a security that is unknown, from it on.
pub fn push_unknown<A: Allocator>(
    text: &mut Vec<u8, A>,
    answer: &Result<Reply, Refusal>,
) -> Result<(), OutOfMemory>
    ensures { OnOk result (text.new.items ≡ text.old.items ++ unknown_fields answer.now) }
{
    push_comma(text)?;
    push_text(text, answer_word(answer))?;
    push_text(text, ",,,,,,,,,,,,,,,")
}

/// The fields of a security, from it on.
pub fn push_known<A: Allocator, B: Allocator + Copy>(
    text: &mut Vec<u8, A>,
    names: &SegmentNames,
    desk: &Desk<B>,
    row: &Row,
    answer: &Result<Reply, Refusal>,
) -> Result<(), OutOfMemory>
    ensures { OnOk result (text.new.items ≡ text.old.items ++ security_fields names.now row.now answer.now (Some (replay desk.now))) }
{
    push_text(text, security_name(names, row.security))?;
    push_comma(text)?;
    push_fields(
        text,
        desk.settings().tick,
        rest_named(desk, &row.command),
        answer,
    )?;
    push_comma(text)?;
    push_market(text, desk)
}

/// The fields from the answer to the rest.
fn push_fields<A: Allocator>(
    text: &mut Vec<u8, A>,
    tick: TickSize,
    rest: Option<u32>,
    answer: &Result<Reply, Refusal>,
) -> Result<(), OutOfMemory>
    ensures { OnOk result (text.new.items ≡ text.old.items ++ answer_fields tick rest answer.now) }
{
    match answer {
        Ok(reply) => {
            push_text(text, "accepted,")?;
            push_reply(text, tick, reply)?;
            push_comma(text)?;
            push_rest(text, rest)
        }
        Err(refusal) => {
            push_text(text, refusal_word(*refusal))?;
            push_text(text, ",,,,,,,")
        }
    }
}

/// The fields of a reply.
fn push_reply<A: Allocator>(
    text: &mut Vec<u8, A>,
    tick: TickSize,
    reply: &Reply,
) -> Result<(), OutOfMemory>
    ensures { OnOk result (text.new.items ≡ text.old.items ++ reply_fields tick reply.now) }
{
    push_number(text, reply.version)?;
    push_comma(text)?;
    push_text(text, phase_word(reply.phase))?;
    push_comma(text)?;
    push_number(text, reply.first_trade)?;
    push_comma(text)?;
    push_number(text, reply.trades)?;
    push_comma(text)?;
    push_number(text, reply.quantity)?;
    push_comma(text)?;
    push_value(text, reply.money, tick)
}

/// What a reply's trades are worth.
fn push_value<A: Allocator>(
    text: &mut Vec<u8, A>,
    money: u64,
    tick: TickSize,
) -> Result<(), OutOfMemory>
    ensures { OnOk result (text.new.items ≡ text.old.items ++ money_text (pos (money * tick))) }
{
    push_money(text, i128::from(money) * i128::from(tick.get()))
}

/// What is left of an order, where the row names one.
fn push_rest<A: Allocator>(text: &mut Vec<u8, A>, rest: Option<u32>) -> Result<(), OutOfMemory>
    ensures { OnOk result (text.new.items ≡ text.old.items ++ number_field rest) }
{
    match rest {
        None => Ok(()),
        Some(units) => push_number(text, u64::from(units)),
    }
}

/// What is left of the order or the stop that a command names.
fn rest_named<A: Allocator + Copy>(desk: &Desk<A>, command: &Command) -> Option<u32>
    ensures { result ≡ rest_named (replay desk.now) command.now }
{
    match command {
        Command::Enter {
            member,
            reference,
            ..
        }
        | Command::Change {
            member,
            reference,
            ..
        }
        | Command::Cancel { member, reference } => Some(desk.units_left(*member, *reference)),
        _ => None,
    }
}

/// The best limits with the units that rest at them, the reference prices, and the price and the volume of a call.
fn push_market<A: Allocator, B: Allocator + Copy>(
    text: &mut Vec<u8, A>,
    desk: &Desk<B>,
) -> Result<(), OutOfMemory>
    ensures { OnOk result (text.new.items ≡ text.old.items ++ market_fields (replay desk.now)) }
{
    let tick = desk.settings().tick;
    push_priced(text, tick, desk.level_after(Side::Buy, None))?;
    push_comma(text)?;
    push_priced(text, tick, desk.level_after(Side::Sell, None))?;
    push_comma(text)?;
    push_price(text, desk.ref1(), tick)?;
    push_comma(text)?;
    push_price(text, desk.ref2(), tick)?;
    push_comma(text)?;
    push_priced(text, tick, desk.indicative())
}

/// A price and the units at it.
fn push_priced<A: Allocator>(
    text: &mut Vec<u8, A>,
    tick: TickSize,
    priced: Option<(Price, u64)>,
) -> Result<(), OutOfMemory>
    ensures { OnOk result (text.new.items ≡ text.old.items ++ priced_fields tick priced) }
{
    match priced {
        None => push_comma(text),
        Some((price, units)) => {
            push_price(text, price, tick)?;
            push_comma(text)?;
            push_number(text, units)
        }
    }
}

/// The word of an answer.
fn answer_word(answer: &Result<Reply, Refusal>) -> &'static str
    ensures { result.now ≡ answer_word answer.now }
{
    match answer {
        Ok(_) => "accepted",
        Err(refusal) => refusal_word(*refusal),
    }
}
