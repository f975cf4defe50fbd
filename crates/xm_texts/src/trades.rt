//! The trades of rows, line by line.
ghost use Rattle.std.specs.Prelude.{◌≡◌, ◌≢◌, ◌++◌, true, map, option_map, slice_get, IfOk, None, OnErr, OnOk, Some};
ghost use Rattle.std.specs.List.{flat_map};
ghost use Rattle.xm_texts.specs.RowAnswers.{record_line, where_asked, with_text};
ghost use Rattle.xm_texts.specs.RowTrades.{party_fields, trade_fields, trade_lines, trades_by, trades_from, trades_header};
ghost use Rattle.xm_rules.specs.Step.{replay};
ghost use Rattle.xm_rules.specs.declared.orders.Trade.{Trade};
ghost use Rattle.xm_files.specs.RecordTexts.{texts_in};

use crate::fields::{
    member_name, push_comma, push_line_feed, push_number, push_price, push_text, security_name,
};
use crate::lines::{Lines, begun};
use crate::quoted::push_field;
use crate::words::trade_word;
use std::alloc::{Allocator, Global};
use xm_config::Row;
use xm_desk::Desk;
use xm_files::{RecordTexts, SegmentNames};
use xm_memory::OutOfMemory;
use xm_rules::{Refusal, Reply, Trade};
use xm_ticks::TickSize;

/// The names of the fields.
pub(crate) const HEADER: &str =
    "record,security,sweep,kind,price,quantity,buyer,buy_reference,seller,sell_reference,text\n";

/// Adds a line for each trade of a row that was answered so by the desks, which have taken it. The texts are those of its file.
#[inline(always)]
pub(crate) fn tell_trades<A: Allocator + Copy>(
    lines: &mut Lines,
    names: &SegmentNames,
    texts: &mut RecordTexts<'_>,
    desks: &[Desk<A>],
    row: &Row,
    answer: &Result<Reply, Refusal>,
) -> Result<(), OutOfMemory>
    ensures told { OnOk result (lines.new ≡ with_text (trade_lines names.now row.now (texts_in texts.old row.now.line) answer.now (slice_get (map replay desks.now) row.now.security)) lines.old) }
    ensures texts { texts_in texts.new ≡ texts_in texts.old }
    ensures asked { OnErr result (lines.old ≢ None) }
{
    let Some(text) = &mut lines.text else {
        return Ok(());
    };
    let index = row.security as usize;
    if index >= desks.len() {
        return Ok(());
    }
    push_trades(text, names, texts, &desks[index], row, *answer)?;
    Ok(())
}

/// The line of each trade of a row that was answered so by this desk, which has taken it. The answer comes by value, as in `answers`.
#[inline(never)]
fn push_trades<A: Allocator, B: Allocator + Copy>(
    text: &mut Vec<u8, A>,
    names: &SegmentNames,
    texts: &mut RecordTexts<'_>,
    desk: &Desk<B>,
    row: &Row,
    answer: Result<Reply, Refusal>,
) -> Result<(), OutOfMemory>
    ensures told { OnOk result (text.new.items ≡ text.old.items ++ trade_lines names.now row.now (texts_in texts.old row.now.line) answer (Some (replay desk.now))) }
    ensures texts { texts_in texts.new ≡ texts_in texts.old }
{
    let trades = trades_by(desk.trades(), &answer);
    if trades.is_empty() {
        return Ok(());
    }
    texts.read(row.line)?;
    push_lines(text, names, row, texts.text(), desk.settings().tick, trades)
}

/// The trades of a row that was answered so, of those that its security has behind it.
pub fn trades_by<'a>(trades: &'a [Trade], answer: &Result<Reply, Refusal>) -> &'a [Trade]
    ensures { result.now ≡ trades_by answer.now trades.now }
{
    match answer {
        Ok(reply) => trades_from(trades, reply.first_trade, reply.trades),
        Err(_) => &[],
    }
}

/// So many trades from one on, as far as there are.
fn trades_from(trades: &[Trade], first: u64, number: u64) -> &[Trade]
    ensures { result.now ≡ trades_from first number trades.now }
{
    let rest = &trades[(first as usize).min(trades.len())..];
    &rest[..(number as usize).min(rest.len())]
}

/// The line of each of these trades of a row, whose record has this free text.
fn push_lines<A: Allocator>(
    text: &mut Vec<u8, A>,
    names: &SegmentNames,
    row: &Row,
    own: &[u8],
    tick: TickSize,
    trades: &[Trade],
) -> Result<(), OutOfMemory>
    ensures { OnOk result (text.new.items ≡ text.old.items ++ flat_map (λ (t : Trade). record_line row.now own.now (trade_fields names.now row.now tick t)) trades.now) }
{
    for trade in trades {
        push_line(text, names, row, own, tick, trade)?;
    }
    Ok(())
}

/// The line of a trade.
fn push_line<A: Allocator>(
    text: &mut Vec<u8, A>,
    names: &SegmentNames,
    row: &Row,
    own: &[u8],
    tick: TickSize,
    trade: &Trade,
) -> Result<(), OutOfMemory>
    ensures { OnOk result (text.new.items ≡ text.old.items ++ record_line row.now own.now (trade_fields names.now row.now tick trade.now)) }
{
    push_number(text, u64::from(row.line))?;
    push_comma(text)?;
    push_trade(text, names, row, tick, trade)?;
    push_comma(text)?;
    push_field(text, own)?;
    push_line_feed(text)?;
    Ok(())
}

/// The fields of a trade, from its security to the seller's order.
pub fn push_trade<A: Allocator>(
    text: &mut Vec<u8, A>,
    names: &SegmentNames,
    row: &Row,
    tick: TickSize,
    trade: &Trade,
) -> Result<(), OutOfMemory>
    ensures { OnOk result (text.new.items ≡ text.old.items ++ trade_fields names.now row.now tick trade.now) }
{
    push_text(text, security_name(names, row.security))?;
    push_comma(text)?;
    push_number(text, trade.sweep)?;
    push_comma(text)?;
    push_text(text, trade_word(trade.kind))?;
    push_comma(text)?;
    push_price(text, trade.price, tick)?;
    push_comma(text)?;
    push_number(text, u64::from(trade.quantity))?;
    push_comma(text)?;
    push_party(text, names, trade.buyer, trade.buy_ref)?;
    push_comma(text)?;
    push_party(text, names, trade.seller, trade.sell_ref)
}

/// A member and the reference that it gave its order.
pub(crate) fn push_party<A: Allocator>(
    text: &mut Vec<u8, A>,
    names: &SegmentNames,
    member: u32,
    reference: u32,
) -> Result<(), OutOfMemory>
    ensures { OnOk result (text.new.items ≡ text.old.items ++ party_fields names.now member reference) }
{
    push_text(text, member_name(names, member))?;
    push_comma(text)?;
    push_number(text, u64::from(reference))
}

/// The trades of no row: the header, if they are asked for.
pub fn begun_trades(alloc: Global, asked: bool) -> Result<Option<Vec<u8>>, OutOfMemory>
    ensures begun { IfOk result (λ text. option_map (λ told. told.items) text ≡ where_asked asked trades_header) }
    ensures asked { OnErr result (asked ≡ true) }
{
    begun(alloc, asked, HEADER)
}
