//! The text of the end-of-day statement.
ghost use Rattle.std.specs.Prelude.{◌≡◌, ◌++◌, ◌<◌, ◌^◌, [], IfOk, OnOk, length, map};
ghost use Rattle.xm_texts.specs.Statement.{day_line, heading_text, name_at, references_line, rows_line, securities_text, security_line, security_text, statement};
ghost use Rattle.xm_rules.specs.Step.{replay};

use crate::fields::{push_number, push_price, push_space, push_text, security_name};
use crate::remaining::{push_date, push_orders, push_stops};
use crate::traded::{push_members, push_nets, push_total, push_trades};
use crate::words::phase_word;
use std::alloc::Allocator;
use xm_desk::Desk;
use xm_files::SegmentNames;
use xm_memory::OutOfMemory;
use xm_rules::Phase;
use xm_ticks::{Price, TickSize};

/// A line of a trade seldom has more bytes.
const BYTES_OF_A_TRADE: usize = 64;

/// The text of the statement.
pub fn statement_text<A: Allocator, B: Allocator + Copy>(
    alloc: A,
    desks: &[Desk<B>],
    names: &SegmentNames,
    accepted: u64,
    refused: u64,
) -> Result<Vec<u8, A>, OutOfMemory>
    requires some { 0 < length desks.now }
    requires names { length names.now.securities ≡ length desks.now }
    ensures { IfOk result (λ text. text.items ≡ statement names.now (map replay desks.now) accepted refused) }
{
    let mut text = Vec::with_capacity(alloc, room_for_trades(desks))?;
    push_day(&mut text, desks[0].settings().today)?;
    push_securities(&mut text, desks, names)?;
    push_members(&mut text, desks, names)?;
    push_rows(&mut text, accepted, refused)?;
    Ok(text)
}

/// How many bytes the lines of all trades seldom have more than. A text that is told of them needn't be copied as it grows.
pub fn room_for_trades<B: Allocator + Copy>(desks: &[Desk<B>]) -> usize {
    let mut trades = 0usize;
    for desk in desks {
        trades = trades.saturating_add(desk.trades().len());
    }
    trades.saturating_mul(BYTES_OF_A_TRADE)
}

/// The date.
pub fn push_day<A: Allocator>(text: &mut Vec<u8, A>, date: u32) -> Result<(), OutOfMemory>
    ensures { OnOk result (text.new.items ≡ text.old.items ++ day_line date) }
{
    push_text(text, "DAY ")?;
    push_date(text, date)?;
    push_text(text, "\n")
}

/// How many rows were accepted and refused.
pub fn push_rows<A: Allocator>(
    text: &mut Vec<u8, A>,
    accepted: u64,
    refused: u64,
) -> Result<(), OutOfMemory>
    ensures { OnOk result (text.new.items ≡ text.old.items ++ rows_line accepted refused) }
{
    push_text(text, "ROWS ")?;
    push_number(text, accepted)?;
    push_space(text)?;
    push_number(text, refused)?;
    push_text(text, "\n")
}

/// The securities, one after another.
fn push_securities<A: Allocator, B: Allocator + Copy>(
    text: &mut Vec<u8, A>,
    desks: &[Desk<B>],
    names: &SegmentNames,
) -> Result<(), OutOfMemory>
    requires { length names.now.securities ≡ length desks.now }
    ensures text { OnOk result (text.new.items ≡ text.old.items ++ securities_text names.now (map replay desks.now)) }
    ensures few { OnOk result (length desks.now < 2 ^ 32) }
{
    for index in 0..names.securities() {
        push_security(text, &desks[index as usize], names, index)?;
    }
    Ok(())
}

/// A security: its phase, references, trades, orders, stops, net positions and total.
pub fn push_security<A: Allocator, B: Allocator + Copy>(
    text: &mut Vec<u8, A>,
    desk: &Desk<B>,
    names: &SegmentNames,
    index: u32,
) -> Result<(), OutOfMemory>
    ensures { OnOk result (text.new.items ≡ text.old.items ++ security_text names.now index (replay desk.now)) }
{
    let tick = desk.settings().tick;
    let orders = desk.orders()?;
    let stops = desk.stops()?;
    push_heading(text, desk, names, index)?;
    push_trades(text, desk.trades(), names, tick)?;
    push_orders(text, orders.as_slice(), names, tick)?;
    push_stops(text, stops.as_slice(), names, tick)?;
    push_nets(text, desk, names)?;
    push_total(text, desk)?;
    Ok(())
}

/// The phase and the reference prices of a security.
fn push_heading<A: Allocator, B: Allocator + Copy>(
    text: &mut Vec<u8, A>,
    desk: &Desk<B>,
    names: &SegmentNames,
    index: u32,
) -> Result<(), OutOfMemory>
    ensures { OnOk result (text.new.items ≡ text.old.items ++ heading_text (name_at names.now.securities index) (replay desk.now)) }
{
    push_security_line(text, security_name(names, index), desk.phase())?;
    push_references(text, desk.settings().tick, desk.ref1(), desk.ref2())?;
    Ok(())
}

/// The name and the phase of a security.
fn push_security_line<A: Allocator>(
    text: &mut Vec<u8, A>,
    name: &str,
    phase: Phase,
) -> Result<(), OutOfMemory>
    ensures { OnOk result (text.new.items ≡ text.old.items ++ security_line name.now phase) }
{
    push_text(text, "SECURITY ")?;
    push_text(text, name)?;
    push_space(text)?;
    push_text(text, phase_word(phase))?;
    push_text(text, "\n")
}

/// The price of the last trade, and that of the last auction trade.
fn push_references<A: Allocator>(
    text: &mut Vec<u8, A>,
    tick: TickSize,
    first: Price,
    second: Price,
) -> Result<(), OutOfMemory>
    ensures { OnOk result (text.new.items ≡ text.old.items ++ references_line tick first second) }
{
    push_text(text, "REFERENCES ")?;
    push_price(text, first, tick)?;
    push_space(text)?;
    push_price(text, second, tick)?;
    push_text(text, "\n")
}
