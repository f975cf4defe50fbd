//! The lines of the orders and stops that are left at the end of a day.
ghost use Rattle.std.specs.Prelude.{◌≡◌, ◌++◌, OnOk};
ghost use Rattle.std.specs.List.{flat_map};
ghost use Rattle.xm_texts.specs.Statement.{date_text, limit_text, order_line, stop_line, validity_text};
ghost use Rattle.xm_ticks.specs.Writing.{price_text};

use crate::fields::{push_money, push_number, push_party, push_price, push_space, push_text};
use crate::words::{restriction_word, side_word};
use itoa::Buffer;
use std::alloc::Allocator;
use xm_files::SegmentNames;
use xm_memory::OutOfMemory;
use xm_rules::{Order, OrderKind, Stop, Validity};
use xm_ticks::TickSize;

/// The lines of some orders.
pub fn push_orders<A: Allocator>(
    text: &mut Vec<u8, A>,
    orders: &[Order],
    names: &SegmentNames,
    tick: TickSize,
) -> Result<(), OutOfMemory>
    ensures { OnOk result (text.new.items ≡ text.old.items ++ flat_map (order_line names.now tick) orders.now) }
{
    for order in orders {
        push_order(text, order, names, tick)?;
    }
    Ok(())
}

/// The line of an order.
fn push_order<A: Allocator>(
    text: &mut Vec<u8, A>,
    order: &Order,
    names: &SegmentNames,
    tick: TickSize,
) -> Result<(), OutOfMemory>
    ensures { OnOk result (text.new.items ≡ text.old.items ++ order_line names.now tick order.now) }
{
    push_text(text, "ORDER ")?;
    push_party(text, names, order.member, order.reference)?;
    push_space(text)?;
    push_text(text, side_word(order.side))?;
    push_space(text)?;
    push_limit(text, order.kind, tick)?;
    push_space(text)?;
    push_number(text, u64::from(order.rest))?;
    push_space(text)?;
    push_validity(text, order.validity)?;
    push_space(text)?;
    push_text(text, restriction_word(order.restriction))?;
    push_text(text, "\n")
}

/// The lines of some stops.
pub fn push_stops<A: Allocator>(
    text: &mut Vec<u8, A>,
    stops: &[Stop],
    names: &SegmentNames,
    tick: TickSize,
) -> Result<(), OutOfMemory>
    ensures { OnOk result (text.new.items ≡ text.old.items ++ flat_map (stop_line names.now tick) stops.now) }
{
    for stop in stops {
        push_stop(text, stop, names, tick)?;
    }
    Ok(())
}

/// The line of a stop.
fn push_stop<A: Allocator>(
    text: &mut Vec<u8, A>,
    stop: &Stop,
    names: &SegmentNames,
    tick: TickSize,
) -> Result<(), OutOfMemory>
    ensures { OnOk result (text.new.items ≡ text.old.items ++ stop_line names.now tick stop.now) }
{
    push_text(text, "STOP ")?;
    push_party(text, names, stop.member, stop.reference)?;
    push_space(text)?;
    push_text(text, side_word(stop.side))?;
    push_space(text)?;
    push_ticks(text, stop.trigger, tick)?;
    push_space(text)?;
    push_limit(text, stop.becomes, tick)?;
    push_space(text)?;
    push_number(text, u64::from(stop.quantity))?;
    push_space(text)?;
    push_validity(text, stop.validity)?;
    push_text(text, "\n")
}

/// A price of so many ticks.
pub fn push_ticks<A: Allocator>(
    text: &mut Vec<u8, A>,
    price: u32,
    tick: TickSize,
) -> Result<(), OutOfMemory>
    ensures { OnOk result (text.new.items ≡ text.old.items ++ price_text price tick) }
{
    push_money(text, i128::from(price) * i128::from(tick.get()))
}

/// The limit of an order, if it has one.
fn push_limit<A: Allocator>(
    text: &mut Vec<u8, A>,
    kind: OrderKind,
    tick: TickSize,
) -> Result<(), OutOfMemory>
    ensures { OnOk result (text.new.items ≡ text.old.items ++ limit_text tick kind) }
{
    match kind {
        OrderKind::Market => push_text(text, "market"),
        OrderKind::Limit(price) => push_price(text, price, tick),
    }
}

/// How long an order is valid.
pub fn push_validity<A: Allocator>(
    text: &mut Vec<u8, A>,
    validity: Validity,
) -> Result<(), OutOfMemory>
    ensures { OnOk result (text.new.items ≡ text.old.items ++ validity_text validity) }
{
    match validity {
        Validity::Day => push_text(text, "day"),
        Validity::TillDate(date) => push_date(text, date),
        Validity::TillCancelled => push_text(text, "gtc"),
    }
}

/// A date with at least eight digits.
#[tactic(auto, using(std::proofs::lemmas::Grind::replicate_next))]
pub fn push_date<A: Allocator>(text: &mut Vec<u8, A>, date: u32) -> Result<(), OutOfMemory>
    ensures { OnOk result (text.new.items ≡ text.old.items ++ date_text date) }
{
    let mut digits = Buffer::new();
    let digits = digits.format(date);
    for _ in digits.len()..8 {
        push_text(text, "0")?;
    }
    push_text(text, digits)?;
    Ok(())
}
