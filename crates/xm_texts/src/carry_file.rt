//! The text of the carry file that a day writes: the orders and stops that it leaves to the next one.
ghost use Rattle.std.specs.Prelude.{◌≡◌, ◌++◌, IfOk, OnOk, codes, filter, length, map};
ghost use Rattle.std.specs.List.{flat_map};
ghost use Rattle.xm_texts.specs.Carry.{carry_text, entry_record, given_price_text, kind_word, left_text, carried_order, carried_stop};
ghost use Rattle.xm_rules.specs.Commands.{outlasts};
ghost use Rattle.xm_rules.specs.Orders.{limit_of};
ghost use Rattle.xm_rules.specs.Step.{replay};
ghost use Rattle.xm_rules.specs.declared.orders.Order.{Order};
ghost use Rattle.xm_rules.specs.declared.orders.Stop.{Stop};

use crate::fields::{
    member_name, push_comma, push_line_feed, push_number, push_text, security_name,
};
use crate::remaining::{push_ticks, push_validity};
use crate::words::{kind_word, restriction_word, side_word};
use std::alloc::Allocator;
use xm_desk::Desk;
use xm_files::SegmentNames;
use xm_memory::OutOfMemory;
use xm_rules::{Order, OrderKind, Stop};
use xm_ticks::TickSize;

/// The names of the columns.
const HEADER: &str =
    "security,member,reference,side,kind,limit,trigger,quantity,validity,restriction\n";

/// The text of the carry file of the desks of a segment, which are in index order: the orders and stops of each security that are
/// valid beyond the day, the orders in the order of the time list and the stops in order of entry.
pub fn carry_text<A: Allocator, B: Allocator + Copy>(
    alloc: A,
    desks: &[Desk<B>],
    names: &SegmentNames,
) -> Result<Vec<u8, A>, OutOfMemory>
    requires { length names.now.securities ≡ length desks.now }
    ensures { IfOk result (λ text. text.items ≡ carry_text names.now (map replay desks.now)) }
{
    let mut text = Vec::new(alloc);
    push_text(&mut text, HEADER)?;
    for index in 0..names.securities() {
        push_left(&mut text, &desks[index as usize], names, index)?;
    }
    Ok(text)
}

/// The records of what a security leaves.
fn push_left<A: Allocator, B: Allocator + Copy>(
    text: &mut Vec<u8, A>,
    desk: &Desk<B>,
    names: &SegmentNames,
    index: u32,
) -> Result<(), OutOfMemory>
    ensures { OnOk result (text.new.items ≡ text.old.items ++ left_text names.now index (replay desk.now)) }
{
    let tick = desk.settings().tick;
    let today = desk.settings().today;
    let security = security_name(names, index);
    let orders = desk.orders()?;
    let stops = desk.stops()?;
    push_orders(text, orders.as_slice(), names, security, tick, today)?;
    push_stops(text, stops.as_slice(), names, security, tick, today)?;
    Ok(())
}

/// The records of those orders of a security that are valid beyond today.
fn push_orders<A: Allocator>(
    text: &mut Vec<u8, A>,
    orders: &[Order],
    names: &SegmentNames,
    security: &str,
    tick: TickSize,
    today: u32,
) -> Result<(), OutOfMemory>
    ensures { OnOk result (text.new.items ≡ text.old.items ++ flat_map (carried_order names.now security.now tick) (filter (λ (o : Order). outlasts today o.validity) orders.now)) }
{
    for order in orders {
        if order.validity.outlasts(today) {
            push_record(text, names, security, tick, None, order)?;
        }
    }
    Ok(())
}

/// The records of those stops of a security that are valid beyond today.
fn push_stops<A: Allocator>(
    text: &mut Vec<u8, A>,
    stops: &[Stop],
    names: &SegmentNames,
    security: &str,
    tick: TickSize,
    today: u32,
) -> Result<(), OutOfMemory>
    ensures { OnOk result (text.new.items ≡ text.old.items ++ flat_map (carried_stop names.now security.now tick) (filter (λ (stop : Stop). outlasts today stop.validity) stops.now)) }
{
    for stop in stops {
        if stop.validity.outlasts(today) {
            let order = stop.order_of_stop();
            push_record(text, names, security, tick, Some(stop.trigger), &order)?;
        }
    }
    Ok(())
}

/// The record of an order of the security with this name, or of the stop with this trigger that becomes the order.
fn push_record<A: Allocator>(
    text: &mut Vec<u8, A>,
    names: &SegmentNames,
    security: &str,
    tick: TickSize,
    trigger: Option<u32>,
    order: &Order,
) -> Result<(), OutOfMemory>
    ensures { OnOk result (text.new.items ≡ text.old.items ++ entry_record names.now security.now tick trigger order.now) }
{
    push_text(text, security)?;
    push_comma(text)?;
    push_text(text, member_name(names, order.member))?;
    push_comma(text)?;
    push_number(text, u64::from(order.reference))?;
    push_comma(text)?;
    push_text(text, side_word(order.side))?;
    push_comma(text)?;
    push_kind(text, &trigger, order, tick)?;
    push_comma(text)?;
    push_number(text, u64::from(order.rest))?;
    push_comma(text)?;
    push_validity(text, order.validity)?;
    push_comma(text)?;
    push_text(text, restriction_word(order.restriction))?;
    push_line_feed(text)?;
    Ok(())
}

/// The fields that say what an order is, or the stop with this trigger that becomes it: the word, the limit and the trigger.
fn push_kind<A: Allocator>(
    text: &mut Vec<u8, A>,
    trigger: &Option<u32>,
    order: &Order,
    tick: TickSize,
) -> Result<(), OutOfMemory>
    ensures { OnOk result (text.new.items ≡ text.old.items ++ kind_word trigger.now order.now.kind ++ codes "," ++ given_price_text tick (limit_of order.now.kind) ++ codes "," ++ given_price_text tick trigger.now) }
{
    push_text(text, kind_word(*trigger, order.kind))?;
    push_comma(text)?;
    push_given_price(text, limit_in_ticks(order.kind), tick)?;
    push_comma(text)?;
    push_given_price(text, *trigger, tick)
}

/// The limit in ticks, where there is one.
fn limit_in_ticks(kind: OrderKind) -> Option<u32>
    ensures { result ≡ limit_of kind }
{
    match kind {
        OrderKind::Market => None,
        OrderKind::Limit(limit) => Some(limit.get()),
    }
}

/// A price of so many ticks, or nothing where there is none.
fn push_given_price<A: Allocator>(
    text: &mut Vec<u8, A>,
    price: Option<u32>,
    tick: TickSize,
) -> Result<(), OutOfMemory>
    ensures { OnOk result (text.new.items ≡ text.old.items ++ given_price_text tick price) }
{
    match price {
        None => Ok(()),
        Some(price) => push_ticks(text, price, tick),
    }
}
