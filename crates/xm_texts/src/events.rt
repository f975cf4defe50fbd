//! The lines of the events of rows.
ghost use Rattle.std.specs.Prelude.{◌≡◌, ◌++◌, true, option_map, IfOk, OnErr, OnOk};
ghost use Rattle.std.specs.List.{flat_map};
ghost use Rattle.xm_events.specs.declared.events.Event.{Event};
ghost use Rattle.xm_rules.specs.Orders.{limit_of};
ghost use Rattle.xm_texts.specs.RowAnswers.{number_field, where_asked};
ghost use Rattle.xm_texts.specs.RowEvents.{cause_word, deletion_word, entry_word, event_line, event_word, events_header, giver_fields, left_behind, outcome_fields, owner_fields, owner_of, owner_of_entry, price_field, price_of_event, price_of_entry, quantity_of, quantity_of_entry, refused_line, subject_fields};

use crate::fields::{
    member_name, push_comma, push_line_feed, push_number, push_text, security_name,
};
use crate::lines::begun;
use crate::remaining::push_ticks;
use crate::trades::push_party;
use crate::words::{kind_word, phase_word, range_word, refusal_word, side_word, trade_word};
use std::alloc::{Allocator, Global};
use xm_config::Row;
use xm_events::{Deletion, Entry, Event};
use xm_files::SegmentNames;
use xm_memory::OutOfMemory;
use xm_rules::{Command, OrderKind, Refusal, Side};
use xm_ticks::TickSize;

/// The names of the fields.
pub(crate) const HEADER: &str =
    "record,security,event,member,reference,side,price,quantity,rest,cause\n";

/// The events of no row: the header, if they are asked for.
pub fn begun_events(alloc: Global, asked: bool) -> Result<Option<Vec<u8>>, OutOfMemory>
    ensures begun { IfOk result (λ text. option_map (λ told. told.items) text ≡ where_asked asked events_header) }
    ensures asked { OnErr result (asked ≡ true) }
{
    begun(alloc, asked, HEADER)
}

/// Whose order or stop it is, by what name, and of which side.
#[derive(Clone, Copy, PartialEq, Eq, Debug)]
pub struct Owner {
    /// The index of the member.
    pub member: u32,
    pub reference: u32,
    pub side: Side,
}

/// The word of an event.
fn event_word(event: &Event) -> &'static str
    ensures { result.now ≡ event_word event.now }
{
    match event {
        Event::Accepted(_) => "accepted",
        Event::Changed(_) => "changed",
        Event::Filled(_) => "filled",
        Event::Triggered(_) => "triggered",
        Event::Cancelled(_) => "cancelled",
        Event::Deleted(..) => "deleted",
        Event::Interrupted(..) => "interrupted",
        Event::Began(_) => "phase",
    }
}

/// Whose order or stop it is.
fn owner_of_entry(entry: &Entry) -> Owner
    ensures { result ≡ owner_of_entry entry.now }
{
    match entry {
        Entry::Order(order) => Owner {
            member: order.member,
            reference: order.reference,
            side: order.side,
        },
        Entry::Stop(stop) => Owner {
            member: stop.member,
            reference: stop.reference,
            side: stop.side,
        },
    }
}

/// Whose order or stop an event is of; nobody's where it is of the market.
fn owner_of(event: &Event) -> Option<Owner>
    ensures { result ≡ owner_of event.now }
{
    match event {
        Event::Accepted(entry) | Event::Cancelled(entry) | Event::Deleted(entry, _) => {
            Some(owner_of_entry(entry))
        }
        Event::Changed(order) => Some(owner_of_entry(&Entry::Order(*order))),
        Event::Triggered(stop) => Some(owner_of_entry(&Entry::Stop(*stop))),
        Event::Filled(fill) => Some(Owner {
            member: fill.member,
            reference: fill.reference,
            side: fill.side,
        }),
        Event::Interrupted(..) | Event::Began(_) => None,
    }
}

/// The limit of an order of this kind in ticks, if it has one.
fn limit_of(kind: OrderKind) -> Option<u32>
    ensures { result ≡ limit_of kind }
{
    match kind.limit() {
        Some(limit) => Some(limit.get()),
        None => None,
    }
}

/// The limit of an order in ticks, if it has one, or the trigger of a stop.
fn price_of_entry(entry: &Entry) -> Option<u32>
    ensures { result ≡ price_of_entry entry.now }
{
    match entry {
        Entry::Order(order) => limit_of(order.kind),
        Entry::Stop(stop) => Some(stop.trigger),
    }
}

/// The price of an event in ticks.
fn price_of_event(event: &Event) -> Option<u32>
    ensures { result ≡ price_of_event event.now }
{
    match event {
        Event::Accepted(entry) | Event::Cancelled(entry) | Event::Deleted(entry, _) => {
            price_of_entry(entry)
        }
        Event::Changed(order) => limit_of(order.kind),
        Event::Triggered(stop) => limit_of(stop.becomes),
        Event::Filled(fill) => Some(fill.price.get()),
        Event::Interrupted(price, _) => Some(price.get()),
        Event::Began(_) => None,
    }
}

/// The units of an order or a stop.
fn quantity_of_entry(entry: &Entry) -> u32
    ensures { result ≡ quantity_of_entry entry.now }
{
    match entry {
        Entry::Order(order) => order.rest,
        Entry::Stop(stop) => stop.quantity,
    }
}

/// The units of an event.
fn quantity_of(event: &Event) -> Option<u32>
    ensures { result ≡ quantity_of event.now }
{
    match event {
        Event::Accepted(entry) | Event::Cancelled(entry) | Event::Deleted(entry, _) => {
            Some(quantity_of_entry(entry))
        }
        Event::Changed(order) => Some(order.rest),
        Event::Triggered(stop) => Some(stop.quantity),
        Event::Filled(fill) => Some(fill.quantity),
        Event::Interrupted(..) | Event::Began(_) => None,
    }
}

/// The units that are left behind an event.
fn left_behind(event: &Event) -> Option<u32>
    ensures { result ≡ left_behind event.now }
{
    match event {
        Event::Accepted(entry) => Some(quantity_of_entry(entry)),
        Event::Changed(order) => Some(order.rest),
        Event::Triggered(stop) => Some(stop.quantity),
        Event::Filled(fill) => Some(fill.rest),
        Event::Cancelled(_) | Event::Deleted(..) => Some(0),
        Event::Interrupted(..) | Event::Began(_) => None,
    }
}

/// The word of the kind of an order or a stop.
fn entry_word(entry: &Entry) -> &'static str
    ensures { result.now ≡ entry_word entry.now }
{
    match entry {
        Entry::Order(order) => kind_word(None, order.kind),
        Entry::Stop(stop) => kind_word(Some(stop.trigger), stop.becomes),
    }
}

/// The word of why an order or a stop is deleted.
fn deletion_word(reason: Deletion) -> &'static str
    ensures { result.now ≡ deletion_word reason }
{
    match reason {
        Deletion::ImmediateOrCancel => "ioc",
        Deletion::FillOrKill => "fok",
        Deletion::EndOfDay => "end",
    }
}

/// The word of the cause of an event.
fn cause_word(event: &Event) -> &'static str
    ensures { result.now ≡ cause_word event.now }
{
    match event {
        Event::Accepted(entry) | Event::Cancelled(entry) => entry_word(entry),
        Event::Changed(order) => kind_word(None, order.kind),
        Event::Triggered(stop) => kind_word(None, stop.becomes),
        Event::Filled(fill) => trade_word(fill.kind),
        Event::Deleted(_, reason) => deletion_word(*reason),
        Event::Interrupted(_, range) => range_word(*range),
        Event::Began(phase) => phase_word(*phase),
    }
}

/// A price of so many ticks, where there is one.
fn push_price_field<A: Allocator>(
    text: &mut Vec<u8, A>,
    price: Option<u32>,
    tick: TickSize,
) -> Result<(), OutOfMemory>
    ensures { OnOk result (text.new.items ≡ text.old.items ++ price_field tick price) }
{
    match price {
        Some(price) => push_ticks(text, price, tick),
        None => Ok(()),
    }
}

/// A number, where there is one.
fn push_number_field<A: Allocator>(
    text: &mut Vec<u8, A>,
    number: Option<u32>,
) -> Result<(), OutOfMemory>
    ensures { OnOk result (text.new.items ≡ text.old.items ++ number_field number) }
{
    match number {
        Some(number) => push_number(text, u64::from(number)),
        None => Ok(()),
    }
}

/// The fields of the member, its reference and the side.
fn push_owner<A: Allocator>(
    text: &mut Vec<u8, A>,
    names: &SegmentNames,
    owner: Option<Owner>,
) -> Result<(), OutOfMemory>
    ensures { OnOk result (text.new.items ≡ text.old.items ++ owner_fields names.now owner) }
{
    let Some(owner) = owner else {
        return push_text(text, ",,");
    };
    push_party(text, names, owner.member, owner.reference)?;
    push_comma(text)?;
    push_text(text, side_word(owner.side))
}

/// Which record and security an event is of, what it is, and of which order or stop.
fn push_subject<A: Allocator>(
    text: &mut Vec<u8, A>,
    names: &SegmentNames,
    line: u32,
    security: u32,
    event: &Event,
) -> Result<(), OutOfMemory>
    ensures { OnOk result (text.new.items ≡ text.old.items ++ subject_fields names.now line security event.now) }
{
    push_number(text, u64::from(line))?;
    push_comma(text)?;
    push_text(text, security_name(names, security))?;
    push_comma(text)?;
    push_text(text, event_word(event))?;
    push_comma(text)?;
    push_owner(text, names, owner_of(event))
}

/// The price of an event, its units, those that are left behind it, and its cause.
fn push_outcome<A: Allocator>(
    text: &mut Vec<u8, A>,
    tick: TickSize,
    event: &Event,
) -> Result<(), OutOfMemory>
    ensures { OnOk result (text.new.items ≡ text.old.items ++ outcome_fields tick event.now) }
{
    push_price_field(text, price_of_event(event), tick)?;
    push_comma(text)?;
    push_number_field(text, quantity_of(event))?;
    push_comma(text)?;
    push_number_field(text, left_behind(event))?;
    push_comma(text)?;
    push_text(text, cause_word(event))
}

/// The line of an event of a security, by the record that led to it.
fn push_event<A: Allocator>(
    text: &mut Vec<u8, A>,
    names: &SegmentNames,
    line: u32,
    security: u32,
    tick: TickSize,
    event: &Event,
) -> Result<(), OutOfMemory>
    ensures { OnOk result (text.new.items ≡ text.old.items ++ event_line names.now line security tick event.now) }
{
    push_subject(text, names, line, security, event)?;
    push_comma(text)?;
    push_outcome(text, tick, event)?;
    push_line_feed(text)
}

/// The line of each of these events of a security.
pub fn push_events<A: Allocator>(
    text: &mut Vec<u8, A>,
    names: &SegmentNames,
    line: u32,
    security: u32,
    tick: TickSize,
    events: &[Event],
) -> Result<(), OutOfMemory>
    ensures { OnOk result (text.new.items ≡ text.old.items ++ flat_map (event_line names.now line security tick) events.now) }
{
    for event in events {
        push_event(text, names, line, security, tick, event)?;
    }
    Ok(())
}

/// Who gave a command, by what name, and for which side, as far as it says.
fn push_giver<A: Allocator>(
    text: &mut Vec<u8, A>,
    names: &SegmentNames,
    command: &Command,
) -> Result<(), OutOfMemory>
    ensures { OnOk result (text.new.items ≡ text.old.items ++ giver_fields names.now command.now) }
{
    match command {
        Command::Enter {
            member,
            reference,
            side,
            ..
        } => {
            push_party(text, names, *member, *reference)?;
            push_comma(text)?;
            push_text(text, side_word(*side))
        }
        Command::Change {
            member,
            reference,
            ..
        }
        | Command::Cancel { member, reference } => {
            push_party(text, names, *member, *reference)?;
            push_comma(text)
        }
        Command::CancelAll { member } => {
            push_text(text, member_name(names, *member))?;
            push_text(text, ",,")
        }
        Command::StartOpening
        | Command::StartIntraday
        | Command::StartClosing
        | Command::Uncross
        | Command::EndDay => push_text(text, ",,"),
    }
}

/// The line of a row that was refused.
pub fn push_refused<A: Allocator>(
    text: &mut Vec<u8, A>,
    names: &SegmentNames,
    row: &Row,
    refusal: Refusal,
) -> Result<(), OutOfMemory>
    ensures { OnOk result (text.new.items ≡ text.old.items ++ refused_line names.now row.now refusal) }
{
    push_number(text, u64::from(row.line))?;
    push_comma(text)?;
    push_text(text, security_name(names, row.security))?;
    push_text(text, ",refused,")?;
    push_giver(text, names, &row.command)?;
    push_text(text, ",,,,")?;
    push_text(text, refusal_word(refusal))?;
    push_line_feed(text)
}
