//! What one record of the carry file says.
ghost use Rattle.std.specs.Prelude.{◌≡◌, ◌<◌, length, nat_lt, None, Some, IfSome, if◌then◌else◌};
ghost use Rattle.xm_files.specs.Carry.{entry_left, entry_name, entry_with_trigger, listed_in, may_be_listed};
ghost use Rattle.xm_files.specs.Rows.{texts_of};

use crate::columns::Column;
use crate::entries::{member, order, security, tick};
use crate::names::SegmentNames;
use crate::order_format::OrderFormat;
use crate::records::Fields;
use xm_config::SecurityConfig;
use xm_rules::{Command, Condition, Kind, Order, Restriction, Stop, Validity, is_in_range};

/// An order or a stop that an earlier day left.
#[derive(Clone, Copy)]
pub(crate) enum CarriedEntry {
    Order(Order),
    Stop(Stop),
}

impl CarriedEntry {
    /// The member, and the member's own reference.
    pub(crate) fn name(&self) -> (u32, u32)
        ensures { result ≡ entry_name self.now }
    {
        match self {
            CarriedEntry::Order(order) => (order.member, order.reference),
            CarriedEntry::Stop(stop) => (stop.member, stop.reference),
        }
    }
}

/// What a record says: an order or a stop of the security with this index.
#[derive(Clone, Copy)]
pub(crate) struct ListedEntry {
    pub(crate) security: u32,
    pub(crate) entry: CarriedEntry,
}

/// What a record of the carry file says, if each of its fields is lawful.
pub(crate) fn parse_listed(
    fields: &Fields,
    names: &SegmentNames,
    securities: &[SecurityConfig],
) -> Option<ListedEntry>
    requires { fields.now.format ≡ OrderFormat.Carry }
    ensures says { result ≡ listed_in names.now securities.now (texts_of fields.now) }
    ensures known { IfSome result (λ listed. listed.security < length names.now.securities) }
{
    let security = known(security(fields, names)?, names.securities())?;
    let member = known(member(fields, names)?, names.members())?;
    if fields.are_empty(&[Column::Restriction]) {
        return None;
    }
    let command = order(fields, member, tick(securities, security))?;
    let entry = entry_left(command)?;
    Some(ListedEntry { security, entry })
}

/// The index of a name, if it is below the number of names, which is that of an unknown one.
fn known(index: u32, count: u32) -> Option<u32>
    ensures { result ≡ (if nat_lt index count then Some index else None) }
{
    if index < count { Some(index) } else { None }
}

/// What a command would have entered on an earlier day, if that may be left.
fn entry_left(command: Command) -> Option<CarriedEntry>
    ensures { result ≡ entry_left command }
{
    match command {
        Command::Enter {
            member,
            reference,
            side,
            kind,
            quantity,
            validity,
            restriction,
            condition: _,
        } => {
            if !may_be_listed(kind, quantity, validity, restriction) {
                return None;
            }
            let order = Order {
                member,
                reference,
                kind: kind.order_kind(),
                rest: quantity,
                validity,
                side,
                restriction,
            };
            Some(entry_with_trigger(kind.trigger_of(), order))
        }
        _ => None,
    }
}

/// Whether prices and units are in range, it is valid beyond the day of its entry, and a stop has no restriction.
fn may_be_listed(kind: Kind, quantity: u32, validity: Validity, restriction: Restriction) -> bool
    ensures { result ≡ may_be_listed kind quantity validity restriction }
{
    kind.has_prices_in_range()
        && is_in_range(quantity)
        && validity.is_lasting()
        && !Condition::Plain.is_bad_combination(kind, restriction)
}

/// An order, or the stop with this trigger that becomes it.
fn entry_with_trigger(trigger: Option<u32>, order: Order) -> CarriedEntry
    ensures { result ≡ entry_with_trigger trigger order }
{
    match trigger {
        None => CarriedEntry::Order(order),
        Some(trigger) => CarriedEntry::Stop(Stop {
            member: order.member,
            reference: order.reference,
            side: order.side,
            trigger,
            becomes: order.kind,
            quantity: order.rest,
            validity: order.validity,
        }),
    }
}
