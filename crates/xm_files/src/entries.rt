//! What one record of the order file says.
ghost use Rattle.std.specs.Prelude.{◌≡◌};
ghost use Rattle.xm_files.specs.declared.columns.Column.TheVariants as column;
ghost use Rattle.xm_files.specs.Rows.{cancel_all_entry, cancel_entry, change_command, change_entry, condition_in, enter_entry, field, given_limit, limit_in, market_in, name_index, names_members_command, kind_in_record, order_command, phase_entry, stop_limit_in, stop_market_in, texts_of, tick_of, word_of};

use crate::columns::Column;
use crate::fields::{MAX_TEXT, condition, is_word, price, restriction, side, validity, whole};
use crate::names::SegmentNames;
use crate::order_format::OrderFormat;
use crate::records::Fields;
use xm_config::{SecurityConfig, SegmentConfig};
use xm_rules::{Command, Condition, Kind};
use xm_ticks::TickSize;

/// What a record says: a command on one security, or on each.
#[derive(Clone, Copy)]
pub(crate) enum RecordEntry {
    One(u32, Command),
    Each(Command),
}

/// The command words.
#[derive(Clone, Copy)]
pub(crate) enum Word {
    Enter,
    Change,
    Cancel,
    CancelAll,
    Open,
    Intraday,
    Close,
    Uncross,
    End,
}

/// Whether a text is the word of a command that a member gives.
pub(crate) fn names_members_command(text: &[u8]) -> bool
    ensures { result ≡ names_members_command text.now }
{
    match parse_word(text) {
        Some(Word::Enter | Word::Change | Word::Cancel | Word::CancelAll) => true,
        _ => false,
    }
}

/// The command word of a text.
#[inline(always)]
pub(crate) fn parse_word(text: &[u8]) -> Option<Word>
    ensures { result ≡ word_of text.now }
{
    if is_word(text, "enter") {
        Some(Word::Enter)
    } else if is_word(text, "change") {
        Some(Word::Change)
    } else if is_word(text, "cancel") {
        Some(Word::Cancel)
    } else if is_word(text, "cancel-all") {
        Some(Word::CancelAll)
    } else if is_word(text, "open") {
        Some(Word::Open)
    } else if is_word(text, "intraday") {
        Some(Word::Intraday)
    } else if is_word(text, "close") {
        Some(Word::Close)
    } else if is_word(text, "uncross") {
        Some(Word::Uncross)
    } else if is_word(text, "end") {
        Some(Word::End)
    } else {
        None
    }
}

/// The index of the member in a record; an unknown name has the number of names as its index.
#[inline(always)]
pub(crate) fn member(fields: &Fields, names: &SegmentNames) -> Option<u32>
    ensures { result ≡ name_index names.now.members (field column.Member (texts_of fields.now)) }
{
    let name = fields.text(Column::Member);
    if name.is_empty() {
        None
    } else {
        Some(names.member_index(name))
    }
}

/// The index of the security in a record; an unknown name has the number of names as its index.
#[inline(always)]
pub(crate) fn security(fields: &Fields, names: &SegmentNames) -> Option<u32>
    ensures { result ≡ name_index names.now.securities (field column.Security (texts_of fields.now)) }
{
    let name = fields.text(Column::Security);
    if name.is_empty() {
        None
    } else {
        Some(names.security_index(name))
    }
}

/// The order that a record enters.
#[inline(always)]
pub(crate) fn enter(
    fields: &Fields,
    names: &SegmentNames,
    securities: &[SecurityConfig],
) -> Option<RecordEntry>
    ensures { result ≡ enter_entry fields.now.format names.now securities.now (texts_of fields.now) }
{
    let member = member(fields, names)?;
    let security = security(fields, names)?;
    let command = order(fields, member, tick(securities, security))?;
    Some(RecordEntry::One(security, command))
}

/// The tick of a security, and the finest one where the security is unknown.
pub(crate) fn tick(securities: &[SecurityConfig], security: u32) -> TickSize
    ensures { result ≡ tick_of securities.now security }
{
    match securities.get(security as usize) {
        Some(settings) => settings.tick,
        None => TickSize::FINEST,
    }
}

/// The order that a member enters in a security with this tick.
#[inline(always)]
pub(crate) fn order(fields: &Fields, member: u32, tick: TickSize) -> Option<Command>
    ensures { result ≡ order_command fields.now.format tick member (texts_of fields.now) }
{
    let reference = whole(fields.text(Column::Reference))?;
    let side = side(fields.text(Column::Side))?;
    let kind = kind(fields, tick)?;
    let quantity = whole(fields.text(Column::Quantity))?;
    let validity = validity(fields.text(Column::Validity))?;
    let restriction = restriction(fields.text(Column::Restriction))?;
    let condition = condition_in(fields.format(), fields.text(Column::Condition))?;
    Some(Command::Enter {
        member,
        reference,
        side,
        kind,
        quantity,
        validity,
        restriction,
        condition,
    })
}

/// The condition that a text names, if orders of a format may have it.
#[inline(always)]
fn condition_in(format: OrderFormat, text: &[u8]) -> Option<Condition>
    ensures { result ≡ condition_in format text.now }
{
    let condition = condition(text)?;
    if format.has_condition(condition) {
        Some(condition)
    } else {
        None
    }
}

/// The kind of an order or a stop with its prices.
#[inline(always)]
fn kind(fields: &Fields, tick: TickSize) -> Option<Kind>
    ensures { result ≡ kind_in_record tick (texts_of fields.now) }
{
    let word = fields.text(Column::Kind);
    if is_word(word, "market") {
        market(fields)
    } else if is_word(word, "limit") {
        limit(fields, tick)
    } else if is_word(word, "stop-market") {
        stop_market(fields, tick)
    } else if is_word(word, "stop-limit") {
        stop_limit(fields, tick)
    } else {
        None
    }
}

/// The kind of a stop that becomes a market order.
fn stop_market(fields: &Fields, tick: TickSize) -> Option<Kind>
    ensures { result ≡ stop_market_in tick (texts_of fields.now) }
{
    if !fields.are_empty(&[Column::Limit]) {
        return None;
    }
    price(fields.text(Column::Trigger), tick).map(Kind::StopMarket)
}

/// The kind of a stop that becomes a limit order.
fn stop_limit(fields: &Fields, tick: TickSize) -> Option<Kind>
    ensures { result ≡ stop_limit_in tick (texts_of fields.now) }
{
    let limit = price(fields.text(Column::Limit), tick)?;
    let trigger = price(fields.text(Column::Trigger), tick)?;
    Some(Kind::StopLimit { trigger, limit })
}

/// The kind of a market order.
fn market(fields: &Fields) -> Option<Kind>
    ensures { result ≡ market_in (texts_of fields.now) }
{
    if fields.are_empty(&[Column::Limit, Column::Trigger]) {
        Some(Kind::Market)
    } else {
        None
    }
}

/// The kind of a limit order.
#[inline(always)]
fn limit(fields: &Fields, tick: TickSize) -> Option<Kind>
    ensures { result ≡ limit_in tick (texts_of fields.now) }
{
    if !fields.are_empty(&[Column::Trigger]) {
        return None;
    }
    price(fields.text(Column::Limit), tick).map(Kind::Limit)
}

/// The change of an order that a record is.
pub(crate) fn change(
    fields: &Fields,
    names: &SegmentNames,
    securities: &[SecurityConfig],
) -> Option<RecordEntry>
    ensures { result ≡ change_entry names.now securities.now (texts_of fields.now) }
{
    let blank = [
        Column::Side,
        Column::Kind,
        Column::Trigger,
        Column::Validity,
        Column::Restriction,
        Column::Condition,
    ];
    if !fields.are_empty(&blank) {
        return None;
    }
    let member = member(fields, names)?;
    let security = security(fields, names)?;
    let command = changed(fields, member, tick(securities, security))?;
    Some(RecordEntry::One(security, command))
}

/// The change that a member makes in a security with this tick.
fn changed(fields: &Fields, member: u32, tick: TickSize) -> Option<Command>
    ensures { result ≡ change_command tick member (texts_of fields.now) }
{
    let reference = whole(fields.text(Column::Reference))?;
    let quantity = whole(fields.text(Column::Quantity))?;
    let limit = given_limit(fields.text(Column::Limit), tick)?;
    Some(Command::Change {
        member,
        reference,
        quantity,
        limit,
    })
}

/// The limit that a change gives, where it gives one.
fn given_limit(text: &[u8], tick: TickSize) -> Option<Option<u32>>
    ensures { result ≡ given_limit tick text.now }
{
    if text.is_empty() {
        Some(None)
    } else {
        price(text, tick).map(Some)
    }
}

/// The columns that a cancellation leaves empty.
const CANCEL_BLANK: [Column; 8] = [
    Column::Side,
    Column::Kind,
    Column::Limit,
    Column::Trigger,
    Column::Quantity,
    Column::Validity,
    Column::Restriction,
    Column::Condition,
];

/// The cancellation that a record is.
#[inline(always)]
pub(crate) fn cancel(fields: &Fields, names: &SegmentNames) -> Option<RecordEntry>
    ensures { result ≡ cancel_entry names.now (texts_of fields.now) }
{
    if !fields.are_empty(&CANCEL_BLANK) {
        return None;
    }
    let member = member(fields, names)?;
    let security = security(fields, names)?;
    let reference = whole(fields.text(Column::Reference))?;
    Some(RecordEntry::One(security, Command::Cancel { member, reference }))
}

/// The cancellation of all orders of a member that a record is.
pub(crate) fn cancel_all(fields: &Fields, names: &SegmentNames) -> Option<RecordEntry>
    ensures { result ≡ cancel_all_entry names.now (texts_of fields.now) }
{
    if !fields.are_empty(&[Column::Reference]) || !fields.are_empty(&CANCEL_BLANK) {
        return None;
    }
    let member = member(fields, names)?;
    let security = security(fields, names)?;
    Some(RecordEntry::One(security, Command::CancelAll { member }))
}

/// The phase command that a record gives to one security, or by `*` to each.
#[inline(always)]
pub(crate) fn phase(fields: &Fields, names: &SegmentNames, command: &Command) -> Option<RecordEntry>
    ensures { result ≡ phase_entry command.now names.now (texts_of fields.now) }
{
    if !fields.are_empty(&[Column::Member, Column::Reference]) || !fields.are_empty(&CANCEL_BLANK) {
        return None;
    }
    if is_word(fields.text(Column::Security), "*") {
        return Some(RecordEntry::Each(*command));
    }
    let security = security(fields, names)?;
    Some(RecordEntry::One(security, *command))
}
