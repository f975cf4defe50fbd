//! The carry file.
ghost use Rattle.std.specs.Prelude.{ℕ, List, ◌≡◌, ◌≢◌, ◌+◌, ◌≤◌, length, IfOk, IfErr, IfSome, OnOk, Ok, Err};
ghost use Rattle.std.specs.Bool.{OnTrue, OnFalse};
ghost use Rattle.csv.specs.Records.{fields_of};
ghost use Rattle.xm_files.specs.Carry.{carry_of, empty_lists, lists_after, lists_in, with_carry_record, with_listed, with_lists, listed_in};
ghost use Rattle.xm_files.specs.FileFaults.{is_from_outside};
ghost use Rattle.xm_files.specs.Names.{NameLists};
ghost use Rattle.xm_files.specs.Orders.{records_in};
ghost use Rattle.xm_files.specs.Rows.{texts_of};
ghost use Rattle.xm_files.specs.Unread.{with_ahead};
ghost use Rattle.xm_rules.specs.Entries.{Entries};
ghost use Rattle.xm_config.specs.declared.config.SecurityConfig.{SecurityConfig};

use crate::bytes::{MAX_BYTES, read_whole};
use crate::csv_records::CsvRecords;
use crate::entry_lists::EntryLists;
use crate::file_faults::{FileCause, FileFault};
use crate::headers::{behind_header, csv_behind_carry_header};
use crate::listed::parse_listed;
use crate::names::SegmentNames;
use crate::order_format::OrderFormat;
use crate::orders::{MAX_LINES, behind_line_feed, fault_at};
use crate::records::Fields;
use crate::wide::begin_wide;
use csv::ByteRecord;
use std::alloc::Global;
use std::io::Read;
use xm_config::{Securities, SecurityConfig, SegmentConfig};
use xm_memory::OutOfMemory;
use xm_name_index::Storage;

/// Reads a carry file: the settings of a segment, with the orders and stops of each security that the file lists in place of
/// those that the settings had.
///
/// The file is CSV of at most 16,777,216 bytes, whose first record is the header. Each other record is an order or a stop of one
/// security, whose names are those of `names`, and whose prices are prices of the security's tick. No two of a security have one
/// name, and there are at most `MAX_CARRIED` of them. Both lists are in the order of the file. The first fault is answered, with
/// the number of its record, the header being 1; the settings are then given up.
pub fn read_carry<R: Read>(
    storage: Storage<Global>,
    reader: &mut R,
    names: &SegmentNames,
    config: SegmentConfig,
) -> Result<SegmentConfig, FileFault>
    requires securities { length names.now.securities ≡ length config.securities }
    requires members { length names.now.members ≡ config.members }
    ensures read { IfOk result (λ settings. IfSome (R.remaining reader.old) (λ bytes. carry_of names.now config bytes ≡ Ok settings)) }
    ensures date { IfOk result (λ settings. settings.today ≡ config.today) }
    ensures members { IfOk result (λ settings. settings.members ≡ config.members) }
    ensures securities { IfOk result (λ settings. length settings.securities ≡ length config.securities) }
    ensures fault { IfErr result (λ fault. OnFalse (is_from_outside fault.cause) (IfSome (R.remaining reader.old) (λ bytes. carry_of names.now config bytes ≡ Err fault))) }
    ensures outside { IfErr result (λ fault. OnTrue (is_from_outside fault.cause) (fault.line ≡ 0)) }
{
    let bytes = read_whole(storage.alloc, reader)?;
    let securities = config.securities.as_slice();
    let mut lists = read_lists(storage, bytes.as_slice(), names, securities)?;
    Ok(settings_with(storage, config, lists.as_mut_slice())?)
}

/// The orders and stops of each security that a text lists.
fn read_lists(
    storage: Storage<Global>,
    text: &[u8],
    names: &SegmentNames,
    securities: &[SecurityConfig],
) -> Result<Vec<EntryLists>, FileFault>
    requires short { length text.now ≤ MAX_BYTES }
    requires securities { length names.now.securities ≡ length securities.now }
    ensures ok { IfOk result (λ lists. lists_in names.now securities.now (records_in text.now) ≡ Ok lists.items) }
    ensures each { IfOk result (λ lists. length lists.items ≡ length securities.now) }
    ensures err { IfErr result (λ fault. fault.cause ≢ FileCause.OutOfMemory tt → lists_in names.now securities.now (records_in text.now) ≡ Err fault) }
    ensures memory { IfErr result (λ fault. OnTrue (is_from_outside fault.cause) (fault.line ≡ 0)) }
{
    let mut lists = empty_lists(storage, securities)?;
    match behind_header(text, OrderFormat::Carry) {
        Some(left) => list_text(storage.alloc, lists.as_mut_slice(), left, names, securities)?,
        None => {
            let mut csv = csv_behind_carry_header(storage.alloc, text)?;
            list_records(lists.as_mut_slice(), &mut csv, names, securities)?;
        }
    }
    Ok(lists)
}

/// Nothing listed yet, for each security.
fn empty_lists(
    storage: Storage<Global>,
    securities: &[SecurityConfig],
) -> Result<Vec<EntryLists>, OutOfMemory>
    ensures { IfOk result (λ lists. lists.items ≡ empty_lists securities.now) }
{
    let mut lists = Vec::new(storage.alloc);
    for _security in securities {
        lists.push(EntryLists::new(storage))?;
    }
    Ok(lists)
}

/// Lists what the records say that come behind the header, from the line feed on that ends it.
fn list_text(
    alloc: Global,
    lists: &mut [EntryLists],
    text: &[u8],
    names: &SegmentNames,
    securities: &[SecurityConfig],
) -> Result<(), FileFault>
    requires short { 2 + length text.now ≤ MAX_LINES }
    requires each { length lists.old ≡ length names.now.securities }
    ensures ok { OnOk result (lists_after names.now securities.now 2 lists.old (records_in text.now) ≡ Ok lists.new) }
    ensures err { IfErr result (λ fault. fault.cause ≢ FileCause.OutOfMemory tt → lists_after names.now securities.now 2 lists.old (records_in text.now) ≡ Err fault) }
    ensures memory { IfErr result (λ fault. OnTrue (is_from_outside fault.cause) (fault.line ≡ 0)) }
{
    let left = list_lines(lists, text, names, securities)?;
    if wide_line(left.text).is_some() {
        return Err(fault_at(left.line, FileCause::Syntax));
    }
    let mut csv = CsvRecords::of(alloc, left.text, left.line);
    list_records(lists, &mut csv, names, securities)
}

/// What is left of a text whose lines were read.
#[derive(Clone, Copy)]
struct TextLeft<'a> {
    text: &'a [u8],
    // The number of its first record.
    line: u32,
}

/// Lists what the lines say behind the line feed that a text begins with, of which the first has the number 2, as long as none
/// has a quote or a carriage return, and each has as many fields as there are columns.
fn list_lines<'a>(
    lists: &mut [EntryLists],
    text: &'a [u8],
    names: &SegmentNames,
    securities: &[SecurityConfig],
) -> Result<TextLeft<'a>, FileFault>
    requires short { 2 + length text.now ≤ MAX_LINES }
    requires each { length lists.old ≡ length names.now.securities }
    ensures ok { IfOk result (λ left. lists_after names.now securities.now 2 lists.old (records_in text.now) ≡ lists_after names.now securities.now left.line lists.new (records_in left.text.now)) }
    ensures lines { IfOk result (λ left. (1 ≤ left.line) × (left.line + length left.text.now ≤ MAX_LINES)) }
    ensures err { IfErr result (λ fault. fault.cause ≢ FileCause.OutOfMemory tt → lists_after names.now securities.now 2 lists.old (records_in text.now) ≡ Err fault) }
    ensures memory { IfErr result (λ fault. OnTrue (is_from_outside fault.cause) (fault.line ≡ 0)) }
{
    let Some(mut marks) = behind_line_feed(text) else {
        return Ok(TextLeft { text, line: 2 });
    };
    let mut line = 2;
    let mut fields = Fields::empty(OrderFormat::Carry);
    'lines: loop {
        let left = marks.left();
        let Some(()) = fields.read_line(&mut marks) else {
            return Ok(TextLeft { text: left, line });
        };
        match list_record(lists, line, &fields, names, securities) {
            Ok(()) => {}
            Err(fault) => return Err(fault),
        }
        line += 1;
    }
}

/// Sees that the record behind the line feed that a text begins with has more fields than there are columns.
fn wide_line(text: &[u8]) -> Option<()>
    ensures { IfSome result (λ _. (names : NameLists) (securities : List SecurityConfig) (line : ℕ) (lists : List Entries) → lists_after names securities line lists (records_in text.now) ≡ Err (record { line = line; cause = FileCause.Syntax })) }
{
    begin_wide(&mut behind_line_feed(text)?)?;
    Some(())
}

/// Lists what the records say that CSV reads.
fn list_records(
    lists: &mut [EntryLists],
    csv: &mut CsvRecords,
    names: &SegmentNames,
    securities: &[SecurityConfig],
) -> Result<(), FileFault>
    requires { length lists.old ≡ length names.now.securities }
    ensures ok { OnOk result (lists_after names.now securities.now csv.old.line lists.old (with_ahead csv.old.ahead csv.old.behind) ≡ Ok lists.new) }
    ensures err { IfErr result (λ fault. fault.cause ≢ FileCause.OutOfMemory tt → lists_after names.now securities.now csv.old.line lists.old (with_ahead csv.old.ahead csv.old.behind) ≡ Err fault) }
    ensures memory { IfErr result (λ fault. OnTrue (is_from_outside fault.cause) (fault.line ≡ 0)) }
{
    'records: loop {
        match csv.look_ahead() {
            Ok(true) => {}
            Ok(false) => return Ok(()),
            Err(wanting) => return Err(FileFault::from(wanting)),
        }
        match list_fields(lists, csv.line(), csv.row(), names, securities) {
            Ok(()) => {}
            Err(fault) => return Err(fault),
        }
        csv.take();
    }
}

/// Lists what the record with this number says that CSV read.
fn list_fields(
    lists: &mut [EntryLists],
    line: u32,
    row: &ByteRecord,
    names: &SegmentNames,
    securities: &[SecurityConfig],
) -> Result<(), FileFault>
    requires { length lists.old ≡ length names.now.securities }
    ensures ok { OnOk result (with_carry_record names.now securities.now line lists.old (fields_of row.now) ≡ Ok lists.new) }
    ensures err { IfErr result (λ fault. fault.cause ≢ FileCause.OutOfMemory tt → with_carry_record names.now securities.now line lists.old (fields_of row.now) ≡ Err fault) }
    ensures memory { IfErr result (λ fault. OnTrue (is_from_outside fault.cause) (fault.line ≡ 0)) }
{
    match Fields::of(OrderFormat::Carry, row) {
        Some(fields) => list_record(lists, line, &fields, names, securities),
        None => Err(fault_at(line, FileCause::Syntax)),
    }
}

/// Lists what a record with this number says.
fn list_record(
    lists: &mut [EntryLists],
    line: u32,
    fields: &Fields,
    names: &SegmentNames,
    securities: &[SecurityConfig],
) -> Result<(), FileFault>
    requires format { fields.now.format ≡ OrderFormat.Carry }
    requires each { length lists.old ≡ length names.now.securities }
    ensures ok { OnOk result (with_listed line lists.old (listed_in names.now securities.now (texts_of fields.now)) ≡ Ok lists.new) }
    ensures err { IfErr result (λ fault. fault.cause ≢ FileCause.OutOfMemory tt → with_listed line lists.old (listed_in names.now securities.now (texts_of fields.now)) ≡ Err fault) }
    ensures memory { IfErr result (λ fault. OnTrue (is_from_outside fault.cause) (fault.line ≡ 0)) }
{
    match parse_listed(fields, names, securities) {
        Some(listed) => lists[listed.security as usize].add(line, &listed.entry),
        None => Err(fault_at(line, FileCause::BadField)),
    }
}

/// The settings of a segment with these lists in place of their own.
fn settings_with(
    storage: Storage<Global>,
    config: SegmentConfig,
    lists: &mut [EntryLists],
) -> Result<SegmentConfig, OutOfMemory>
    requires { length lists.old ≡ length config.securities }
    ensures filled { IfOk result (λ settings. settings ≡ record config { securities = with_lists config.securities lists.old }) }
    ensures each { IfOk result (λ settings. length settings.securities ≡ length config.securities) }
{
    let SegmentConfig {
        today,
        members,
        securities,
    } = config;
    let mut settings = securities.into_vec();
    fill(storage, settings.as_mut_slice(), lists)?;
    Ok(SegmentConfig {
        today,
        members,
        securities: Securities::new(settings),
    })
}

/// Puts these lists in place of those that the settings of securities have.
fn fill(
    storage: Storage<Global>,
    settings: &mut [SecurityConfig],
    lists: &mut [EntryLists],
) -> Result<(), OutOfMemory>
    requires { length lists.old ≡ length settings.old }
    ensures { OnOk result (settings.new ≡ with_lists settings.old lists.old) }
{
    for index in 0..settings.len() {
        settings[index].carried = lists[index].give(storage)?;
    }
    Ok(())
}
