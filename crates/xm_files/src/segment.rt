//! The segment file.
ghost use Rattle.std.specs.Prelude.{option_map, ◌≡◌, ◌≢◌, ℕ, ◌<◌, ◌≤◌, Bool, true, false, not, length, map, IfErr, IfOk, IfSome, OnOk, IsTrue, Ok, Err, None, Some, is_some, codes, []};
ghost use Rattle.std.specs.Bool.{OnTrue, OnFalse};
ghost use Rattle.std.specs.List.{list_all};
ghost use Rattle.toml.specs.Data.{get_member};
ghost use Rattle.toml.specs.View.{table_view};
ghost use Rattle.xm_files.specs.FileFaults.{is_from_outside};
ghost use Rattle.xm_files.specs.Segment.{are_distinct_texts, document_of, fault_after, with_security, has_keys, has_only, securities_after, security_keys, security_of, security_values, segment_in, segment_of, segment_with, settings_in, top_keys, top_of, top_values, widths_in};

use crate::bytes::read_whole;
use crate::file_faults::{FileCause, FileFault, parse_cause};
use crate::names::{NameList, SegmentNames};
use crate::tables::{
    array_at, has_keys, has_only, name_at, names_in, number_at, price_at, tables_in,
};
use std::alloc::Global;
use std::io::Read;
use toml::Table;
use xm_config::{Securities, SecurityConfig, SegmentConfig};
use xm_memory::OutOfMemory;
use xm_rules::{Carried, Widths};
use xm_ticks::{JournalLimit, TickSize};

/// Reads a segment file: the settings of the segment, and the names of its members and securities.
///
/// The file is TOML of at most 16,777,216 bytes, with the keys `date`, `members` and `security`, of
/// which the last is an array of tables with the keys `name`, `tick`, `reference`, `dynamic`,
/// `static`, `wide` and `journal`. How the widths relate and how many members and securities there
/// are is not checked here. The first fault is answered, with the number of its security.
pub fn read_segment<R: Read>(
    alloc: Global,
    reader: &mut R,
) -> Result<(SegmentConfig, SegmentNames), FileFault>
    ensures read { IfOk result (λ segment. IfSome (R.remaining reader.old) (λ bytes. segment_of bytes ≡ Ok segment)) }
    ensures members { IfOk result (λ segment. length segment.1.members ≡ segment.0.members) }
    ensures securities { IfOk result (λ segment. length segment.1.securities ≡ length segment.0.securities) }
    ensures date { IfOk result (λ segment. segment.0.today ≤ 99999999) }
    ensures fault { IfErr result (λ fault. OnFalse (is_from_outside fault.cause) (IfSome (R.remaining reader.old) (λ bytes. segment_of bytes ≡ Err fault))) }
    ensures outside { IfErr result (λ fault. OnTrue (is_from_outside fault.cause) (fault.line ≡ 0)) }
{
    let bytes = read_whole(alloc, reader)?;
    parse_segment(alloc, bytes.as_slice())
}

/// The segment that a text writes.
fn parse_segment(alloc: Global, text: &[u8]) -> Result<(SegmentConfig, SegmentNames), FileFault>
    ensures read { IfOk result (λ segment. segment_in (document_of text.now) ≡ Ok segment) }
    ensures members { IfOk result (λ segment. length segment.1.members ≡ segment.0.members) }
    ensures securities { IfOk result (λ segment. length segment.1.securities ≡ length segment.0.securities) }
    ensures date { IfOk result (λ segment. segment.0.today ≤ 99999999) }
    ensures fault { IfErr result (λ fault. fault.cause ≢ FileCause.OutOfMemory tt → segment_in (document_of text.now) ≡ Err fault) }
    ensures memory { IfErr result (λ fault. OnTrue (is_from_outside fault.cause) (fault.line ≡ 0)) }
{
    let table = parse_table(alloc, text)?;
    segment_of_table(alloc, &table)
}

/// The table that a text writes. The cause is `Syntax` or `OutOfMemory`.
fn parse_table(alloc: Global, text: &[u8]) -> Result<Table, FileCause>
    ensures ok { IfOk result (λ table. document_of text.now ≡ Some (table_view table)) }
    ensures err { IfErr result (λ cause. cause ≢ FileCause.OutOfMemory tt → (cause ≡ FileCause.Syntax) × (document_of text.now ≡ None)) }
{
    match toml::table_from_slice(alloc, text) {
        Ok(table) => Ok(table),
        Err(error) => Err(parse_cause(&error)),
    }
}

/// The values of the top keys.
#[derive(Drop)]
struct Top<'a> {
    today: u32,
    members: Vec<&'a str>,
    securities: Vec<&'a Table>,
}

/// The segment that a table gives.
fn segment_of_table(
    alloc: Global,
    table: &Table,
) -> Result<(SegmentConfig, SegmentNames), FileFault>
    ensures read { IfOk result (λ segment. segment_with (top_of (table_view table.now)) ≡ Ok segment) }
    ensures members { IfOk result (λ segment. length segment.1.members ≡ segment.0.members) }
    ensures securities { IfOk result (λ segment. length segment.1.securities ≡ length segment.0.securities) }
    ensures date { IfOk result (λ segment. segment.0.today ≤ 99999999) }
    ensures fault { IfErr result (λ fault. fault.cause ≢ FileCause.OutOfMemory tt → segment_with (top_of (table_view table.now)) ≡ Err fault) }
    ensures memory { IfErr result (λ fault. OnTrue (is_from_outside fault.cause) (fault.line ≡ 0)) }
{
    let top = top_of(alloc, table)?;
    let members = list_members(alloc, top.members.as_slice())?;
    let listing = list_securities(alloc, top.securities.as_slice())?;
    Ok((
        SegmentConfig {
            today: top.today,
            members: members.len(),
            securities: Securities::new(listing.settings),
        },
        SegmentNames::new(members, listing.names),
    ))
}

/// The values of the top keys, of which each is required and no other is allowed.
fn top_of(alloc: Global, table: &Table) -> Result<Top<'_>, FileCause>
    ensures date { IfOk result (λ top. top.today ≤ 99999999) }
    ensures ok { IfOk result (λ top. top_of (table_view table.now) ≡ Ok (record { today = top.today; members = map (λ name. name.now) top.members.items; securities = map (λ t. table_view t.now) top.securities.items })) }
    ensures err { IfErr result (λ cause. cause ≢ FileCause.OutOfMemory tt → top_of (table_view table.now) ≡ Err cause) }
    ensures causes { IfErr result (λ cause. cause ≢ FileCause.ReadFailed) }
{
    let keys = ["date", "members", "security"];
    if !has_keys(table, &keys) {
        return Err(FileCause::MissingKey);
    }
    if !has_only(table, &keys) {
        return Err(FileCause::UnknownKey);
    }
    top_values(alloc, table)
}

/// The values of the top keys. The cause is `BadValue` or `OutOfMemory`.
fn top_values(alloc: Global, table: &Table) -> Result<Top<'_>, FileCause>
    ensures date { IfOk result (λ top. top.today ≤ 99999999) }
    ensures ok { IfOk result (λ top. top_values (table_view table.now) ≡ Some (record { today = top.today; members = map (λ name. name.now) top.members.items; securities = map (λ t. table_view t.now) top.securities.items })) }
    ensures err { IfErr result (λ cause. cause ≢ FileCause.OutOfMemory tt → (cause ≡ FileCause.BadValue) × (top_values (table_view table.now) ≡ None)) }
{
    let today = number_at(table, "date", 0, 99_999_999).ok_or(FileCause::BadValue)?;
    let members = array_at(table, "members").ok_or(FileCause::BadValue)?;
    let members = names_in(alloc, members)?;
    let securities = array_at(table, "security").ok_or(FileCause::BadValue)?;
    let securities = tables_in(alloc, securities)?;
    Ok(Top {
        today,
        members,
        securities,
    })
}

/// The names of the members. The cause is `DuplicateName` or `OutOfMemory`.
fn list_members(alloc: Global, names: &[&str]) -> Result<NameList, FileCause>
    ensures ok { IfOk result (λ list. list ≡ map (λ name. name.now) names.now) }
    ensures distinct { IfOk result (λ list. are_distinct_texts list ≡ true) }
    ensures err { IfErr result (λ cause. cause ≢ FileCause.OutOfMemory tt → (cause ≡ FileCause.DuplicateName) × (are_distinct_texts (map (λ name. name.now) names.now) ≡ false)) }
{
    let mut list = NameList::new(alloc);
    for name in names {
        list.add(alloc, *name)?;
    }
    Ok(list)
}

/// The securities in index order: their names and their settings.
#[derive(Drop)]
struct ListedSecurities {
    names: NameList,
    settings: Vec<SecurityConfig>,
}

/// The securities of these tables.
fn list_securities(alloc: Global, tables: &[&Table]) -> Result<ListedSecurities, FileFault>
    ensures each { IfOk result (λ listing. length listing.names ≡ length listing.settings.items) }
    ensures ok { IfOk result (λ listing. securities_after (record { names = []; settings = [] }) (map (λ t. table_view t.now) tables.now) ≡ Ok (record { names = listing.names; settings = listing.settings.items })) }
    ensures err { IfErr result (λ fault. fault.cause ≢ FileCause.OutOfMemory tt → securities_after (record { names = []; settings = [] }) (map (λ t. table_view t.now) tables.now) ≡ Err fault) }
    ensures memory { IfErr result (λ fault. OnTrue (is_from_outside fault.cause) (fault.line ≡ 0)) }
{
    let mut listing = ListedSecurities {
        names: NameList::new(alloc),
        settings: Vec::new(alloc),
    };
    for table in tables {
        add_security(alloc, &mut listing, *table)?;
    }
    Ok(listing)
}

/// Adds the security of a table to those before it.
fn add_security(
    alloc: Global,
    listing: &mut ListedSecurities,
    table: &Table,
) -> Result<(), FileFault>
    requires { length listing.old.names ≡ length listing.old.settings.items }
    ensures each { OnOk result (length listing.new.names ≡ length listing.new.settings.items) }
    ensures ok { IfOk result (λ _. with_security (record { names = listing.old.names; settings = listing.old.settings.items }) (security_of (table_view table.now)) ≡ Ok (record { names = listing.new.names; settings = listing.new.settings.items })) }
    ensures err { IfErr result (λ fault. fault.cause ≢ FileCause.OutOfMemory tt → with_security (record { names = listing.old.names; settings = listing.old.settings.items }) (security_of (table_view table.now)) ≡ Err fault) }
    ensures memory { IfErr result (λ fault. OnTrue (is_from_outside fault.cause) (fault.line ≡ 0)) }
{
    let line = listing.names.len() + 1;
    let security = match security_of(table) {
        Ok(security) => security,
        Err(cause) => return Err(FileFault { line, cause }),
    };
    match listing.names.add(alloc, security.name) {
        Ok(()) => {}
        Err(cause) => return Err(cause.at(line)),
    }
    listing
        .settings
        .push(security.settings)
        .map_err(OutOfMemory::from)?;
    Ok(())
}

/// A security: its name and its settings.
#[derive(Drop)]
struct Security<'a> {
    name: &'a str,
    settings: SecurityConfig,
}

/// The security of a table, whose keys are all required and of which no other is allowed.
fn security_of(table: &Table) -> Result<Security<'_>, FileCause>
    ensures ok { IfOk result (λ security. security_of (table_view table.now) ≡ Ok (record { name = security.name.now; settings = security.settings })) }
    ensures err { IfErr result (λ cause. security_of (table_view table.now) ≡ Err cause) }
    ensures inside { IfErr result (λ cause. is_from_outside cause ≡ false) }
{
    let keys = [
        "name",
        "tick",
        "reference",
        "dynamic",
        "static",
        "wide",
        "journal",
    ];
    if !has_keys(table, &keys) {
        return Err(FileCause::MissingKey);
    }
    if !has_only(table, &keys) {
        return Err(FileCause::UnknownKey);
    }
    match security_values(table) {
        Some(security) => Ok(security),
        None => Err(FileCause::BadValue),
    }
}

/// The name and the settings that a table's values are.
fn security_values(table: &Table) -> Option<Security<'_>>
    ensures { option_map (λ security. record { name = security.name.now; settings = security.settings }) result ≡ security_values (table_view table.now) }
{
    let name = name_at(table, "name")?;
    let settings = settings_in(table)?;
    Some(Security { name, settings })
}

/// The settings that a table's values are.
fn settings_in(table: &Table) -> Option<SecurityConfig>
    ensures { result ≡ settings_in (table_view table.now) }
{
    let tick = TickSize::new(number_at(table, "tick", 1, 10_000)?)?;
    let reference = price_at(table, "reference", tick)?;
    let widths = widths_in(table)?;
    let limit = JournalLimit::new(number_at(table, "journal", 1, 1_000_000)?)?;
    Some(SecurityConfig {
        tick,
        reference,
        widths,
        limit,
        carried: Carried::none(),
    })
}

/// The widths that a table's values are.
fn widths_in(table: &Table) -> Option<Widths>
    ensures { result ≡ widths_in (table_view table.now) }
{
    let dynamic = number_at(table, "dynamic", 0, u32::MAX)?;
    let statics = number_at(table, "static", 0, u32::MAX)?;
    let wide = number_at(table, "wide", 0, u32::MAX)?;
    Some(Widths {
        dynamic,
        statics,
        wide,
    })
}
