//! The keys of a table of TOML and their values.
ghost use Rattle.std.specs.Prelude.{◌≡◌, ◌≢◌, ◌≤◌, IfSome, is_some, map, option_and_then, option_map, IfErr, IfOk, Err, None, Some, string_bytes};
ghost use Rattle.std.specs.BTreeMap.{keys};
ghost use Rattle.std.specs.List.{list_all, list_any};
ghost use Rattle.std.specs.Result.{result_ok};
ghost use Rattle.std.specs.Str.{bytes_eq};
ghost use Rattle.toml.specs.Data.{as_str, as_table, get_member};
ghost use Rattle.toml.specs.View.{array_view, table_view, view};
ghost use Rattle.xm_files.specs.Segment.{all_in, array_at, has_only, is_name, is_name_character, name_in, name_of, number_at, price_at, within};

use crate::file_faults::FileCause;
use std::alloc::Global;
use toml::value::Array;
use toml::{Table, Value};
use xm_memory::OutOfMemory;
use xm_ticks::{Price, TickSize, read_price};

/// The value of a key.
pub(crate) fn value_at<'a>(table: &'a Table, key: &str) -> Option<&'a Value>
    ensures { option_map (λ v. view v.now) result ≡ get_member key.now (table_view table.now) }
{
    table.get(key)
}

/// Whether a table has a key.
fn has_key(table: &Table, key: &str) -> bool
    ensures { result ≡ is_some (get_member key.now (table_view table.now)) }
{
    value_at(table, key).is_some()
}

/// Whether a table has each of the keys.
pub(crate) fn has_keys(table: &Table, keys: &[&str]) -> bool
    ensures { result ≡ list_all (λ key. is_some (get_member key.now (table_view table.now))) keys.now }
{
    keys.iter().all(|key| has_key(table, *key))
}

/// Whether a key is one of those that are allowed.
fn is_allowed(key: &str, allowed: &[&str]) -> bool
    ensures { result ≡ list_any (λ other. bytes_eq key.now other.now) allowed.now }
{
    allowed.iter().any(|other| key == *other)
}

/// Whether each key of a table is one of those that are allowed.
fn are_allowed(table: &Table, allowed: &[&str]) -> bool
    ensures { result ≡ list_all (λ key. list_any (λ other. bytes_eq (string_bytes key) other.now) allowed.now) (keys table.now) }
{
    table.keys().all(|key| is_allowed(key.as_str(), allowed))
}

/// Whether a table has no other keys than those that are allowed.
pub(crate) fn has_only(table: &Table, allowed: &[&str]) -> bool
    ensures { result ≡ has_only (map (λ k. k.now) allowed.now) (table_view table.now) }
{
    are_allowed(table, allowed)
}

/// The number, if it is within these bounds.
fn within(number: i64, low: u32, high: u32) -> Option<u32>
    ensures value { result ≡ within low high number }
    ensures low { IfSome result (λ n. low ≤ n) }
    ensures high { IfSome result (λ n. n ≤ high) }
{
    match u32::try_from(number) {
        Ok(number) if low <= number && number <= high => Some(number),
        _ => None,
    }
}

/// The whole number within these bounds that the value of a key is.
pub(crate) fn number_at(table: &Table, key: &str, low: u32, high: u32) -> Option<u32>
    ensures value { result ≡ number_at key.now low high (table_view table.now) }
    ensures low { IfSome result (λ n. low ≤ n) }
    ensures high { IfSome result (λ n. n ≤ high) }
{
    within(value_at(table, key)?.as_integer()?, low, high)
}

/// The price that the text of a key is, with this tick.
pub(crate) fn price_at(table: &Table, key: &str, tick: TickSize) -> Option<Price>
    ensures { result ≡ price_at key.now tick (table_view table.now) }
{
    let text = value_at(table, key)?.as_str()?;
    read_price(text.as_bytes(), tick).ok()
}

/// The array that the value of a key is.
pub(crate) fn array_at<'a>(table: &'a Table, key: &str) -> Option<&'a Array>
    ensures { option_map (λ v. array_view v.now) result ≡ array_at key.now (table_view table.now) }
{
    value_at(table, key)?.as_array()
}

/// Whether a text has 1 to 12 of the characters `A` to `Z` and `0` to `9`.
fn is_name(text: &[u8]) -> bool
    ensures { result ≡ is_name text.now }
{
    (1..=12).contains(&text.len()) && are_name_characters(text)
}

/// Whether each byte may stand in a name.
fn are_name_characters(text: &[u8]) -> bool
    ensures { result ≡ list_all is_name_character text.now }
{
    text.iter().all(|byte| is_name_character(*byte))
}

/// Whether a byte is one of `A` to `Z` and `0` to `9`.
fn is_name_character(byte: u8) -> bool
    ensures { result ≡ is_name_character byte }
{
    byte.is_ascii_uppercase() || byte.is_ascii_digit()
}

/// The name that a value is.
pub(crate) fn name_in(value: &Value) -> Option<&str>
    ensures { option_map (λ name. name.now) result ≡ name_in (view value.now) }
{
    let text = value.as_str()?;
    if is_name(text.as_bytes()) {
        Some(text)
    } else {
        None
    }
}

/// The name that the value of a key is.
pub(crate) fn name_at<'a>(table: &'a Table, key: &str) -> Option<&'a str>
    ensures { option_map (λ name. name.now) result ≡ option_and_then name_in (get_member key.now (table_view table.now)) }
{
    name_in(value_at(table, key)?)
}

/// The names that the values of an array are. `BadValue` says that one isn't a name.
pub(crate) fn names_in(alloc: Global, values: &Array) -> Result<Vec<&str>, FileCause>
    ensures ok { IfOk result (λ names. all_in name_in (array_view values.now) ≡ Some (map (λ name. name.now) names.items)) }
    ensures bad { result ≡ Err FileCause.BadValue → all_in name_in (array_view values.now) ≡ None }
    ensures causes { IfErr result (λ cause. (cause ≢ FileCause.OutOfMemory tt) → cause ≡ FileCause.BadValue) }
{
    let mut names = Vec::new(alloc);
    for value in values {
        let name = name_in(value).ok_or(FileCause::BadValue)?;
        names.push(name).map_err(OutOfMemory::from)?;
    }
    Ok(names)
}

/// The tables that the values of an array are. `BadValue` says that one isn't a table.
pub(crate) fn tables_in(alloc: Global, values: &Array) -> Result<Vec<&Table>, FileCause>
    ensures ok { IfOk result (λ tables. all_in as_table (array_view values.now) ≡ Some (map (λ table. table_view table.now) tables.items)) }
    ensures bad { result ≡ Err FileCause.BadValue → all_in as_table (array_view values.now) ≡ None }
    ensures causes { IfErr result (λ cause. (cause ≢ FileCause.OutOfMemory tt) → cause ≡ FileCause.BadValue) }
{
    let mut tables = Vec::new(alloc);
    for value in values {
        let table = value.as_table().ok_or(FileCause::BadValue)?;
        tables.push(table).map_err(OutOfMemory::from)?;
    }
    Ok(tables)
}
