//! The values of a segment file, judged by the run's own reader, and what they were meant to be.
use crate::faults::segment_fault;
use crate::keys::{Key, SECURITY_KEYS, TOP_KEYS};
use std::alloc::Global;
use toml::{Table, Value};
use xm_memory::OutOfMemory;
use xm_mistakes::{
    WAYS, Way, amount_text, digits_of, joined, mended, out_of_memory, plain, price_reason, shown,
};
use xm_ticks::{MAX_TICK_SIZE, TickSize, read_price};

/// The text of TOML that gives a key a value.
fn printed(alloc: Global, key: Key, value: &Value) -> Result<String, OutOfMemory> {
    let mut table = Table::new(alloc);
    let title = joined(alloc, &[key.title()])?;
    table.insert(title, value.clone()?)?;
    match toml::table_to_string(alloc, &table) {
        Ok(text) => Ok(text),
        Err(error) => Err(out_of_memory(&error)),
    }
}

/// Whether a run takes a value of a key.
pub(crate) fn takes(
    alloc: Global,
    key: Key,
    tick: TickSize,
    value: &Value,
) -> Result<bool, OutOfMemory> {
    let line = printed(alloc, key, value)?;
    fits(alloc, key, tick, line.as_str())
}

/// Whether a run takes a text that gives a key its value, where all else may stand as it does. The tick is that of the security, if it
/// has one.
fn fits(alloc: Global, key: Key, tick: TickSize, line: &str) -> Result<bool, OutOfMemory> {
    let text = file_with(alloc, key, tick, line)?;
    match segment_fault(alloc, text.as_bytes()) {
        Ok(fault) => Ok(fault.is_none()),
        Err(wanting) => Err(wanting),
    }
}

/// The text of a segment file with a line that gives a key its value, and lines that may stand there for the others.
fn file_with(alloc: Global, key: Key, tick: TickSize, line: &str) -> Result<String, OutOfMemory> {
    let number = digits_of(alloc, tick.get() as usize)?;
    let price = amount_text(alloc, u64::from(tick.get()))?;
    let mut text = String::new(alloc);
    push_others(&mut text, &TOP_KEYS, key, number.as_str(), price.as_str())?;
    if SECURITY_KEYS.contains(&key) {
        push_others(
            &mut text,
            &SECURITY_KEYS,
            key,
            number.as_str(),
            price.as_str(),
        )?;
    }
    text.push_str(line)?;
    text.push('\n')?;
    Ok(text)
}

/// Adds a line for each of these keys other than one that is judged. The tick is this number, and one of its prices this one.
fn push_others(
    text: &mut String,
    keys: &[Key],
    judged: Key,
    tick: &str,
    price: &str,
) -> Result<(), OutOfMemory> {
    for key in keys {
        match *key {
            key if key == judged => {}
            Key::Date => push_line(text, &["date = 0"])?,
            Key::Members => push_line(text, &["members = []"])?,
            Key::Security if SECURITY_KEYS.contains(&judged) => push_line(text, &["[[security]]"])?,
            Key::Security => push_line(text, &["security = []"])?,
            Key::Name => push_line(text, &["name = \"A\""])?,
            Key::Tick => push_line(text, &["tick = ", tick])?,
            Key::Reference => push_line(text, &["reference = \"", price, "\""])?,
            width => push_line(text, &[width.title(), " = 1"])?,
        }
    }
    Ok(())
}

/// Adds a line that has these parts.
fn push_line(text: &mut String, parts: &[&str]) -> Result<(), OutOfMemory> {
    for part in parts {
        text.push_str(*part)?;
    }
    text.push('\n')?;
    Ok(())
}

/// The tick that a table has, and the finest one where it has none.
pub(crate) fn tick_of(table: &Table) -> TickSize {
    match table.get("tick") {
        Some(value) => tick_in(value),
        None => TickSize::FINEST,
    }
}

/// The tick that a value is, and the finest one where it is none.
fn tick_in(value: &Value) -> TickSize {
    let Some(number) = value.as_integer() else {
        return TickSize::FINEST;
    };
    match u32::try_from(number) {
        Ok(number) if 1 <= number && number <= MAX_TICK_SIZE => {
            TickSize::new(number).unwrap_or(TickSize::FINEST)
        }
        _ => TickSize::FINEST,
    }
}

/// The words for a value of a key that a run refuses, where the security has this tick.
pub(crate) fn value_words(
    alloc: Global,
    key: Key,
    tick: TickSize,
    value: &Value,
) -> Result<String, OutOfMemory> {
    let found = shown_value(alloc, key, value)?;
    let why = why(alloc, key, tick, value)?;
    let more = more_words(alloc, key, tick, value)?;
    joined(alloc, &[found.as_str(), " ", why.as_str(), more.as_str()])
}

/// What words add to why a value is refused: what is to be written, where that is known, and else what may be.
fn more_words(
    alloc: Global,
    key: Key,
    tick: TickSize,
    value: &Value,
) -> Result<String, OutOfMemory> {
    match value_mend(alloc, key, tick, value)? {
        Some(mend) => mended(alloc, mend.source.as_str(), mend.how),
        None => match (key, value) {
            (Key::Reference, Value::String(_)) => Ok(String::new(alloc)),
            _ => joined(alloc, &["; ", key.may()]),
        },
    }
}

/// Why a value is refused.
fn why(alloc: Global, key: Key, tick: TickSize, value: &Value) -> Result<String, OutOfMemory> {
    match (key, value) {
        (Key::Reference, Value::String(text)) => price_reason(alloc, text.as_bytes(), tick),
        (Key::Security, Value::Table(_)) => {
            joined(alloc, &["stands alone, and is no array of tables"])
        }
        _ => joined(alloc, &[key.isnt()]),
    }
}

/// A value as words show it.
pub(crate) fn shown_value(alloc: Global, key: Key, value: &Value) -> Result<String, OutOfMemory> {
    match value {
        Value::String(text) => shown(alloc, text.as_bytes()),
        Value::Array(_) => joined(alloc, &["an array"]),
        Value::Table(_) => joined(alloc, &["a table"]),
        _ => source_of(alloc, key, value),
    }
}

/// The text of a value, as TOML has it without quotation marks, and nothing of an array and a table.
fn source_of(alloc: Global, key: Key, value: &Value) -> Result<String, OutOfMemory> {
    match value {
        Value::String(text) => joined(alloc, &[text.as_str()]),
        Value::Array(_) | Value::Table(_) => Ok(String::new(alloc)),
        _ => {
            let line = printed(alloc, key, value)?;
            joined(alloc, &[source_in(line.as_str())])
        }
    }
}

/// What stands behind the sign of a line that gives a key its value.
fn source_in(line: &str) -> &str {
    match line.split_once('=') {
        Some((_, source)) => source.trim(),
        None => line,
    }
}

/// What the value of a key was meant to be.
#[derive(Drop)]
struct ValueMend {
    /// What is to be written behind the key's sign.
    source: String,
    how: &'static str,
}

/// What the value of a key was meant to be, as far as one of the ways tells.
fn value_mend(
    alloc: Global,
    key: Key,
    tick: TickSize,
    value: &Value,
) -> Result<Option<ValueMend>, OutOfMemory> {
    let source = source_of(alloc, key, value)?;
    let (text, is_text) = (source.as_bytes(), value.is_str());
    let how = if is_text {
        "without quotation marks"
    } else {
        "in quotation marks"
    };
    if let Some(mend) = tried(alloc, key, tick, text, !is_text, how)? {
        return Ok(Some(mend));
    }
    if let Some(mend) = written(alloc, key, tick, text, is_text)? {
        return Ok(Some(mend));
    }
    match scaled(key, text) {
        Some(number) => {
            let digits = digits_of(alloc, number as usize)?;
            tried(alloc, key, tick, digits.as_bytes(), false, key.unit())
        }
        None => Ok(None),
    }
}

/// A text as the value of a key, in the first of the ways in which it fits: as a text or none, as it was found, or the other way.
fn written(
    alloc: Global,
    key: Key,
    tick: TickSize,
    text: &[u8],
    is_text: bool,
) -> Result<Option<ValueMend>, OutOfMemory> {
    for way in &WAYS {
        for quoted in [is_text, !is_text] {
            if let Some(mend) = written_in(alloc, key, tick, text, quoted, *way)? {
                return Ok(Some(mend));
            }
        }
    }
    Ok(None)
}

/// A text as the value of a key, in a way, if it fits.
fn written_in(
    alloc: Global,
    key: Key,
    tick: TickSize,
    text: &[u8],
    quoted: bool,
    way: Way,
) -> Result<Option<ValueMend>, OutOfMemory> {
    let other = way.applied(alloc, text)?;
    tried(alloc, key, tick, other.as_slice(), quoted, way.words())
}

/// A number of another unit in that of a key: a tick of euros, a width of percents.
fn scaled(key: Key, text: &[u8]) -> Option<u32> {
    match key {
        Key::Tick => ten_thousandths(text),
        Key::Dynamic | Key::Static | Key::Wide => {
            let percents = text.strip_suffix(b"%")?;
            Some(ten_thousandths(percents.trim_ascii())? / 1000)
        }
        _ => None,
    }
}

/// A number with decimals, in ten-thousandths.
fn ten_thousandths(text: &[u8]) -> Option<u32> {
    match read_price(text, TickSize::FINEST) {
        Ok(price) => Some(price.get()),
        Err(_) => None,
    }
}

/// A text as the value of a key, in quotation marks or without, if it fits.
fn tried(
    alloc: Global,
    key: Key,
    tick: TickSize,
    text: &[u8],
    quoted: bool,
    how: &'static str,
) -> Result<Option<ValueMend>, OutOfMemory> {
    if text.is_empty() || !text.iter().all(|byte| is_plain(*byte)) {
        return Ok(None);
    }
    let text = plain(text);
    let mark = if quoted { "\"" } else { "" };
    let source = joined(alloc, &[mark, text, mark])?;
    if gives(alloc, key, tick_with(key, text, tick), source.as_str())? {
        Ok(Some(ValueMend { source, how }))
    } else {
        Ok(None)
    }
}

/// Whether a key may have the value that is written so, which of the members is one alone.
fn gives(alloc: Global, key: Key, tick: TickSize, source: &str) -> Result<bool, OutOfMemory> {
    let line = match key {
        Key::Members => joined(alloc, &["members = [", source, "]"])?,
        _ => line_of(alloc, key.title(), source)?,
    };
    fits(alloc, key, tick, line.as_str())
}

/// The line that gives a key with a name the value that is written so.
fn line_of<'l>(alloc: Global, title: &'l str, source: &'l str) -> Result<String, OutOfMemory> {
    joined(alloc, &[title, " = ", source])
}

/// The tick of a security in which a key has this text as its value.
fn tick_with(key: Key, text: &str, tick: TickSize) -> TickSize {
    match (key, text.parse::<u32>()) {
        (Key::Tick, Ok(number)) => TickSize::new(number).unwrap_or(tick),
        _ => tick,
    }
}

/// Whether a byte stands in a value as it is.
fn is_plain(byte: u8) -> bool {
    (32..127).contains(&byte) && byte != b'"' && byte != b'\\' && byte != b'#'
}
