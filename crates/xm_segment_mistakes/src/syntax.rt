//! Segment files that are no TOML.
use std::alloc::Global;
use xm_memory::OutOfMemory;
use xm_mistakes::{around, behind, joined, line_ends, other_file, out_of_memory, part};

/// What may be meant where TOML tells a mistake that begins with these words.
const HINTS: [(&str, &str); 12] = [
    (
        "invalid value",
        "; a text stands in quotation marks, and a number has digits alone",
    ),
    (
        "unexpected key or value",
        "; a value ends with its line: a price stands in quotation marks, a number has no comma and no unit, a comment begins with #",
    ),
    (
        "key with no value",
        "; each line is a key, the sign = and its value, and a comment begins with #",
    ),
    (
        "duplicate key",
        "; this key was given before; another security begins with a line [[security]]",
    ),
    (
        "invalid string",
        "; a quotation mark is missing, or a text has a line end",
    ),
    (
        "invalid escape",
        "; write two backslashes where one is meant",
    ),
    (
        "invalid key",
        "; a line begins with a key, and a comment with #",
    ),
    ("invalid UTF-8", "; save the file as UTF-8"),
    (
        "unclosed",
        "; each security begins with a line [[security]]",
    ),
    (
        "missing comma",
        "; the names of an array are parted by commas, and a bracket ] closes it",
    ),
    (
        "number out of range",
        "; no number of this file is as large",
    ),
    (
        "cannot extend",
        "; each security begins with a line [[security]], in two brackets",
    ),
];

/// The words for a text that is no TOML.
pub(crate) fn syntax_words(alloc: Global, text: &[u8]) -> Result<String, OutOfMemory> {
    if let Some(words) = other_file(text) {
        return joined(alloc, &[words]);
    }
    if text.starts_with(b"command,member,") || text.starts_with(b"security,member,") {
        let words =
            "line 1: this is the header of an order file or a carry file: the segment file comes first";
        return joined(alloc, &[words]);
    }
    match toml::table_from_slice(alloc, text) {
        Ok(_table) => joined(alloc, &["this is no TOML"]),
        Err(error) => told(alloc, text, &error),
    }
}

/// The words for the mistake that TOML tells.
fn told(alloc: Global, text: &[u8], error: &toml::de::Error) -> Result<String, OutOfMemory> {
    if error.is_memory() {
        return Err(out_of_memory(&error));
    }
    let start = match error.span() {
        Some(span) => span.start,
        None => 0,
    };
    located(alloc, text, start, error.message())
}

/// The words for a mistake that TOML tells at a byte.
fn located(alloc: Global, text: &[u8], start: usize, message: &str) -> Result<String, OutOfMemory> {
    let before = part(text, 0, start.min(text.len()));
    let begin = match before.iter().rposition(|byte| *byte == b'\n') {
        Some(last) => last.saturating_add(1),
        None => 0,
    };
    let line = line_ends(before).saturating_add(1);
    let column = characters(behind(before, begin)).saturating_add(1);
    let rest = behind(text, begin);
    let whole = match rest.iter().position(|byte| *byte == b'\n') {
        Some(end) => part(rest, 0, end),
        None => rest,
    };
    let place = format!(in alloc; "line {line}, column {column}: {message}, in ")?;
    around(
        alloc,
        place.as_str(),
        whole.trim_ascii(),
        hint_for(message, whole),
    )
}

/// How many characters a text has; a byte that is no text counts as one.
fn characters(text: &[u8]) -> usize {
    text.iter()
        .filter(|byte| **byte < 0x80 || **byte >= 0xC0)
        .count()
}

/// What may be meant in a line for which TOML tells a mistake.
fn hint_for(message: &str, line: &[u8]) -> &'static str {
    if line.contains(&0xE2) && has_curved_marks(line) {
        return "; write straight quotation marks \"";
    }
    if message.starts_with("invalid value") && line.trim_ascii().ends_with(b"=") {
        return "; a value is missing behind the sign =";
    }
    if message.starts_with("key with no value") && line.contains(&b':') {
        return "; write = in place of :";
    }
    if line.trim_ascii().starts_with(b"//") || line.trim_ascii().starts_with(b";") {
        return "; a comment begins with #";
    }
    for (begin, hint) in &HINTS {
        if message.starts_with(*begin) {
            return *hint;
        }
    }
    ""
}

/// Whether a line has quotation marks that bend, as texts have them.
fn has_curved_marks(line: &[u8]) -> bool {
    line.windows(3).any(|three| is_curved_mark(three))
}

/// Whether three bytes are a quotation mark that bends.
fn is_curved_mark(three: &[u8]) -> bool {
    match three {
        [0xE2, 0x80, 0x98..=0x9F] => true,
        _ => false,
    }
}
