//! The lines of a segment file in which its keys stand, as far as they can be found.
use crate::keys::{Key, SECURITY_KEYS, TOP_KEYS};
use std::alloc::Global;
use xm_memory::OutOfMemory;
use xm_mistakes::{joined, numbered, ordinal, part};

/// Whose key it is: one at the top, or one of the security with this index.
#[derive(Clone, Copy, PartialEq, Eq)]
pub(crate) enum Owner {
    Top,
    Security(usize),
}

impl Owner {
    /// The line that a fault of it has.
    pub(crate) fn fault_line(self) -> u32 {
        match self {
            Owner::Top => 0,
            Owner::Security(index) => u32::try_from(index.saturating_add(1)).unwrap_or(u32::MAX),
        }
    }

    /// Its keys.
    pub(crate) fn keys(self) -> &'static [Key] {
        match self {
            Owner::Top => &TOP_KEYS,
            Owner::Security(_) => &SECURITY_KEYS,
        }
    }

    /// The names of its keys, in words.
    pub(crate) fn titles(self) -> &'static str {
        match self {
            Owner::Top => "date, members, security",
            Owner::Security(_) => "name, tick, reference, dynamic, static, wide, journal",
        }
    }

    /// The words for it before others, and nothing for the top.
    fn words(self, alloc: Global) -> Result<String, OutOfMemory> {
        match self {
            Owner::Top => Ok(String::new(alloc)),
            Owner::Security(index) => {
                let which = ordinal(alloc, index)?;
                joined(alloc, &["the ", which.as_str(), " security, "])
            }
        }
    }

    /// How many lines that begin a security come before its keys.
    fn begun(self) -> usize {
        match self {
            Owner::Top => 0,
            Owner::Security(index) => index.saturating_add(1),
        }
    }
}

/// The line in which a key stands, counted from 1.
pub(crate) fn key_line(text: &[u8], owner: Owner, key: &str) -> Option<usize> {
    let mut begun = 0usize;
    let mut number = 0usize;
    for line in text.split(|byte| *byte == b'\n') {
        number = number.saturating_add(1);
        let line = line.trim_ascii();
        if begins_security(line) {
            begun = begun.saturating_add(1);
        } else if begun == owner.begun() && begins_with_key(line, key) {
            return Some(number);
        }
    }
    None
}

/// The line in which a security begins, counted from 1.
pub(crate) fn security_line(text: &[u8], index: usize) -> Option<usize> {
    let mut begun = 0usize;
    let mut number = 0usize;
    for line in text.split(|byte| *byte == b'\n') {
        number = number.saturating_add(1);
        if begins_security(line.trim_ascii()) {
            if begun == index {
                return Some(number);
            }
            begun = begun.saturating_add(1);
        }
    }
    None
}

/// The lines in which a name stands in quotation marks for the time with this index and for the next time, counted from 1.
pub(crate) fn quoted_line(text: &[u8], name: &str, index: usize) -> Option<usize> {
    let mut seen = 0usize;
    let mut number = 0usize;
    for line in text.split(|byte| *byte == b'\n') {
        number = number.saturating_add(1);
        for place in 0..line.len() {
            if line.get(place) == Some(&b'"') && is_quoted_at(line, place, name.as_bytes()) {
                if seen == index {
                    return Some(number);
                }
                seen = seen.saturating_add(1);
            }
        }
    }
    None
}

/// Whether a name stands in quotation marks at a place.
fn is_quoted_at(line: &[u8], place: usize, name: &[u8]) -> bool {
    let from = place.saturating_add(1);
    let to = from.saturating_add(name.len());
    part(line, from, to) == name && line.get(to) == Some(&b'"')
}

/// Whether a line begins a security.
fn begins_security(line: &[u8]) -> bool {
    match line.strip_prefix(b"[[") {
        Some(rest) => rest.trim_ascii().starts_with(b"security"),
        None => false,
    }
}

/// Whether a line begins with a key and its sign.
fn begins_with_key(line: &[u8], key: &str) -> bool {
    let line = match line.strip_prefix(b"\"") {
        Some(rest) => rest,
        None => line,
    };
    match line.strip_prefix(key.as_bytes()) {
        Some(rest) => {
            let rest = rest.strip_prefix(b"\"").unwrap_or(rest);
            rest.trim_ascii().starts_with(b"=")
        }
        None => is_table_of(line, key),
    }
}

/// Whether a line begins the table of a key.
fn is_table_of(line: &[u8], key: &str) -> bool {
    let inner = line.strip_prefix(b"[[").unwrap_or(line);
    let inner = inner.strip_prefix(b"[").unwrap_or(inner);
    inner.len() < line.len()
        && match inner.trim_ascii().strip_prefix(key.as_bytes()) {
            Some(rest) => rest.trim_ascii().starts_with(b"]"),
            None => false,
        }
}

/// The words for the place of a key: its line, where it is found, and its security.
pub(crate) fn key_place(
    alloc: Global,
    text: &[u8],
    owner: Owner,
    key: &str,
) -> Result<String, OutOfMemory> {
    let line = key_line(text, owner, key);
    place_words(alloc, line, owner)
}

/// The words for a place: a line, where it is known, and a security.
pub(crate) fn place_words(
    alloc: Global,
    line: Option<usize>,
    owner: Owner,
) -> Result<String, OutOfMemory> {
    let line = match line {
        Some(line) => numbered(alloc, "line ", line, ", ")?,
        None => String::new(alloc),
    };
    let whose = owner.words(alloc)?;
    joined(alloc, &[line.as_str(), whose.as_str()])
}
