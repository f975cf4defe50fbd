//! Where a text that a case gives differs from the one that is stored.

use crate::texts::{self, CaseFault};
use std::rt::Files;

/// Whether a text that a case gives is the one that is stored; no file is an empty text. Prints the first line that differs.
pub fn is_stored<R: AllocGlobal + Files + Print>(
    rt: &R,
    name: &str,
    ending: &str,
    given: &[u8],
) -> Result<bool, CaseFault> {
    let path = texts::path(rt, name, ending)?;
    let stored = texts::stored(rt, path.as_str())?;
    is_alike(rt, path.as_str(), stored.as_slice(), given)
}

/// The same of a text that need not be stored.
pub fn is_stored_if_any<R: AllocGlobal + Files + Print>(
    rt: &R,
    name: &str,
    ending: &str,
    given: &[u8],
) -> Result<bool, CaseFault> {
    let path = texts::path(rt, name, ending)?;
    let stored = texts::stored(rt, path.as_str())?;
    if stored.is_empty() {
        return Ok(true);
    }
    is_alike(rt, path.as_str(), stored.as_slice(), given)
}

/// Whether two texts are one. Prints the first line that differs.
fn is_alike<R: Print>(rt: &R, path: &str, stored: &[u8], given: &[u8]) -> Result<bool, CaseFault> {
    if stored == given {
        return Ok(true);
    }
    print_difference(rt, path, stored, given)?;
    Ok(false)
}

/// Prints the number of the first line in which two texts differ, and the line of each.
fn print_difference<R: Print>(
    rt: &R,
    path: &str,
    stored: &[u8],
    given: &[u8],
) -> Result<(), CaseFault> {
    let (lines, start) = lines_alike(stored, given);
    let number = lines.saturating_add(1);
    texts::said(println!(rt; "{path} differs in line {number}"))?;
    print_line(rt, "stored", stored, start)?;
    print_line(rt, "given", given, start)
}

/// How many lines two texts begin with alike, and how many bytes those have.
fn lines_alike(stored: &[u8], given: &[u8]) -> (u64, usize) {
    let mut lines: u64 = 0;
    let mut bytes: usize = 0;
    let mut start: usize = 0;
    for (one, other) in stored.iter().zip(given.iter()) {
        if one != other {
            break;
        }
        bytes = bytes.saturating_add(1);
        if *one == b'\n' {
            lines = lines.saturating_add(1);
            start = bytes;
        }
    }
    (lines, start)
}

/// Prints the line of a text that begins behind so many bytes.
fn print_line<R: Print>(rt: &R, what: &str, text: &[u8], start: usize) -> Result<(), CaseFault> {
    let line = line_of(text.get(start..).unwrap_or(b""));
    match str::from_utf8(line) {
        Ok(line) => texts::said(println!(rt; "  {what}: {line}")),
        Err(_) => texts::said(println!(rt; "  {what}: (no text)")),
    }
}

/// The first line of a text, without its end.
fn line_of(text: &[u8]) -> &[u8] {
    for (length, byte) in text.iter().enumerate() {
        if *byte == b'\n' {
            return text.get(..length).unwrap_or(text);
        }
    }
    text
}
