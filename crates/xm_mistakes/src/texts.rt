//! Parts of the words: texts that were found, numbers in words, lines.
use std::alloc::Global;
use xm_memory::OutOfMemory;

/// The most characters of a found text that words show.
const MOST_SHOWN: usize = 60;

/// Texts, one behind the other.
pub fn joined(alloc: Global, parts: &[&str]) -> Result<String, OutOfMemory> {
    Ok(parts.concat(alloc)?)
}

/// Bytes, some behind others.
pub fn joined_bytes(alloc: Global, parts: &[&[u8]]) -> Result<Vec<u8>, OutOfMemory> {
    Ok(parts.concat(alloc)?)
}

/// A found text as words show it, between two others.
pub fn around(
    alloc: Global,
    before: &str,
    found: &[u8],
    after: &str,
) -> Result<String, OutOfMemory> {
    let found = shown(alloc, found)?;
    joined(alloc, &[before, found.as_str(), after])
}

/// The words for what is to be written in place of a text, and for the way in which it differs.
pub fn mended<'m>(alloc: Global, write: &'m str, how: &'m str) -> Result<String, OutOfMemory> {
    joined(alloc, &[": write ", write, " (", how, ")"])
}

/// A number between two texts.
pub fn numbered(
    alloc: Global,
    before: &str,
    number: usize,
    after: &str,
) -> Result<String, OutOfMemory> {
    Ok(format!(in alloc; "{before}{number}{after}")?)
}

/// The digits of a number.
pub fn digits_of(alloc: Global, number: usize) -> Result<String, OutOfMemory> {
    Ok(format!(in alloc; "{number}")?)
}

/// A text that is one, and nothing of other bytes.
pub fn plain(text: &[u8]) -> &str {
    str::from_utf8(text).unwrap_or("")
}

/// A found text, in quotation marks. At most `MOST_SHOWN` of its characters are shown, and what can't be seen is escaped.
pub fn shown(alloc: Global, text: &[u8]) -> Result<String, OutOfMemory> {
    let mut out = String::new(alloc);
    out.push('"')?;
    let mut left = MOST_SHOWN;
    for chunk in text.utf8_chunks() {
        left = push_characters(&mut out, chunk.valid(), left)?;
        left = push_bytes(&mut out, chunk.invalid(), left)?;
    }
    if left == 0 {
        out.push_str("..")?;
    }
    out.push('"')?;
    Ok(out)
}

/// Adds at most so many characters of a text. Answers how many are left to be shown.
fn push_characters(out: &mut String, text: &str, most: usize) -> Result<usize, OutOfMemory> {
    let mut left = most;
    for character in text.chars() {
        if left == 0 {
            break;
        }
        push_character(out, character)?;
        left = left.saturating_sub(1);
    }
    Ok(left)
}

/// Adds a character, or its number where it can't be seen.
fn push_character(out: &mut String, character: char) -> Result<(), OutOfMemory> {
    let code = u32::from(character);
    match character {
        '\n' => out.push_str("\\n")?,
        '\r' => out.push_str("\\r")?,
        '\t' => out.push_str("\\t")?,
        _ if is_unseen(code) => write!(out, "\\u{{{code:x}}}")?,
        _ => out.push(character)?,
    }
    Ok(())
}

/// Whether a character is a control, a space other than the usual one, or a mark that has no width.
fn is_unseen(code: u32) -> bool {
    code < 32
        || (127..=160).contains(&code)
        || code == 0xAD
        || (0x2000..=0x200F).contains(&code)
        || (0x2028..=0x202F).contains(&code)
        || (0x205F..=0x206F).contains(&code)
        || code == 0x3000
        || code == 0xFEFF
}

/// Adds at most so many bytes that are no text, by their numbers. Answers how many are left to be shown.
fn push_bytes(out: &mut String, bytes: &[u8], most: usize) -> Result<usize, OutOfMemory> {
    let mut left = most;
    for byte in bytes {
        if left == 0 {
            break;
        }
        let byte = *byte;
        write!(out, "\\x{byte:02x}")?;
        left = left.saturating_sub(1);
    }
    Ok(left)
}

/// How many lines end in a text, as editors count them: by a line feed, or a carriage return that no line feed follows.
pub fn line_ends(text: &[u8]) -> usize {
    let mut ends = 0usize;
    let mut after_return = false;
    for byte in text {
        match *byte {
            b'\n' if after_return => {}
            b'\n' | b'\r' => ends = ends.saturating_add(1),
            _ => {}
        }
        after_return = *byte == b'\r';
    }
    ends
}

/// A text without the line ends behind it.
pub fn without_line_end(text: &[u8]) -> &[u8] {
    let kept = match text.iter().rposition(|byte| !is_line_end(*byte)) {
        Some(last) => last.saturating_add(1),
        None => 0,
    };
    part(text, 0, kept)
}

/// Whether a byte ends a line.
pub fn is_line_end(byte: u8) -> bool {
    byte == b'\n' || byte == b'\r'
}

/// What a text has from one place up to another, as far as it reaches.
pub fn part(text: &[u8], from: usize, to: usize) -> &[u8] {
    text.get(from..to).unwrap_or(&[])
}

/// What a text has from a place on.
pub fn behind(text: &[u8], from: usize) -> &[u8] {
    text.get(from..).unwrap_or(&[])
}

/// The words for the place of the thing with this index among others.
pub fn ordinal(alloc: Global, index: usize) -> Result<String, OutOfMemory> {
    const SMALL: [&str; 10] = [
        "first", "second", "third", "fourth", "fifth", "sixth", "seventh", "eighth", "ninth",
        "tenth",
    ];
    if let Some(word) = SMALL.get(index) {
        return joined(alloc, &[*word]);
    }
    let number = index.saturating_add(1);
    let ending = match (number % 10, number % 100) {
        (_, 11..=13) => "th",
        (1, _) => "st",
        (2, _) => "nd",
        (3, _) => "rd",
        _ => "th",
    };
    numbered(alloc, "", number, ending)
}

/// A number of things: words of their own for one of them, and else the number and words that begin with a space.
pub fn counted(alloc: Global, count: usize, one: &str, more: &str) -> Result<String, OutOfMemory> {
    if count == 1 {
        joined(alloc, &[one])
    } else {
        numbered(alloc, "", count, more)
    }
}
