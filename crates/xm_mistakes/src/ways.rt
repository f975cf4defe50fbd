//! Ways in which a text may differ from what was meant.
use crate::dates::{day_month_year, year_month_day};
use crate::texts::{behind, joined_bytes, part};
use std::alloc::Global;
use xm_memory::OutOfMemory;

/// Bytes that a text which isn't ASCII may have between its words and marks, as a space that doesn't break has in UTF-8.
const FIRM_SPACE: &[u8] = b"\xC2\xA0";

/// A way to write a text otherwise.
#[derive(Clone, Copy)]
pub enum Way {
    Trimmed,
    Unquoted,
    SmallLetters,
    CapitalLetters,
    WithoutPlus,
    DecimalPoint,
    Digits,
    DigitsWithPoint,
    WithoutSeparators,
    WithoutZeroDecimals,
    WithoutZeros,
    PointBetweenDigits,
    YearMonthDay,
    DayMonthYear,
}

/// All ways, the likeliest one first.
pub const WAYS: [Way; 14] = [
    Way::Trimmed,
    Way::Unquoted,
    Way::SmallLetters,
    Way::CapitalLetters,
    Way::WithoutPlus,
    Way::DecimalPoint,
    Way::PointBetweenDigits,
    Way::WithoutSeparators,
    Way::WithoutZeroDecimals,
    Way::WithoutZeros,
    Way::YearMonthDay,
    Way::DayMonthYear,
    Way::Digits,
    Way::DigitsWithPoint,
];

impl Way {
    /// The text, written in this way, or nothing where it can't be.
    pub fn applied(self, alloc: Global, text: &[u8]) -> Result<Vec<u8>, OutOfMemory> {
        let trimmed = trimmed(text);
        match self {
            Way::SmallLetters => Ok(trimmed.to_ascii_lowercase(alloc)?),
            Way::CapitalLetters => Ok(trimmed.to_ascii_uppercase(alloc)?),
            Way::DecimalPoint => with_points(alloc, trimmed),
            Way::DigitsWithPoint => with_points(alloc, without_unit(trimmed)),
            Way::WithoutSeparators => without_separators(alloc, trimmed),
            Way::PointBetweenDigits => point_between_digits(alloc, trimmed),
            Way::YearMonthDay => year_month_day(alloc, trimmed),
            Way::DayMonthYear => day_month_year(alloc, trimmed),
            _ => joined_bytes(alloc, &[self.part(trimmed)]),
        }
    }

    /// What remains of the text, where the way only leaves something out at its begin and its end.
    fn part(self, text: &[u8]) -> &[u8] {
        match self {
            Way::Unquoted => unquoted(text),
            Way::WithoutPlus => text.strip_prefix(b"+").unwrap_or(text),
            Way::Digits => without_unit(text),
            Way::WithoutZeroDecimals => without_zero_decimals(text),
            Way::WithoutZeros => without_zeros(text),
            _ => text,
        }
    }

    /// In which way the text then differs.
    pub fn words(self) -> &'static str {
        match self {
            Way::Trimmed => "without spaces around it",
            Way::Unquoted => "without these marks around it",
            Way::SmallLetters => "in small letters",
            Way::CapitalLetters => "in capital letters",
            Way::WithoutPlus => "without a sign",
            Way::DecimalPoint => "with a decimal point",
            Way::Digits => "without its unit",
            Way::DigitsWithPoint => "with a decimal point and without its unit",
            Way::WithoutSeparators => "without separators between its digits",
            Way::WithoutZeroDecimals => "without decimals",
            Way::WithoutZeros => "without zeros before it",
            Way::PointBetweenDigits => "with a digit on either side of a point",
            Way::YearMonthDay => "its digits alone",
            Way::DayMonthYear => "year, month and day, its digits alone",
        }
    }
}

/// A text without the spaces around it.
pub fn trimmed(text: &[u8]) -> &[u8] {
    let text = text.trim_ascii();
    let text = text.strip_prefix(FIRM_SPACE).unwrap_or(text);
    let text = text.strip_suffix(FIRM_SPACE).unwrap_or(text);
    text.trim_ascii()
}

/// A text without quotation marks around it, as texts and programs have them.
pub fn unquoted(text: &[u8]) -> &[u8] {
    const MARKS: [(&[u8], &[u8]); 6] = [
        (b"\"", b"\""),
        (b"'", b"'"),
        (b"`", b"`"),
        (b"\xE2\x80\x9C", b"\xE2\x80\x9D"),
        (b"\xE2\x80\x9E", b"\xE2\x80\x9C"),
        (b"\xE2\x80\x98", b"\xE2\x80\x99"),
    ];
    for (opening, closing) in &MARKS {
        if let Some(inner) = text.strip_prefix(*opening)
            && let Some(inner) = inner.strip_suffix(*closing)
        {
            return inner;
        }
    }
    text
}

/// A text with points in place of its commas.
fn with_points(alloc: Global, text: &[u8]) -> Result<Vec<u8>, OutOfMemory> {
    let mut out = Vec::new(alloc);
    for byte in text {
        out.push(if *byte == b',' { b'.' } else { *byte })?;
    }
    Ok(out)
}

/// What may stand before or behind a number as its unit.
const UNITS: [&[u8]; 18] = [
    b"\xE2\x82\xAC",
    b"$",
    b"\xC2\xA3",
    b"EUR",
    b"USD",
    b"GBP",
    b"CHF",
    b"Euro",
    b"eur",
    b"euro",
    b"euros",
    b"pcs",
    b"pcs.",
    b"shares",
    b"units",
    b"lots",
    b"Stk",
    b"Stk.",
];

/// A number without the unit before it or behind it.
fn without_unit(text: &[u8]) -> &[u8] {
    for unit in &UNITS {
        if let Some(rest) = text.strip_prefix(*unit) {
            return trimmed(rest);
        }
        if let Some(rest) = text.strip_suffix(*unit) {
            return trimmed(rest);
        }
    }
    text
}

/// A number without what may part its thousands, and nothing of another text.
fn without_separators(alloc: Global, text: &[u8]) -> Result<Vec<u8>, OutOfMemory> {
    let mut out = Vec::new(alloc);
    for byte in text {
        match *byte {
            b',' | b'\'' | b'_' | b' ' | 0xC2 | 0xA0 => {}
            b'0'..=b'9' | b'.' => out.push(*byte)?,
            _ => return Ok(Vec::new(alloc)),
        }
    }
    Ok(out)
}

/// A number without the zeros before it.
pub fn without_zeros(number: &[u8]) -> &[u8] {
    let zeros = number.iter().take_while(|byte| **byte == b'0').count();
    behind(number, zeros)
}

/// A number without its decimals, where they are zeros and no three of them, which could be thousands.
fn without_zero_decimals(text: &[u8]) -> &[u8] {
    let point = text.iter().position(|byte| *byte == b'.' || *byte == b',');
    let Some(point) = point else {
        return text;
    };
    let decimals = text.get(point.saturating_add(1)..).unwrap_or(&[]);
    if decimals.len() != 3 && decimals.iter().all(|byte| *byte == b'0') {
        part(text, 0, point)
    } else {
        text
    }
}

/// A number with a zero before a point that it begins with, and without a point that it ends with.
fn point_between_digits(alloc: Global, text: &[u8]) -> Result<Vec<u8>, OutOfMemory> {
    let ended = text.strip_suffix(b".").unwrap_or(text);
    let zero: &[u8] = if ended.first() == Some(&b'.') {
        b"0"
    } else {
        b""
    };
    joined_bytes(alloc, &[zero, ended])
}
