//! Dates in other forms than eight digits.
use std::alloc::Global;
use xm_memory::OutOfMemory;

/// The eight digits of a date that begins with its year, and nothing of another text.
pub(crate) fn year_month_day(alloc: Global, text: &[u8]) -> Result<Vec<u8>, OutOfMemory> {
    let (year, month, day) = numbers(text);
    if year.len() == 4 {
        digits(alloc, year, month, day)
    } else {
        Ok(Vec::new(alloc))
    }
}

/// The eight digits of a date that ends with its year: with the day before it, or the month where the other number is no month. It is
/// nothing where both may be.
pub(crate) fn day_month_year(alloc: Global, text: &[u8]) -> Result<Vec<u8>, OutOfMemory> {
    let (first, second, year) = numbers(text);
    if year.len() != 4 {
        return Ok(Vec::new(alloc));
    }
    match (is_month(first), is_month(second)) {
        (false, true) => digits(alloc, year, second, first),
        (true, true) if text.contains(&b'.') => digits(alloc, year, second, first),
        (true, false) => digits(alloc, year, first, second),
        _ => Ok(Vec::new(alloc)),
    }
}

/// The first three numbers in a text, with one other byte between two of them.
fn numbers(text: &[u8]) -> (&[u8], &[u8], &[u8]) {
    let mut numbers = text.split(|byte| !byte.is_ascii_digit());
    (
        numbers.next().unwrap_or(&[]),
        numbers.next().unwrap_or(&[]),
        numbers.next().unwrap_or(&[]),
    )
}

/// Whether digits write a number from 1 to 12.
fn is_month(digits: &[u8]) -> bool {
    match digits {
        [b'1'..=b'9'] | [b'0', b'1'..=b'9'] => true,
        [b'1', b'0'..=b'2'] => true,
        _ => false,
    }
}

/// The digits of a year, a month and a day, each of the last two with two, and nothing where it has more or none.
fn digits(alloc: Global, year: &[u8], month: &[u8], day: &[u8]) -> Result<Vec<u8>, OutOfMemory> {
    let mut out = Vec::new(alloc);
    if is_short(month) && is_short(day) {
        out.extend_from_slice(year)?;
        push_two(&mut out, month)?;
        push_two(&mut out, day)?;
    }
    Ok(out)
}

/// Whether a number has one digit or two.
fn is_short(number: &[u8]) -> bool {
    (1..=2).contains(&number.len())
}

/// Adds such a number with two digits.
fn push_two(out: &mut Vec<u8>, number: &[u8]) -> Result<(), OutOfMemory> {
    if number.len() == 1 {
        out.push(b'0')?;
    }
    out.extend_from_slice(number)?;
    Ok(())
}
