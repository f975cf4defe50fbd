//! Records that have not as many fields as the header.
use crate::columns::{Column, Format};
use crate::records::Records;
use crate::run::{Record, Run};
use std::alloc::Global;
use xm_memory::OutOfMemory;
use xm_mistakes::{
    around, counted, digits_of, joined, joined_bytes, line_ends, numbered, plain, without_line_end,
};

/// The words for the record that was read last, which has not as many fields as the header.
pub(crate) fn count_words(
    run: &Run,
    format: Format,
    records: &Records,
) -> Result<String, OutOfMemory> {
    let record = Record::of_row(run.alloc, records.row())?;
    words_for(run, format, &record, records)
}

/// The words for such a record that has these fields.
fn words_for(
    run: &Run,
    format: Format,
    record: &Record,
    records: &Records,
) -> Result<String, OutOfMemory> {
    let has = counted(run.alloc, record.len(), "1 field", " fields")?;
    let want = digits_of(run.alloc, format.columns().len())?;
    let why = why(run, format, record, records)?;
    joined(
        run.alloc,
        &[
            has.as_str(),
            " where the header has ",
            want.as_str(),
            ": ",
            why.as_str(),
        ],
    )
}

/// Why a record has not as many fields.
fn why(
    run: &Run,
    format: Format,
    record: &Record,
    records: &Records,
) -> Result<String, OutOfMemory> {
    let text = without_line_end(records.text());
    let ends = line_ends(text);
    if ends == 0 {
        return why_in_line(run, format, record);
    }
    let line = records.place().line;
    if records.is_last() && is_unclosed(text) {
        return numbered(
            run.alloc,
            "a quotation mark that opens in line ",
            line,
            " isn't closed, so all up to the file's end is one record; close it, or write two where one is meant",
        );
    }
    numbered(
        run.alloc,
        "by its quotation marks the record goes on to line ",
        line.saturating_add(ends),
        "; see whether one is missing, and write two where one is meant",
    )
}

/// Whether a quotation mark in a text has no other one that closes it.
fn is_unclosed(text: &[u8]) -> bool {
    text.iter().filter(|byte| **byte == b'"').count() % 2 == 1
}

/// Why a record on one line has not as many fields.
fn why_in_line(run: &Run, format: Format, record: &Record) -> Result<String, OutOfMemory> {
    let want = format.columns().len();
    if record.len() == 1 {
        lone_field(run.alloc, record.field(0), want)
    } else if record.len() < want {
        too_few(run, format, record, want)
    } else {
        too_many(run, format, record, want)
    }
}

/// Why a record has one field.
fn lone_field(alloc: Global, field: &[u8], want: usize) -> Result<String, OutOfMemory> {
    if let Some(separator) = other_separator(field) {
        let parts = [
            "its fields are parted by ",
            separator,
            ", and commas are to part them",
        ];
        return joined(alloc, &parts);
    }
    if field.trim_ascii().is_empty() {
        return joined(alloc, &["a line of spaces is a record, too: delete it"]);
    }
    if field.starts_with(b"#") || field.starts_with(b"//") || field.starts_with(b"--") {
        let after = " is no record, and a file has no comments: delete the line";
        return around(alloc, "", field, after);
    }
    let missing = commas(
        alloc,
        want.saturating_sub(1),
        " missing, or delete the line",
    )?;
    let after = joined(alloc, &[" is no record: ", missing.as_str()])?;
    around(alloc, "", field, after.as_str())
}

/// What parts fields in place of commas, if a text has three of it.
pub(crate) fn other_separator(text: &[u8]) -> Option<&'static str> {
    const SEPARATORS: [(u8, &str); 3] = [(b';', "semicolons"), (b'\t', "tabs"), (b'|', "bars")];
    for (separator, words) in &SEPARATORS {
        if text.iter().filter(|byte| **byte == *separator).count() >= 3 {
            return Some(*words);
        }
    }
    None
}

/// The words for so many commas, of which something is said.
fn commas(alloc: Global, count: usize, said: &str) -> Result<String, OutOfMemory> {
    let are = counted(alloc, count, "a comma is", " commas are")?;
    joined(alloc, &[are.as_str(), said])
}

/// Why a record has too few fields.
fn too_few(run: &Run, format: Format, record: &Record, want: usize) -> Result<String, OutOfMemory> {
    const EMPTY: [&[u8]; 13] = [b""; 13];
    let missing = want.saturating_sub(record.len());
    let padding = EMPTY.get(..missing).unwrap_or(&EMPTY);
    if run.accepts_with(format, record, record.len(), record.len(), padding)? {
        return commas(run.alloc, missing, " missing at its end");
    }
    if missing == 1
        && let Some(title) = left_out(run, format, record)?
    {
        return joined(
            run.alloc,
            &[
                "a comma is missing for the column ",
                title,
                ", which has one also where it is empty",
            ],
        );
    }
    let said = " missing; a field that is empty has its comma, too";
    commas(run.alloc, missing, said)
}

/// The column whose comma is missing, if an empty field there is all that a record lacks.
fn left_out(
    run: &Run,
    format: Format,
    record: &Record,
) -> Result<Option<&'static str>, OutOfMemory> {
    for place in 0..record.len() {
        if run.accepts_with(format, record, place, place, &[b""])? {
            return Ok(Some(format.title_at(place)));
        }
    }
    Ok(None)
}

/// Why a record has too many fields.
fn too_many(
    run: &Run,
    format: Format,
    record: &Record,
    want: usize,
) -> Result<String, OutOfMemory> {
    let more = record.len().saturating_sub(want);
    if run.accepts_with(format, record, want, record.len(), &[])? {
        return behind_the_last(run.alloc, format, record, want, more);
    }
    if format == Format::Carry && Column::Command.has_word(record.field(0)) {
        return around(
            run.alloc,
            "",
            record.field(0),
            " is a command, as the records of an order file have: those of a carry file begin with the security",
        );
    }
    match split_field(run, format, record, want)? {
        Some(words) => Ok(words),
        None => many(
            run.alloc,
            more,
            " too many; a field that has a comma stands in quotation marks",
        ),
    }
}

/// The words for so many commas that are too many.
fn many(alloc: Global, count: usize, said: &str) -> Result<String, OutOfMemory> {
    let are = counted(alloc, count, "a comma", " commas")?;
    joined(alloc, &[are.as_str(), said])
}

/// The words for fields behind those of the columns, which have no mistake.
fn behind_the_last(
    alloc: Global,
    format: Format,
    record: &Record,
    want: usize,
    more: usize,
) -> Result<String, OutOfMemory> {
    let first = record.field(want);
    if first.is_empty() {
        let said = if more == 1 && format == Format::First {
            " too many at its end, or the header is to end in ,text as that of version 2 does"
        } else {
            " too many at its end"
        };
        return many(alloc, more, said);
    }
    let (before, after) = match format {
        Format::First => {
            (
                "",
                " has no column; for free texts the header ends in ,text and each record has one",
            )
        }
        Format::Second => (
            "the text has a comma before ",
            ": put the whole text in quotation marks",
        ),
        Format::Carry => ("", " has no column"),
    };
    around(alloc, before, first, after)
}

/// The words for a field that a comma splits, or for an empty one that is one too many.
fn split_field(
    run: &Run,
    format: Format,
    record: &Record,
    want: usize,
) -> Result<Option<String>, OutOfMemory> {
    let more = record.len().saturating_sub(want);
    let number = match more {
        1 => split_number(run, format, record)?,
        2 => split_numbers(run, format, record)?,
        _ => None,
    };
    if number.is_some() {
        return Ok(number);
    }
    let last = want.saturating_sub(1);
    if format == Format::Second && run.accepts_with(format, record, last, record.len(), &[b""])? {
        let before = "the text that begins with ";
        let after = " has a comma: put it in quotation marks";
        return Ok(Some(around(run.alloc, before, record.field(last), after)?));
    }
    match more {
        1 => empty_too_many(run, format, record),
        _ => Ok(None),
    }
}

/// The words for a number that a comma splits, for its decimals or its thousands.
fn split_number(run: &Run, format: Format, record: &Record) -> Result<Option<String>, OutOfMemory> {
    for by in [b".".as_slice(), b"".as_slice()] {
        for place in 0..record.len() {
            if let Some(words) = split_at(run, format, record, place, by)? {
                return Ok(Some(words));
            }
        }
    }
    Ok(None)
}

/// The words for a number that a comma splits at a place, if it may stand there with a text in place of the comma.
fn split_at(
    run: &Run,
    format: Format,
    record: &Record,
    place: usize,
    by: &[u8],
) -> Result<Option<String>, OutOfMemory> {
    let behind = place.saturating_add(1);
    let (left, right) = (record.field(place), record.field(behind));
    if !is_number(left) || !is_number(right) {
        return Ok(None);
    }
    let whole = joined_bytes(run.alloc, &[left, by, right])?;
    let fields = [whole.as_slice()];
    if !run.accepts_with(format, record, place, behind.saturating_add(1), &fields)? {
        return Ok(None);
    }
    Ok(Some(split_words(run.alloc, left, right, whole.as_slice())?))
}

/// The words for two fields that are one number.
fn split_words(
    alloc: Global,
    left: &[u8],
    right: &[u8],
    whole: &[u8],
) -> Result<String, OutOfMemory> {
    let two = joined_bytes(alloc, &[left, b",", right])?;
    let before = joined(
        alloc,
        &[
            "the comma in ",
            plain(two.as_slice()),
            " parts two fields: write ",
        ],
    )?;
    let how = if whole.contains(&b'.') {
        ", a decimal point and no comma"
    } else {
        ", without a comma between its thousands"
    };
    joined(alloc, &[before.as_str(), plain(whole), how])
}

/// The words for two numbers with a decimal comma each.
fn split_numbers(
    run: &Run,
    format: Format,
    record: &Record,
) -> Result<Option<String>, OutOfMemory> {
    for place in 0..record.len() {
        if let Some(words) = split_twice(run, format, record, place)? {
            return Ok(Some(words));
        }
    }
    Ok(None)
}

/// The words for two numbers with a decimal comma each, of which the first begins at a place, if they may stand there with points.
fn split_twice(
    run: &Run,
    format: Format,
    record: &Record,
    place: usize,
) -> Result<Option<String>, OutOfMemory> {
    let next = place.saturating_add(1);
    if !is_number(record.field(place)) || !is_number(record.field(next)) {
        return Ok(None);
    }
    let first = with_point(run.alloc, record, place)?;
    let second = with_point(run.alloc, record, next.saturating_add(1))?;
    let both = [first.as_slice(), second.as_slice()];
    if !run.accepts_with(format, record, place, place.saturating_add(4), &both)? {
        return Ok(None);
    }
    let parts = [
        "decimal commas part fields: write ",
        plain(first.as_slice()),
        " and ",
        plain(second.as_slice()),
        ", with decimal points",
    ];
    Ok(Some(joined(run.alloc, &parts)?))
}

/// A field and the next one, with a point between them.
fn with_point(alloc: Global, record: &Record, place: usize) -> Result<Vec<u8>, OutOfMemory> {
    let next = place.saturating_add(1);
    joined_bytes(alloc, &[record.field(place), b".", record.field(next)])
}

/// Whether a text has digits alone, and points.
fn is_number(text: &[u8]) -> bool {
    !text.is_empty()
        && text
            .iter()
            .all(|byte| byte.is_ascii_digit() || *byte == b'.')
}

/// The words for an empty field that is one too many.
fn empty_too_many(
    run: &Run,
    format: Format,
    record: &Record,
) -> Result<Option<String>, OutOfMemory> {
    for place in 0..record.len() {
        if record.field(place).is_empty()
            && run.accepts_with(format, record, place, place.saturating_add(1), &[])?
        {
            let parts = ["a comma is too many at the column ", format.title_at(place)];
            return Ok(Some(joined(run.alloc, &parts)?));
        }
    }
    Ok(None)
}
