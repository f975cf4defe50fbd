//! The fields of a record that may not stand where they do.
use crate::columns::{Column, Format};
use crate::mends::{Mend, find_mend};
use crate::run::{Record, Run};
use crate::templates::Templates;
use std::alloc::Global;
use xm_memory::OutOfMemory;
use xm_mistakes::{digits_of, is_line_end, joined, mended, numbered, plain, price_reason, shown};

/// A field of a record, under the header of a format.
#[derive(Clone, Copy)]
struct Field<'r> {
    record: &'r Record,
    format: Format,
    column: Column,
    place: usize,
}

impl<'r> Field<'r> {
    /// Its text.
    fn text(&self) -> &'r [u8] {
        self.record.field(self.place)
    }
}

/// The words for each field of a record that a run refuses, one after the other.
pub(crate) fn field_words(
    run: &Run,
    format: Format,
    record: &Record,
) -> Result<Vec<String>, OutOfMemory> {
    let mut words = Vec::new(run.alloc);
    let mut templates = Templates::of(run, format, record.field(0))?;
    let mut place = 0usize;
    for column in format.columns() {
        let field = Field {
            record,
            format,
            column: *column,
            place,
        };
        if !judge(run, &field, &mut templates, &mut words)? {
            break;
        }
        place = place.saturating_add(1);
    }
    Ok(words)
}

/// Adds the words for a field that a run refuses. Answers whether those behind it can be judged.
fn judge(
    run: &Run,
    field: &Field,
    templates: &mut Templates,
    words: &mut Vec<String>,
) -> Result<bool, OutOfMemory> {
    let (place, column) = (field.place, field.column);
    if templates.accept(run, place, field.text())? {
        templates.narrow(run, place, column, field.text())?;
        return Ok(true);
    }
    let mend = find_mend(run, templates, place, column, field.text())?;
    tell(run, field, templates, words, &mend)
}

/// Adds the words for a field that a run refuses, and takes it for what it was meant to be. Answers whether those behind it can be
/// judged.
fn tell(
    run: &Run,
    field: &Field,
    templates: &mut Templates,
    words: &mut Vec<String>,
    mend: &Option<Mend>,
) -> Result<bool, OutOfMemory> {
    words.push(refused(run, templates, field, mend)?)?;
    match mend {
        Some(mend) => {
            templates.narrow(run, field.place, field.column, mend.text.as_slice())?;
            Ok(true)
        }
        None => Ok(field.column != Column::Command),
    }
}

/// The words for a field that a run refuses, and for what it was meant to be, where that is known.
fn refused(
    run: &Run,
    templates: &Templates,
    field: &Field,
    mend: &Option<Mend>,
) -> Result<String, OutOfMemory> {
    if field.text().is_empty() {
        return needed(run.alloc, field);
    }
    if field.column == Column::Text {
        return too_long(run.alloc, field);
    }
    if templates.leave_empty(run, field.place)? {
        return superfluous(run.alloc, templates, field);
    }
    let why = reason(run, field)?;
    match mend {
        Some(mend) => {
            let write = mended(run.alloc, plain(mend.text.as_slice()), mend.how)?;
            about(run.alloc, field, &[" ", why.as_str(), write.as_str()])
        }
        None => {
            let more = more_words(run.alloc, field)?;
            about(run.alloc, field, &[" ", why.as_str(), more.as_str()])
        }
    }
}

/// The words for a field, of which something is said.
fn about(alloc: Global, field: &Field, said: &[&str]) -> Result<String, OutOfMemory> {
    let text = shown(alloc, field.text())?;
    let said = joined(alloc, said)?;
    let title = field.column.title();
    joined(
        alloc,
        &["column ", title, ": ", text.as_str(), said.as_str()],
    )
}

/// The words for a field where nothing may stand.
fn superfluous(alloc: Global, templates: &Templates, field: &Field) -> Result<String, OutOfMemory> {
    let subject = templates.subject(alloc)?;
    let title = field.column.title();
    let said = [
        " where nothing may stand: ",
        subject.as_str(),
        " has no ",
        title,
        ", so leave it empty",
    ];
    about(alloc, field, &said)
}

/// What words add where it isn't known what a field was meant to be.
fn more_words(alloc: Global, field: &Field) -> Result<String, OutOfMemory> {
    let (format, column) = (field.format, field.column);
    if has_line_end(field.text()) {
        return joined(alloc, &[QUOTED_LINE_END]);
    }
    if column.has_word(field.text()) || (format == Format::Carry && column.is_price()) {
        return Ok(String::new(alloc));
    }
    let lower = field.text().trim_ascii().to_ascii_lowercase(alloc)?;
    let may = column.may(format);
    match other_column(field, lower.as_slice()) {
        Some(other) => {
            let word = plain(lower.as_slice());
            joined(
                alloc,
                &[may, "; ", word, " may stand in column ", other.title()],
            )
        }
        None => joined(alloc, &[may]),
    }
}

/// Whether a text goes over lines.
fn has_line_end(text: &[u8]) -> bool {
    text.iter().any(|byte| is_line_end(*byte))
}

/// The words for a field that goes over lines.
const QUOTED_LINE_END: &str =
    "; by its quotation marks it goes over lines: see whether one is missing";

/// The words for an empty field that may not be empty.
fn needed(alloc: Global, field: &Field) -> Result<String, OutOfMemory> {
    if is_blank(field.record) {
        let commas = field.record.len().saturating_sub(1);
        return numbered(
            alloc,
            "a record of ",
            commas,
            " commas alone: delete its line",
        );
    }
    let need = field.column.need(field.format);
    joined(
        alloc,
        &["column ", field.column.title(), " is empty: ", need],
    )
}

/// Whether each field is empty.
fn is_blank(record: &Record) -> bool {
    (0..record.len()).all(|place| record.field(place).is_empty())
}

/// The words for a free text that has too many bytes.
fn too_long(alloc: Global, field: &Field) -> Result<String, OutOfMemory> {
    let count = digits_of(alloc, field.text().len())?;
    if has_line_end(field.text()) {
        let said = [
            " has ",
            count.as_str(),
            " bytes, and a text has 64 at most",
            QUOTED_LINE_END,
        ];
        about(alloc, field, &said)
    } else {
        let said = [
            " has ",
            count.as_str(),
            " bytes, and a text has 64 at most: shorten it",
        ];
        about(alloc, field, &said)
    }
}

/// Why a field is refused.
fn reason(run: &Run, field: &Field) -> Result<String, OutOfMemory> {
    let (format, column) = (field.format, field.column);
    if format == Format::Carry
        && column.is_price()
        && let Some(tick) = run.tick_of(field.record.field(0))
    {
        return price_reason(run.alloc, field.text(), tick);
    }
    let words = match column {
        Column::Condition if format == Format::First && column.has_word(field.text()) => {
            "is a condition of version 2 alone, whose header ends in ,text and whose records have one field more"
        }
        Column::Restriction if format == Format::Carry && column.has_word(field.text()) => {
            "may not stand for a stop, which is free"
        }
        _ => column.isnt(format),
    };
    joined(run.alloc, &[words])
}

/// Another column in which a text may stand.
fn other_column(field: &Field, text: &[u8]) -> Option<Column> {
    field
        .format
        .columns()
        .iter()
        .find(|other| **other != field.column && other.has_word(text))
        .copied()
}
