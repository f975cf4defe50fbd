//! The words of columns, and the names of a segment, that a text is nearest to.
use crate::columns::{Column, Format};
use crate::run::{Reading, Run};
use std::alloc::Global;
use xm_memory::OutOfMemory;
use xm_mistakes::Nearest;

/// The word of a column that is nearest to a text, or the name where the column of a carry file has names, and nothing where none is
/// near.
pub(crate) fn nearest_text<'n>(
    run: &Run<'n, '_>,
    column: Column,
    text: &[u8],
) -> Result<&'n str, OutOfMemory> {
    let Ok(text) = str::from_utf8(text) else {
        return Ok("");
    };
    match (&run.reading, column) {
        (Reading::Carry(_), Column::Member | Column::Security) => nearest_name(run, column, text),
        _ => nearest_word(run.alloc, column, text),
    }
}

/// The word of a column that is nearest to a text.
fn nearest_word(alloc: Global, column: Column, text: &str) -> Result<&'static str, OutOfMemory> {
    let lower = text.to_ascii_lowercase(alloc)?;
    let mut nearest = Nearest::to(alloc, lower.as_str());
    for word in column.words() {
        nearest.look(*word)?;
    }
    Ok(nearest.word())
}

/// The name of a member or a security that is nearest to a text.
fn nearest_name<'n>(run: &Run<'n, '_>, column: Column, text: &str) -> Result<&'n str, OutOfMemory> {
    let upper = text.to_ascii_uppercase(run.alloc)?;
    let mut nearest = Nearest::to(run.alloc, upper.as_str());
    let count = match column {
        Column::Member => run.names.members(),
        _ => run.names.securities(),
    };
    for index in 0..count {
        let name = match column {
            Column::Member => run.names.member(index),
            _ => run.names.security(index),
        };
        nearest.look(name.unwrap_or(""))?;
    }
    Ok(nearest.word())
}

/// The title of a column of a format that is nearest to a text, and nothing where none is near.
pub(crate) fn nearest_title(
    alloc: Global,
    format: Format,
    text: &[u8],
) -> Result<&'static str, OutOfMemory> {
    let Ok(text) = str::from_utf8(text) else {
        return Ok("");
    };
    let mut nearest = Nearest::to(alloc, text);
    for column in format.columns() {
        nearest.look(column.title())?;
    }
    Ok(nearest.word())
}
