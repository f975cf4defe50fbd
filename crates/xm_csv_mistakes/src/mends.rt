//! What a field was meant to be: texts near to the one found, of which the run takes the first that may stand there.
use crate::columns::Column;
use crate::run::Run;
use crate::templates::Templates;
use crate::words_near::nearest_text;
use std::alloc::Global;
use xm_memory::OutOfMemory;
use xm_mistakes::{WAYS, Way, trimmed};

/// Words that other programs use for those of a column.
const SYNONYMS: [(Column, &[u8], &[u8]); 49] = [
    (Column::Command, b"new", b"enter"),
    (Column::Command, b"order", b"enter"),
    (Column::Command, b"insert", b"enter"),
    (Column::Command, b"add", b"enter"),
    (Column::Command, b"submit", b"enter"),
    (Column::Command, b"modify", b"change"),
    (Column::Command, b"amend", b"change"),
    (Column::Command, b"replace", b"change"),
    (Column::Command, b"update", b"change"),
    (Column::Command, b"delete", b"cancel"),
    (Column::Command, b"remove", b"cancel"),
    (Column::Command, b"mass-cancel", b"cancel-all"),
    (Column::Command, b"delete-all", b"cancel-all"),
    (Column::Command, b"opening", b"open"),
    (Column::Command, b"closing", b"close"),
    (Column::Command, b"auction", b"intraday"),
    (Column::Command, b"match", b"uncross"),
    (Column::Side, b"b", b"buy"),
    (Column::Side, b"bid", b"buy"),
    (Column::Side, b"bought", b"buy"),
    (Column::Side, b"1", b"buy"),
    (Column::Side, b"s", b"sell"),
    (Column::Side, b"ask", b"sell"),
    (Column::Side, b"offer", b"sell"),
    (Column::Side, b"sold", b"sell"),
    (Column::Side, b"sale", b"sell"),
    (Column::Side, b"2", b"sell"),
    (Column::Kind, b"lmt", b"limit"),
    (Column::Kind, b"lim", b"limit"),
    (Column::Kind, b"mkt", b"market"),
    (Column::Kind, b"stop", b"stop-market"),
    (Column::Kind, b"stop-loss", b"stop-market"),
    (Column::Validity, b"gfd", b"day"),
    (Column::Validity, b"today", b"day"),
    (Column::Validity, b"good-for-day", b"day"),
    (Column::Validity, b"good-till-cancelled", b"gtc"),
    (Column::Validity, b"good-till-canceled", b"gtc"),
    (Column::Restriction, b"none", b"free"),
    (Column::Restriction, b"opening-only", b"opening"),
    (Column::Restriction, b"auctions-only", b"auctions"),
    (Column::Restriction, b"closing-only", b"closing"),
    (Column::Restriction, b"open", b"opening"),
    (Column::Restriction, b"close", b"closing"),
    (Column::Restriction, b"auction", b"auctions"),
    (Column::Condition, b"none", b"plain"),
    (Column::Condition, b"immediate-or-cancel", b"ioc"),
    (Column::Condition, b"fill-or-kill", b"fok"),
    (Column::Condition, b"book-or-cancel", b"boc"),
    (Column::Condition, b"post-only", b"boc"),
];

/// What a text was meant to be.
#[derive(Drop)]
pub(crate) struct Mend {
    /// What is to be written in its place.
    pub(crate) text: Vec<u8>,
    /// In which way it differs.
    pub(crate) how: &'static str,
}

/// What the text of a field at a place was meant to be, as far as one of the ways tells, or a word that is near.
pub(crate) fn find_mend(
    run: &Run,
    templates: &Templates,
    place: usize,
    column: Column,
    text: &[u8],
) -> Result<Option<Mend>, OutOfMemory> {
    for way in &WAYS {
        if let Some(mend) = written(run, templates, place, text, *way)? {
            return Ok(Some(mend));
        }
    }
    let trimmed = trimmed(text);
    let word = synonym(run.alloc, column, trimmed)?;
    let how = "the word for it here";
    if let Some(mend) = tried(run, templates, place, text, word, how)? {
        return Ok(Some(mend));
    }
    let word = nearest_text(run, column, trimmed)?;
    tried(
        run,
        templates,
        place,
        text,
        word.as_bytes(),
        "the nearest word",
    )
}

/// A text, written in a way, if it may then stand at a place.
fn written(
    run: &Run,
    templates: &Templates,
    place: usize,
    text: &[u8],
    way: Way,
) -> Result<Option<Mend>, OutOfMemory> {
    let other = way.applied(run.alloc, text)?;
    tried(run, templates, place, text, other.as_slice(), way.words())
}

/// A text other than the one found, if it may stand at a place.
fn tried(
    run: &Run,
    templates: &Templates,
    place: usize,
    text: &[u8],
    other: &[u8],
    how: &'static str,
) -> Result<Option<Mend>, OutOfMemory> {
    if other.is_empty() || other == text || !templates.accept(run, place, other)? {
        return Ok(None);
    }
    let text = Vec::from_slice(run.alloc, other)?;
    Ok(Some(Mend { text, how }))
}

/// The word of a column for which other programs have this one, and nothing where it is none.
fn synonym(alloc: Global, column: Column, text: &[u8]) -> Result<&'static [u8], OutOfMemory> {
    let word = hyphened(alloc, text)?;
    Ok(word_for(column, word.as_slice()))
}

/// A text in small letters, with hyphens between its words.
fn hyphened(alloc: Global, text: &[u8]) -> Result<Vec<u8>, OutOfMemory> {
    let mut word = Vec::new(alloc);
    for byte in text {
        let hyphen = *byte == b'_' || *byte == b' ';
        word.push(if hyphen {
            b'-'
        } else {
            byte.to_ascii_lowercase()
        })?;
    }
    Ok(word)
}

/// The word of a column for another one, and nothing where it is none.
fn word_for(column: Column, word: &[u8]) -> &'static [u8] {
    for (of, other, meant) in &SYNONYMS {
        if *of == column && *other == word {
            return *meant;
        }
    }
    &[]
}
