//! Files that don't begin with their header.
use crate::columns::Format;
use crate::counts::other_separator;
use crate::run::{Record, Run};
use crate::words_near::nearest_title;
use std::alloc::Global;
use xm_memory::OutOfMemory;
use xm_mistakes::{digits_of, joined, ordinal, shown, unquoted};

/// What stands where the header should.
#[derive(Drop)]
pub(crate) struct Opening {
    pub(crate) words: String,
    /// How the records behind it can be judged.
    pub(crate) then: Then,
}

/// How records are judged whose header is mistaken.
#[derive(Clone, Copy, PartialEq, Eq)]
pub(crate) enum Then {
    /// Not at all.
    Stop,
    /// As if the header of a format stood in its place.
    Under(Format),
    /// As if the header of a format stood before it.
    Behind(Format),
}

/// Headers of other files of the product, by how they begin.
const OTHER_HEADERS: [(&[u8], &str); 6] = [
    (
        b"record,security,answer,",
        "of the answers that --answers writes",
    ),
    (
        b"record,security,sweep,",
        "of the trades that --trades writes",
    ),
    (
        b"record,security,event,",
        "of the events that --events writes",
    ),
    (
        b"record,security,side,rank,",
        "of the levels that --depth writes",
    ),
    (b"security,member,reference,", "of a carry file"),
    (b"command,member,reference,", "of an order file"),
];

/// Whether a file begins as a segment file does.
fn is_segment(text: &[u8]) -> bool {
    const BEGINS: [&[u8]; 6] = [
        b"date =",
        b"date=",
        b"members =",
        b"members=",
        b"[[security",
        b"#",
    ];
    BEGINS.iter().any(|begin| text.starts_with(*begin))
}

/// The words for a file without a record.
pub(crate) fn no_record(alloc: Global, format: Format) -> Result<String, OutOfMemory> {
    let begin = "the file is empty, and its first line is to be the header: ";
    joined(alloc, &[begin, format.header()])
}

/// What is wrong with the first record of a file, which is no header.
pub(crate) fn opening_words(
    run: &Run,
    text: &[u8],
    record: &Record,
) -> Result<Opening, OutOfMemory> {
    if let Some(separator) = other_separator(record.field(0)) {
        let begin = "the header's titles are parted by ";
        let end = ", and commas are to part them, here and in each record";
        return told(run.alloc, &[begin, separator, end], Then::Stop);
    }
    if is_segment(text) {
        let words = "this is the line of a segment file, which comes before the others";
        return told(run.alloc, &[words], Then::Stop);
    }
    if let Some(other) = other_header(run, text) {
        let header = first_format(run).header();
        let parts = [
            "this is the header ",
            other,
            ", and the header to be read is ",
            header,
        ];
        return told(run.alloc, &parts, Then::Stop);
    }
    match row_format(run, record)? {
        Some(format) => {
            let begin =
                "the header is missing, and this is a record already: write this line before it: ";
            told(run.alloc, &[begin, format.header()], Then::Behind(format))
        }
        None => difference(run.alloc, meant(run, record)?, record),
    }
}

/// What is told of a first record in these words.
fn told(alloc: Global, words: &[&str], then: Then) -> Result<Opening, OutOfMemory> {
    Ok(Opening {
        words: joined(alloc, words)?,
        then,
    })
}

/// The format of a file that a run reads, and the first one of order files.
fn first_format(run: &Run) -> Format {
    if run.is_carry() {
        Format::Carry
    } else {
        Format::First
    }
}

/// The format whose header a record was meant to be.
fn meant(run: &Run, record: &Record) -> Result<Format, OutOfMemory> {
    let first = first_format(run);
    if run.is_carry() || record.len() <= first.columns().len() {
        return Ok(first);
    }
    if has_titles(record, first) && !ends_with_text(run.alloc, record)? {
        Ok(first)
    } else {
        Ok(Format::Second)
    }
}

/// Whether a record is the header of a format.
pub(crate) fn is_header(format: Format, record: &Record) -> bool {
    record.len() == format.columns().len() && has_titles(record, format)
}

/// Whether a record begins with the titles of a format.
fn has_titles(record: &Record, format: Format) -> bool {
    first_difference(record, format).is_none()
}

/// The first place where a record has not the title of a format.
fn first_difference(record: &Record, format: Format) -> Option<usize> {
    (0..format.columns().len()).find(|place| record.field(*place)
        != format.title_at(*place).as_bytes())
}

/// Whether the field behind those of version 1 was meant to be the title of the text.
fn ends_with_text(alloc: Global, record: &Record) -> Result<bool, OutOfMemory> {
    let field = record.field(Format::First.columns().len()).trim_ascii();
    let lower = field.to_ascii_lowercase(alloc)?;
    Ok(nearest_title(alloc, Format::Second, lower.as_slice())? == "text")
}

/// The words for the header of another file.
fn other_header(run: &Run, text: &[u8]) -> Option<&'static str> {
    let own: &[u8] = if run.is_carry() {
        b"security,member,reference,"
    } else {
        b"command,member,reference,"
    };
    for (begin, words) in &OTHER_HEADERS {
        if *begin != own && text.starts_with(*begin) {
            return Some(*words);
        }
    }
    None
}

/// The format of which a record is one already.
fn row_format(run: &Run, record: &Record) -> Result<Option<Format>, OutOfMemory> {
    let formats: &[Format] = if run.is_carry() {
        &[Format::Carry]
    } else {
        &[Format::First, Format::Second]
    };
    for format in formats {
        if run.accepts(*format, record)? {
            return Ok(Some(*format));
        }
    }
    Ok(None)
}

/// What is told of a header in which a title differs from that of a format's, or which has too many.
fn difference(alloc: Global, format: Format, record: &Record) -> Result<Opening, OutOfMemory> {
    let (has, want) = (record.len(), format.columns().len());
    let Some(place) = first_difference(record, format) else {
        return too_many(alloc, record, want);
    };
    let title = format.title_at(place);
    if place >= has {
        return ends_early(alloc, place, title);
    }
    let fault = title_fault(alloc, format, record.field(place), title)?;
    let then = if fault != TitleFault::Elsewhere && has == want {
        Then::Under(format)
    } else {
        Then::Stop
    };
    let begin = title_words(alloc, place, record.field(place), title)?;
    let end = joined(alloc, &[fault.words(), fault.header(format)])?;
    told(alloc, &[begin.as_str(), end.as_str()], then)
}

/// What is told of a header that ends before the title at a place.
fn ends_early(alloc: Global, place: usize, title: &str) -> Result<Opening, OutOfMemory> {
    let which = ordinal(alloc, place)?;
    let parts = [
        "the header ends before its ",
        which.as_str(),
        " field, ",
        title,
    ];
    told(alloc, &parts, Then::Stop)
}

/// The words for a field that is not the title there.
fn title_words(
    alloc: Global,
    place: usize,
    field: &[u8],
    title: &str,
) -> Result<String, OutOfMemory> {
    let (which, text) = (ordinal(alloc, place)?, shown(alloc, field)?);
    let parts = [
        "the header's ",
        which.as_str(),
        " field is ",
        text.as_str(),
        " where ",
        title,
        " stands",
    ];
    joined(alloc, &parts)
}

/// What is told of a header with more fields than those that stand there.
fn too_many(alloc: Global, record: &Record, want: usize) -> Result<Opening, OutOfMemory> {
    let (has, stand) = (digits_of(alloc, record.len())?, digits_of(alloc, want)?);
    let more = shown(alloc, record.field(want))?;
    let parts = [
        "the header has ",
        has.as_str(),
        " fields where ",
        stand.as_str(),
        " stand: ",
        more.as_str(),
        " is too many",
    ];
    told(alloc, &parts, Then::Stop)
}

/// What is wrong with a field that is not the title there.
#[derive(Clone, Copy, PartialEq, Eq)]
enum TitleFault {
    /// It is the title, with spaces around it.
    Spaces,
    /// It is the title in quotation marks.
    Marks,
    /// It is the title in other letters.
    Letters,
    /// It is near to the title.
    Misspelt,
    /// It is near to no title.
    Unknown,
    /// It is near to the title of another column.
    Elsewhere,
}

impl TitleFault {
    /// The words for it.
    fn words(self) -> &'static str {
        match self {
            TitleFault::Spaces => ": leave out the spaces around it",
            TitleFault::Marks => ": leave out the marks around it",
            TitleFault::Letters => ": titles are in small letters",
            TitleFault::Misspelt => "",
            TitleFault::Unknown => "; the whole header is ",
            TitleFault::Elsewhere => {
                ": a column is missing before it, or they are in another order than "
            }
        }
    }

    /// The header of a format, where the words end with it, and else nothing.
    fn header(self, format: Format) -> &'static str {
        match self {
            TitleFault::Unknown | TitleFault::Elsewhere => format.header(),
            _ => "",
        }
    }
}

/// What is wrong with a field that is not the title there.
fn title_fault(
    alloc: Global,
    format: Format,
    field: &[u8],
    title: &str,
) -> Result<TitleFault, OutOfMemory> {
    let trimmed = field.trim_ascii();
    if trimmed == title.as_bytes() {
        return Ok(TitleFault::Spaces);
    }
    if unquoted(trimmed) == title.as_bytes() {
        return Ok(TitleFault::Marks);
    }
    let lower = trimmed.to_ascii_lowercase(alloc)?;
    fault_of_word(alloc, format, lower.as_slice(), title)
}

/// What is wrong with a word in small letters that stands where a title does.
fn fault_of_word(
    alloc: Global,
    format: Format,
    lower: &[u8],
    title: &str,
) -> Result<TitleFault, OutOfMemory> {
    if lower == title.as_bytes() {
        return Ok(TitleFault::Letters);
    }
    let nearest = nearest_title(alloc, format, lower)?;
    if nearest == title {
        Ok(TitleFault::Misspelt)
    } else if nearest.is_empty() {
        Ok(TitleFault::Unknown)
    } else {
        Ok(TitleFault::Elsewhere)
    }
}
