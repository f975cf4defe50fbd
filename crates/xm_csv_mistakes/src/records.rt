//! The records of a file of CSV, with the places where they stand in its text.
use csv::{ByteRecord, Reader, ReaderBuilder};
use std::alloc::Global;
use xm_memory::OutOfMemory;
use xm_mistakes::{
    behind, is_line_end, line_ends, numbered, out_of_memory, part, without_line_end,
};

/// A byte order mark, which is no part of the first record.
pub(crate) const BYTE_ORDER_MARK: &[u8] = b"\xEF\xBB\xBF";

/// The records of a text that CSV reads, one after the other.
#[derive(Drop)]
pub(crate) struct Records<'a> {
    text: &'a [u8],
    reader: Reader<&'a [u8]>,
    row: ByteRecord,
    place: Place,
}

/// Where a record stands.
#[derive(Clone, Copy)]
pub(crate) struct Place {
    /// Its number, the header being 1.
    pub(crate) number: u32,
    /// The line of the text in which it begins, counted from 1.
    pub(crate) line: usize,
    /// How many bytes come before it.
    pub(crate) start: usize,
    /// How many bytes come before what is behind its line end.
    pub(crate) end: usize,
}

impl<'a> Records<'a> {
    /// The records of a text, of which none is read yet.
    pub(crate) fn of(alloc: Global, text: &'a [u8]) -> Records<'a> {
        Records {
            text,
            reader: ReaderBuilder::new()
                .has_headers(false)
                .flexible(true)
                .from_reader(alloc, text),
            row: ByteRecord::new(alloc),
            place: Place {
                number: 0,
                line: 1,
                start: 0,
                end: 0,
            },
        }
    }

    /// Reads the next record. Answers whether there is one.
    pub(crate) fn next(&mut self) -> Result<bool, OutOfMemory> {
        match self.reader.read_byte_record(&mut self.row) {
            Ok(true) => {}
            Ok(false) => return Ok(false),
            Err(error) => return Err(out_of_memory(&error)),
        }
        let before = self.place;
        let start = begin_of(self.text, before.end);
        self.place = Place {
            number: before.number.saturating_add(1),
            line: before
                .line
                .saturating_add(line_ends(part(self.text, before.start, start))),
            start,
            end: end_of(&self.reader),
        };
        Ok(true)
    }

    /// Reads on to the record with this number. Answers whether there is one.
    pub(crate) fn go_to(&mut self, number: u32) -> Result<bool, OutOfMemory> {
        for _ in self.place.number..number {
            if !self.next()? {
                return Ok(false);
            }
        }
        Ok(self.place.number == number)
    }

    /// Where the record stands that was read last.
    pub(crate) fn place(&self) -> Place {
        self.place
    }

    /// Its fields.
    pub(crate) fn row(&self) -> &ByteRecord {
        &self.row
    }

    /// Its text, with the line end behind it.
    pub(crate) fn text(&self) -> &'a [u8] {
        part(self.text, self.place.start, self.place.end)
    }

    /// Whether nothing comes behind it.
    pub(crate) fn is_last(&self) -> bool {
        self.place.end >= self.text.len()
    }

    /// Its lines and its number, in words.
    pub(crate) fn location(&self, alloc: Global) -> Result<String, OutOfMemory> {
        let (line, number) = (self.place.line, self.place.number);
        let last = line.saturating_add(line_ends(without_line_end(self.text())));
        let record = numbered(alloc, " (record ", number as usize, ")")?;
        if last > line {
            let to = numbered(alloc, " to ", last, record.as_str())?;
            numbered(alloc, "lines ", line, to.as_str())
        } else {
            numbered(alloc, "line ", line, record.as_str())
        }
    }
}

/// Where the record begins that is read from a place on: behind the line ends there, and behind a byte order mark at the begin.
fn begin_of(text: &[u8], from: usize) -> usize {
    let mark = if from == 0 && text.starts_with(BYTE_ORDER_MARK) {
        BYTE_ORDER_MARK.len()
    } else {
        0
    };
    let from = from.saturating_add(mark);
    let blank = behind(text, from)
        .iter()
        .take_while(|byte| is_line_end(**byte))
        .count();
    from.saturating_add(blank)
}

/// How many bytes of a text were read.
fn end_of(reader: &Reader<&[u8]>) -> usize {
    reader.position().byte() as usize
}
