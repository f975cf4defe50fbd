//! The mistakes of a file of CSV, one record after the other.
use crate::columns::Format;
use crate::counts::count_words;
use crate::fields::field_words;
use crate::records::{Place, Records};
use crate::run::{Record, Run};
use crate::titles::{Opening, Then, is_header, no_record, opening_words};
use csv::ByteRecord;
use std::alloc::Global;
use std::mem;
use xm_files::{FileCause, FileFault, MAX_BYTES, MAX_ROWS};
use xm_memory::OutOfMemory;
use xm_mistakes::{Mistake, around, behind, joined, numbered, other_file, shown, without_zeros};
use xm_rules::MAX_CARRIED;

/// A walk over the mistaken records of a file. Each mistake is the first fault of the file without the records that were told before.
#[derive(Drop)]
struct Walk<'a> {
    alloc: Global,
    text: &'a [u8],
    records: Records<'a>,
    format: Format,
    /// The text without the records that were told.
    kept: Vec<u8>,
    /// How many records less than the file that text has.
    left_out: i64,
    found: Vec<Mistake>,
}

/// What comes after a mistake.
#[derive(Clone, Copy, PartialEq, Eq)]
enum Next {
    /// Other records are judged.
    Goes,
    /// No other record can be judged.
    Ends,
}

/// The mistakes of a file that has a first fault: that one, and others up to some number.
pub(crate) fn csv_mistakes(
    run: &Run,
    text: &[u8],
    first: FileFault,
    most: usize,
) -> Result<Vec<Mistake>, OutOfMemory> {
    let format = format_of(run, text)?;
    let mut walk = Walk {
        alloc: run.alloc,
        text,
        records: Records::of(run.alloc, text),
        format,
        kept: Vec::new(run.alloc),
        left_out: 0,
        found: Vec::new(run.alloc),
    };
    walk.tell_all(run, first, most)?;
    Ok(mem::replace(&mut walk.found, Vec::new(run.alloc)))
}

/// The format that the header of a text says, and of one without a header that of version 1.
fn format_of(run: &Run, text: &[u8]) -> Result<Format, OutOfMemory> {
    if run.is_carry() {
        return Ok(Format::Carry);
    }
    let mut records = Records::of(run.alloc, text);
    let is_second = begins_second(run.alloc, &mut records)?;
    Ok(if is_second {
        Format::Second
    } else {
        Format::First
    })
}

/// Whether the first of some records is the header of version 2.
fn begins_second(alloc: Global, records: &mut Records) -> Result<bool, OutOfMemory> {
    if !records.next()? {
        return Ok(false);
    }
    let record = Record::of_row(alloc, records.row())?;
    Ok(is_header(Format::Second, &record))
}

impl Walk<'_> {
    /// Tells a fault, and those of the text that is then kept, up to some number.
    fn tell_all(&mut self, run: &Run, first: FileFault, most: usize) -> Result<(), OutOfMemory> {
        if self.text.len() <= MAX_BYTES {
            self.kept.extend_from_slice(self.text)?;
        }
        let mut fault = first;
        for _ in 0..most {
            if self.tell(run, &fault)? == Next::Ends || self.found.len() >= most {
                break;
            }
            match run.fault(self.kept.as_slice()) {
                Ok(Some(next)) => fault = next,
                Ok(None) => break,
                Err(wanting) => return Err(wanting),
            }
        }
        Ok(())
    }

    /// Tells a fault of the text that is kept, and leaves its record out from then on.
    fn tell(&mut self, run: &Run, fault: &FileFault) -> Result<Next, OutOfMemory> {
        if fault.line == 0 {
            let words = whole_words(run)?;
            self.push(fault, words)?;
            return Ok(Next::Ends);
        }
        let line = number_of(fault.line, self.left_out);
        let fault = FileFault {
            line,
            cause: fault.cause,
        };
        if !self.records.go_to(line)? {
            let words = no_record(self.alloc, self.format)?;
            self.push(&fault, words)?;
            return Ok(Next::Ends);
        }
        match &fault.cause {
            FileCause::BadHeader => return self.tell_header(run, &fault),
            FileCause::Syntax => self.tell_count(run, &fault)?,
            FileCause::DuplicateName => self.tell_name(&fault)?,
            FileCause::TooManyRows => {
                self.tell_limit(run, &fault)?;
                return Ok(Next::Ends);
            }
            _ => self.tell_fields(run, &fault)?,
        }
        self.leave_out()?;
        Ok(Next::Goes)
    }

    /// Adds a mistake in these words.
    fn push(&mut self, fault: &FileFault, words: String) -> Result<(), OutOfMemory> {
        self.found.push(Mistake {
            fault: *fault,
            words,
        })?;
        Ok(())
    }

    /// Adds a mistake of the record that was read last.
    fn push_located(
        &mut self,
        fault: &FileFault,
        mark: &str,
        words: &str,
    ) -> Result<(), OutOfMemory> {
        let mut told = self.records.location(self.alloc)?;
        told.push_str(mark)?;
        told.push_str(words)?;
        self.push(fault, told)
    }

    /// The fields of the record that was read last.
    fn record(&self) -> Result<Record, OutOfMemory> {
        Record::of_row(self.alloc, self.records.row())
    }

    /// Tells that the first record is no header.
    fn tell_header(&mut self, run: &Run, fault: &FileFault) -> Result<Next, OutOfMemory> {
        if let Some(words) = other_file(self.text) {
            let words = String::from_str(self.alloc, words)?;
            self.push(fault, words)?;
            return Ok(Next::Ends);
        }
        let record = self.record()?;
        let Opening { words, then } = opening_words(run, self.records.text(), &record)?;
        self.push_located(fault, ": ", words.as_str())?;
        let place = self.records.place();
        match then {
            Then::Stop => Ok(Next::Ends),
            Then::Under(format) => {
                self.begin(format, place.end)?;
                Ok(Next::Goes)
            }
            Then::Behind(format) => {
                self.left_out = -1;
                self.begin(format, place.start)?;
                Ok(Next::Goes)
            }
        }
    }

    /// Keeps the text from a place on, under the header of a format.
    fn begin(&mut self, format: Format, from: usize) -> Result<(), OutOfMemory> {
        let header = format.header();
        self.format = format;
        self.kept.clear();
        self.kept.extend_from_slice(header.as_bytes())?;
        self.kept.push(b'\n')?;
        self.kept.extend_from_slice(behind(self.text, from))?;
        Ok(())
    }

    /// Tells that a record has not as many fields as the header.
    fn tell_count(&mut self, run: &Run, fault: &FileFault) -> Result<(), OutOfMemory> {
        let words = count_words(run, self.format, &self.records)?;
        self.push_located(fault, ": ", words.as_str())
    }

    /// Tells which fields of a record may not stand where they do.
    fn tell_fields(&mut self, run: &Run, fault: &FileFault) -> Result<(), OutOfMemory> {
        let record = self.record()?;
        if is_header(self.format, &record) {
            return self.push_located(
                fault,
                ": ",
                "the header stands here again: of files that are put together only the first keeps it, or each is given by itself",
            );
        }
        let words = field_words(run, self.format, &record)?;
        if words.is_empty() {
            return self.push_located(fault, ": ", "this is no record of such a file");
        }
        for one in words.as_slice() {
            self.push_located(fault, ", ", one.as_str())?;
        }
        Ok(())
    }

    /// Tells that there are too many rows, or orders and stops of a security.
    fn tell_limit(&mut self, run: &Run, fault: &FileFault) -> Result<(), OutOfMemory> {
        let words = if run.is_carry() {
            numbered(
                self.alloc,
                "its security has ",
                MAX_CARRIED,
                " orders and stops already, which is the most",
            )?
        } else {
            numbered(
                self.alloc,
                "with it the file has more than ",
                MAX_ROWS,
                " rows, of which a record with * has one for each security: cut the file before it into two order files, each with the header",
            )?
        };
        self.push_located(fault, ": ", words.as_str())
    }

    /// Tells that a record of a carry file has the security, the member and the reference of an earlier one.
    fn tell_name(&mut self, fault: &FileFault) -> Result<(), OutOfMemory> {
        let record = self.record()?;
        let earlier = earlier_words(self.alloc, self.text, &record, fault.line)?;
        let words = name_words(self.alloc, &record, earlier.as_str())?;
        self.push_located(fault, ", ", words.as_str())
    }

    /// Leaves the record that was read last out of the text that is kept.
    fn leave_out(&mut self) -> Result<(), OutOfMemory> {
        let place = self.records.place();
        let from_it = self.text.len().saturating_sub(place.start);
        let before_it = self.kept.len().saturating_sub(from_it);
        self.kept.truncate(before_it);
        self.kept.extend_from_slice(behind(self.text, place.end))?;
        self.left_out = self.left_out.saturating_add(1);
        Ok(())
    }
}

/// The number that a record has in the file, by that in a text with so many records less.
fn number_of(line: u32, left_out: i64) -> u32 {
    u32::try_from(i64::from(line).saturating_add(left_out)).unwrap_or(u32::MAX)
}

/// The words for a file that is too long.
fn whole_words(run: &Run) -> Result<String, OutOfMemory> {
    let after = if run.is_carry() {
        " bytes, which is the most that a carry file may have"
    } else {
        " bytes: cut it into several order files, each with the header"
    };
    numbered(run.alloc, "the file has more than ", MAX_BYTES, after)
}

/// The words for a record of a carry file that has the name of an earlier one, which stands where words say.
fn name_words(alloc: Global, record: &Record, earlier: &str) -> Result<String, OutOfMemory> {
    let (security, member) = (
        shown(alloc, record.field(0))?,
        shown(alloc, record.field(1))?,
    );
    let before = [
        "column reference: member ",
        member.as_str(),
        " has an order or a stop with the reference ",
    ];
    let before = joined(alloc, &before)?;
    let after = joined(alloc, &[" in ", security.as_str(), " already", earlier])?;
    around(alloc, before.as_str(), record.field(2), after.as_str())
}

/// The words for the place of the first record with the security, the member and the reference of another one, if it comes before that
/// one's number.
fn earlier_words(
    alloc: Global,
    text: &[u8],
    record: &Record,
    number: u32,
) -> Result<String, OutOfMemory> {
    match same_name(alloc, text, record, number)? {
        Some(place) => {
            let after = numbered(alloc, " (record ", place.number as usize, ")")?;
            numbered(alloc, " in line ", place.line, after.as_str())
        }
        None => Ok(String::new(alloc)),
    }
}

/// Where the first record stands with the security, the member and the reference of another one, if it comes before that one's number.
fn same_name(
    alloc: Global,
    text: &[u8],
    record: &Record,
    number: u32,
) -> Result<Option<Place>, OutOfMemory> {
    let mut records = Records::of(alloc, text);
    first_with_name(&mut records, record, number)
}

/// Where the first of some records stands that has the name of another one, if it comes before that one's number.
fn first_with_name(
    records: &mut Records,
    record: &Record,
    number: u32,
) -> Result<Option<Place>, OutOfMemory> {
    for _ in 1..number {
        if !records.next()? {
            break;
        }
        if has_name(records.row(), record) {
            return Ok(Some(records.place()));
        }
    }
    Ok(None)
}

/// Whether a record that CSV read has the security, the member and the reference of another one.
fn has_name(row: &ByteRecord, record: &Record) -> bool {
    row.get(0) == Some(record.field(0))
        && row.get(1) == Some(record.field(1))
        && same_number(row.get(2).unwrap_or(&[]), record.field(2))
}

/// Whether two numbers are the same, but for zeros before them.
fn same_number(left: &[u8], right: &[u8]) -> bool {
    without_zeros(left) == without_zeros(right)
}
