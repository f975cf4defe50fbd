//! The order file.
ghost use Rattle.std.specs.Prelude.{ℕ, ◌≡◌, ◌≢◌, ◌==◌, ◌+◌, ◌<◌, ◌≤◌, ◌∷◌, ◌++◌, List, [], length, map, true, false, OnOk, OnErr, IfOk, IfErr, IfSome, None, Some, Ok, Err, if◌then◌else◌};
ghost use Rattle.std.specs.Bool.{IsTrue, OnTrue, OnFalse};
ghost use Rattle.std.specs.List.{range_with_len};
ghost use Rattle.csv.specs.Records.{fields_of};
ghost use Rattle.xm_files.specs.Batches.{rows_from, rows_so_far, text_left};
ghost use Rattle.xm_files.specs.FileFaults.{is_from_outside, of_reading};
ghost use Rattle.xm_files.specs.Names.{NameLists};
ghost use Rattle.xm_files.specs.Orders.{IsHeaded, NoHeader, orders_of, records_in, rows_after, with_entry_rows, with_record, with_rows};
ghost use Rattle.xm_files.specs.Parts.{IsFull, IsRound, ends_before, is_so_far};
ghost use Rattle.xm_files.specs.Plain.{IsBehind, rest_of};
ghost use Rattle.xm_files.specs.Rows.{columns_of, command_in, entry_with, phase_entry, rows_of_entry, rows_of_record, texts_of};
ghost use Rattle.xm_files.specs.Unread.{csv_left, with_ahead};

use crate::batch::Batch;
use crate::bytes::{MAX_BYTES, read_whole};
use crate::columns::Column;
use crate::csv_records::CsvRecords;
use crate::entries::{RecordEntry, Word, cancel, cancel_all, change, enter, phase};
use crate::fields::MAX_TEXT;
use crate::file_faults::{FileCause, FileFault};
use crate::file_parts::{FileParts, LEAST_BESIDE};
use crate::headers::{csv_behind_header, header_line};
use crate::marks::Marks;
use crate::names::SegmentNames;
use crate::order_format::OrderFormat;
use crate::part::Part;
use crate::records::Fields;
use crate::wide::begin_wide;
use csv::ByteRecord;
use std::alloc::Global;
use std::io::Read;
use std::marker::Model;
use std::thread::Threads;
use xm_config::{Row, SecurityConfig, SegmentConfig};
use xm_memory::OutOfMemory;
use xm_rules::Command;

/// The most rows that an order file may stand for.
pub const MAX_ROWS: usize = 1_000_000;

/// How many rows are read at once where no part can be read beside others.
const ROWS_ALONE: usize = 32_768;

/// The most records that an order file without a fault has: its header takes eleven bytes at least for its twelve fields, and each other
/// record one.
pub const MAX_RECORDS: u32 = 16_777_206;

/// The most records that may come before an order file: those of 255 files without a fault.
pub const MAX_BEFORE: u32 = 4_278_187_530;

/// The highest number that the next record of an order file may have.
pub const MAX_LINES: u32 = 4_294_964_748;

/// Reads an order file: its rows, for the members and the securities with these names.
///
/// The file is CSV of at most 16,777,216 bytes, whose first record is the header. With `*` as its
/// security the row of a phase stands for one row per security, in index order. A name that isn't one
/// of `names` gives the number of names as its index, and a number that is no price gives the raw price
/// 0, so that the row is refused when it is taken. The first fault is answered, with the number of its
/// record, the header being 1.
pub fn read_rows<R: Read>(
    alloc: Global,
    reader: &mut R,
    names: &SegmentNames,
    config: &SegmentConfig,
) -> Result<Vec<Row>, FileFault>
    requires securities { length names.now.securities ≡ length config.now.securities }
    requires members { length names.now.members ≡ config.now.members }
    ensures read { IfOk result (λ rows. IfSome (R.remaining reader.old) (λ bytes. orders_of names.now config.now bytes ≡ Ok rows.items)) }
    ensures few { IfOk result (λ rows. length rows.items ≤ MAX_ROWS) }
    ensures fault { IfErr result (λ fault. OnFalse (is_from_outside fault.cause) (IfSome (R.remaining reader.old) (λ bytes. orders_of names.now config.now bytes ≡ Err fault))) }
    ensures outside { IfErr result (λ fault. OnTrue (is_from_outside fault.cause) (fault.line ≡ 0)) }
{
    let bytes = read_orders(alloc, reader)?;
    let mut batch = Batch::new(alloc);
    let part = Part::Rows(MAX_ROWS + 1);
    RowReader::of(bytes.as_slice(), 1).read(alloc, &mut batch, part, names, config)?;
    Ok(batch.into_rows())
}

/// The bytes of an order file, for a `RowReader`.
pub fn read_orders<R: Read>(alloc: Global, reader: &mut R) -> Result<Vec<u8>, FileFault>
    ensures bytes { IfOk result (λ read. IfSome (R.remaining reader.old) (λ bytes. read.items ≡ bytes)) }
    ensures short { IfOk result (λ read. length read.items ≤ MAX_BYTES) }
    ensures causes { IfErr result (λ fault. (fault.line ≡ 0) × IsTrue (of_reading fault.cause)) }
    ensures fault { IfErr result (λ fault. OnFalse (is_from_outside fault.cause) (IfSome (R.remaining reader.old) (λ bytes. (names : NameLists) (config : SegmentConfig) → orders_of names config bytes ≡ Err fault))) }
    ensures outside { IfErr result (λ fault. OnTrue (is_from_outside fault.cause) (fault.line ≡ 0)) }
{
    Ok(read_whole(alloc, reader)?)
}

/// What isn't read yet of an order file.
pub struct RowReader<'a> {
    // The whole text at first, and then what comes from the line feed before the next record on.
    left: &'a [u8],
    // The number of the next record, which is the header until that is read.
    line: u32,
    // The format of the records, once the header is read.
    format: Option<OrderFormat>,
    // From the first record on that is no line without quotes: what CSV reads, in place of the text and the number.
    csv: Option<CsvRecords<'a>>,
}

impl Drop for RowReader<'_> {
    fn drop(self) {
        let RowReader {
            left: _left,
            line: _line,
            format: _format,
            csv: _csv,
        } = self;
    }
}

impl<'a> Model for RowReader<'a> {
    ghost use Rattle.std.specs.Prelude.{◌≡◌, ◌+◌, ◌≤◌, length, None};
    ghost use Rattle.xm_files.specs.Batches.{RowsLeft, text_left};
    ghost use Rattle.xm_files.specs.FileFaults.{max_bytes};
    ghost use Rattle.xm_files.specs.Orders.{max_before, max_lines};
    ghost use Rattle.xm_files.specs.Unread.{left_of_either};

    ghost Value = { RowsLeft };

    ghost view = { λ r. left_of_either r.csv (text_left r.left.now r.format r.line) };

    ghost invariant = { λ r. record {
      begun : 1 ≤ r.line;
      unread : r.format ≡ None → (r.csv ≡ None) × (r.line ≤ max_before + 1) × (length r.left.now ≤ max_bytes);
      short : r.line + length r.left.now ≤ max_lines;
      within : (left_of_either r.csv (text_left r.left.now r.format r.line)).line ≤ max_lines;
    } };
}

impl<'a> RowReader<'a> {
    /// An order file of which nothing is read yet, whose header has this number: 1 where no file comes before it, and else one more than
    /// all files before it have records. The numbers of its records count on from there.
    pub fn of(text: &'a [u8], first: u32) -> RowReader<'a>
        requires short { length text.now ≤ MAX_BYTES }
        requires counted { 1 ≤ first }
        requires before { first ≤ MAX_BEFORE + 1 }
        ensures { result ≡ text_left text.now None first }
    {
        RowReader {
            left: text,
            line: first,
            format: None,
            csv: None,
        }
    }

    /// The number of the next record: behind the last one, that of the header of the file behind this one.
    pub fn line(&self) -> u32
        ensures { result ≡ self.now.line }
    {
        match &self.csv {
            Some(csv) => csv.line(),
            None => self.line,
        }
    }

    /// Reads a part on: until a batch has so many rows, or the rows of a round, or the file ends. Answers whether there may
    /// be more. Lines without quotes are taken apart in place; from the first record on that isn't such a line, CSV reads
    /// the file.
    ///
    /// It is written out where it is called, where the part is known, so that no row is asked for another kind of part.
    #[inline(always)]
    pub fn read(
        &mut self,
        alloc: Global,
        batch: &mut Batch,
        part: Part,
        names: &SegmentNames,
        config: &SegmentConfig,
    ) -> Result<bool, FileFault>
        ensures read { OnOk result (rows_from names.now config.now self.old (rows_so_far batch.old) ≡ rows_from names.now config.now self.new (rows_so_far batch.new)) }
        ensures ended { result ≡ Ok false → rows_from names.now config.now self.new (rows_so_far batch.new) ≡ Ok (rows_so_far batch.new) }
        ensures earlier { OnOk result (batch.new.earlier ≡ rows_so_far batch.old) }
        ensures few { OnOk result (length (rows_so_far batch.new) ≤ MAX_ROWS) }
        ensures full { result ≡ Ok true → IsFull part batch.new.rows }
        ensures round { part ≡ Part.Round → OnOk result (IsRound names.now config.now self.new batch.new) }
        ensures counted { OnOk result (self.new.line + length self.new.records ≡ self.old.line + length self.old.records) }
        ensures none { result ≡ Ok false → self.new.records ≡ [] }
        ensures further { result ≡ Ok true → self.old.line < self.new.line }
        ensures bounded { self.new.line ≤ MAX_LINES }
        ensures err { IfErr result (λ fault. fault.cause ≢ FileCause.OutOfMemory tt → rows_from names.now config.now self.old (rows_so_far batch.old) ≡ Err fault) }
        ensures memory { IfErr result (λ fault. OnTrue (is_from_outside fault.cause) (fault.line ≡ 0)) }
    {
        batch.begin();
        let format = match self.begin(alloc) {
            Ok(format) => format,
            Err(fault) => return Err(fault),
        };
        if let Some(csv) = &mut self.csv {
            let more = add_records(batch, csv, format, part, names, config)?;
            let _ = batch.total(); // What every batch keeps is known of one whose rows are counted.
            return Ok(more);
        }
        let left = add_lines(batch, self.left, format, self.line, part, names, config)?;
        if left.is_at_end {
            self.left = left.text;
            self.line = left.line;
            let _ = batch.total(); // What every batch keeps is known of one whose rows are counted.
            return Ok(true);
        }
        let more = self.begin_csv(alloc, batch, format, &left, part, names, config)?;
        let _ = batch.total(); // What every batch keeps is known of one whose rows are counted.
        Ok(more)
    }

    /// Reads the next rows as `read` does, with as many threads side by side as there are parts, so that only the time that it takes
    /// depends on them. Answers whether there may be more.
    ///
    /// Lines without quotes are read in parts. Where a part can't be read so, the batch ends before it; where that is the first,
    /// `read` goes on.
    pub fn read_in_parts<T: Threads + Sync>(
        &mut self,
        rt: &T,
        alloc: Global,
        batch: &mut Batch,
        parts: &mut FileParts,
        names: &SegmentNames,
        config: &SegmentConfig,
    ) -> Result<bool, FileFault>
        ensures read { OnOk result (rows_from names.now config.now self.old (rows_so_far batch.old) ≡ rows_from names.now config.now self.new (rows_so_far batch.new)) }
        ensures ended { result ≡ Ok false → rows_from names.now config.now self.new (rows_so_far batch.new) ≡ Ok (rows_so_far batch.new) }
        ensures earlier { OnOk result (batch.new.earlier ≡ rows_so_far batch.old) }
        ensures few { OnOk result (length (rows_so_far batch.new) ≤ MAX_ROWS) }
        ensures counted { OnOk result (self.new.line + length self.new.records ≡ self.old.line + length self.old.records) }
        ensures none { result ≡ Ok false → self.new.records ≡ [] }
        ensures further { result ≡ Ok true → self.old.line < self.new.line }
        ensures bounded { self.new.line ≤ MAX_LINES }
        ensures err { IfErr result (λ fault. fault.cause ≢ FileCause.OutOfMemory tt → rows_from names.now config.now self.old (rows_so_far batch.old) ≡ Err fault) }
        ensures memory { IfErr result (λ fault. OnTrue (is_from_outside fault.cause) (fault.line ≡ 0)) }
    {
        batch.begin();
        let format = match self.begin(alloc) {
            Ok(format) => format,
            Err(fault) => return Err(fault),
        };
        if self.read_beside(rt, batch, parts, format, names, config)? {
            let _ = batch.total(); // What every batch keeps is known of one whose rows are counted.
            return Ok(true);
        }
        self.read(alloc, batch, Part::Rows(ROWS_ALONE), names, config)
    }

    /// Reads the next parts side by side, where lines are read, and enough are left. Answers whether any rows were added.
    fn read_beside<T: Threads + Sync>(
        &mut self,
        rt: &T,
        batch: &mut Batch,
        parts: &mut FileParts,
        format: OrderFormat,
        names: &SegmentNames,
        config: &SegmentConfig,
    ) -> Result<bool, OutOfMemory>
        requires format { self.old.format ≡ Some format }
        requires empty { batch.old.rows ≡ [] }
        ensures read { OnOk result (rows_from names.now config.now self.old (rows_so_far batch.old) ≡ rows_from names.now config.now self.new (rows_so_far batch.new)) }
        ensures earlier { OnOk result (batch.new.earlier ≡ batch.old.earlier) }
        ensures none { result ≡ Ok false → batch.new.rows ≡ [] }
        ensures counted { OnOk result (self.new.line + length self.new.records ≡ self.old.line + length self.old.records) }
        ensures onward { self.old.line ≤ self.new.line }
        ensures further { result ≡ Ok true → self.old.line < self.new.line }
        ensures bounded { self.new.line ≤ MAX_LINES }
    {
        if self.csv.is_some() || self.left.len() < LEAST_BESIDE {
            return Ok(false);
        }
        let first = self.line;
        let rest = parts.read(rt, batch, self.left, format, first, names, config)?;
        let _ = batch.total(); // What every batch keeps is known of one whose rows are counted.
        self.left = rest.text;
        self.line = rest.line;
        Ok(first < rest.line)
    }

    /// The format of the records. The header, which says it, is read where it wasn't yet.
    fn begin(&mut self, alloc: Global) -> Result<OrderFormat, FileFault>
        ensures format { IfOk result (λ format. self.new.format ≡ Some format) }
        ensures read { OnOk result ((names : NameLists) (config : SegmentConfig) (rows : List Row) → rows_from names config self.old rows ≡ rows_from names config self.new rows) }
        ensures counted { OnOk result (self.new.line + length self.new.records ≡ self.old.line + length self.old.records) }
        ensures onward { self.old.line ≤ self.new.line }
        ensures bounded { self.new.line ≤ MAX_LINES }
        ensures err { IfErr result (λ fault. fault.cause ≢ FileCause.OutOfMemory tt → (names : NameLists) (config : SegmentConfig) (rows : List Row) → rows_from names config self.old rows ≡ Err fault) }
        ensures memory { IfErr result (λ fault. OnTrue (is_from_outside fault.cause) (fault.line ≡ 0)) }
    {
        match self.format {
            Some(format) => Ok(format),
            None => self.read_header(alloc),
        }
    }

    /// Reads the header, which says the format of the records.
    #[inline(never)]
    fn read_header(&mut self, alloc: Global) -> Result<OrderFormat, FileFault>
        requires { self.old.format ≡ None }
        ensures format { IfOk result (λ format. self.new.format ≡ Some format) }
        ensures headed { IfOk result (λ format. IsHeaded self.old.records format self.new.records) }
        ensures counted { OnOk result (self.new.line + length self.new.records ≡ self.old.line + length self.old.records) }
        ensures line { OnOk result (self.new.line ≡ self.old.line + 1) }
        ensures err { IfErr result (λ fault. fault.cause ≢ FileCause.OutOfMemory tt → NoHeader self.old.line self.old.records fault) }
        ensures kept { OnErr result (self.new ≡ self.old) }
        ensures memory { IfErr result (λ fault. OnTrue (is_from_outside fault.cause) (fault.line ≡ 0)) }
    {
        if let Some((format, left)) = header_line(self.left) {
            self.left = left;
            self.line += 1;
            self.format = Some(format);
            return Ok(format);
        }
        match csv_behind_header(alloc, self.left, self.line) {
            Ok((format, csv)) => {
                self.csv = Some(csv);
                self.format = Some(format);
                Ok(format)
            }
            Err(fault) => Err(fault),
        }
    }

    /// Reads a part on that lines begin, where CSV reads from here on, unless its first record is seen to have too many fields. It
    /// stands by itself, since what CSV reads with is large, and most files have no use for it.
    #[inline(never)]
    fn begin_csv(
        &mut self,
        alloc: Global,
        batch: &mut Batch,
        format: OrderFormat,
        left: &LinesLeft<'a>,
        part: Part,
        names: &SegmentNames,
        config: &SegmentConfig,
    ) -> Result<bool, FileFault>
        requires format { self.old.format ≡ Some format }
        requires begun { 1 ≤ left.now.line }
        requires short { left.now.line + length left.now.text.now ≤ MAX_LINES }
        requires so_far { is_so_far part batch.old.rows ≡ true }
        ensures read { OnOk result (rows_from names.now config.now (text_left left.now.text.now (Some format) left.now.line) (rows_so_far batch.old) ≡ rows_from names.now config.now self.new (rows_so_far batch.new)) }
        ensures ended { result ≡ Ok false → rows_from names.now config.now self.new (rows_so_far batch.new) ≡ Ok (rows_so_far batch.new) }
        ensures earlier { OnOk result (batch.new.earlier ≡ batch.old.earlier) }
        ensures full { result ≡ Ok true → IsFull part batch.new.rows }
        ensures round { part ≡ Part.Round → OnOk result (IsRound names.now config.now self.new batch.new) }
        ensures counted { OnOk result (self.new.line + length self.new.records ≡ left.now.line + length (records_in left.now.text.now)) }
        ensures none { result ≡ Ok false → self.new.records ≡ [] }
        ensures within { OnOk result (self.new.line ≤ MAX_LINES) }
        ensures onward { OnOk result (left.now.line ≤ self.new.line) }
        ensures further { result ≡ Ok true → length batch.old.rows ≡ 0 → left.now.line < self.new.line }
        ensures err { IfErr result (λ fault. fault.cause ≢ FileCause.OutOfMemory tt → rows_from names.now config.now (text_left left.now.text.now (Some format) left.now.line) (rows_so_far batch.old) ≡ Err fault) }
        ensures kept { OnErr result (self.new ≡ self.old) }
        ensures memory { IfErr result (λ fault. OnTrue (is_from_outside fault.cause) (fault.line ≡ 0)) }
    {
        if wide_record(left.text).is_some() {
            return Err(fault_at(left.line, FileCause::Syntax));
        }
        let mut csv = CsvRecords::of(alloc, left.text, left.line);
        match add_records(batch, &mut csv, format, part, names, config) {
            Ok(more) => {
                self.csv = Some(csv);
                Ok(more)
            }
            Err(fault) => Err(fault),
        }
    }
}

/// Adds the rows of the records that CSV reads, up to the end of a part that a batch begins or goes on. Answers whether there
/// may be more.
fn add_records(
    batch: &mut Batch,
    csv: &mut CsvRecords,
    format: OrderFormat,
    part: Part,
    names: &SegmentNames,
    config: &SegmentConfig,
) -> Result<bool, FileFault>
    requires { is_so_far part batch.old.rows ≡ true }
    ensures read { OnOk result (rows_from names.now config.now (csv_left (Some format) csv.old) (rows_so_far batch.old) ≡ rows_from names.now config.now (csv_left (Some format) csv.new) (rows_so_far batch.new)) }
    ensures ended { result ≡ Ok false → rows_from names.now config.now (csv_left (Some format) csv.new) (rows_so_far batch.new) ≡ Ok (rows_so_far batch.new) }
    ensures earlier { OnOk result (batch.new.earlier ≡ batch.old.earlier) }
    ensures full { result ≡ Ok true → IsFull part batch.new.rows }
    ensures round { part ≡ Part.Round → OnOk result (IsRound names.now config.now (csv_left (Some format) csv.new) batch.new) }
    ensures counted { OnOk result (csv.new.line + length (with_ahead csv.new.ahead csv.new.behind) ≡ csv.old.line + length (with_ahead csv.old.ahead csv.old.behind)) }
    ensures none { result ≡ Ok false → with_ahead csv.new.ahead csv.new.behind ≡ [] }
    ensures onward { csv.old.line ≤ csv.new.line }
    ensures further { result ≡ Ok true → length batch.old.rows ≡ 0 → csv.old.line < csv.new.line }
    ensures within { csv.new.line ≤ MAX_LINES }
    ensures err { IfErr result (λ fault. fault.cause ≢ FileCause.OutOfMemory tt → rows_from names.now config.now (csv_left (Some format) csv.old) (rows_so_far batch.old) ≡ Err fault) }
    ensures memory { IfErr result (λ fault. OnTrue (is_from_outside fault.cause) (fault.line ≡ 0)) }
{
    'records: loop {
        match csv.look_ahead() {
            Ok(true) => {}
            Ok(false) => return Ok(false),
            Err(wanting) => return Err(FileFault::from(wanting)),
        }
        if ends_before(part, batch, format, csv.row()) {
            return Ok(true);
        }
        match add_fields(batch, format, csv.line(), csv.row(), names, config) {
            Ok(()) => {}
            Err(fault) => return Err(fault),
        }
        csv.take();
        if part.is_whole_part(batch.len()) {
            return Ok(true);
        }
    }
}

/// Whether a part whose rows are those of a batch ends before a record that CSV read.
fn ends_before(part: Part, batch: &Batch, format: OrderFormat, row: &ByteRecord) -> bool
    ensures { result ≡ (if length (fields_of row.now) == length (columns_of format) then ends_before part batch.now.rows (command_in format (fields_of row.now)) else false) }
{
    match Fields::of(format, row) {
        Some(fields) => part.ends_before(batch, &fields),
        None => false,
    }
}

/// What is left of a text whose lines were read.
#[derive(Drop)]
struct LinesLeft<'a> {
    text: &'a [u8],
    // The number of its first record.
    line: u32,
    // Whether the part that was read on is at its end.
    is_at_end: bool,
}

/// Adds the rows of the lines behind the line feed that a text begins with, of which the first has this number, up to the end
/// of a part that a batch begins, and as long as none has a quote or a carriage return, and each has as many fields as the
/// format has columns.
#[inline(always)]
fn add_lines<'a>(
    batch: &mut Batch,
    text: &'a [u8],
    format: OrderFormat,
    first: u32,
    part: Part,
    names: &SegmentNames,
    config: &SegmentConfig,
) -> Result<LinesLeft<'a>, FileFault>
    requires begun { 1 ≤ first }
    requires short { first + length text.now ≤ MAX_LINES }
    requires empty { batch.old.rows ≡ [] }
    ensures ok { IfOk result (λ left. rows_from names.now config.now (text_left text.now (Some format) first) (rows_so_far batch.old) ≡ rows_from names.now config.now (text_left left.text.now (Some format) left.line) (rows_so_far batch.new)) }
    ensures earlier { OnOk result (batch.new.earlier ≡ batch.old.earlier) }
    ensures counted { IfOk result (λ left. left.line + length (records_in left.text.now) ≡ first + length (records_in text.now)) }
    ensures lines { IfOk result (λ left. (first ≤ left.line) × (left.line + length left.text.now ≤ MAX_LINES)) }
    ensures begun { OnOk result (is_so_far part batch.new.rows ≡ true) }
    ensures further { IfOk result (λ left. 0 < length batch.new.rows → first < left.line) }
    ensures full { IfOk result (λ left. left.is_at_end ≡ true → IsFull part batch.new.rows × (first < left.line)) }
    ensures round { part ≡ Part.Round → IfOk result (λ left. left.is_at_end ≡ true → IsRound names.now config.now (text_left left.text.now (Some format) left.line) batch.new) }
    ensures err { IfErr result (λ fault. fault.cause ≢ FileCause.OutOfMemory tt → rows_from names.now config.now (text_left text.now (Some format) first) (rows_so_far batch.old) ≡ Err fault) }
    ensures memory { IfErr result (λ fault. OnTrue (is_from_outside fault.cause) (fault.line ≡ 0)) }
{
    let Some(mut marks) = behind_line_feed(text) else {
        return Ok(LinesLeft {
            text,
            line: first,
            is_at_end: false,
        });
    };
    let mut line = first;
    let mut fields = Fields::empty(format);
    'lines: loop {
        let left = marks.left();
        let Some(()) = fields.read_line(&mut marks) else {
            return Ok(LinesLeft {
                text: left,
                line,
                is_at_end: false,
            });
        };
        if part.ends_before(batch, &fields) {
            return Ok(LinesLeft {
                text: left,
                line,
                is_at_end: true,
            });
        }
        match add_record(batch, line, &fields, names, config) {
            Ok(()) => {}
            Err(fault) => return Err(fault),
        }
        line += 1;
        if part.is_whole_part(batch.len()) {
            return Ok(LinesLeft {
                text: marks.left(),
                line,
                is_at_end: true,
            });
        }
    }
}

/// A text behind the line feed that it begins with.
pub(crate) fn behind_line_feed(text: &[u8]) -> Option<Marks<'_>>
    ensures text { IfSome result (λ marks. marks.text ≡ text.now) }
    ensures fed { IfSome result (λ marks. text.now ≡ 10 ∷ rest_of marks) }
    ensures behind { IfSome result (IsBehind 10) }
{
    let mut marks = Marks::of(text)?;
    if marks.field(b'\n')?.is_empty() {
        Some(marks)
    } else {
        None
    }
}

/// Sees that the record behind the line feed that a text begins with has more fields than any format has columns.
fn wide_record(text: &[u8]) -> Option<()>
    ensures { IfSome result (λ _. (names : NameLists) (config : SegmentConfig) (format : OrderFormat) (line : ℕ) (rows : List Row) → rows_after names config format line rows (records_in text.now) ≡ Err (record { line = line; cause = FileCause.Syntax })) }
{
    begin_wide(&mut behind_line_feed(text)?)?;
    Some(())
}

/// A fault of the record with this number.
pub(crate) fn fault_at(line: u32, cause: FileCause) -> FileFault
    ensures { result ≡ record { line = line; cause = cause } }
{
    FileFault { line, cause }
}

/// Adds the rows of the record of a format with this number that CSV read.
fn add_fields(
    batch: &mut Batch,
    format: OrderFormat,
    line: u32,
    row: &ByteRecord,
    names: &SegmentNames,
    config: &SegmentConfig,
) -> Result<(), FileFault>
    ensures ok { OnOk result (with_record names.now config.now format line (rows_so_far batch.old) (fields_of row.now) ≡ Ok (rows_so_far batch.new)) }
    ensures earlier { OnOk result (batch.new.earlier ≡ batch.old.earlier) }
    ensures err { IfErr result (λ fault. fault.cause ≢ FileCause.OutOfMemory tt → with_record names.now config.now format line (rows_so_far batch.old) (fields_of row.now) ≡ Err fault) }
    ensures memory { IfErr result (λ fault. OnTrue (is_from_outside fault.cause) (fault.line ≡ 0)) }
{
    match Fields::of(format, row) {
        Some(fields) => add_record(batch, line, &fields, names, config),
        None => Err(fault_at(line, FileCause::Syntax)),
    }
}

/// Adds the rows of a record with this number.
pub(crate) fn add_record(
    batch: &mut Batch,
    line: u32,
    fields: &Fields,
    names: &SegmentNames,
    config: &SegmentConfig,
) -> Result<(), FileFault>
    ensures ok { OnOk result (with_rows line (rows_so_far batch.old) (rows_of_record fields.now.format names.now config.now line fields.now.in_order) ≡ Ok (rows_so_far batch.new)) }
    ensures earlier { OnOk result (batch.new.earlier ≡ batch.old.earlier) }
    ensures err { IfErr result (λ fault. fault.cause ≢ FileCause.OutOfMemory tt → with_rows line (rows_so_far batch.old) (rows_of_record fields.now.format names.now config.now line fields.now.in_order) ≡ Err fault) }
    ensures memory { IfErr result (λ fault. OnTrue (is_from_outside fault.cause) (fault.line ≡ 0)) }
{
    if fields.text(Column::Text).len() > MAX_TEXT {
        return Err(fault_at(line, FileCause::BadField));
    }
    let kind = fields.format().kind_in(fields.text(Column::Command));
    add_kind(
        batch,
        line,
        kind,
        fields,
        names,
        config.securities.as_slice(),
    )
}

/// Adds the rows of a record with this number whose command word is this kind's. Each kind has a branch, so that a row is built
/// where it is kept.
#[inline(always)]
fn add_kind(
    batch: &mut Batch,
    line: u32,
    kind: Option<Word>,
    fields: &Fields,
    names: &SegmentNames,
    securities: &[SecurityConfig],
) -> Result<(), FileFault>
    ensures ok { OnOk result (with_entry_rows line (length names.now.securities) (rows_so_far batch.old) (entry_with fields.now.format kind names.now securities.now (texts_of fields.now)) ≡ Ok (rows_so_far batch.new)) }
    ensures earlier { OnOk result (batch.new.earlier ≡ batch.old.earlier) }
    ensures err { IfErr result (λ fault. fault.cause ≢ FileCause.OutOfMemory tt → with_entry_rows line (length names.now.securities) (rows_so_far batch.old) (entry_with fields.now.format kind names.now securities.now (texts_of fields.now)) ≡ Err fault) }
    ensures memory { IfErr result (λ fault. OnTrue (is_from_outside fault.cause) (fault.line ≡ 0)) }
{
    let count = names.securities();
    match kind {
        Some(Word::Enter) => add_parsed(batch, line, enter(fields, names, securities), count),
        Some(Word::Change) => add_parsed(batch, line, change(fields, names, securities), count),
        Some(Word::Cancel) => add_parsed(batch, line, cancel(fields, names), count),
        Some(Word::CancelAll) => add_parsed(batch, line, cancel_all(fields, names), count),
        Some(Word::Open) => add_phase(batch, line, fields, names, &Command::StartOpening),
        Some(Word::Intraday) => add_phase(batch, line, fields, names, &Command::StartIntraday),
        Some(Word::Close) => add_phase(batch, line, fields, names, &Command::StartClosing),
        Some(Word::Uncross) => add_phase(batch, line, fields, names, &Command::Uncross),
        Some(Word::End) => add_phase(batch, line, fields, names, &Command::EndDay),
        None => Err(fault_at(line, FileCause::BadField)),
    }
}

/// Adds the rows of a record with this number that gives a phase command.
#[inline(never)]
fn add_phase(
    batch: &mut Batch,
    line: u32,
    fields: &Fields,
    names: &SegmentNames,
    command: &Command,
) -> Result<(), FileFault>
    ensures ok { OnOk result (with_entry_rows line (length names.now.securities) (rows_so_far batch.old) (phase_entry command.now names.now (texts_of fields.now)) ≡ Ok (rows_so_far batch.new)) }
    ensures earlier { OnOk result (batch.new.earlier ≡ batch.old.earlier) }
    ensures err { IfErr result (λ fault. fault.cause ≢ FileCause.OutOfMemory tt → with_entry_rows line (length names.now.securities) (rows_so_far batch.old) (phase_entry command.now names.now (texts_of fields.now)) ≡ Err fault) }
    ensures memory { IfErr result (λ fault. OnTrue (is_from_outside fault.cause) (fault.line ≡ 0)) }
{
    add_parsed(
        batch,
        line,
        phase(fields, names, command),
        names.securities(),
    )
}

/// Adds the rows of what a record with this number says, if it is lawful, in a segment of so many securities.
#[inline(always)]
fn add_parsed(
    batch: &mut Batch,
    line: u32,
    entry: Option<RecordEntry>,
    securities: u32,
) -> Result<(), FileFault>
    ensures ok { OnOk result (with_entry_rows line securities (rows_so_far batch.old) entry ≡ Ok (rows_so_far batch.new)) }
    ensures earlier { OnOk result (batch.new.earlier ≡ batch.old.earlier) }
    ensures err { IfErr result (λ fault. fault.cause ≢ FileCause.OutOfMemory tt → with_entry_rows line securities (rows_so_far batch.old) entry ≡ Err fault) }
    ensures memory { IfErr result (λ fault. OnTrue (is_from_outside fault.cause) (fault.line ≡ 0)) }
{
    let Some(entry) = entry else {
        return Err(fault_at(line, FileCause::BadField));
    };
    if MAX_ROWS - batch.total() < count_of(entry, securities) as usize {
        return Err(fault_at(line, FileCause::TooManyRows));
    }
    add_entry(batch, line, entry, securities)?;
    Ok(())
}

/// How many rows an entry stands for in a segment of so many securities.
fn count_of(entry: RecordEntry, securities: u32) -> u32
    ensures { (line : ℕ) → result ≡ length (rows_of_entry line securities entry) }
{
    match entry {
        RecordEntry::One(..) => 1,
        RecordEntry::Each(_) => securities,
    }
}

/// Adds the rows of an entry that stands in this line, in a segment of so many securities.
#[inline(always)]
fn add_entry(
    batch: &mut Batch,
    line: u32,
    entry: RecordEntry,
    securities: u32,
) -> Result<(), OutOfMemory>
    requires { length (rows_so_far batch.old) + length (rows_of_entry line securities entry) ≤ MAX_ROWS }
    ensures { OnOk result (batch.new ≡ record batch.old { rows = batch.old.rows ++ rows_of_entry line securities entry }) }
{
    match entry {
        RecordEntry::One(security, command) => {
            batch.push(Row {
                line,
                security,
                command,
            })?;
            Ok(())
        }
        RecordEntry::Each(command) => add_each(batch, line, command, securities),
    }
}

/// Adds one row per security.
#[inline(never)]
fn add_each(
    batch: &mut Batch,
    line: u32,
    command: Command,
    securities: u32,
) -> Result<(), OutOfMemory>
    requires { length (rows_so_far batch.old) + securities ≤ MAX_ROWS }
    ensures { OnOk result (batch.new ≡ record batch.old { rows = batch.old.rows ++ map (λ security. record { line = line; security = security; command = command }) (range_with_len 0 securities) }) }
{
    for security in 0..securities {
        batch.push(Row {
            line,
            security,
            command,
        })?;
    }
    Ok(())
}
