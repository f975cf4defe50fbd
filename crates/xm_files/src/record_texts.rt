//! The free texts of the records of an order file.
ghost use Rattle.std.specs.Prelude.{◌≡◌, ◌+◌, ◌-◌, ◌≤◌, [], true, false, drop, length, None, IfOk, IfSome, IsSome, Ok};
ghost use Rattle.csv.specs.Records.{fields_of};
ghost use Rattle.xm_files.specs.Orders.{records_in};
ghost use Rattle.xm_files.specs.RecordTexts.{have_texts, text_in};
ghost use Rattle.xm_files.specs.Unread.{IsWithin};

use crate::bytes::MAX_BYTES;
use crate::columns::Column;
use crate::csv_records::CsvRecords;
use crate::headers::is_header;
use crate::order_format::OrderFormat;
use crate::orders::MAX_BEFORE;
use crate::records::text_at;
use csv::ByteRecord;
use std::alloc::Global;
use std::marker::Model;
use xm_memory::OutOfMemory;

/// The free texts of the records of an order file, which are read by the records' numbers. A clause sees the bytes of the file, the
/// number of its header, and the text that was read last.
///
/// Where numbers are asked for in their order, the file is read once, and of one that has no texts the header alone.
#[derive(Drop)]
pub struct RecordTexts<'a> {
    alloc: Global,
    bytes: &'a [u8],
    // The number of the header.
    first: u32,
    // The records from some one on.
    csv: CsvRecords<'a>,
    // Whether records have texts, once the header was read.
    told: Option<bool>,
    // The text that was read last.
    text: Vec<u8>,
}

impl<'a> Model for RecordTexts<'a> {
    ghost use Rattle.std.specs.Prelude.{◌≡◌, ◌+◌, ◌≤◌, length, IfSome};
    ghost use Rattle.xm_files.specs.FileFaults.{max_bytes};
    ghost use Rattle.xm_files.specs.Orders.{max_before, records_in};
    ghost use Rattle.xm_files.specs.RecordTexts.{TextsRead, have_texts};
    ghost use Rattle.xm_files.specs.Unread.{IsWithin};

    ghost Value = { TextsRead };

    ghost view = { λ t. record { orders = t.bytes.now; first = t.first; text = t.text.items } };

    ghost invariant = { λ t. record {
      short : length t.bytes.now ≤ max_bytes;
      counted : 1 ≤ t.first;
      before : t.first ≤ max_before + 1;
      csv : IsWithin t.bytes.now t.first t.csv;
      header : IfSome t.told (λ told. told ≡ have_texts (records_in t.bytes.now));
    } };
}

impl<'a> RecordTexts<'a> {
    ghost use Rattle.std.specs.Prelude.{◌≡◌, ◌+◌, ◌≤◌, [], length, OnOk};
    ghost use Rattle.xm_files.specs.RecordTexts.{texts_in};

    /// The texts of an order file of these bytes, whose header has this number, of which none is read yet.
    pub fn of(alloc: Global, bytes: &'a [u8], first: u32) -> RecordTexts<'a>
        requires short { length bytes.now ≤ MAX_BYTES }
        requires counted { 1 ≤ first }
        requires before { first ≤ MAX_BEFORE + 1 }
        ensures { result ≡ record { orders = bytes.now; first = first; text = [] } }
    {
        RecordTexts {
            alloc,
            bytes,
            first,
            csv: CsvRecords::of(alloc, bytes, first),
            told: None,
            text: Vec::new(alloc),
        }
    }

    /// Reads the text of the record with this number. It is empty where the file isn't of the second format, or has no such record.
    pub fn read(&mut self, line: u32) -> Result<(), OutOfMemory>
        ensures read { OnOk result (self.new.text ≡ texts_in self.old line) }
        ensures same { texts_in self.new ≡ texts_in self.old }
    {
        self.text.clear();
        if line < self.first || !have_texts(&mut self.told, self.alloc, self.bytes)? {
            return Ok(());
        }
        if !find(&mut self.csv, self.alloc, self.bytes, self.first, line)? {
            return Ok(());
        }
        self.text.extend_from_slice(text_in(self.csv.row()))?;
        Ok(())
    }

    /// The text that was read last.
    pub fn text(&self) -> &[u8]
        ensures { result.now ≡ self.now.text }
    {
        self.text.as_slice()
    }
}

/// Whether records of a file have texts, as its header says, which is read where that isn't known yet.
fn have_texts(told: &mut Option<bool>, alloc: Global, bytes: &[u8]) -> Result<bool, OutOfMemory>
    requires short { length bytes.now ≤ MAX_BYTES }
    requires known { IfSome told.old (λ told. told ≡ have_texts (records_in bytes.now)) }
    ensures told { IfOk result (λ told. told ≡ have_texts (records_in bytes.now)) }
    ensures known { IfSome told.new (λ told. told ≡ have_texts (records_in bytes.now)) }
{
    if let Some(told) = *told {
        return Ok(told);
    }
    let has = header_has_texts(alloc, bytes)?;
    *told = Some(has);
    Ok(has)
}

/// Goes to the record of a text with the number `line`, its first record having the number `first`. Whether there is one, which then
/// waits; where memory was wanting, the text is read from its begin on.
fn find<'a>(
    csv: &mut CsvRecords<'a>,
    alloc: Global,
    text: &'a [u8],
    first: u32,
    line: u32,
) -> Result<bool, OutOfMemory>
    requires short { length text.now ≤ MAX_BYTES }
    requires counted { 1 ≤ first }
    requires before { first ≤ MAX_BEFORE + 1 }
    requires within { IsWithin text.now first csv.old }
    requires behind { first ≤ line }
    ensures within { IsWithin text.now first csv.new }
    ensures waits { result ≡ Ok true → (csv.new.line ≡ line) × IsSome csv.new.ahead }
    ensures none { result ≡ Ok false → drop (line - first) (records_in text.now) ≡ [] }
{
    if line < csv.line() {
        begin(csv, alloc, text, first);
    }
    match csv.advance(line) {
        Ok(found) => Ok(found),
        Err(wanting) => {
            begin(csv, alloc, text, first);
            Err(wanting)
        }
    }
}

/// Reads a text, whose first record has this number, from its begin on. It stands by itself, since what CSV reads with is large, and a
/// call that may need another of it would clear the room for one each time.
#[inline(never)]
fn begin<'a>(csv: &mut CsvRecords<'a>, alloc: Global, text: &'a [u8], first: u32)
    requires short { length text.now ≤ MAX_BYTES }
    requires counted { 1 ≤ first }
    requires before { first ≤ MAX_BEFORE + 1 }
    ensures { csv.new ≡ record { ahead = None; behind = records_in text.now; line = first } }
{
    *csv = CsvRecords::of(alloc, text, first);
}

/// Whether records of a file have texts, as its header says. It stands by itself for the same reason.
#[inline(never)]
fn header_has_texts(alloc: Global, bytes: &[u8]) -> Result<bool, OutOfMemory>
    requires { length bytes.now ≤ MAX_BYTES }
    ensures { IfOk result (λ told. told ≡ have_texts (records_in bytes.now)) }
{
    let mut csv = CsvRecords::of(alloc, bytes, 1);
    Ok(csv.look_ahead()? && is_header(OrderFormat::Second, csv.row()))
}

/// The text of a record of the second format, which has every column.
fn text_in(row: &ByteRecord) -> &[u8]
    ensures { result.now ≡ text_in (fields_of row.now) }
{
    text_at(row, Column::Text.index())
}
