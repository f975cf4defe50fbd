//! The records of a text, one at a time, as CSV reads them.
ghost use Rattle.std.specs.Prelude.{◌≡◌, ◌+◌, ◌-◌, ◌≤◌, [], true, false, drop, length, None, IsSome, IfSome, Ok, OnOk};
ghost use Rattle.csv.specs.Reading.{default_config, records, strip_bom};
ghost use Rattle.csv.specs.Records.{fields_of};
ghost use Rattle.xm_files.specs.Unread.{with_ahead};

use crate::orders::MAX_LINES;
use csv::{ByteRecord, Reader, ReaderBuilder};
use std::alloc::Global;
use std::marker::Model;
use xm_memory::OutOfMemory;

/// Where the reading of records stands.
#[derive(Clone, Copy)]
enum Lookahead {
    /// The record that was read last waits.
    Ahead,
    /// The record that was read last was taken.
    Taken,
    /// There is no other record.
    Ended,
    /// Memory was wanting, and nothing more can be read.
    Failed(OutOfMemory),
}

/// The records of a text that CSV reads, with their numbers. The next one can be looked at before it is taken.
#[derive(Drop)]
pub(crate) struct CsvRecords<'a> {
    reader: Reader<&'a [u8]>,
    // The record that was read last.
    row: ByteRecord,
    lookahead: Lookahead,
    // The number of the next record.
    line: u32,
}

impl<'a> Model for CsvRecords<'a> {
    ghost use Rattle.std.specs.Prelude.{◌≤◌, ◌+◌, length};
    ghost use Rattle.xm_files.specs.Orders.{max_lines};
    ghost use Rattle.xm_files.specs.Unread.{CsvLeft, ReadsOn, record_ahead, behind_of, with_ahead};

    ghost Value = { CsvLeft };

    ghost view = { λ c. record { ahead = record_ahead c.lookahead c.row; behind = behind_of c.lookahead c.reader; line = c.line } };

    ghost invariant = { λ c. record {
      reads_on : ReadsOn c.lookahead c.reader;
      begun : 1 ≤ c.line;
      short : c.line + length (with_ahead (record_ahead c.lookahead c.row) (behind_of c.lookahead c.reader)) ≤ max_lines;
    } };
}

impl<'a> CsvRecords<'a> {
    /// The records of a text, of which the first has this number.
    pub(crate) fn of(alloc: Global, text: &'a [u8], line: u32) -> CsvRecords<'a>
        requires begun { 1 ≤ line }
        requires short { line + length text.now ≤ MAX_LINES }
        ensures { result ≡ record { ahead = None; behind = records default_config (strip_bom text.now); line = line } }
    {
        CsvRecords {
            reader: ReaderBuilder::new()
                .has_headers(false)
                .flexible(true)
                .from_reader(alloc, text),
            row: ByteRecord::new(alloc),
            lookahead: Lookahead::Taken,
            line,
        }
    }

    /// Whether there is another record, which then waits.
    pub(crate) fn look_ahead(&mut self) -> Result<bool, OutOfMemory>
        ensures same { OnOk result (with_ahead self.new.ahead self.new.behind ≡ with_ahead self.old.ahead self.old.behind) }
        ensures line { self.new.line ≡ self.old.line }
        ensures within { (1 ≤ self.new.line) × (self.new.line ≤ MAX_LINES) }
        ensures waits { result ≡ Ok true → IsSome self.new.ahead }
        ensures ended { result ≡ Ok false → with_ahead self.new.ahead self.new.behind ≡ [] }
    {
        match &self.lookahead {
            Lookahead::Ahead => return Ok(true),
            Lookahead::Ended => return Ok(false),
            Lookahead::Failed(wanting) => return Err(*wanting),
            Lookahead::Taken => {}
        }
        match self.reader.read_byte_record(&mut self.row) {
            Ok(true) => {
                self.lookahead = Lookahead::Ahead;
                Ok(true)
            }
            Ok(false) => {
                self.lookahead = Lookahead::Ended;
                Ok(false)
            }
            Err(error) => {
                let wanting = OutOfMemory::told_by(&error);
                self.lookahead = Lookahead::Failed(wanting);
                Err(wanting)
            }
        }
    }

    /// Takes the records before the one with this number. Whether there is one, which then waits.
    pub(crate) fn advance(&mut self, line: u32) -> Result<bool, OutOfMemory>
        requires { self.old.line ≤ line }
        ensures left { OnOk result (with_ahead self.new.ahead self.new.behind ≡ drop (self.new.line - self.old.line) (with_ahead self.old.ahead self.old.behind)) }
        ensures onward { OnOk result ((self.old.line ≤ self.new.line) × (self.new.line ≤ line)) }
        ensures waits { result ≡ Ok true → (self.new.line ≡ line) × IsSome self.new.ahead }
        ensures ended { result ≡ Ok false → with_ahead self.new.ahead self.new.behind ≡ [] }
    {
        'records: loop {
            match self.look_ahead() {
                Ok(true) => {}
                Ok(false) => return Ok(false),
                Err(wanting) => return Err(wanting),
            }
            if self.line == line {
                return Ok(true);
            }
            self.take();
        }
    }

    /// The record that waits.
    pub(crate) fn row(&self) -> &ByteRecord
        ensures { IfSome self.now.ahead (λ fields. fields_of result.now ≡ fields) }
    {
        &self.row
    }

    /// The number of the next record.
    pub(crate) fn line(&self) -> u32
        ensures { result ≡ self.now.line }
    {
        self.line
    }

    /// Takes the record that waits.
    pub(crate) fn take(&mut self)
        requires { IsSome self.old.ahead }
        ensures taken { self.new ≡ record { ahead = None; behind = self.old.behind; line = self.old.line + 1 } }
        ensures within { self.new.line ≤ MAX_LINES }
    {
        self.lookahead = Lookahead::Taken;
        self.line += 1;
    }
}
