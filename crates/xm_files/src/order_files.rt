//! The order files of a day, which are read one after another: their numbers, those of their records, and their faults.
ghost use Rattle.std.specs.Prelude.{◌≡◌, ◌+◌, ◌-◌, ◌*◌, ◌≤◌, [], length, map, None, Some, IfOk, IfErr, Ok};
ghost use Rattle.xm_files.specs.Batches.{text_left};
ghost use Rattle.xm_files.specs.FileFaults.{own_fault};
ghost use Rattle.xm_files.specs.OrderFiles.{FailsFile, ReadsFile};
ghost use Rattle.std.specs.Option.{IfSome};

use crate::bytes::MAX_BYTES;
use crate::file_faults::{FileFault, OrdersFault};
use crate::orders::{MAX_BEFORE, MAX_RECORDS, RowReader, read_orders};
use crate::record_texts::RecordTexts;
use std::alloc::Global;
use std::io::Read;
use std::marker::Model;

/// The most order files that a day may have.
pub const MAX_FILES: usize = 256;

/// The order files of a day, as they are read one after another. A clause sees what is known of those that aren't read yet, how many were
/// read, and the number that the next header has.
#[derive(Drop)]
pub struct OrderFiles<'a, R: Read> {
    readers: &'a mut [R],
    // How many files were read.
    number: u32,
    // The number of the header of the next file, or of the one that was read last, until that ends.
    first: u32,
}

impl<'a, R: Read> Model for OrderFiles<'a, R> {
    ghost use Rattle.std.specs.Prelude.{◌≡◌, ◌+◌, ◌≤◌, drop, length, map};
    ghost use Rattle.xm_files.specs.OrderFiles.{FilesLeft};
    ghost use Rattle.xm_files.specs.declared.order_files.TheConstants.{MAX_FILES};

    ghost Value = { FilesLeft };

    ghost view = { λ f. record { left = map R.remaining (drop f.number f.readers.now); number = f.number; first = f.first } };

    ghost invariant = { λ f. record {
      few : length f.readers.now ≤ MAX_FILES;
      within : f.number ≤ length f.readers.now;
      counted : 1 ≤ f.first;
    } };
}

impl<'a, R: Read> OrderFiles<'a, R> {
    /// The order files that these readers give, of which none is read yet.
    pub fn of(readers: &'a mut [R]) -> OrderFiles<'a, R>
        requires { length readers.old ≤ MAX_FILES }
        ensures { result ≡ record { left = map R.remaining readers.old; number = 0; first = 1 } }
    {
        OrderFiles {
            readers,
            number: 0,
            first: 1,
        }
    }

    /// Reads the next order file. It is `None` behind the last one.
    pub fn next(&mut self, alloc: Global) -> Result<Option<OrderFile>, OrdersFault>
        requires { self.old.first ≤ self.old.number * MAX_RECORDS + 1 }
        ensures file { IfOk result (λ next. IfSome next (ReadsFile self.old self.new)) }
        ensures none { result ≡ Ok None → self.old.left ≡ [] }
        ensures fault { IfErr result (FailsFile self.old) }
    {
        if self.number as usize == self.readers.len() {
            return Ok(None);
        }
        let reader = &mut self.readers[self.number as usize];
        self.number += 1;
        let bytes = match read_orders(alloc, reader) {
            Ok(bytes) => bytes,
            Err(fault) => return Err(self.fault(fault)),
        };
        Ok(Some(OrderFile {
            bytes,
            first: self.first,
        }))
    }

    /// The file that was read last has ended, and this is the number behind its last record: the header of the next file has it.
    pub fn end(&mut self, line: u32)
        requires { 1 ≤ line }
        ensures { self.new ≡ record self.old { first = line } }
    {
        self.first = line;
    }

    /// A fault of the file that was read last, which hasn't ended: its line is that in this file alone.
    pub fn fault(&self, fault: FileFault) -> OrdersFault
        ensures { result ≡ record { file = self.now.number; fault = own_fault (self.now.first - 1) fault } }
    {
        OrdersFault {
            file: self.number,
            fault: FileFault {
                line: fault.line.saturating_sub(self.first - 1),
                cause: fault.cause,
            },
        }
    }
}

/// An order file that was read whole. A clause sees its bytes, and the number of its header.
#[derive(Drop)]
pub struct OrderFile {
    bytes: Vec<u8>,
    first: u32,
}

impl Model for OrderFile {
    ghost use Rattle.std.specs.Prelude.{◌≡◌, ◌+◌, ◌≤◌, length};
    ghost use Rattle.xm_files.specs.FileFaults.{max_bytes};
    ghost use Rattle.xm_files.specs.Orders.{max_before};
    ghost use Rattle.xm_files.specs.OrderFiles.{FileRead};

    ghost Value = { FileRead };

    ghost view = { λ f. record { bytes = f.bytes.items; first = f.first } };

    ghost invariant = { λ f. record {
      short : length f.bytes.items ≤ max_bytes;
      counted : 1 ≤ f.first;
      before : f.first ≤ max_before + 1;
    } };
}

impl OrderFile {
    /// Its rows, of which none is read yet.
    pub fn rows(&self) -> RowReader<'_>
        ensures { result ≡ text_left self.now.bytes None self.now.first }
    {
        RowReader::of(self.bytes.as_slice(), self.first)
    }

    /// The texts of its records, of which none is read yet.
    pub fn texts(&self, alloc: Global) -> RecordTexts<'_>
        ensures { result ≡ record { orders = self.now.bytes; first = self.now.first; text = [] } }
    {
        RecordTexts::of(alloc, self.bytes.as_slice(), self.first)
    }
}
