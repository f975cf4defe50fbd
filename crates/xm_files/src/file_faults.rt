//! What is wrong with a file.
ghost use Rattle.std.specs.Prelude.{◌≡◌, ◌≢◌};
ghost use Rattle.toml.specs.Errors.{IsMemory};
ghost use Rattle.xm_files.specs.declared.file_faults.FileCause.TheVariants.{OutOfMemory};

use std::{error, fmt};
use thiserror::Error;
use xm_memory::OutOfMemory;

/// What is wrong with a file, in the order of the checks.
#[derive(Clone, Copy, PartialEq, Eq, Debug)]
pub enum FileCause {
    /// The reader failed, or the file could not be opened.
    ReadFailed,
    /// The file has more than 16,777,216 bytes.
    TooLong,
    /// A segment file that is no TOML, or a record of an order file or a carry file that is no CSV or
    /// has another number of fields than the first.
    Syntax,
    /// A required key of a segment file is missing.
    MissingKey,
    /// A segment file has a key that isn't listed.
    UnknownKey,
    /// A value of a segment file has the wrong type or is out of range.
    BadValue,
    /// The name of a member or of a security occurs again, or that of an entry of a carry file in its
    /// security.
    DuplicateName,
    /// An order file or a carry file has no record, or the first isn't the header.
    BadHeader,
    /// A command word, an empty required field, a filled field that must be empty, a text that isn't
    /// listed, or a free text of more than 64 bytes. In a carry file, an unknown name, a number or a
    /// price out of range, or a validity of the day, too.
    BadField,
    /// An order file has more than 1,000,000 rows, or a carry file more than 100,000 entries of a
    /// security.
    TooManyRows,
    /// A growth was refused.
    OutOfMemory(OutOfMemory),
}

/// What is wrong with a file, and where.
///
/// In an order file or a carry file `line` is the number of the record, the header being 1; where a `RowReader` tells it of an order file
/// behind others, the number counts on over the records of all. In a segment file it is 0 for the whole text and the top keys, and k for
/// the k-th security, counted from 1. It is 0 for `ReadFailed`, `TooLong` and `OutOfMemory`.
#[derive(Clone, Copy, PartialEq, Eq, Debug, Error)]
#[error("line {line}: {cause:?}")]
pub struct FileFault {
    pub line: u32,
    pub cause: FileCause,
}

/// What is wrong with the order files of a day: the first fault of the first file that has one. Its number among the files is `file`, the
/// first being 1, and the fault's `line` is that in this file alone.
#[derive(Clone, Copy, PartialEq, Eq, Debug)]
pub struct OrdersFault {
    pub file: u32,
    pub fault: FileFault,
}

/// The first file is told without its number, as a lone one is.
impl fmt::Display for OrdersFault {
    fn fmt<W: fmt::Write>(&self, f: &mut fmt::Formatter<W>) -> fmt::Result {
        if self.file == 1 {
            write!(f, "order file, {}", self.fault)
        } else {
            write!(f, "order file {}, {}", self.file, self.fault)
        }
    }
}

impl error::Error for OrdersFault {}

impl FileCause {
    /// The fault that a cause is at a line. Want of memory has none.
    pub(crate) fn at(self, line: u32) -> FileFault
        ensures cause { result.cause ≡ self }
        ensures memory { self ≡ FileCause.OutOfMemory tt → result.line ≡ 0 }
        ensures line { self ≢ FileCause.OutOfMemory tt → result.line ≡ line }
    {
        let line = match self {
            FileCause::OutOfMemory(_) => 0,
            _ => line,
        };
        FileFault { line, cause: self }
    }
}

impl From<OutOfMemory> for FileCause {
    ghost from_gives = { λ _ cause. cause ≡ OutOfMemory tt };

    fn from(error: OutOfMemory) -> FileCause {
        FileCause::OutOfMemory(error)
    }
}

/// A cause without a place is one of the whole file.
impl From<FileCause> for FileFault {
    ghost from_gives = { λ cause fault. fault ≡ record { line = 0; cause = cause } };

    fn from(cause: FileCause) -> FileFault {
        FileFault { line: 0, cause }
    }
}

impl From<OutOfMemory> for FileFault {
    ghost from_gives = { λ _ fault. fault ≡ record { line = 0; cause = OutOfMemory tt } };

    fn from(error: OutOfMemory) -> FileFault {
        FileFault::from(FileCause::from(error))
    }
}

/// Why TOML refuses a text.
pub(crate) fn parse_cause(error: &toml::de::Error) -> FileCause
    ensures memory { IsMemory error.now → result ≡ FileCause.OutOfMemory tt }
    ensures syntax { result ≢ FileCause.OutOfMemory tt → (result ≡ FileCause.Syntax) × ¬ (IsMemory error.now) }
{
    if error.is_memory() {
        FileCause::from(OutOfMemory::told_by(error))
    } else {
        FileCause::Syntax
    }
}
