//! Files of tests, and readers and writers that are slow or fail.
use std::alloc::Global;
use std::io::{self, ErrorKind, Read, Write};
use std::process::Abort;

pub(crate) const SEGMENT: &str = segment!(20);

/// `SEGMENT`, whose dynamic width is its wide one.
pub(crate) const BAD_WIDTHS: &str = segment!(40);

pub(crate) const SECOND: &str = "[[security]]
name = \"UVW\"
tick = 1
reference = \"0.5\"
dynamic = 0
static = 4294967295
wide = 0
journal = 1
";

/// An order file without a row.
pub(crate) const HEADER: &str = orders!("");

/// The same of the second format.
pub(crate) const SECOND_HEADER: &str = second_orders!("");

/// Orders before and in the opening call.
pub(crate) const ORDERS: &str = orders!(
    "enter,AAA,1,XYZ,buy,limit,10.00,,10,,,
enter,BBB,1,XYZ,sell,limit,10.10,,5,,,
open,,,*,,,,,,,,
enter,AAA,2,XYZ,buy,limit,9.95,,7,,,
cancel,AAA,1,XYZ,,,,,,,,
"
);

/// A day with trades and stops, as `examples/cascade.orders.csv`.
pub(crate) const CASCADE: &str = orders!(
    "open,,,*,,,,,,,,
uncross,,,*,,,,,,,,
enter,AAA,1,XYZ,buy,limit,10.00,,10,,,
enter,AAA,2,XYZ,buy,limit,9.90,,20,,,
enter,AAA,3,XYZ,buy,limit,9.85,,30,,,
enter,BBB,1,XYZ,sell,stop-market,,9.90,25,,,
enter,BBB,2,XYZ,sell,stop-limit,9.85,9.85,10,gtc,,
enter,BBB,3,XYZ,sell,limit,9.90,,30,,,
cancel,AAA,9,XYZ,,,,,,,,
close,,,*,,,,,,,,
uncross,,,*,,,,,,,,
end,,,*,,,,,,,,
"
);

/// A segment file without a member or a security.
pub(crate) const NO_SECURITY: &str = "date = 0\nmembers = []\nsecurity = []\n";

/// Each kind of error that a reader or a writer may answer.
pub(crate) const ERROR_KINDS: [ErrorKind; 42] = [
    ErrorKind::NotFound,
    ErrorKind::PermissionDenied,
    ErrorKind::ConnectionRefused,
    ErrorKind::ConnectionReset,
    ErrorKind::HostUnreachable,
    ErrorKind::NetworkUnreachable,
    ErrorKind::ConnectionAborted,
    ErrorKind::NotConnected,
    ErrorKind::AddrInUse,
    ErrorKind::AddrNotAvailable,
    ErrorKind::NetworkDown,
    ErrorKind::BrokenPipe,
    ErrorKind::AlreadyExists,
    ErrorKind::WouldBlock,
    ErrorKind::NotADirectory,
    ErrorKind::IsADirectory,
    ErrorKind::DirectoryNotEmpty,
    ErrorKind::ReadOnlyFilesystem,
    ErrorKind::FilesystemLoop,
    ErrorKind::StaleNetworkFileHandle,
    ErrorKind::InvalidInput,
    ErrorKind::InvalidData,
    ErrorKind::TimedOut,
    ErrorKind::WriteZero,
    ErrorKind::StorageFull,
    ErrorKind::NotSeekable,
    ErrorKind::QuotaExceeded,
    ErrorKind::FileTooLarge,
    ErrorKind::ResourceBusy,
    ErrorKind::ExecutableFileBusy,
    ErrorKind::Deadlock,
    ErrorKind::CrossesDevices,
    ErrorKind::TooManyLinks,
    ErrorKind::InvalidFilename,
    ErrorKind::ArgumentListTooLong,
    ErrorKind::Interrupted,
    ErrorKind::Unsupported,
    ErrorKind::UnexpectedEof,
    ErrorKind::OutOfMemory,
    ErrorKind::InProgress,
    ErrorKind::Other,
    ErrorKind::Uncategorized,
];

/// The call of a reader that fails, counted from 0, with its error.
pub(crate) type Failure = Option<(usize, ErrorKind)>;

/// Gives its text one byte a call. The call with the number of its failure, counted from 0, answers
/// this error once; after it the text goes on.
pub(crate) struct OneByteReader<'a> {
    text: &'a [u8],
    at: usize,
    failure: Failure,
}

impl<'a> OneByteReader<'a> {
    pub(crate) fn new(text: &'a str, failure: Failure) -> Self {
        OneByteReader {
            text: text.as_bytes(),
            at: 0,
            failure,
        }
    }
}

impl Drop for OneByteReader<'_> {
    fn drop(self) {
        let OneByteReader {
            text: _,
            at: _,
            failure: _,
        } = self;
    }
}

impl Read for OneByteReader<'_> {
    fn read(&mut self, buf: &mut [u8]) -> io::Result<usize> {
        if let Some((call, kind)) = self.failure {
            if call == self.at {
                self.failure = None;
                return Err(io::Error::from(kind));
            }
        }
        match (self.text.get(self.at), buf.first_mut()) {
            (Some(byte), Some(place)) => {
                *place = *byte;
                self.at = self.at.saturating_add(1);
                Ok(1)
            }
            _ => Ok(0),
        }
    }
}

/// Gives one byte, so many times.
pub(crate) struct Filler {
    pub(crate) byte: u8,
    pub(crate) left: usize,
}

impl Drop for Filler {
    fn drop(self) {
        let Filler { byte: _, left: _ } = self;
    }
}

impl Read for Filler {
    fn read(&mut self, buf: &mut [u8]) -> io::Result<usize> {
        let count = buf.len().min(self.left);
        buf[..count].fill(self.byte);
        self.left -= count;
        Ok(count)
    }
}

/// Holds what it is given until it has as many bytes as it has room for. Then a call answers its
/// error once, after which it has room for all, or it takes no byte.
pub(crate) struct ShortWriter {
    pub(crate) bytes: Vec<u8>,
    room: usize,
    failure: Option<ErrorKind>,
}

impl ShortWriter {
    pub(crate) fn new(alloc: Global, room: usize, failure: Option<ErrorKind>) -> Self {
        ShortWriter {
            bytes: Vec::new(alloc),
            room,
            failure,
        }
    }
}

impl Drop for ShortWriter {
    fn drop(self) {
        let ShortWriter {
            bytes: _,
            room: _,
            failure: _,
        } = self;
    }
}

impl Write for ShortWriter {
    fn write(&mut self, buf: &[u8]) -> io::Result<usize> {
        if self.room == 0 {
            if let Some(kind) = self.failure {
                self.room = usize::MAX;
                return Err(io::Error::from(kind));
            }
        }
        let count = buf.len().min(self.room);
        self.bytes.extend_from_slice(&buf[..count])?;
        self.room -= count;
        Ok(count)
    }

    fn flush(&mut self) -> io::Result<()> {
        Ok(())
    }
}

/// The bytes of each of these texts, as so many files.
pub(crate) fn bytes_of<'a>(rt: &(impl Abort + AllocGlobal), texts: &[&'a str]) -> Vec<&'a [u8]> {
    let mut files = Vec::new(rt.alloc());
    for text in texts {
        let file = (*text).as_bytes();
        files.push(file).ok().expect(rt, "memory");
    }
    files
}

/// The text with the first of these words replaced, or what is wanting.
pub(crate) fn replaced(
    alloc: Global,
    text: &str,
    old: &str,
    new: &str,
) -> Result<String, &'static str> {
    let (before, after) = text.split_once(old).ok_or("the words")?;
    (format!(in alloc; "{before}{new}{after}"))
        .ok()
        .ok_or("memory")
}
