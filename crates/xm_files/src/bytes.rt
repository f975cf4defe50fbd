//! A file, read whole.
ghost use Rattle.std.specs.Prelude.{◌≡◌, ◌<◌, ◌≤◌, length, IfOk, IfErr, IfSome, IsTrue, Err};
ghost use Rattle.xm_files.specs.FileFaults.{cause_of, of_reading};

use crate::file_faults::FileCause;
use std::alloc::Global;
use std::io;
use std::io::Read;
use xm_memory::OutOfMemory;

/// The most bytes that a file may have.
pub const MAX_BYTES: usize = 16_777_216;

/// Why a file was not read whole.
#[derive(Clone, Copy, Debug)]
pub enum ReadFault {
    /// The reader answered this error.
    Failed(io::Error),
    /// The file has more than `MAX_BYTES` bytes.
    TooLong,
    /// A growth was refused.
    OutOfMemory(OutOfMemory),
}

impl ReadFault {
    /// The cause by which a run tells of it.
    pub fn cause(&self) -> FileCause
        ensures { result ≡ cause_of self.now }
    {
        match self {
            ReadFault::Failed(_) => FileCause::ReadFailed,
            ReadFault::TooLong => FileCause::TooLong,
            ReadFault::OutOfMemory(refused) => FileCause::OutOfMemory(*refused),
        }
    }
}

/// All that a reader gives, if that is at most `MAX_BYTES` bytes. A file that is too long is read no further than the buffer that shows
/// it.
pub fn read_file<R: Read>(alloc: Global, reader: &mut R) -> Result<Vec<u8>, ReadFault>
    ensures ok { IfOk result (λ v. IfSome (R.remaining reader.old) (λ bytes. v.items ≡ bytes)) }
    ensures short { IfOk result (λ v. length v.items ≤ MAX_BYTES) }
    ensures long { result ≡ Err ReadFault.TooLong → IfSome (R.remaining reader.old) (λ bytes. MAX_BYTES < length bytes) }
{
    let mut bytes = Vec::new(alloc);
    let mut buffer = [0u8; 16_384];
    // Each turn but the last reads a byte or more.
    for _turn in 0..MAX_BYTES + 2 {
        let count = match reader.read(&mut buffer) {
            Ok(count) => count,
            Err(error) => return Err(ReadFault::Failed(error)),
        };
        if count == 0 {
            return Ok(bytes);
        }
        if MAX_BYTES - bytes.len() < count {
            return Err(ReadFault::TooLong);
        }
        if let Err(refused) = bytes.extend_from_slice(&buffer[..count]) {
            return Err(ReadFault::OutOfMemory(OutOfMemory::from(refused)));
        }
    }
    unreachable!()
}

/// The same, where why a file was not read is told as a run tells it.
///
/// The cause is `ReadFailed`, `TooLong` or `OutOfMemory`.
pub(crate) fn read_whole<R: Read>(alloc: Global, reader: &mut R) -> Result<Vec<u8>, FileCause>
    ensures ok { IfOk result (λ v. IfSome (R.remaining reader.old) (λ bytes. v.items ≡ bytes)) }
    ensures short { IfOk result (λ v. length v.items ≤ MAX_BYTES) }
    ensures long { result ≡ Err FileCause.TooLong → IfSome (R.remaining reader.old) (λ bytes. MAX_BYTES < length bytes) }
    ensures causes { IfErr result (λ cause. IsTrue (of_reading cause)) }
{
    match read_file(alloc, reader) {
        Ok(bytes) => Ok(bytes),
        Err(unread) => Err(unread.cause()),
    }
}
