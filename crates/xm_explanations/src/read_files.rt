//! The files of a day, as they were read.
ghost use Rattle.std.specs.Prelude.{◌≡◌, Ok};
ghost use Rattle.xm_explanations.specs.Explained.{bytes_read};

use std::alloc::Global;
use xm_files::ReadFault;
use xm_memory::OutOfMemory;

/// A file: the path by which it is told, and its bytes, or why they weren't read.
#[derive(Drop)]
pub struct ReadFile<'a> {
    pub path: &'a str,
    pub text: Result<Vec<u8>, ReadFault>,
}

/// The files of a day.
#[derive(Drop)]
pub struct ReadDay<'a> {
    pub segment: ReadFile<'a>,
    /// The carry file that the day opens with, if it opens with one.
    pub carried: Option<ReadFile<'a>>,
    /// The order files, one after the other.
    pub orders: Vec<ReadFile<'a>>,
}

impl ReadFile<'_> {
    /// The bytes that were read, or none.
    pub(crate) fn bytes(&self) -> &[u8]
        ensures { result.now ≡ bytes_read self.now.text }
    {
        match &self.text {
            Ok(bytes) => bytes.as_slice(),
            Err(_) => &[],
        }
    }
}

/// Why a file wasn't read, in words.
pub(crate) fn reason(alloc: Global, fault: &ReadFault) -> Result<String, OutOfMemory> {
    match fault {
        ReadFault::Failed(error) => without_number(format!(in alloc; "{error}")?),
        ReadFault::TooLong => Ok(String::from_str(
            alloc,
            "the file has more than 16777216 bytes: an order file is cut into several, each with the header",
        )?),
        ReadFault::OutOfMemory(refused) => Err(*refused),
    }
}

/// The system's words for an error, without the number behind them.
fn without_number(mut words: String) -> Result<String, OutOfMemory> {
    if let Some(end) = words.as_str().find(" (os error") {
        words.truncate(end);
    }
    Ok(words)
}
