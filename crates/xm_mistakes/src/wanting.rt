//! Out of memory where another crate's error tells it.
ghost use Rattle.std.specs.Prelude.{◌≡◌, false, IfOk, OnOk, Some};
ghost use Rattle.xm_files.specs.FileFaults.{is_from_outside};

use xm_files::{FileCause, FileFault};
use xm_memory::OutOfMemory;

/// Out of memory, as an error tells it that bytes in memory leave no other reason for.
pub fn out_of_memory<E>(error: &E) -> OutOfMemory {
    OutOfMemory::told_by(error)
}

/// A fault that bytes in memory have. A reader of these doesn't fail, so what isn't theirs is out of memory.
pub fn fault_of_bytes(fault: FileFault) -> Result<Option<FileFault>, OutOfMemory>
    ensures same { IfOk result (λ told. told ≡ Some fault) }
    ensures inside { OnOk result (is_from_outside fault.cause ≡ false) }
{
    match &fault.cause {
        FileCause::OutOfMemory(refused) => Err(*refused),
        FileCause::ReadFailed => Err(out_of_memory(&fault)),
        _ => Ok(Some(fault)),
    }
}
