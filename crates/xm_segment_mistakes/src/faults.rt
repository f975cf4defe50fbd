//! The first fault of a segment file, told by the run's own reader.
ghost use Rattle.std.specs.Prelude.{◌≡◌, IfOk};
ghost use Rattle.xm_files.specs.Segment.{segment_of};
ghost use Rattle.xm_mistakes.specs.Mistakes.{fault_in};

use std::alloc::Global;
use xm_files::{FileFault, read_segment};
use xm_memory::OutOfMemory;
use xm_mistakes::fault_of_bytes;

/// The first fault of a segment file, by which a run would end.
pub(crate) fn segment_fault(alloc: Global, bytes: &[u8]) -> Result<Option<FileFault>, OutOfMemory>
    ensures { IfOk result (λ fault. fault ≡ fault_in (segment_of bytes.now)) }
{
    let mut reader = bytes;
    match read_segment(alloc, &mut reader) {
        Ok(_segment) => Ok(None),
        Err(fault) => fault_of_bytes(fault),
    }
}
