//! Why a day has no statement.
ghost use Rattle.std.specs.Prelude.{◌≡◌};
ghost use Rattle.xm_replay.specs.declared.faults.DayFault.TheVariants as day;

use thiserror::Error;
use xm_config::OpenFault;
use xm_files::{FileFault, OrdersFault};
use xm_memory::OutOfMemory;

/// Why a day has no statement, in the order of the checks. `WriteFailed` may also come before all of them, where a file that is to
/// be written can't be made, and behind a whole statement, where another text failed.
#[derive(Clone, Copy, PartialEq, Eq, Debug, Error)]
pub enum DayFault {
    /// The segment file has a fault.
    #[error("segment file, {0}")]
    Segment(FileFault),
    /// The carry file has a fault.
    #[error("carry file, {0}")]
    Carry(FileFault),
    /// An order file has a fault.
    #[error("{0}")]
    Orders(OrdersFault),
    /// The segment can't be opened.
    #[error("{0}")]
    Open(OpenFault),
    /// A growth was refused.
    #[error("out of memory")]
    OutOfMemory(OutOfMemory),
    /// A writer failed, or took no byte, or a file that is to be written can't be made.
    #[error("write failed")]
    WriteFailed,
}

impl From<OpenFault> for DayFault {
    ghost from_gives = { λ opening fault. fault ≡ day.Open opening };

    fn from(fault: OpenFault) -> DayFault {
        DayFault::Open(fault)
    }
}

impl From<OutOfMemory> for DayFault {
    ghost from_gives = { λ _ fault. fault ≡ day.OutOfMemory tt };

    fn from(error: OutOfMemory) -> DayFault {
        DayFault::OutOfMemory(error)
    }
}
