//! Want of memory, which nothing can say but a refused growth, a refused start of a thread, or a count that no memory reaches.
#![tactic(auto)]

ghost use Rattle.std.specs.Prelude.{◌<◌, ◌≤◌, OnErr, OnOk};

use std::alloc::{AllocError, AllocFailed};
use std::marker::Model;
use std::thread::SpawnError;

/// A growth was refused, or the start of a thread; or a count is above a limit that no memory reaches.
///
/// It has no public constructor. It is made of the error of such a refusal or of such a count, so an answer that carries it isn't made
/// up; or by `told_by` of another crate's error, where no type says that this tells want of memory: `docs/TESTED.md` names the files
/// that take such a word, and `tests/want_of_memory.py` sees that no other does. A clause sees all of them as one.
#[derive(Clone, Copy, PartialEq, Eq, Hash, Debug)]
pub struct OutOfMemory {
    refused: (),
}

impl Model for OutOfMemory {
    ghost Value = { Unit {0} };

    ghost view = { λ _. tt };

    ghost inverse = { λ _. record { refused = tt } };
}

impl OutOfMemory {
    /// What a crate tells whose own error says that memory was wanting, and hides the refused growth.
    pub fn told_by<E>(_error: &E) -> OutOfMemory {
        OutOfMemory { refused: () }
    }
}

impl From<AllocError> for OutOfMemory {
    fn from(_error: AllocError) -> OutOfMemory {
        OutOfMemory { refused: () }
    }
}

impl<T: Drop> From<AllocFailed<T>> for OutOfMemory {
    fn from(_error: AllocFailed<T>) -> OutOfMemory {
        OutOfMemory { refused: () }
    }
}

impl<F: Drop> From<SpawnError<F>> for OutOfMemory {
    fn from(_refused: SpawnError<F>) -> OutOfMemory {
        OutOfMemory { refused: () }
    }
}

/// Passes a count, or answers `OutOfMemory` where it is above the most that its structure can tell apart, which no memory
/// could give it.
pub fn count_within(count: u64, most: u64) -> Result<(), OutOfMemory>
    ensures ok { OnOk result (count ≤ most) }
    ensures err { OnErr result (most < count) }
{
    if count <= most {
        Ok(())
    } else {
        Err(OutOfMemory { refused: () })
    }
}
