//! A segment of securities that workers share: each behind its own lock, with a board of quotes that is read without one.
//!
//! `working` takes a worker's rows of the order file. For each, `segment` picks one of eight lanes, the `lane` takes its lock, and
//! `locked`, which stands behind it, has the desk take the command and the board publish it. A `seat` is what a worker holds: its shares
//! of the ledgers, and a row of watches, one a security. `opened` is the beginning, `gathering` the end. A `gate` is for tests: the
//! program's does nothing. `submit` and `quote` of `segment` are for callers with single commands.
//!
//! What stands behind a lock is known by its type alone. So settings, workers and names of ledgers are members of a type that exists
//! in proofs alone (`naming`), and a caller picks it once by what it opened. The `ledgers` of a security are tokens without bytes:
//! books behind the lock, shares in each seat. In the end they are compared. A new call on a security is a method of `Locked`, one of
//! `Lane`, and eight arms in `segment`.
#![tactic(auto)]

mod blanks;
mod gate;
mod gathered;
mod gathering;
mod lane;
mod ledgers;
mod locked;
mod named;
mod naming;
mod opened;
mod seat;
mod segment;
mod share_row;
mod unlocked;
mod working;

pub use crate::gate::{Gate, NoGate};
pub use crate::gathered::{GatherFault, Gathered};
pub use crate::ledgers::{Books, Shares};
pub use crate::locked::{Locked, QuoteBoard, QuoteWatch};
pub use crate::naming::{AcceptedCount, Money, Naming, Quantity, Quotes};
pub use crate::opened::Opened;
pub use crate::seat::{Seat, WatchRow};
pub use crate::segment::Segment;
pub use crate::working::{MAX_ROWS, WorkerReport};
