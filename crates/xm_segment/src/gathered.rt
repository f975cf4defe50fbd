//! What a segment came to, and why it isn't gathered.
ghost use Rattle.std.specs.Prelude.{◌≡◌, map, sum_by};
ghost use Rattle.xm_segment.specs.Gathering.{value_of, totals_of};

use std::alloc::Global;
use thiserror::Error;
use xm_desk::Desk;
use xm_memory::OutOfMemory;
use xm_rules::Totals;

/// Why a segment is not gathered, in the order of the checks.
#[derive(Clone, Copy, PartialEq, Eq, Debug, Error)]
pub enum GatherFault {
    /// There are fewer seats than workers.
    #[error("a worker's seat is missing")]
    MissingSeat,
    /// A growth was refused.
    #[error("out of memory")]
    OutOfMemory(OutOfMemory),
}

/// What a segment came to.
#[derive(Drop)]
pub struct Gathered {
    /// The desks of its securities, in index order.
    pub desks: Vec<Desk<Global>>,
    /// What each of them traded, in units and in ticks times units.
    pub totals: Vec<Totals>,
    /// The units over all securities.
    pub quantity: u64,
    /// The money over all securities, in ten-thousandths of a euro.
    pub money: u128,
    ghost totals_are: { totals.items ≡ map totals_of desks.items },
    ghost quantity_is: { quantity ≡ sum_by (λ j. (totals_of j).quantity) desks.items },
    ghost money_is: { money ≡ sum_by value_of desks.items },
}
