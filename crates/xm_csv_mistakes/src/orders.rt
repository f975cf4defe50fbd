//! The mistakes of an order file, and of a carry file.
ghost use Rattle.std.specs.Prelude.{◌≡◌, ◌≤◌, length, IfOk};
ghost use Rattle.xm_files.specs.Carry.{carry_of};
ghost use Rattle.xm_files.specs.Orders.{orders_of};
ghost use Rattle.xm_mistakes.specs.Mistakes.{fault_in, first_fault};

use crate::csv_file::csv_mistakes;
use crate::faults::{carry_fault, orders_fault};
use crate::run::{Reading, Run};
use std::alloc::Global;
use xm_config::SegmentConfig;
use xm_files::{FileFault, SegmentNames};
use xm_memory::OutOfMemory;
use xm_mistakes::{Mistake, led_by};
use xm_name_index::Storage;

/// The mistakes of an order file, at most so many: none where a run of this segment reads the file without a fault, and else the fault
/// of the run first.
///
/// Each later one is the first fault of the file without the records that were told before. The records of the file alone are numbered,
/// the header being 1. Of a record each mistaken field is told by itself.
pub fn order_mistakes(
    alloc: Global,
    bytes: &[u8],
    names: &SegmentNames,
    config: &SegmentConfig,
    most: usize,
) -> Result<Vec<Mistake>, OutOfMemory>
    requires { 1 ≤ most }
    ensures first { IfOk result (λ found. first_fault found.items ≡ fault_in (orders_of names.now config.now bytes.now)) }
    ensures few { IfOk result (λ found. length found.items ≤ most) }
{
    match orders_fault(alloc, bytes, names, config) {
        Ok(None) => Ok(Vec::new(alloc)),
        Ok(Some(fault)) => {
            let found = found_in(alloc, Reading::Orders, bytes, names, config, &fault, most)?;
            led_by(alloc, fault, found, most)
        }
        Err(wanting) => Err(wanting),
    }
}

/// The mistakes of a carry file, at most so many: none where a run of this segment reads the file without a fault, and else the fault
/// of the run first. The later ones are those of an order file.
pub fn carry_mistakes(
    storage: Storage<Global>,
    bytes: &[u8],
    names: &SegmentNames,
    config: &SegmentConfig,
    most: usize,
) -> Result<Vec<Mistake>, OutOfMemory>
    requires securities { length names.now.securities ≡ length config.now.securities }
    requires members { length names.now.members ≡ config.now.members }
    requires some { 1 ≤ most }
    ensures first { IfOk result (λ found. first_fault found.items ≡ fault_in (carry_of names.now config.now bytes.now)) }
    ensures few { IfOk result (λ found. length found.items ≤ most) }
{
    let alloc = storage.alloc;
    match carry_fault(storage, bytes, names, config) {
        Ok(None) => Ok(Vec::new(alloc)),
        Ok(Some(fault)) => {
            let reading = Reading::Carry(storage);
            let found = found_in(alloc, reading, bytes, names, config, &fault, most)?;
            led_by(alloc, fault, found, most)
        }
        Err(wanting) => Err(wanting),
    }
}

/// The mistakes of a file that has a first fault.
fn found_in(
    alloc: Global,
    reading: Reading,
    bytes: &[u8],
    names: &SegmentNames,
    config: &SegmentConfig,
    fault: &FileFault,
    most: usize,
) -> Result<Vec<Mistake>, OutOfMemory> {
    let run = Run {
        alloc,
        reading,
        names,
        config,
    };
    csv_mistakes(&run, bytes, *fault, most)
}
