//! The check of a segment file.
ghost use Rattle.std.specs.Prelude.{◌≡◌, IfErr, IfOk, None, OnOk};
ghost use Rattle.xm_replay.specs.Taken.{IsOpenFault};
ghost use Rattle.xm_day.specs.Checks.{IsCheck, check_line};
ghost use Rattle.xm_config.specs.Opening.{segment_fault};

use crate::opening::open_files;
use std::alloc::{Allocator, Global};
use std::io::Read;
use xm_config::{OpenFault, SegmentConfig};
use xm_desk::open_desks;
use xm_memory::OutOfMemory;
use xm_name_index::Storage;
use xm_replay::DayFault;
use xm_texts::fields::{push_number, push_text};

/// Checks a segment file: reads it, sees that the segment opens, and gives its line: how many securities and members it has. The
/// checks come in this order.
///
/// `Segment`: the file has a fault. `Open`: the segment can't be opened. `OutOfMemory`: a growth was refused.
pub fn check<S: Read>(storage: Storage<Global>, segment: &mut S) -> Result<Vec<u8>, DayFault>
    ensures { IsCheck (S.remaining segment.old) result }
{
    let (config, _names) = open_files(storage, segment)?;
    see_it_open(storage, &config)?;
    Ok(check_line(storage.alloc, &config)?)
}

/// Opens a segment and closes it again, which is a function of its own, so that what was opened is dropped here alone.
fn see_it_open<A: Allocator + Copy>(
    storage: Storage<A>,
    config: &SegmentConfig,
) -> Result<(), OpenFault>
    ensures sound { OnOk result (segment_fault config.now ≡ None) }
    ensures refused { IfErr result (IsOpenFault config.now) }
{
    let _desks = open_desks(storage, config)?;
    Ok(())
}

/// The line of a segment, made whole.
fn check_line<A: Allocator>(alloc: A, config: &SegmentConfig) -> Result<Vec<u8, A>, OutOfMemory>
    ensures { IfOk result (λ line. line.items ≡ check_line config.now) }
{
    let mut line = Vec::new(alloc);
    push_text(&mut line, "OK ")?;
    push_number(&mut line, config.securities.as_slice().len() as u64)?;
    push_text(&mut line, " securities ")?;
    push_number(&mut line, u64::from(config.members))?;
    push_text(&mut line, " members\n")?;
    Ok(line)
}
