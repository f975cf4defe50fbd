//! The files that a segment opens with.
ghost use Rattle.std.specs.Prelude.{◌≡◌, IfOk, None, Some, length, option_map};
ghost use Rattle.xm_day.specs.Days.{OpeningRead};

use std::alloc::Global;
use std::io::Read;
use xm_config::SegmentConfig;
use xm_files::{SegmentNames, read_carry, read_segment};
use xm_name_index::Storage;
use xm_replay::DayFault;

/// Reads a segment file: the settings and the names.
///
/// `Segment`: the file has a fault.
pub fn open_files<S: Read>(
    storage: Storage<Global>,
    segment: &mut S,
) -> Result<(SegmentConfig, SegmentNames), DayFault>
    ensures read { OpeningRead (S.remaining segment.old) None result }
    ensures securities { IfOk result (λ read. length read.1.securities ≡ length read.0.securities) }
    ensures members { IfOk result (λ read. length read.1.members ≡ read.0.members) }
{
    match read_segment(storage.alloc, segment) {
        Ok(read) => Ok(read),
        Err(fault) => Err(DayFault::Segment(fault)),
    }
}

/// Reads a segment file, and a carry file if there is one.
///
/// `Segment`, `Carry`: the file has a fault.
pub fn open_day_files<S: Read, C: Read>(
    storage: Storage<Global>,
    segment: &mut S,
    carried: &mut Option<C>,
) -> Result<(SegmentConfig, SegmentNames), DayFault>
    ensures read { OpeningRead (S.remaining segment.old) (option_map C.remaining carried.old) result }
    ensures securities { IfOk result (λ read. length read.1.securities ≡ length read.0.securities) }
    ensures members { IfOk result (λ read. length read.1.members ≡ read.0.members) }
{
    match carried {
        None => open_files(storage, segment),
        Some(carried) => open_carried_files(storage, segment, carried),
    }
}

/// Reads a segment file and a carry file: the settings, with what the carry file lists for each security, and the names.
///
/// `Segment`, `Carry`: the file has a fault.
pub fn open_carried_files<S: Read, C: Read>(
    storage: Storage<Global>,
    segment: &mut S,
    carried: &mut C,
) -> Result<(SegmentConfig, SegmentNames), DayFault>
    ensures read { OpeningRead (S.remaining segment.old) (Some (C.remaining carried.old)) result }
    ensures securities { IfOk result (λ read. length read.1.securities ≡ length read.0.securities) }
    ensures members { IfOk result (λ read. length read.1.members ≡ read.0.members) }
{
    let (config, names) = open_files(storage, segment)?;
    match read_carry(storage, carried, &names, config) {
        Ok(opened) => Ok((opened, names)),
        Err(fault) => Err(DayFault::Carry(fault)),
    }
}
