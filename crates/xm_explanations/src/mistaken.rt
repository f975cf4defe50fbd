//! The mistakes of a day's files, each with the file that it stands in.
ghost use Rattle.std.specs.Prelude.{◌≡◌, ◌+◌, ◌≤◌, IfOk, IfSome, None, OnOk, Some, is_some, length, nat_lt, true};
ghost use Rattle.xm_explanations.specs.Explained.{IsCarriedBy, IsOpening, after_first, settings_with, fault_as, first_told, found_fault, fault_of_opening, order_fault, orders_fault, read_as};
ghost use Rattle.xm_files.specs.FileFaults.{cause_of, fault_at};
ghost use Rattle.xm_files.specs.Segment.{segment_of};
ghost use Rattle.xm_files.specs.declared.order_files.TheConstants.{MAX_FILES};

use crate::read_files::{ReadFile, reason};
use std::alloc::Global;
use xm_config::SegmentConfig;
use xm_csv_mistakes::{carry_mistakes, order_mistakes};
use xm_files::{FileFault, ReadFault, SegmentNames, read_carry, read_segment};
use xm_memory::OutOfMemory;
use xm_mistakes::{Mistake, OpenMistake};
use xm_name_index::Storage;
use xm_segment_mistakes::{opening_mistakes, segment_mistakes};

/// So many mistakes are told at most.
pub(crate) const MOST: usize = 20;

/// As which file of a day one is read.
#[derive(Clone, Copy)]
pub enum Reading {
    Segment,
    Carry,
    /// As the order file with this number, the first being 1.
    Orders(u32),
}

/// The mistakes of a file.
#[derive(Drop)]
pub enum Found {
    /// Those of the file as it is read.
    Read(Reading, Vec<Mistake>),
    /// Those for which the segment isn't opened.
    Opening(Vec<OpenMistake>),
}

/// A file with mistakes.
#[derive(Drop)]
pub struct MistakenFile<'a> {
    pub path: &'a str,
    pub found: Found,
}

impl Found {
    /// How many mistakes there are.
    fn len(&self) -> usize
        ensures { nat_lt 0 result ≡ is_some (found_fault self.now) }
    {
        match self {
            Found::Read(_, found) => found.len(),
            Found::Opening(found) => found.len(),
        }
    }
}

/// How many mistakes there are.
fn count(told: &[MistakenFile<'_>]) -> usize
    ensures { nat_lt 0 result ≡ is_some (first_told told.now) }
{
    match told {
        [] => 0,
        [file, more @ ..] => file.found.len().saturating_add(count(more)),
    }
}

/// How many mistakes may still be told.
fn room(told: &[MistakenFile<'_>]) -> usize
    ensures { result ≡ 0 → is_some (first_told told.now) ≡ true }
{
    MOST.saturating_sub(count(told))
}

/// Whether there is a mistake.
pub(crate) fn is_mistaken(told: &[MistakenFile<'_>]) -> bool
    ensures { result ≡ is_some (first_told told.now) }
{
    count(told) > 0
}

/// Adds the mistakes of a file.
fn push_found<'a>(
    told: &mut Vec<MistakenFile<'a>>,
    path: &'a str,
    found: Found,
) -> Result<(), OutOfMemory>
    ensures { OnOk result (first_told told.new.items ≡ after_first (first_told told.old.items) (found_fault found)) }
{
    told.push(MistakenFile { path, found })?;
    Ok(())
}

/// Adds why a file wasn't read.
pub(crate) fn push_unread<'a>(
    alloc: Global,
    told: &mut Vec<MistakenFile<'a>>,
    path: &'a str,
    reading: Reading,
    fault: &ReadFault,
) -> Result<(), OutOfMemory>
    ensures { OnOk result (first_told told.new.items ≡ after_first (first_told told.old.items) (Some (fault_as reading (fault_at 0 (cause_of fault.now))))) }
{
    let words = reason(alloc, fault)?;
    let cause = fault.cause();
    let mut found = Vec::new(alloc);
    found.push(Mistake {
        fault: FileFault { line: 0, cause },
        words,
    })?;
    push_found(told, path, Found::Read(reading, found))
}

/// Adds why files weren't read, behind a mistake that was told: the carry file, and the order files, of which the first has this number.
pub(crate) fn push_all_unread<'a>(
    alloc: Global,
    told: &mut Vec<MistakenFile<'a>>,
    carried: &Option<ReadFile<'a>>,
    orders: &[ReadFile<'a>],
) -> Result<(), OutOfMemory>
    requires few { length orders.now ≤ MAX_FILES }
    ensures { OnOk result (IfSome (first_told told.old.items) (λ first. first_told told.new.items ≡ Some first)) }
{
    if let Some(file) = carried {
        push_if_unread(alloc, told, file, Reading::Carry)?;
    }
    push_unread_orders(alloc, told, orders, 1)
}

/// The same of order files, of which the first has this number.
fn push_unread_orders<'a>(
    alloc: Global,
    told: &mut Vec<MistakenFile<'a>>,
    files: &[ReadFile<'a>],
    number: u32,
) -> Result<(), OutOfMemory>
    requires few { number + length files.now ≤ MAX_FILES + 1 }
    ensures { OnOk result (IfSome (first_told told.old.items) (λ first. first_told told.new.items ≡ Some first)) }
{
    match files {
        [] => Ok(()),
        [file, more @ ..] => {
            push_if_unread(alloc, told, file, Reading::Orders(number))?;
            push_unread_orders(alloc, told, more, number + 1)
        }
    }
}

/// The same of one file.
fn push_if_unread<'a>(
    alloc: Global,
    told: &mut Vec<MistakenFile<'a>>,
    file: &ReadFile<'a>,
    reading: Reading,
) -> Result<(), OutOfMemory>
    ensures { OnOk result (IfSome (first_told told.old.items) (λ first. first_told told.new.items ≡ Some first)) }
{
    match &file.text {
        Ok(_) => Ok(()),
        Err(fault) => push_unread(alloc, told, file.path, reading, fault),
    }
}

/// Adds the mistakes of a segment file, and answers the settings and the names where it has none.
pub(crate) fn open_segment<'a>(
    alloc: Global,
    told: &mut Vec<MistakenFile<'a>>,
    file: &ReadFile<'a>,
) -> Result<Option<(SegmentConfig, SegmentNames)>, OutOfMemory>
    requires { first_told told.old.items ≡ None }
    ensures opened { IfOk result (IsOpening (read_as segment_of file.now.text) (first_told told.new.items)) }
    ensures securities { IfOk result (λ opened. IfSome opened (λ read. length read.1.securities ≡ length read.0.securities)) }
    ensures members { IfOk result (λ opened. IfSome opened (λ read. length read.1.members ≡ read.0.members)) }
{
    let bytes = match &file.text {
        Ok(bytes) => bytes.as_slice(),
        Err(fault) => {
            push_unread(alloc, told, file.path, Reading::Segment, fault)?;
            return Ok(None);
        }
    };
    let found = segment_mistakes(alloc, bytes, MOST)?;
    if !found.is_empty() {
        push_found(told, file.path, Found::Read(Reading::Segment, found))?;
        return Ok(None);
    }
    let mut reader = bytes;
    match read_segment(alloc, &mut reader) {
        Ok(read) => Ok(Some(read)),
        Err(fault) => Err(OutOfMemory::told_by(&fault)),
    }
}

/// Adds the mistakes of a carry file, if there is one, and answers the settings with what it lists, or as they are where it has a mistake.
pub(crate) fn open_carried<'a>(
    storage: Storage<Global>,
    told: &mut Vec<MistakenFile<'a>>,
    file: &Option<ReadFile<'a>>,
    names: &SegmentNames,
    config: SegmentConfig,
) -> Result<SegmentConfig, OutOfMemory>
    requires none { first_told told.old.items ≡ None }
    requires securities { length names.now.securities ≡ length config.securities }
    requires members { length names.now.members ≡ config.members }
    ensures { IfOk result (λ opened. IsCarriedBy (settings_with names.now config file.now) (first_told told.new.items) opened) }
{
    let Some(file) = file else {
        return Ok(config);
    };
    let bytes = match &file.text {
        Ok(bytes) => bytes.as_slice(),
        Err(fault) => {
            push_unread(storage.alloc, told, file.path, Reading::Carry, fault)?;
            return Ok(config);
        }
    };
    let found = carry_mistakes(storage, bytes, names, &config, MOST)?;
    if !found.is_empty() {
        push_found(told, file.path, Found::Read(Reading::Carry, found))?;
        return Ok(config);
    }
    let mut reader = bytes;
    match read_carry(storage, &mut reader, names, config) {
        Ok(opened) => Ok(opened),
        Err(fault) => Err(OutOfMemory::told_by(&fault)),
    }
}

/// Adds the mistakes of order files, of which the first has this number, as far as there is room for them.
pub(crate) fn push_orders<'a>(
    alloc: Global,
    told: &mut Vec<MistakenFile<'a>>,
    files: &[ReadFile<'a>],
    number: u32,
    names: &SegmentNames,
    config: &SegmentConfig,
) -> Result<(), OutOfMemory>
    requires few { number + length files.now ≤ MAX_FILES + 1 }
    ensures { OnOk result (first_told told.new.items ≡ after_first (first_told told.old.items) (orders_fault names.now config.now number files.now)) }
{
    match files {
        [] => Ok(()),
        [file, more @ ..] => {
            push_order(alloc, told, file, number, names, config)?;
            push_orders(alloc, told, more, number + 1, names, config)
        }
    }
}

/// Adds the mistakes of the order file with this number.
fn push_order<'a>(
    alloc: Global,
    told: &mut Vec<MistakenFile<'a>>,
    file: &ReadFile<'a>,
    number: u32,
    names: &SegmentNames,
    config: &SegmentConfig,
) -> Result<(), OutOfMemory>
    ensures { OnOk result (first_told told.new.items ≡ after_first (first_told told.old.items) (order_fault names.now config.now number file.now)) }
{
    let most = room(told.as_slice());
    if most == 0 {
        return Ok(());
    }
    let reading = Reading::Orders(number);
    match &file.text {
        Ok(bytes) => {
            let found = order_mistakes(alloc, bytes.as_slice(), names, config, most)?;
            push_found(told, file.path, Found::Read(reading, found))
        }
        Err(fault) => push_unread(alloc, told, file.path, reading, fault),
    }
}

/// Adds the mistakes for which a segment isn't opened, as far as there is room for them.
pub(crate) fn push_opening<'a>(
    alloc: Global,
    told: &mut Vec<MistakenFile<'a>>,
    path: &'a str,
    names: &SegmentNames,
    config: &SegmentConfig,
) -> Result<(), OutOfMemory>
    ensures { OnOk result (first_told told.new.items ≡ after_first (first_told told.old.items) (fault_of_opening config.now)) }
{
    let most = room(told.as_slice());
    if most == 0 {
        return Ok(());
    }
    let found = opening_mistakes(alloc, names, config, most)?;
    push_found(told, path, Found::Opening(found))
}
