//! The day of files without a mistake, as far as its statement leaves it unsaid.
ghost use Rattle.std.specs.Prelude.{◌≡◌, ◌≤◌, IfOk, length, map};
ghost use Rattle.xm_config.specs.Day.{day_of};
ghost use Rattle.xm_day.specs.Days.{completeness_of};
ghost use Rattle.xm_explanations.specs.Explained.{LeavesUnsaid, SeesRows, bytes_read};
ghost use Rattle.xm_explanations.specs.Unsaid.{unsaid_in};
ghost use Rattle.xm_files.specs.declared.order_files.TheConstants.{MAX_FILES};
ghost use Rattle.xm_explanations.specs.declared.read_files.ReadFile.{ReadFile};

use crate::read_files::ReadFile;
use crate::unsaid::{RefusedRows, Standing, UnsaidRows};
use std::alloc::Global;
use xm_config::SegmentConfig;
use xm_csv_mistakes::{FoundRecord, find_records};
use xm_day::{Completeness, completeness_of};
use xm_files::SegmentNames;
use xm_memory::OutOfMemory;
use xm_name_index::Storage;
use xm_observers::{ObservedDay, observe_rows};
use xm_replay::DayReport;

/// What the statement of a day leaves unsaid.
#[derive(Drop)]
pub struct UnsaidDay {
    pub names: SegmentNames,
    /// How many rows were accepted and refused.
    pub report: DayReport,
    pub completeness: Completeness,
    /// The refused rows by their refusals, in the order in which these came first.
    pub refused: Vec<RefusedRows>,
    /// Where the first row of each refusal stands.
    pub places: Vec<FoundRecord>,
    /// Where each security stands.
    pub standing: Vec<Standing>,
}

/// What is seen of the rows of a day.
#[derive(Drop)]
struct SeenDay {
    report: DayReport,
    completeness: Completeness,
    rows: UnsaidRows,
}

/// Takes the rows of the order files of a segment, and sees what is unsaid of them.
pub(crate) fn unsaid_day(
    storage: Storage<Global>,
    names: SegmentNames,
    config: &SegmentConfig,
    orders: &[ReadFile<'_>],
) -> Result<UnsaidDay, OutOfMemory>
    requires few { length orders.now ≤ MAX_FILES }
    ensures { IfOk result (LeavesUnsaid names config.now (map (λ (file : ReadFile). bytes_read file.text) orders.now)) }
{
    let seen = seen_day(storage, &names, config, orders)?;
    let places = places_of(storage.alloc, orders, seen.rows.refused.as_slice())?;
    let SeenDay {
        report,
        completeness,
        rows: UnsaidRows { refused, standing },
    } = seen;
    Ok(UnsaidDay {
        names,
        report,
        completeness,
        refused,
        places,
        standing,
    })
}

/// Has the desks of a segment take the rows of order files, and sees them.
fn seen_day(
    storage: Storage<Global>,
    names: &SegmentNames,
    config: &SegmentConfig,
    orders: &[ReadFile<'_>],
) -> Result<SeenDay, OutOfMemory>
    requires few { length orders.now ≤ MAX_FILES }
    ensures { IfOk result (λ day. SeesRows names.now config.now (map (λ (file : ReadFile). bytes_read file.text) orders.now) day.report day.completeness (unsaid_in day.rows)) }
{
    let rows = UnsaidRows::of(storage.alloc, config)?;
    let mut texts = texts_of(storage.alloc, orders)?;
    match observe_rows(storage, config, names, texts.as_mut_slice(), rows) {
        Ok(Ok(observed)) => Ok(seen_in(observed)),
        Ok(Err(fault)) => Err(OutOfMemory::told_by(&fault)),
        Err(fault) => Err(OutOfMemory::told_by(&fault)),
    }
}

/// What was seen of a day that was observed.
fn seen_in(observed: ObservedDay<UnsaidRows>) -> SeenDay
    ensures report { result.report ≡ observed.report }
    ensures completeness { result.completeness ≡ completeness_of (day_of observed.desks.items observed.report.accepted observed.report.refused) }
    ensures rows { result.rows ≡ observed.observer }
{
    let completeness = completeness_of(observed.desks.as_slice(), &observed.report);
    let ObservedDay {
        desks: _,
        report,
        observer,
    } = observed;
    SeenDay {
        report,
        completeness,
        rows: observer,
    }
}

/// The bytes of files.
fn texts_of<'t>(alloc: Global, files: &'t [ReadFile<'_>]) -> Result<Vec<&'t [u8]>, OutOfMemory>
    ensures { IfOk result (λ texts. map (λ t. t.now) texts.items ≡ map (λ (file : ReadFile). bytes_read file.text) files.entry.now) }
{
    let mut texts = Vec::new(alloc);
    for file in files {
        texts.push(file.bytes())?;
    }
    Ok(texts)
}

/// Where the first rows of refusals stand.
fn places_of(
    alloc: Global,
    orders: &[ReadFile<'_>],
    refused: &[RefusedRows],
) -> Result<Vec<FoundRecord>, OutOfMemory>
    ensures { IfOk result (λ places. length places.items ≡ length refused.now) }
{
    let mut numbers = Vec::new(alloc);
    for rows in refused {
        numbers.push(rows.first)?;
    }
    let texts = texts_of(alloc, orders)?;
    find_records(alloc, texts.as_slice(), numbers.as_slice())
}
