//! The rows of the order files of a day, which an observer sees in their order.
ghost use Rattle.std.specs.Prelude.{ℕ, ◌≡◌, ◌+◌, ◌<◌, ◌≤◌, ◌^◌, [], IfOk, OnOk, length, map};
ghost use Rattle.xm_config.specs.Day.{after_row, after_rows, day_of};
ghost use Rattle.xm_config.specs.declared.config.SegmentConfig.{SegmentConfig};
ghost use Rattle.xm_files.specs.declared.order_files.TheConstants.{MAX_FILES};
ghost use Rattle.xm_files.specs.declared.orders.TheConstants.{MAX_ROWS};
ghost use Rattle.xm_observers.specs.Observed.{HasObserved, ObservesOn, observed_so_far, seen_of_rows};
ghost use Rattle.xm_replay.specs.Taken.{FilesRun, RowsRun};

use crate::observer::Observer;
use std::alloc::Global;
use std::io::Read;
use xm_config::{Row, SegmentConfig};
use xm_desk::{Desk, open_desks};
use xm_files::{Batch, FileFault, OrderFiles, OrdersFault, Part, RowReader, SegmentNames};
use xm_memory::OutOfMemory;
use xm_name_index::Storage;
use xm_replay::{DayFault, DayReport};

/// How many rows are read before they are taken, so that they are still in a near cache.
const BATCH: Part = Part::Rows(512);

/// The desks of a segment, how many rows they accepted and refused, and who saw these rows.
#[derive(Drop)]
pub struct ObservedDay<O: Drop> {
    pub desks: Vec<Desk<Global>>,
    pub report: DayReport,
    pub observer: O,
}

/// Reads the order files of a day, one after another, and has the desks of a segment take their rows, which an observer sees that has
/// seen none. The first fault of a file is answered, if one has any, and else what came of the rows.
pub fn observe_rows<R: Read, O: Observer>(
    storage: Storage<Global>,
    config: &SegmentConfig,
    names: &SegmentNames,
    orders: &mut [R],
    observer: O,
) -> Result<Result<ObservedDay<O>, DayFault>, OrdersFault>
    requires files { length orders.old ≤ MAX_FILES }
    requires none { O.rows (O.seen observer) ≡ 0 }
    ensures { FilesRun (λ texts. HasObserved O.seen O.next (O.seen observer)) config.now names.now (map R.remaining orders.old) result }
{
    let mut files = OrderFiles::of(orders);
    let mut day = open_day(storage, config, observer);
    'files: loop {
        let file = match files.next(storage.alloc) {
            Ok(Some(file)) => file,
            Ok(None) => return Ok(day),
            Err(fault) => return Err(fault),
        };
        let mut rows = file.rows();
        day = match observe_file(storage.alloc, config, names, &mut rows, day) {
            Ok(day) => day,
            Err(fault) => return Err(files.fault(fault)),
        };
        files.end(rows.line());
    }
}

/// Opens the desks of a segment for its day.
fn open_day<O: Observer>(
    storage: Storage<Global>,
    config: &SegmentConfig,
    observer: O,
) -> Result<ObservedDay<O>, DayFault>
    requires { O.rows (O.seen observer) ≡ 0 }
    ensures opened { HasObserved O.seen O.next (O.seen observer) config.now [] result }
    ensures rows { IfOk result (λ day. O.rows (O.seen day.observer) ≤ observed_so_far result) }
{
    let desks = open_desks(storage, config)?;
    let report = DayReport {
        accepted: 0,
        refused: 0,
    };
    Ok(ObservedDay {
        desks,
        report,
        observer,
    })
}

/// Reads the rows of an order file, and has the desks of a segment take them behind the rows that they took. A fault of the file comes
/// before any other: where the segment can't be opened or memory is wanting, the rest is read all the same.
fn observe_file<O: Observer>(
    alloc: Global,
    config: &SegmentConfig,
    names: &SegmentNames,
    file: &mut RowReader<'_>,
    mut day: Result<ObservedDay<O>, DayFault>,
) -> Result<Result<ObservedDay<O>, DayFault>, FileFault>
    requires room { observed_so_far day + MAX_ROWS < 2 ^ 64 }
    requires rows { IfOk day (λ d. O.rows (O.seen d.observer) ≤ observed_so_far day) }
    ensures taken { RowsRun (ObservesOn O.seen O.next day) config.now names.now file.old result }
    ensures counted { IfOk result (λ after. observed_so_far after ≤ observed_so_far day + MAX_ROWS) }
    ensures rows { IfOk result (λ after. IfOk after (λ d. O.rows (O.seen d.observer) ≤ observed_so_far after)) }
    ensures end { OnOk result (file.new.line ≡ file.old.line + length file.old.records) }
{
    let mut batch = Batch::new(alloc);
    'parts: loop {
        let more = match file.read(alloc, &mut batch, BATCH, names, config) {
            Ok(more) => more,
            Err(fault) => return Err(fault),
        };
        day = observe_more(day, batch.rows());
        if !more {
            return Ok(day);
        }
    }
}

/// Takes more rows, where nothing went wrong before.
fn observe_more<O: Observer>(
    day: Result<ObservedDay<O>, DayFault>,
    rows: &[Row],
) -> Result<ObservedDay<O>, DayFault>
    requires room { observed_so_far day + length rows.now < 2 ^ 64 }
    requires rows { IfOk day (λ d. O.rows (O.seen d.observer) ≤ observed_so_far day) }
    ensures taken { (config : SegmentConfig) → ObservesOn O.seen O.next day config rows.now result }
    ensures counted { observed_so_far result ≤ observed_so_far day + length rows.now }
    ensures rows { IfOk result (λ d. O.rows (O.seen d.observer) ≤ observed_so_far result) }
{
    let ObservedDay {
        mut desks,
        report,
        mut observer,
    } = day?;
    let report = take_rows(desks.as_mut_slice(), rows, report, &mut observer)?;
    Ok(ObservedDay {
        desks,
        report,
        observer,
    })
}

/// Takes rows in their order, counts which were accepted and refused, and has an observer see each.
fn take_rows<O: Observer>(
    desks: &mut [Desk<Global>],
    rows: &[Row],
    before: DayReport,
    observer: &mut O,
) -> Result<DayReport, OutOfMemory>
    requires room { before.accepted + before.refused + length rows.now < 2 ^ 64 }
    requires rows { O.rows (O.seen observer.old) ≤ before.accepted + before.refused }
    ensures taken { IfOk result (λ report. day_of desks.new report.accepted report.refused ≡ after_rows (day_of desks.old before.accepted before.refused) rows.now) }
    ensures counted { IfOk result (λ report. report.accepted + report.refused ≡ before.accepted + before.refused + length rows.now) }
    ensures seen { OnOk result (O.seen observer.new ≡ seen_of_rows O.next (O.seen observer.old) (day_of desks.old before.accepted before.refused) rows.now) }
    ensures rows { IfOk result (λ report. O.rows (O.seen observer.new) ≤ report.accepted + report.refused) }
{
    let mut report = before;
    for row in rows {
        take_row(desks, row, &mut report, observer)?;
    }
    Ok(report)
}

/// Takes a row, counts it, and has an observer see it.
#[inline(always)]
fn take_row<O: Observer>(
    desks: &mut [Desk<Global>],
    row: &Row,
    report: &mut DayReport,
    observer: &mut O,
) -> Result<(), OutOfMemory>
    requires room { report.old.accepted + report.old.refused + 1 < 2 ^ 64 }
    requires rows { O.rows (O.seen observer.old) ≤ report.old.accepted + report.old.refused }
    ensures taken { OnOk result (day_of desks.new report.new.accepted report.new.refused ≡ after_row (day_of desks.old report.old.accepted report.old.refused) row.now) }
    ensures counted { OnOk result (report.new.accepted + report.new.refused ≡ report.old.accepted + report.old.refused + 1) }
    ensures seen { OnOk result (O.seen observer.new ≡ O.next (O.seen observer.old) (day_of desks.old report.old.accepted report.old.refused) row.now) }
    ensures rows { OnOk result (O.rows (O.seen observer.new) ≤ report.new.accepted + report.new.refused) }
{
    let answer = observer.take(desks, row)?;
    *report = report.counted(&answer);
    Ok(())
}
