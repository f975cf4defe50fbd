//! The rows of the order files of a day, run in their order.
ghost use Rattle.std.specs.Prelude.{◌≡◌, ◌≤◌, ◌<◌, ◌+◌, ◌^◌, IfOk, OnOk, length, map};
ghost use Rattle.xm_replay.specs.Taken.{FilesRun, HasTaken, RowsRun, TakesOn, taken_so_far};
ghost use Rattle.xm_files.specs.RecordTexts.{texts_in};
ghost use Rattle.xm_files.specs.declared.order_files.TheConstants.{MAX_FILES};
ghost use Rattle.xm_files.specs.declared.orders.TheConstants.{MAX_ROWS};

use crate::desks::{OpenDay, open_day, take_more};
use crate::faults::DayFault;
use std::alloc::Global;
use std::io::Read;
use xm_config::SegmentConfig;
use xm_files::{
    Batch, FileFault, OrderFiles, OrdersFault, Part, RecordTexts, RowReader, SegmentNames,
};
use xm_name_index::Storage;
use xm_texts::AskedTexts;

/// How many rows are read before they are taken, so that they are still in a near cache.
const BATCH: Part = Part::Rows(512);

/// Reads the order files of a day, one after another, and has the desks of a segment take their rows, batch by batch, which tell the
/// texts that are asked for. A file is read when those before it are taken. The first fault of a file is answered, if one has any, and else
/// what came of the rows.
pub fn run_rows<R: Read>(
    storage: Storage<Global>,
    config: &SegmentConfig,
    names: &SegmentNames,
    orders: &mut [R],
    asked: AskedTexts,
) -> Result<Result<OpenDay, DayFault>, OrdersFault>
    requires { length orders.old ≤ MAX_FILES }
    ensures { FilesRun (HasTaken asked names.now) config.now names.now (map R.remaining orders.old) result }
{
    let mut files = OrderFiles::of(orders);
    let mut day = open_day(storage, config, asked);
    'files: loop {
        let file = match files.next(storage.alloc) {
            Ok(Some(file)) => file,
            Ok(None) => return Ok(day),
            Err(fault) => return Err(fault),
        };
        let mut rows = file.rows();
        let mut texts = file.texts(storage.alloc);
        day = match take_file(storage, config, names, &mut texts, &mut rows, day) {
            Ok(day) => day,
            Err(fault) => return Err(files.fault(fault)),
        };
        files.end(rows.line());
    }
}

/// Reads the rows of an order file, whose texts these are, and has the desks of a segment take them behind the rows that they took. A fault of
/// the file comes before any other: where the segment can't be opened or memory is wanting, the rest is read all the same.
fn take_file(
    storage: Storage<Global>,
    config: &SegmentConfig,
    names: &SegmentNames,
    texts: &mut RecordTexts<'_>,
    file: &mut RowReader<'_>,
    mut day: Result<OpenDay, DayFault>,
) -> Result<Result<OpenDay, DayFault>, FileFault>
    requires room { taken_so_far day + MAX_ROWS < 2 ^ 64 }
    ensures taken { RowsRun (TakesOn names.now (texts_in texts.old) day) config.now names.now file.old result }
    ensures counted { IfOk result (λ after. taken_so_far after ≤ taken_so_far day + MAX_ROWS) }
    ensures end { OnOk result (file.new.line ≡ file.old.line + length file.old.records) }
{
    let mut batch = Batch::new(storage.alloc);
    'parts: loop {
        let more = match file.read(storage.alloc, &mut batch, BATCH, names, config) {
            Ok(more) => more,
            Err(fault) => return Err(fault),
        };
        day = take_more(storage, day, names, texts, batch.rows());
        if !more {
            return Ok(day);
        }
    }
}
