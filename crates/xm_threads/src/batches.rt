//! The rows of order files, taken on threads, a batch while the next one is read.
ghost use Rattle.std.specs.Prelude.{◌≡◌, ◌≤◌, ◌<◌, ◌+◌, IfOk, OnOk, length, map};
ghost use Rattle.std.specs.Thread.{IsSync};
ghost use Rattle.xm_replay.specs.Taken.{FilesRun, RowsRun, RowsTaken};
ghost use Rattle.xm_threads.specs.Lanes.{IsReadBehind, TookFile, TookMore};
ghost use Rattle.xm_files.specs.Batches.{rows_so_far};
ghost use Rattle.xm_files.specs.RecordTexts.{texts_in};
ghost use Rattle.xm_files.specs.declared.order_files.TheConstants.{MAX_FILES};
ghost use Rattle.xm_files.specs.declared.orders.TheConstants.{MAX_ROWS};

use crate::lanes::{DeskLane, OpenLanes, closed, open_apart, take_apart};
use crate::merged::Merged;
use std::alloc::Global;
use std::io::Read;
use std::thread::Threads;
use std::{mem, thread};
use xm_config::SegmentConfig;
use xm_files::{
    Batch, FileFault, FileParts, OrderFiles, OrdersFault, RecordTexts, RowReader, SegmentNames,
};
use xm_name_index::Storage;
use xm_replay::{DayFault, OpenDay};
use xm_texts::AskedTexts;

/// Reads the order files of a day, one after another, and has the securities of a segment take their rows on so many threads, each its
/// own, and tell the texts that are asked for. The first fault of a file is answered, if one has any, and else what came of the rows.
pub fn run_apart<T: Threads + Sync, R: Read>(
    rt: &T,
    threads: u32,
    storage: Storage<Global>,
    config: &SegmentConfig,
    names: &SegmentNames,
    orders: &mut [R],
    asked: AskedTexts,
) -> Result<Result<OpenDay, DayFault>, OrdersFault>
    requires threads { 1 ≤ threads }
    requires files { length orders.old ≤ MAX_FILES }
    ensures { FilesRun (RowsTaken asked names.now) config.now names.now (map R.remaining orders.old) result }
{
    let alloc = storage.alloc;
    let OpenLanes {
        mut lanes,
        mut merged,
        unopened,
    } = open_apart(storage, config, asked);
    let rows = match take_files(
        rt,
        threads,
        alloc,
        config,
        names,
        orders,
        lanes.as_mut_slice(),
        &mut merged,
    ) {
        Ok(rows) => rows,
        Err(fault) => return Err(fault),
    };
    // A fault of a file comes before one of the opening.
    match unopened {
        Some(fault) => Ok(Err(fault)),
        None => Ok(closed(alloc, config, lanes, merged, rows)),
    }
}

/// Reads the order files of a day, one after another, and has securities take their rows on so many threads, behind those that they took.
/// Gives how many rows there are.
fn take_files<T: Threads + Sync, R: Read>(
    rt: &T,
    threads: u32,
    alloc: Global,
    config: &SegmentConfig,
    names: &SegmentNames,
    orders: &mut [R],
    lanes: &mut [DeskLane],
    merged: &mut Merged,
) -> Result<u64, OrdersFault>
    requires threads { 1 ≤ threads }
    requires files { length orders.old ≤ MAX_FILES }
    ensures { FilesRun (λ texts. TookFile names.now texts lanes.old merged.old lanes.new merged.new) config.now names.now (map R.remaining orders.old) result }
{
    let mut files = OrderFiles::of(orders);
    let mut count = 0;
    'files: loop {
        let file = match files.next(alloc) {
            Ok(Some(file)) => file,
            Ok(None) => return Ok(count),
            Err(fault) => return Err(fault),
        };
        let mut rows = file.rows();
        let mut texts = file.texts(alloc);
        let own = match take_file(
            rt, threads, alloc, config, names, &mut texts, &mut rows, lanes, merged,
        ) {
            Ok(own) => own,
            Err(fault) => return Err(files.fault(fault)),
        };
        count += own;
        files.end(rows.line());
    }
}

/// Has securities take the rows of an order file, whose texts these are, behind the rows that they took, on so many threads, a batch while
/// the next one is read, and adds what they tell of them. Gives how many rows the file has.
fn take_file<T: Threads + Sync>(
    rt: &T,
    threads: u32,
    alloc: Global,
    config: &SegmentConfig,
    names: &SegmentNames,
    texts: &mut RecordTexts<'_>,
    file: &mut RowReader<'_>,
    lanes: &mut [DeskLane],
    merged: &mut Merged,
) -> Result<u64, FileFault>
    requires threads { 1 ≤ threads }
    ensures taken { RowsRun (TookFile names.now (texts_in texts.old) lanes.old merged.old lanes.new merged.new) config.now names.now file.old result }
    ensures few { IfOk result (λ rows. rows ≤ MAX_ROWS) }
    ensures end { OnOk result (file.new.line ≡ file.old.line + length file.old.records) }
{
    let size = lanes.len().div_ceil(threads as usize).max(1);
    let mut parts = match FileParts::new(alloc, threads) {
        Ok(parts) => parts,
        Err(wanting) => return Err(FileFault::from(wanting)),
    };
    let mut batch = Batch::new(alloc);
    let mut next = Batch::new(alloc);
    let mut more = match read_behind(
        rt, alloc, config, names, &next, &mut batch, &mut parts, file,
    ) {
        Ok(more) => more,
        Err(fault) => return Err(fault),
    };
    'batches: while more {
        more = match take_beside(
            rt, size, alloc, config, names, texts, &batch, lanes, merged, &mut next, &mut parts,
            file,
        ) {
            Ok(more) => more,
            Err(fault) => return Err(fault),
        };
        mem::swap(&mut batch, &mut next);
    }
    take_apart(rt, size, names, texts, &batch, lanes, merged);
    Ok(batch.total() as u64)
}

/// Has securities take the rows of a batch, so many of them in a thread, and adds what they tell of them, while the next batch is read.
fn take_beside<T: Threads + Sync>(
    rt: &T,
    size: usize,
    alloc: Global,
    config: &SegmentConfig,
    names: &SegmentNames,
    texts: &mut RecordTexts<'_>,
    batch: &Batch,
    lanes: &mut [DeskLane],
    merged: &mut Merged,
    next: &mut Batch,
    parts: &mut FileParts,
    file: &mut RowReader<'_>,
) -> Result<bool, FileFault>
    requires { 0 < size }
    ensures taken { TookMore names.now (texts_in texts.old) batch.now.rows lanes.old merged.old lanes.new merged.new }
    ensures texts { texts_in texts.new ≡ texts_in texts.old }
    ensures read { IsReadBehind names.now config.now (rows_so_far batch.now) file.old file.new next.new result }
{
    let (more, ()) = thread::join_mut(
        rt,
        &mut ||
            requires { IsSync T.row }
        { read_behind(rt, alloc, config, names, batch, next, parts, file) },
        &mut ||
            requires { IsSync T.row × (0 < size) }
        { take_apart(rt, size, names, texts, batch, lanes, merged) },
    );
    more
}

/// Reads the next batch behind one, in parts.
fn read_behind<T: Threads + Sync>(
    rt: &T,
    alloc: Global,
    config: &SegmentConfig,
    names: &SegmentNames,
    batch: &Batch,
    next: &mut Batch,
    parts: &mut FileParts,
    file: &mut RowReader<'_>,
) -> Result<bool, FileFault>
    ensures { IsReadBehind names.now config.now (rows_so_far batch.now) file.old file.new next.new result }
{
    next.follow(batch);
    file.read_in_parts(rt, alloc, next, parts, names, config)
}
