//! The desks of a segment that have taken the order files of a day.
ghost use Rattle.std.specs.Prelude.{◌≡◌, ◌≤◌, length, map};
ghost use Rattle.xm_files.specs.declared.order_files.TheConstants.{MAX_FILES};
ghost use Rattle.xm_replay.specs.Taken.{HasTaken, RowsTaken};
ghost use Rattle.xm_day.specs.Answers.{OrdersRun};
ghost use Rattle.xm_day.specs.Days.{IsUntold, SharesRows};
ghost use Rattle.xm_config.specs.declared.opening.TheConstants.{MAX_WORKERS};

use std::alloc::Global;
use std::io::Read;
use std::sync::Wait;
use std::thread::Threads;
use xm_config::SegmentConfig;
use xm_files::SegmentNames;
use xm_name_index::Storage;
use xm_replay::{DayFault, OpenDay, run_rows};
use xm_segment::Gate;
use xm_texts::{AskedTexts, Told};
use xm_threads::run_apart;
use xm_workers::run_shared;

/// Reads the order files, and has the desks of a segment take their rows in their order, which tell the texts that are asked for.
pub(crate) fn take_orders<R: Read>(
    storage: Storage<Global>,
    config: &SegmentConfig,
    names: &SegmentNames,
    orders: &mut [R],
    asked: AskedTexts,
) -> Result<OpenDay, DayFault>
    requires { length orders.old ≤ MAX_FILES }
    ensures { OrdersRun (HasTaken asked names.now) config.now names.now (map R.remaining orders.old) result }
{
    match run_rows(storage, config, names, orders, asked) {
        Ok(day) => day,
        Err(fault) => Err(DayFault::Orders(fault)),
    }
}

/// Reads the order files, and has the securities of a segment take their rows on so many threads, each its own, which tell the texts that are
/// asked for.
pub(crate) fn take_orders_apart<T: Threads + Sync, R: Read>(
    rt: &T,
    threads: u32,
    storage: Storage<Global>,
    config: &SegmentConfig,
    names: &SegmentNames,
    orders: &mut [R],
    asked: AskedTexts,
) -> Result<OpenDay, DayFault>
    requires threads { 1 ≤ threads }
    requires files { length orders.old ≤ MAX_FILES }
    ensures { OrdersRun (RowsTaken asked names.now) config.now names.now (map R.remaining orders.old) result }
{
    match run_apart(rt, threads, storage, config, names, orders, asked) {
        Ok(day) => day,
        Err(fault) => Err(DayFault::Orders(fault)),
    }
}

/// Reads the order files, and has so many workers take their rows, round by round, each those of its members.
pub(crate) fn share_orders<T: Threads + Wait + Sync, G: Gate + Sync, R: Read>(
    rt: &T,
    gate: &G,
    workers: u32,
    storage: Storage<Global>,
    config: &SegmentConfig,
    names: &SegmentNames,
    orders: &mut [R],
) -> Result<OpenDay, DayFault>
    requires some { 1 ≤ workers }
    requires few { workers ≤ MAX_WORKERS }
    requires files { length orders.old ≤ MAX_FILES }
    ensures { OrdersRun (SharesRows workers) config.now names.now (map R.remaining orders.old) result }
{
    match run_shared(rt, gate, workers, storage, config, names, orders) {
        Ok(day) => untold(day),
        Err(fault) => Err(DayFault::Orders(fault)),
    }
}

/// The same day, of whose rows nothing is told.
fn untold(day: Result<OpenDay, DayFault>) -> Result<OpenDay, DayFault>
    ensures { IsUntold day result }
{
    let OpenDay {
        desks,
        report,
        told: _,
    } = day?;
    let told = Told::nothing();
    Ok(OpenDay {
        desks,
        report,
        told,
    })
}
