//! The members' rows of a round, which workers share.
ghost use Rattle.std.specs.Prelude.{◌≡◌, ◌+◌, ◌<◌, ◌≤◌, IfOk, length, true};
ghost use Rattle.std.specs.List.{list_all};
ghost use Rattle.xm_workers.specs.Standing.{TookAll, WillTakeAll, will_be_taken};
ghost use Rattle.xm_workers.specs.Workers.{HasRoomBehind, HaveWorked, taken_by};
ghost use Rattle.xm_files.specs.Timetable.{is_of_member, share_of};
ghost use Rattle.xm_config.specs.declared.opening.TheConstants.{MAX_WORKERS};

use crate::standing::Standing;
use crate::worker::Worker;
use std::sync::Wait;
use std::thread::{self, Scope, Threads};
use xm_config::Row;
use xm_files::{share, sole_worker};
use xm_memory::OutOfMemory;
use xm_segment::{Gate, Naming, Segment};

/// Has the members' rows of a round taken by workers, each by that of its member. A share that stands alone is taken on the
/// calling thread, and of several each that has rows in a thread of its own.
pub(crate) fn take_members<T: Threads + Wait + Sync, G: Gate + Sync, S: Naming + Send + Sync>(
    rt: &T,
    gate: &G,
    segment: &Segment<S>,
    workers: Vec<Worker<S>>,
    rows: &[Row],
) -> Result<Vec<Worker<S>>, OutOfMemory>
    requires members { list_all is_of_member rows.now ≡ true }
    requires some { 0 < length workers.items }
    requires few { length workers.items ≤ MAX_WORKERS }
    requires room { HasRoomBehind (taken_by workers.items) (length rows.now) }
    ensures worked { IfOk result (λ after. HaveWorked S.settings (λ number. share_of number (length workers.items) rows.now) workers.items after.items) }
    ensures taken { IfOk result (λ after. taken_by after.items ≡ taken_by workers.items + length rows.now) }
{
    if rows.is_empty() {
        return Ok(workers);
    }
    if let Some(sole) = sole_worker(rows, workers.len() as u32) {
        let mut workers = workers;
        workers[sole as usize].work(rt, gate, segment, rows)?;
        return Ok(workers);
    }
    thread::scope(
        thread::scope_env(),
        rt,
        move |scope| -> Result<Vec<Worker<S>>, OutOfMemory>
            requires { (list_all is_of_member rows.now ≡ true) × (0 < length workers.items) × (length workers.items ≤ MAX_WORKERS) × HasRoomBehind (taken_by workers.items) (length rows.now) }
            ensures { IfOk result (λ after. HaveWorked S.settings (λ number. share_of number (length workers.items) rows.entry.now) workers.items after.items × (taken_by after.items ≡ taken_by workers.items + length rows.entry.now)) }
        {
            let standing = start_shares(scope, rt, gate, segment, workers, rows)?;
            join_all(rt, standing)
        },
    )
}

/// Starts a thread for each share that has rows. The last worker comes first.
fn start_shares<'s, E, T: Threads + Wait + Sync, G: Gate + Sync, S: Naming + Send + Sync>(
    scope: &Scope<'s, E>,
    rt: &'s T,
    gate: &'s G,
    segment: &'s Segment<S>,
    workers: Vec<Worker<S>>,
    rows: &[Row],
) -> Result<Vec<Standing<S>>, OutOfMemory>
    requires members { list_all is_of_member rows.now ≡ true }
    requires some { 0 < length workers.items }
    requires few { length workers.items ≤ MAX_WORKERS }
    requires room { HasRoomBehind (taken_by workers.items) (length rows.now) }
    ensures all { IfOk result (λ standing. length standing.items ≡ length workers.items) }
    ensures each { IfOk result (λ standing. WillTakeAll (λ number. share_of number (length workers.items) rows.now) workers.items standing.items) }
    ensures taken { IfOk result (λ standing. will_be_taken standing.items ≡ taken_by workers.items + length rows.now) }
{
    let alloc = *workers.allocator();
    let count = workers.len() as u32;
    let mut waiting = workers;
    let mut standing = Vec::with_capacity(alloc, waiting.len())?;
    while let Some(worker) = waiting.pop() {
        let share = share(alloc, rows, waiting.len() as u32, count)?;
        standing.push(Standing::start(scope, rt, gate, segment, worker, share)?)?;
    }
    Ok(standing)
}

/// Waits for all workers.
fn join_all<T: Threads, S: Naming + Send + Sync>(
    rt: &T,
    standing: Vec<Standing<S>>,
) -> Result<Vec<Worker<S>>, OutOfMemory>
    ensures all { IfOk result (λ workers. length workers.items ≡ length standing.items) }
    ensures each { IfOk result (λ workers. TookAll S.settings standing.items workers.items) }
    ensures taken { IfOk result (λ workers. taken_by workers.items ≡ will_be_taken standing.items) }
{
    let mut left = standing;
    let mut workers = Vec::with_capacity(*left.allocator(), left.len())?;
    while let Some(one) = left.pop() {
        workers.push(one.join(rt)?)?;
    }
    Ok(workers)
}
