//! A day that workers share.
ghost use Rattle.std.specs.Prelude.{ℕ, ◌≡◌, ◌≢◌, ◌+◌, ◌≤◌, List, [], IfErr, IfOk, OnOk, Some, length, map, slice_get, sum_by, true};
ghost use Rattle.xm_replay.specs.Taken.{DesksEnd, FilesRun, RowsRun, commands_in};
ghost use Rattle.xm_workers.specs.Workers.{AreJournals, HasOpened, HasRoomBehind, HasShared, HaveWorked, IsShared, SharesOn, WorkerView, accepted_by, fresh_worker, max_day_rows, rows_of, shared_so_far, taken_by};
ghost use Rattle.xm_files.specs.Timetable.{is_one_round};
ghost use Rattle.xm_files.specs.declared.order_files.TheConstants.{MAX_FILES};
ghost use Rattle.xm_files.specs.declared.orders.TheConstants.{MAX_ROWS};
ghost use Rattle.xm_segment.specs.Gathering.{AreGathered, IsOneHistory, all_sums};
ghost use Rattle.xm_segment.specs.Names.{NamesSegment};
ghost use Rattle.xm_segment.specs.Seats.{AreSeats};
ghost use Rattle.xm_config.specs.declared.config.SegmentConfig.{SegmentConfig};
ghost use Rattle.xm_segment.specs.declared.gathered.GatherFault.TheVariants as GatherFault;
ghost use Rattle.xm_config.specs.declared.opening.TheConstants.{MAX_WORKERS};
ghost use Rattle.xm_config.specs.declared.rows.Row.{Row};

use crate::shares::take_members;
use crate::worker::Worker;
use std::alloc::Global;
use std::io::Read;
use std::marker::{Brand, Model};
use std::sync::Wait;
use std::thread::Threads;
use xm_config::{OpenFault, Row, SegmentConfig};
use xm_desk::Desk;
use xm_files::{
    Batch, FileFault, OrderFiles, OrdersFault, Part, RowReader, SegmentNames, first_phase,
};
use xm_memory::OutOfMemory;
use xm_name_index::Storage;
use xm_replay::{DayFault, DayReport, OpenDay};
use xm_segment::{Gate, GatherFault, Naming, Opened, Seat, Segment, WatchRow};
use xm_texts::Told;

/// Reads the order files of a day, one after another, and has so many workers take their rows, round by round, on a segment whose type is
/// picked here. A round ends with its file. The first fault of a file is answered, if one has any, and else what came of the rows.
pub fn run_shared<T: Threads + Wait + Sync, G: Gate + Sync, R: Read>(
    rt: &T,
    gate: &G,
    workers: u32,
    storage: Storage<Global>,
    config: &SegmentConfig,
    names: &SegmentNames,
    orders: &mut [R],
) -> Result<Result<OpenDay, DayFault>, OrdersFault>
    requires some { 1 ≤ workers }
    requires few { workers ≤ MAX_WORKERS }
    requires files { length orders.old ≤ MAX_FILES }
    ensures { FilesRun (λ texts. DesksEnd (IsShared workers)) config.now names.now (map R.remaining orders.old) result }
{
    let opened = Opened::new(storage, config, workers, 0);
    run_named::<Brand, T, G, R>(
        rt,
        gate,
        workers,
        storage.alloc,
        opened,
        config,
        names,
        orders,
    )
}

/// Runs the rows on the segment that has this name, where it could be opened.
fn run_named<S: Naming + Send + Sync, T: Threads + Wait + Sync, G: Gate + Sync, R: Read>(
    rt: &T,
    gate: &G,
    workers: u32,
    alloc: Global,
    opened: Result<Opened, OpenFault>,
    config: &SegmentConfig,
    names: &SegmentNames,
    orders: &mut [R],
) -> Result<Result<OpenDay, DayFault>, OrdersFault>
    requires named { IfOk opened (λ o. NamesSegment S.settings S.ledgers S.boards S.workers o) }
    requires seats { S.workers ≡ workers }
    requires opened { HasOpened config.now workers opened }
    requires some { 1 ≤ workers }
    requires few { workers ≤ MAX_WORKERS }
    requires files { length orders.old ≤ MAX_FILES }
    ensures { FilesRun (λ texts. DesksEnd (IsShared workers)) config.now names.now (map R.remaining orders.old) result }
{
    let day = SharedDay::<S>::open(alloc, workers, opened, config);
    match take_files(rt, gate, alloc, day, config, names, orders) {
        Ok(day) => Ok(closed(alloc, day)),
        Err(fault) => Err(fault),
    }
}

/// Reads the order files of a day, one after another, and has their rows taken. A fault of a file comes before any other: where the segment
/// can't be opened or memory is wanting, all are read all the same.
fn take_files<S: Naming + Send + Sync, T: Threads + Wait + Sync, G: Gate + Sync, R: Read>(
    rt: &T,
    gate: &G,
    alloc: Global,
    opened: Result<SharedDay<S>, DayFault>,
    config: &SegmentConfig,
    names: &SegmentNames,
    orders: &mut [R],
) -> Result<Result<SharedDay<S>, DayFault>, OrdersFault>
    requires opened { HasShared S.settings S.workers config.now [] opened }
    requires files { length orders.old ≤ MAX_FILES }
    ensures { FilesRun (λ texts. HasShared S.settings S.workers) config.now names.now (map R.remaining orders.old) result }
{
    let mut files = OrderFiles::of(orders);
    let mut day = opened;
    'files: loop {
        let file = match files.next(alloc) {
            Ok(Some(file)) => file,
            Ok(None) => return Ok(day),
            Err(fault) => return Err(fault),
        };
        let mut rows = file.rows();
        day = match take_file(rt, gate, alloc, day, config, names, &mut rows) {
            Ok(day) => day,
            Err(fault) => return Err(files.fault(fault)),
        };
        files.end(rows.line());
    }
}

/// Reads the rows of an order file, round by round, and has them taken behind those that were. A fault of the file comes before any other.
fn take_file<S: Naming + Send + Sync, T: Threads + Wait + Sync, G: Gate + Sync>(
    rt: &T,
    gate: &G,
    alloc: Global,
    mut day: Result<SharedDay<S>, DayFault>,
    config: &SegmentConfig,
    names: &SegmentNames,
    file: &mut RowReader<'_>,
) -> Result<Result<SharedDay<S>, DayFault>, FileFault>
    requires room { shared_so_far day + MAX_ROWS ≤ max_day_rows }
    ensures taken { RowsRun (SharesOn S.settings S.workers day) config.now names.now file.old result }
    ensures counted { IfOk result (λ after. shared_so_far after ≤ shared_so_far day + MAX_ROWS) }
    ensures end { OnOk result (file.new.line ≡ file.old.line + length file.old.records) }
{
    let mut batch = Batch::new(alloc);
    'rounds: loop {
        let more = match file.read(alloc, &mut batch, Part::Round, names, config) {
            Ok(more) => more,
            Err(fault) => return Err(fault),
        };
        day = take_more(rt, gate, day, batch.rows());
        if !more {
            return Ok(day);
        }
    }
}

/// Takes the rows of a round, where nothing went wrong before.
fn take_more<S: Naming + Send + Sync, T: Threads + Wait + Sync, G: Gate + Sync>(
    rt: &T,
    gate: &G,
    day: Result<SharedDay<S>, DayFault>,
    rows: &[Row],
) -> Result<SharedDay<S>, DayFault>
    requires room { HasRoomBehind (shared_so_far day) (length rows.now) }
    requires round { is_one_round rows.now ≡ true }
    ensures taken { (config : SegmentConfig) → SharesOn S.settings S.workers day config rows.now result }
    ensures counted { shared_so_far result ≤ shared_so_far day + length rows.now }
{
    Ok(day?.take_round(rt, gate, rows)?)
}

/// Gathers the segment of a day whose rows were taken.
fn closed<S: Naming>(
    alloc: Global,
    day: Result<SharedDay<S>, DayFault>,
) -> Result<OpenDay, DayFault>
    ensures { (config : SegmentConfig) (rows : List Row) → HasShared S.settings S.workers config rows day → DesksEnd (IsShared S.workers) config rows result }
{
    Ok(day?.gathered(alloc)?)
}

/// A segment, and its workers, in the order of their numbers, which are what a clause sees. The segment is large, and stays in
/// its place while rounds hand the day on.
struct SharedDay<S: Naming> {
    segment: Box<Segment<S>>,
    workers: Vec<Worker<S>>,
}

impl<S: Naming> Drop for SharedDay<S> {
    fn drop(self) {
        let SharedDay {
            segment: _segment,
            workers: _workers,
        } = self;
    }
}

impl<S: Naming> Model for SharedDay<S> {
    ghost use Rattle.std.specs.Prelude.{◌≡◌, ◌≤◌, List, length};
    ghost use Rattle.xm_workers.specs.Workers.{WorkerView, max_day_rows, taken_by};
    ghost use Rattle.xm_config.specs.declared.opening.TheConstants.{MAX_WORKERS};

    ghost Value = { List WorkerView };

    ghost view = { λ d. d.workers.items };

    ghost invariant = { λ d. record {
      all : length d.workers.items ≡ S.workers;
      some : 1 ≤ S.workers;
      few : S.workers ≤ MAX_WORKERS;
      within : taken_by d.workers.items ≤ max_day_rows;
    } };
}

impl<S: Naming> SharedDay<S> {
    /// A worker for each seat of a segment, where it could be opened.
    fn open(
        alloc: Global,
        workers: u32,
        opened: Result<Opened, OpenFault>,
        config: &SegmentConfig,
    ) -> Result<SharedDay<S>, DayFault>
        requires named { IfOk opened (λ o. NamesSegment S.settings S.ledgers S.boards S.workers o) }
        requires opened { HasOpened config.now workers opened }
        requires some { 1 ≤ workers }
        requires few { workers ≤ MAX_WORKERS }
        ensures { HasShared S.settings S.workers config.now [] result }
    {
        let (segment, seats, _rows) = opened_segment(alloc, opened?)?;
        let segment = boxed(alloc, segment)?;
        let workers = seated(seats)?;
        Ok(SharedDay { segment, workers })
    }

    /// Takes the rows of a round: those of the members side by side, and then those of the phases, which the first worker takes.
    fn take_round<T: Threads + Wait + Sync, G: Gate + Sync>(
        self,
        rt: &T,
        gate: &G,
        rows: &[Row],
    ) -> Result<SharedDay<S>, OutOfMemory>
    where
        S: Send + Sync,
        requires room { HasRoomBehind (taken_by self) (length rows.now) }
        requires round { is_one_round rows.now ≡ true }
        ensures worked { IfOk result (λ day. HaveWorked S.settings (λ number. rows_of number S.workers rows.now) self day) }
        ensures taken { IfOk result (λ day. taken_by day ≡ taken_by self + length rows.now) }
    {
        let SharedDay { segment, workers } = self;
        let (members, phases) = rows.split_at(first_phase(rows));
        let mut workers = take_members(rt, gate, &segment, workers, members)?;
        workers[0].work(rt, gate, &segment, phases)?;
        Ok(SharedDay { segment, workers })
    }

    /// The desks of the segment, and what was counted.
    fn gathered(self, alloc: Global) -> Result<OpenDay, OutOfMemory>
        ensures journals { IfOk result (λ day. AreJournals S.settings day.desks.items) }
        ensures history { IfOk result (λ day. IsOneHistory day.desks.items (map (λ (w : WorkerView). w.seat) self) []) }
        ensures commands { IfOk result (λ day. day.report.accepted ≡ commands_in day.desks.items) }
        ensures accepted { IfOk result (λ day. day.report.accepted ≡ sum_by (λ (w : WorkerView). w.report.accepted) self) }
        ensures refused { IfOk result (λ day. day.report.refused ≡ sum_by (λ (w : WorkerView). w.report.refused) self) }
    {
        let SharedDay { segment, workers } = self;
        let (seats, report) = counted(workers)?;
        let desks = desks_of(Box::into_inner(segment), alloc, seats)?;
        Ok(OpenDay {
            desks,
            report,
            told: Told::nothing(),
        })
    }
}

/// A segment with its seats, whose want of memory is one of the opening.
fn opened_segment<S: Naming>(
    alloc: Global,
    opened: Opened,
) -> Result<(Segment<S>, Vec<Seat<S>>, Vec<WatchRow<S>>), OpenFault>
    requires { NamesSegment S.settings S.ledgers S.boards S.workers opened }
    ensures seats { IfOk result (λ o. AreSeats S.settings opened.workers o.1.items) }
    ensures wanting { IfErr result (λ fault. fault ≡ OpenFault.OutOfMemory tt) }
{
    Ok(Segment::open(alloc, opened)?)
}

/// A segment in a place of its own.
fn boxed<S: Naming>(alloc: Global, segment: Segment<S>) -> Result<Box<Segment<S>>, OutOfMemory> {
    Ok(Box::new(alloc, segment)?)
}

/// The desks of a segment whose seats are all there.
fn desks_of<S: Naming>(
    segment: Segment<S>,
    alloc: Global,
    seats: Vec<Seat<S>>,
) -> Result<Vec<Desk<Global>>, OutOfMemory>
    requires { S.workers ≤ length seats.items }
    ensures gathered { IfOk result (λ desks. AreGathered S.settings (all_sums seats.items) desks.items) }
    ensures history { IfOk result (λ desks. IsOneHistory desks.items seats.items []) }
{
    let mut rows = Vec::new(alloc);
    match segment.gather(alloc, seats, rows.as_mut_slice()) {
        Ok(gathered) => Ok(gathered.desks),
        Err(back) => Err(want_of_memory(back.2)),
    }
}

/// The want of memory that a segment wasn't gathered for, whose seats are all there.
fn want_of_memory(fault: GatherFault) -> OutOfMemory
    requires { fault ≢ GatherFault.MissingSeat }
{
    match fault {
        GatherFault::OutOfMemory(error) => error,
        GatherFault::MissingSeat => unreachable!(),
    }
}

/// A worker for each seat, in which nothing is counted.
fn seated<S: Naming>(seats: Vec<Seat<S>>) -> Result<Vec<Worker<S>>, OutOfMemory>
    requires { AreSeats S.settings S.workers seats.items }
    ensures all { IfOk result (λ workers. length workers.items ≡ S.workers) }
    ensures each { IfOk result (λ workers. (number : ℕ) (w : WorkerView) → slice_get workers.items number ≡ Some w → w ≡ fresh_worker S.settings number) }
    ensures none { IfOk result (λ workers. taken_by workers.items ≡ 0) }
{
    let mut workers = Vec::with_capacity(*seats.allocator(), seats.len())?;
    for seat in seats {
        workers.push(Worker::new(seat))?;
    }
    Ok(workers)
}

/// The seats of workers, and what all of them counted.
fn counted<S: Naming>(workers: Vec<Worker<S>>) -> Result<(Vec<Seat<S>>, DayReport), OutOfMemory>
    requires { taken_by workers.items ≤ max_day_rows }
    ensures seats { IfOk result (λ parts. parts.0.items ≡ map (λ (w : WorkerView). w.seat) workers.items) }
    ensures ledgers { IfOk result (λ parts. parts.1.accepted ≡ accepted_by parts.0.items) }
    ensures accepted { IfOk result (λ parts. parts.1.accepted ≡ sum_by (λ (w : WorkerView). w.report.accepted) workers.items) }
    ensures refused { IfOk result (λ parts. parts.1.refused ≡ sum_by (λ (w : WorkerView). w.report.refused) workers.items) }
{
    let mut seats = Vec::with_capacity(*workers.allocator(), workers.len())?;
    let mut sum = DayReport {
        accepted: 0,
        refused: 0,
    };
    for worker in workers {
        let (seat, report) = worker.into_parts();
        seats.push(seat)?;
        sum.accepted += report.accepted;
        sum.refused += report.refused;
    }
    Ok((seats, sum))
}
