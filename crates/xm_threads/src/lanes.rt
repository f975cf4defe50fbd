//! Securities that take the rows of their segment apart, each its own.
ghost use Rattle.std.specs.Prelude.{◌≡◌, ◌<◌, ◌+◌, ◌^◌, ℕ, List, [], All, IfOk, OnOk, false, length, map, slice_index_or};
ghost use Rattle.std.specs.Bool.{OnTrue};
ghost use Rattle.xm_replay.specs.Taken.{RowsTaken, commands_in};
ghost use Rattle.xm_threads.specs.Lanes.{AreOpened, AreTold, AreTakenSoFar, HaveBegunUnless, LaneView, TookMore, TookOwnRows, TookSoMany, asks_any, fresh_lane, lane_row};
ghost use Rattle.xm_texts.specs.MarketDepth.{market_depth};
ghost use Rattle.xm_texts.specs.RowAnswers.{where_asked};
ghost use Rattle.xm_texts.specs.declared.asked.AskedTexts.{AskedTexts};
ghost use Rattle.xm_files.specs.Names.{NameLists};
ghost use Rattle.xm_files.specs.RecordTexts.{texts_in};
ghost use Rattle.xm_rules.specs.Step.{replay};
ghost use Rattle.xm_config.specs.Opening.{segment_fault};
ghost use Rattle.xm_config.specs.declared.rows.Row.{Row};

use crate::kept_rows::KeptRows;
use crate::merged::Merged;
use crate::row_texts::RowTexts;
use std::alloc::Global;
use std::marker::Model;
use std::thread;
use std::thread::Threads;
use xm_config::{Row, SegmentConfig};
use xm_desk::{Desk, open_desks};
use xm_files::{Batch, RecordTexts, SegmentNames};
use xm_memory::OutOfMemory;
use xm_name_index::Storage;
use xm_replay::{DayFault, DayReport, OpenDay};
use xm_texts::{AskedTexts, MarketDepth, take_told};

/// The desk of a security, what is asked for of its rows, what it keeps of those that aren't told yet, and the want of memory that it met.
/// From then on it takes no row.
#[derive(Drop)]
pub(crate) struct DeskLane {
    asked: AskedTexts,
    storage: Storage<Global>,
    desk: Desk<Global>,
    kept: KeptRows,
    // The lines of the events of the row that was taken last, where they are asked for.
    events: Vec<u8>,
    // The levels that were shown last, where they are asked for.
    shown: MarketDepth,
    wanting: Option<OutOfMemory>,
}

impl Model for DeskLane {
    ghost use Rattle.std.specs.Prelude.{◌≡◌, is_some};
    ghost use Rattle.std.specs.Bool.{OnTrue};
    ghost use Rattle.xm_threads.specs.Lanes.{LaneView};
    ghost use Rattle.xm_texts.specs.MarketDepth.{market_depth};
    ghost use Rattle.xm_rules.specs.Step.{replay};

    ghost Value = { LaneView };

    ghost view = { λ l. record { asked = l.asked; journal = l.desk; kept = l.kept; lacks_memory = is_some l.wanting } };

    ghost invariant = { λ l. OnTrue l.asked.depth (l.shown ≡ market_depth (replay l.desk)) };
}

impl DeskLane {
    ghost use Rattle.std.specs.Prelude.{◌≡◌, IfOk, OnErr, OnOk, false, true};
    ghost use Rattle.xm_threads.specs.KeptRows.{behind_first};
    ghost use Rattle.xm_threads.specs.Lanes.{asks_any, fresh_lane, lane_after, with_first};
    ghost use Rattle.xm_files.specs.RecordTexts.{texts_in};

    /// A desk that takes rows, of which these texts are told.
    fn of(storage: Storage<Global>, desk: Desk<Global>, asked: AskedTexts) -> DeskLane
        ensures { result ≡ fresh_lane asked desk }
    {
        let shown = MarketDepth::of(&desk);
        DeskLane {
            asked,
            storage,
            desk,
            kept: KeptRows::new(storage.alloc),
            events: Vec::new(storage.alloc),
            shown,
            wanting: None,
        }
    }

    /// Takes a row of its own.
    #[inline(always)]
    fn take(&mut self, names: &SegmentNames, row: &Row)
        ensures { self.new.lacks_memory ≡ false → (self.old.lacks_memory ≡ false) × (self.new ≡ lane_after names.now self.old row.now) }
    {
        if self.wanting.is_none() {
            self.wanting = self.answer(names, row).err();
        }
    }

    /// Answers a row of its own, and keeps what it tells of it.
    #[inline(always)]
    fn answer(&mut self, names: &SegmentNames, row: &Row) -> Result<(), OutOfMemory>
        ensures { OnOk result (self.new ≡ lane_after names.now self.old row.now) }
    {
        if asks_any(self.asked) {
            return self.answer_and_keep(names, row);
        }
        let _ = self.desk.answer(&row.command)?;
        Ok(())
    }

    /// Does the same where a text is asked for.
    #[inline(always)]
    fn answer_and_keep(&mut self, names: &SegmentNames, row: &Row) -> Result<(), OutOfMemory>
        requires { asks_any self.old.asked ≡ true }
        ensures { OnOk result (self.new ≡ lane_after names.now self.old row.now) }
    {
        if self.asked.events {
            return self.answer_with_events(names, row);
        }
        let answer = self.desk.answer(&row.command)?;
        let before = self.shown;
        show(&mut self.shown, self.asked.depth, &self.desk);
        let shown = &self.shown;
        self.kept.push(
            self.asked,
            names,
            &self.desk,
            row,
            &answer,
            &before,
            shown,
            &[],
        )
    }

    /// Does the same where events are asked for. It stands by itself, so that no other text pays for them.
    #[inline(never)]
    fn answer_with_events(&mut self, names: &SegmentNames, row: &Row) -> Result<(), OutOfMemory>
        requires { self.old.asked.events ≡ true }
        ensures { OnOk result (self.new ≡ lane_after names.now self.old row.now) }
    {
        self.events.clear();
        let desk = &mut self.desk;
        let answer = take_told(&mut self.events, self.storage, names, desk, row);
        let before = self.shown;
        show(&mut self.shown, self.asked.depth, &self.desk);
        let answer = answer?;
        self.kept.push(
            self.asked,
            names,
            &self.desk,
            row,
            &answer,
            &before,
            &self.shown,
            self.events.as_slice(),
        )
    }

    /// Tells the next row of those that it keeps. The texts are those of its file.
    pub(crate) fn tell(
        &mut self,
        told: &mut RowTexts,
        texts: &mut RecordTexts<'_>,
        row: &Row,
    ) -> Result<(), OutOfMemory>
        ensures told { OnOk result (told.new ≡ with_first row.now (texts_in texts.old row.now.line) self.old.kept told.old) }
        ensures left { OnOk result (self.new ≡ record self.old { kept = behind_first self.old.kept }) }
        ensures texts { texts_in texts.new ≡ texts_in texts.old }
    {
        self.kept.tell(told, texts, row)
    }

    /// The desk, or the want of memory that it met.
    fn into_desk(self) -> Result<Desk<Global>, OutOfMemory>
        ensures desk { IfOk result (λ desk. desk ≡ self.journal) }
        ensures had_memory { OnOk result (self.lacks_memory ≡ false) }
        ensures lacked { OnErr result (self.lacks_memory ≡ true) }
    {
        let DeskLane { desk, wanting, .. } = self;
        match wanting {
            None => Ok(desk),
            Some(wanting) => Err(wanting),
        }
    }
}

/// Whether any text is asked for.
#[inline(always)]
fn asks_any(asked: AskedTexts) -> bool
    ensures { result ≡ asks_any asked }
{
    asked.answers || asked.trades || asked.depth || asked.events
}

/// Shows the levels of a desk as they stand, if they are asked for.
#[inline(always)]
fn show(shown: &mut MarketDepth, asked: bool, desk: &Desk<Global>)
    ensures { OnTrue asked (shown.new ≡ market_depth (replay desk.now)) }
{
    if asked {
        *shown = MarketDepth::of(desk);
    }
}

/// The securities of a segment, what they tell together, and the fault that kept it from being opened, if one did: then there are none.
#[derive(Drop)]
pub(crate) struct OpenLanes {
    pub(crate) lanes: Vec<DeskLane>,
    pub(crate) merged: Merged,
    pub(crate) unopened: Option<DayFault>,
}

/// Opens the securities of a segment, for their rows, of which these texts are told.
pub(crate) fn open_apart(
    storage: Storage<Global>,
    config: &SegmentConfig,
    asked: AskedTexts,
) -> OpenLanes
    ensures { HaveBegunUnless result.unopened asked config.now result.lanes.items result.merged }
{
    let alloc = storage.alloc;
    match open_lanes(storage, config, asked) {
        Ok(lanes) => OpenLanes {
            lanes,
            merged: Merged::of(alloc, asked),
            unopened: None,
        },
        Err(fault) => OpenLanes {
            lanes: Vec::new(alloc),
            merged: Merged::of(alloc, AskedTexts::nothing()),
            unopened: Some(fault),
        },
    }
}

/// Opens the desks of a segment, for their rows, of which these texts are told.
fn open_lanes(
    storage: Storage<Global>,
    config: &SegmentConfig,
    asked: AskedTexts,
) -> Result<Vec<DeskLane>, DayFault>
    ensures { AreOpened (λ lanes. lanes.items) asked config.now result }
{
    let desks = open_desks(storage, config)?;
    let lanes = lanes_of(storage, desks, asked)?;
    Ok(lanes)
}

/// Each desk for its rows.
fn lanes_of(
    storage: Storage<Global>,
    desks: Vec<Desk<Global>>,
    asked: AskedTexts,
) -> Result<Vec<DeskLane>, OutOfMemory>
    ensures { IfOk result (λ lanes. lanes.items ≡ map (fresh_lane asked) desks.items) }
{
    let mut lanes = Vec::with_capacity(storage.alloc, desks.len())?;
    for desk in desks {
        lanes.push(DeskLane::of(storage, desk, asked))?;
    }
    Ok(lanes)
}

/// Has the securities of a segment take their rows of a batch, so many of them in a thread, and adds what they tell of them.
pub(crate) fn take_apart<T: Threads + Sync>(
    rt: &T,
    size: usize,
    names: &SegmentNames,
    texts: &mut RecordTexts<'_>,
    batch: &Batch,
    lanes: &mut [DeskLane],
    merged: &mut Merged,
)
    requires { 0 < size }
    ensures more { TookMore names.now (texts_in texts.old) batch.now.rows lanes.old merged.old lanes.new merged.new }
    ensures texts { texts_in texts.new ≡ texts_in texts.old }
{
    let rows = batch.rows();
    take_parts(rt, size, names, rows, lanes);
    merged.add(names, texts, rows, lanes);
}

/// Has the securities of a segment take their rows, so many of them in a thread.
fn take_parts<T: Threads + Sync>(
    rt: &T,
    size: usize,
    names: &SegmentNames,
    rows: &[Row],
    lanes: &mut [DeskLane],
)
    requires { 0 < size }
    ensures { TookOwnRows names.now 0 lanes.old rows.now lanes.new }
{
    thread::for_each_chunk_mut(
        rt,
        lanes,
        size,
        &|first, part| take_part(first, names, part, rows),
    );
}

/// Has the securities from an index on take their rows.
fn take_part(first: usize, names: &SegmentNames, lanes: &mut [DeskLane], rows: &[Row])
    ensures { TookOwnRows names.now first lanes.old rows.now lanes.new }
{
    for row in rows {
        take_row(first, names, lanes, row);
    }
}

/// Has the security of a row take it, if it is one of those from an index on.
#[inline(always)]
fn take_row(first: usize, names: &SegmentNames, lanes: &mut [DeskLane], row: &Row)
    ensures { (k : ℕ) (d : LaneView) → k < length lanes.old → (slice_index_or lanes.new k d).lacks_memory ≡ false
        → ((slice_index_or lanes.old k d).lacks_memory ≡ false) × (slice_index_or lanes.new k d ≡ lane_row names.now (first + k) (slice_index_or lanes.old k d) row.now) }
{
    let index = row.security as usize;
    if first <= index {
        let place = index - first;
        if place < lanes.len() {
            lanes[place].take(names, row);
        }
    }
}

/// The day of a segment whose securities have taken so many rows, and what they told of them.
pub(crate) fn closed(
    alloc: Global,
    config: &SegmentConfig,
    lanes: Vec<DeskLane>,
    merged: Merged,
    rows: u64,
) -> Result<OpenDay, DayFault>
    requires sound { segment_fault config.now ≡ None }
    requires taken { TookSoMany config.now rows lanes.items merged }
    ensures { (asked : AskedTexts) (names : NameLists) (texts : ℕ → List ℕ) (taken : List Row) → length taken ≡ rows → AreTakenSoFar config.now taken lanes.items merged
        → AreTold asked names texts config.now taken lanes.items merged → RowsTaken asked names texts config.now taken result }
{
    let desks = into_desks(lanes)?;
    let told = merged.told(alloc, desks.as_slice())?;
    let accepted = commands_in(desks.as_slice());
    let refused = rows - accepted;
    Ok(OpenDay {
        desks,
        report: DayReport { accepted, refused },
        told,
    })
}

/// The desks of securities, unless memory was wanting for one of their rows.
fn into_desks(lanes: Vec<DeskLane>) -> Result<Vec<Desk<Global>>, OutOfMemory>
    ensures desks { IfOk result (λ desks. desks.items ≡ map (λ (l : LaneView). l.journal) lanes.items) }
    ensures had_memory { OnOk result (All (λ (l : LaneView). l.lacks_memory ≡ false) lanes.items) }
{
    let mut desks = Vec::with_capacity(*lanes.allocator(), lanes.len())?;
    for lane in lanes {
        desks.push(lane.into_desk()?)?;
    }
    Ok(desks)
}

/// How many commands the desks accepted.
fn commands_in(desks: &[Desk<Global>]) -> u64
    requires { commands_in desks.now < 2 ^ 64 }
    ensures { result ≡ commands_in desks.now }
{
    let mut count = 0;
    for desk in desks {
        count += desk.accepted();
    }
    count
}
