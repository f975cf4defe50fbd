//! The rows that the desks of a segment take.
ghost use Rattle.std.specs.Prelude.{ℕ, ◌≡◌, ◌+◌, ◌<◌, ◌≤◌, ◌^◌, List, [], IfOk, OnErr, OnOk, length, map, option_map};
ghost use Rattle.xm_replay.specs.Taken.{HasTaken, TakesOn, TookRow, taken_so_far};
ghost use Rattle.xm_texts.specs.Asked.{TellsNothing};
ghost use Rattle.xm_config.specs.Day.{Accepts, LacksMemoryAt, after_row, after_rows, counted, day_of, row_answer};
ghost use Rattle.xm_texts.specs.Feeds.{feed_after};
ghost use Rattle.xm_texts.specs.RowAnswers.{answers_of, with_text};
ghost use Rattle.xm_texts.specs.RowEvents.{events_of};
ghost use Rattle.xm_texts.specs.RowTrades.{trades_of};
ghost use Rattle.xm_files.specs.Names.{NameLists};
ghost use Rattle.xm_files.specs.RecordTexts.{texts_in};
ghost use Rattle.xm_rules.specs.Step.{replay};
ghost use Rattle.xm_config.specs.declared.config.SegmentConfig.{SegmentConfig};

use crate::faults::DayFault;
use crate::report::DayReport;
use crate::with_events::take_with_events;
use std::alloc::Global;
use xm_config::{Row, SegmentConfig};
use xm_desk::{Desk, open_desks};
use xm_files::{RecordTexts, SegmentNames};
use xm_memory::OutOfMemory;
use xm_name_index::Storage;
use xm_rules::{Refusal, Reply};
use xm_texts::{AskedTexts, Told};

/// The desks of a segment, how many rows they accepted and refused, and what is told of these rows.
#[derive(Drop)]
pub struct OpenDay {
    pub desks: Vec<Desk<Global>>,
    pub report: DayReport,
    pub told: Told,
}

/// Opens the desks of a segment for its day, of which these texts are told.
pub(crate) fn open_day(
    storage: Storage<Global>,
    config: &SegmentConfig,
    asked: AskedTexts,
) -> Result<OpenDay, DayFault>
    ensures { (names : NameLists) (texts : ℕ → List ℕ) → HasTaken asked names texts config.now [] result }
{
    let desks = open_desks(storage, config)?;
    let told = Told::of(storage.alloc, desks.as_slice(), asked)?;
    let report = DayReport {
        accepted: 0,
        refused: 0,
    };
    Ok(OpenDay {
        desks,
        report,
        told,
    })
}

/// Takes more rows, where nothing went wrong before. The texts are those of their file.
pub(crate) fn take_more(
    storage: Storage<Global>,
    day: Result<OpenDay, DayFault>,
    names: &SegmentNames,
    texts: &mut RecordTexts<'_>,
    rows: &[Row],
) -> Result<OpenDay, DayFault>
    requires room { taken_so_far day + length rows.now < 2 ^ 64 }
    ensures taken { (config : SegmentConfig) → TakesOn names.now (texts_in texts.old) day config rows.now result }
    ensures counted { taken_so_far result ≤ taken_so_far day + length rows.now }
    ensures texts { texts_in texts.new ≡ texts_in texts.old }
{
    let OpenDay {
        mut desks,
        report,
        mut told,
    } = day?;
    let report = take_rows(
        storage,
        desks.as_mut_slice(),
        names,
        texts,
        rows,
        report,
        &mut told,
    )?;
    Ok(OpenDay {
        desks,
        report,
        told,
    })
}

/// Takes rows in their order, counts which were accepted and refused, and tells what is asked for. `OutOfMemory` comes only where
/// something is, or at a row that nothing else refuses.
fn take_rows(
    storage: Storage<Global>,
    desks: &mut [Desk<Global>],
    names: &SegmentNames,
    texts: &mut RecordTexts<'_>,
    rows: &[Row],
    before: DayReport,
    told: &mut Told,
) -> Result<DayReport, OutOfMemory>
    requires room { before.accepted + before.refused + length rows.now < 2 ^ 64 }
    ensures taken { IfOk result (λ report. day_of desks.new report.accepted report.refused ≡ after_rows (day_of desks.old before.accepted before.refused) rows.now) }
    ensures counted { IfOk result (λ report. report.accepted + report.refused ≡ before.accepted + before.refused + length rows.now) }
    ensures answers { OnOk result (told.new.answers ≡ with_text (answers_of names.now (texts_in texts.old) (day_of desks.old before.accepted before.refused) rows.now) told.old.answers) }
    ensures trades { OnOk result (told.new.trades ≡ with_text (trades_of names.now (texts_in texts.old) (day_of desks.old before.accepted before.refused) rows.now) told.old.trades) }
    ensures events { OnOk result (told.new.events ≡ with_text (events_of names.now (day_of desks.old before.accepted before.refused) rows.now) told.old.events) }
    ensures depth { OnOk result (told.new.depth ≡ option_map (feed_after names.now (day_of desks.old before.accepted before.refused) rows.now) told.old.depth) }
    ensures texts { texts_in texts.new ≡ texts_in texts.old }
    ensures memory { OnErr result (TellsNothing told.old → LacksMemoryAt (day_of desks.old before.accepted before.refused) rows.now) }
{
    let mut report = before;
    let telling = told.is_telling();
    for row in rows {
        if telling {
            take_and_tell(storage, desks, names, texts, row, &mut report, told)?;
        } else {
            take_row(desks, row, &mut report)?;
        }
    }
    Ok(report)
}

/// Takes a row, and counts it. `OutOfMemory` comes only where no rule refuses the row.
#[inline(always)]
fn take_row(
    desks: &mut [Desk<Global>],
    row: &Row,
    report: &mut DayReport,
) -> Result<(), OutOfMemory>
    requires room { report.old.accepted + report.old.refused + 1 < 2 ^ 64 }
    ensures taken { OnOk result (day_of desks.new report.new.accepted report.new.refused ≡ after_row (day_of desks.old report.old.accepted report.old.refused) row.now) }
    ensures counted { OnOk result (report.new.accepted + report.new.refused ≡ report.old.accepted + report.old.refused + 1) }
    ensures memory { OnErr result (Accepts (day_of desks.old report.old.accepted report.old.refused) row.now) }
{
    let answer = answer_row(desks, row)?;
    *report = report.counted(&answer);
    Ok(())
}

/// Does the same, and tells what is asked for.
#[inline(always)]
fn take_and_tell(
    storage: Storage<Global>,
    desks: &mut [Desk<Global>],
    names: &SegmentNames,
    texts: &mut RecordTexts<'_>,
    row: &Row,
    report: &mut DayReport,
    told: &mut Told,
) -> Result<(), OutOfMemory>
    requires room { report.old.accepted + report.old.refused + 1 < 2 ^ 64 }
    ensures taken { OnOk result (TookRow names.now (texts_in texts.old) (day_of desks.old report.old.accepted report.old.refused) row.now told.old (day_of desks.new report.new.accepted report.new.refused) told.new) }
    ensures counted { OnOk result (report.new.accepted + report.new.refused ≡ report.old.accepted + report.old.refused + 1) }
    ensures texts { texts_in texts.new ≡ texts_in texts.old }
{
    if told.events.are_asked() {
        return take_with_events(storage, desks, names, texts, row, report, told);
    }
    let answer = answer_row(desks, row)?;
    told.tell(names, texts, desks, row, &answer)?;
    *report = report.counted(&answer);
    Ok(())
}

/// Has the security of a row answer it. `OutOfMemory` comes only where no rule refuses the row.
#[inline(always)]
pub fn answer_row(
    desks: &mut [Desk<Global>],
    row: &Row,
) -> Result<Result<Reply, Refusal>, OutOfMemory>
    ensures answer { IfOk result (λ answer. answer ≡ row_answer (map replay desks.old) row.now) }
    ensures taken { IfOk result (λ answer. (accepted refused : ℕ) → after_row (day_of desks.old accepted refused) row.now ≡ counted (day_of desks.new accepted refused) answer) }
    ensures memory { OnErr result ((accepted refused : ℕ) → Accepts (day_of desks.old accepted refused) row.now) }
{
    let index = row.security as usize;
    if index >= desks.len() {
        return Ok(Err(Refusal::UnknownSecurity));
    }
    desks[index].answer(&row.command)
}
