//! Rows of which events are told.
ghost use Rattle.std.specs.Prelude.{ℕ, ◌≡◌, ◌+◌, ◌<◌, ◌^◌, IfOk, OnOk, map};
ghost use Rattle.xm_replay.specs.Taken.{TookRow};
ghost use Rattle.xm_config.specs.Day.{after_row, counted, day_of, row_answer};
ghost use Rattle.xm_texts.specs.RowAnswers.{with_text};
ghost use Rattle.xm_texts.specs.RowEvents.{told_events};
ghost use Rattle.xm_files.specs.RecordTexts.{texts_in};
ghost use Rattle.xm_rules.specs.Step.{replay};

use crate::report::DayReport;
use std::alloc::Global;
use xm_config::Row;
use xm_desk::Desk;
use xm_files::{RecordTexts, SegmentNames};
use xm_memory::OutOfMemory;
use xm_name_index::Storage;
use xm_rules::{Refusal, Reply};
use xm_texts::{Lines, Told, tell_unknown};

/// Takes a row, counts it, and tells what is asked for, its events among it. It stands by itself, so that no other row pays for them.
#[inline(never)]
pub(crate) fn take_with_events(
    storage: Storage<Global>,
    desks: &mut [Desk<Global>],
    names: &SegmentNames,
    texts: &mut RecordTexts<'_>,
    row: &Row,
    report: &mut DayReport,
    told: &mut Told,
) -> Result<(), OutOfMemory>
    requires room { report.old.accepted + report.old.refused + 1 < 2 ^ 64 }
    ensures taken { OnOk result (TookRow names.now (texts_in texts.old) (day_of desks.old report.old.accepted report.old.refused) row.now told.old (day_of desks.new report.new.accepted report.new.refused) told.new) }
    ensures counted { OnOk result (report.new.accepted + report.new.refused ≡ report.old.accepted + report.old.refused + 1) }
    ensures texts { texts_in texts.new ≡ texts_in texts.old }
{
    let answer = answer_with_events(&mut told.events, storage, names, desks, row)?;
    told.tell(names, texts, desks, row, &answer)?;
    *report = report.counted(&answer);
    Ok(())
}

/// Has the security of a row answer it, and adds the events of it, where they are asked for.
fn answer_with_events(
    events: &mut Lines,
    storage: Storage<Global>,
    names: &SegmentNames,
    desks: &mut [Desk<Global>],
    row: &Row,
) -> Result<Result<Reply, Refusal>, OutOfMemory>
    ensures answer { IfOk result (λ answer. answer ≡ row_answer (map replay desks.old) row.now) }
    ensures taken { IfOk result (λ answer. (accepted refused : ℕ) → after_row (day_of desks.old accepted refused) row.now ≡ counted (day_of desks.new accepted refused) answer) }
    ensures told { OnOk result ((accepted refused : ℕ) → events.new ≡ with_text (told_events names.now (day_of desks.old accepted refused) row.now) events.old) }
{
    let index = row.security as usize;
    if index >= desks.len() {
        tell_unknown(events, names, row)?;
        return Ok(Err(Refusal::UnknownSecurity));
    }
    xm_texts::take_row(events, storage, names, &mut desks[index], row)
}
