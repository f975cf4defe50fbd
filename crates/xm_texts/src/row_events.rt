//! Rows that are taken by their desks, and the lines of what happened by them.
ghost use Rattle.std.specs.Prelude.{◌≡◌, ◌≢◌, ◌++◌, Err, IfOk, None, OnErr, OnOk, Some};
ghost use Rattle.xm_config.specs.Day.{answer_on};
ghost use Rattle.xm_desk.specs.Answered.{journal_after};
ghost use Rattle.xm_rules.specs.Step.{replay};
ghost use Rattle.xm_rules.specs.declared.replies.Refusal.TheVariants.{UnknownSecurity};
ghost use Rattle.xm_stories.specs.OfDesks.{StandsBeforeOrBehind};
ghost use Rattle.xm_texts.specs.RowAnswers.{with_text};
ghost use Rattle.xm_texts.specs.RowEvents.{row_events};

use crate::events::{push_events, push_refused};
use crate::lines::Lines;
use std::alloc::Global;
use xm_config::Row;
use xm_desk::Desk;
use xm_files::SegmentNames;
use xm_memory::OutOfMemory;
use xm_name_index::Storage;
use xm_rules::{Refusal, Reply};
use xm_stories::{Taken, take};

/// Has the desk of a row answer it, and adds the lines of what happened by it, where they are asked for.
pub fn take_row(
    lines: &mut Lines,
    storage: Storage<Global>,
    names: &SegmentNames,
    desk: &mut Desk<Global>,
    row: &Row,
) -> Result<Result<Reply, Refusal>, OutOfMemory>
    ensures answer { IfOk result (λ answer. answer ≡ answer_on row.now (Some (replay desk.old))) }
    ensures after { OnOk result (desk.new ≡ journal_after desk.old row.now.command) }
    ensures told { OnOk result (lines.new ≡ with_text (row_events names.now row.now (answer_on row.now (Some (replay desk.old))) (Some (replay desk.old))) lines.old) }
    ensures wanting { OnErr result (StandsBeforeOrBehind desk.old row.now.command desk.new) }
{
    match &mut lines.text {
        None => desk.answer(&row.command),
        Some(text) => take_told(text, storage, names, desk, row),
    }
}

/// Has the desk of a row answer it, and adds the lines of what happened by it. Want of memory may come behind the answer.
pub fn take_told(
    text: &mut Vec<u8>,
    storage: Storage<Global>,
    names: &SegmentNames,
    desk: &mut Desk<Global>,
    row: &Row,
) -> Result<Result<Reply, Refusal>, OutOfMemory>
    ensures answer { IfOk result (λ answer. answer ≡ answer_on row.now (Some (replay desk.old))) }
    ensures after { OnOk result (desk.new ≡ journal_after desk.old row.now.command) }
    ensures told { OnOk result (text.new.items ≡ text.old.items ++ row_events names.now row.now (answer_on row.now (Some (replay desk.old))) (Some (replay desk.old))) }
    ensures wanting { OnErr result (StandsBeforeOrBehind desk.old row.now.command desk.new) }
{
    let tick = desk.settings().tick;
    let Taken { answer, events } = take(storage, desk, &row.command)?;
    match &answer {
        Ok(_) => push_events(text, names, row.line, row.security, tick, &events)?,
        Err(refusal) => push_refused(text, names, row, *refusal)?,
    }
    Ok(answer)
}

/// Adds the line of a row of an unknown security, where events are asked for.
pub fn tell_unknown(lines: &mut Lines, names: &SegmentNames, row: &Row) -> Result<(), OutOfMemory>
    ensures told { OnOk result (lines.new ≡ with_text (row_events names.now row.now (Err UnknownSecurity) None) lines.old) }
    ensures asked { OnErr result (lines.old ≢ None) }
{
    let Some(text) = &mut lines.text else {
        return Ok(());
    };
    push_refused(text, names, row, Refusal::UnknownSecurity)
}
