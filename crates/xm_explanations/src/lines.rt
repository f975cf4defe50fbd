//! What is said of the files of a day, as text.
ghost use Rattle.std.specs.Prelude.{◌≡◌, ◌+◌, ◌<◌, ◌++◌, ◌^◌, IfOk, OnOk, length, string_bytes};
ghost use Rattle.std.specs.List.{flat_map};
ghost use Rattle.xm_explanations.specs.Lines.{AreLines, accepted_text, found_lines, mistake_line, mistaken_lines, reason_text, record_text, refusal_text, told_refusal, refused_lines, report_line, since_text, standing_line, standing_lines, unended_line, unsaid_lines};
ghost use Rattle.xm_mistakes.specs.declared.mistake.Mistake.{Mistake};
ghost use Rattle.xm_mistakes.specs.declared.mistake.OpenMistake.{OpenMistake};
ghost use Rattle.xm_texts.specs.Statement.{name_at};

use crate::explaining::Explanation;
use crate::mistaken::{Found, MistakenFile};
use crate::notes::{Note, notes_of};
use crate::read_files::ReadFile;
use crate::running::UnsaidDay;
use crate::unsaid::Standing;
use std::alloc::Global;
use xm_files::SegmentNames;
use xm_memory::OutOfMemory;
use xm_mistakes::{Mistake, OpenMistake};
use xm_replay::DayReport;
use xm_texts::fields::{push_number, push_text};
use xm_texts::{phase_word, refusal_word};

/// The text of an explanation of a day of these order files: a line for each mistake, or else a line with the counts of the day, one for
/// each refusal of its rows, and one for each security that hasn't ended.
pub fn explanation_text(
    alloc: Global,
    orders: &[ReadFile<'_>],
    explanation: &Explanation<'_>,
) -> Result<Vec<u8>, OutOfMemory>
    ensures { IfOk result (λ text. AreLines explanation.now text.items) }
{
    let mut text = Vec::new(alloc);
    match explanation {
        Explanation::Mistaken(told) => push_mistaken(&mut text, told.as_slice())?,
        Explanation::Faultless(unsaid) => {
            let refused = unsaid.refused.as_slice();
            let notes = notes_of(alloc, refused, unsaid.places.as_slice(), orders)?;
            push_unsaid(&mut text, notes.as_slice(), unsaid)?;
        }
    }
    Ok(text)
}

/// The lines of mistakes.
fn push_mistaken(text: &mut Vec<u8>, told: &[MistakenFile<'_>]) -> Result<(), OutOfMemory>
    ensures { OnOk result (text.new.items ≡ text.old.items ++ mistaken_lines told.now) }
{
    for file in told {
        push_file(text, file)?;
    }
    Ok(())
}

/// The lines of the mistakes of a file.
fn push_file(text: &mut Vec<u8>, file: &MistakenFile<'_>) -> Result<(), OutOfMemory>
    ensures { OnOk result (text.new.items ≡ text.old.items ++ found_lines file.now.path.now file.now.found) }
{
    match &file.found {
        Found::Read(_, mistakes) => push_read(text, file.path, mistakes.as_slice()),
        Found::Opening(mistakes) => push_opening(text, file.path, mistakes.as_slice()),
    }
}

/// The lines of the mistakes of a file that was read.
fn push_read(text: &mut Vec<u8>, path: &str, mistakes: &[Mistake]) -> Result<(), OutOfMemory>
    ensures { OnOk result (text.new.items ≡ text.old.items ++ flat_map (λ (m : Mistake). mistake_line path.now (string_bytes m.words)) mistakes.now) }
{
    for mistake in mistakes {
        push_mistake(text, path, mistake.words.as_str())?;
    }
    Ok(())
}

/// The lines of mistakes for which a segment isn't opened.
fn push_opening(text: &mut Vec<u8>, path: &str, mistakes: &[OpenMistake]) -> Result<(), OutOfMemory>
    ensures { OnOk result (text.new.items ≡ text.old.items ++ flat_map (λ (m : OpenMistake). mistake_line path.now (string_bytes m.words)) mistakes.now) }
{
    for mistake in mistakes {
        push_mistake(text, path, mistake.words.as_str())?;
    }
    Ok(())
}

/// The line of a mistake in these words.
fn push_mistake(text: &mut Vec<u8>, path: &str, words: &str) -> Result<(), OutOfMemory>
    ensures { OnOk result (text.new.items ≡ text.old.items ++ mistake_line path.now words.now) }
{
    push_text(text, path)?;
    push_text(text, ": ")?;
    push_text(text, words)?;
    push_text(text, "\n")
}

/// The lines of what is unsaid of a day, with these words beside its refused rows.
fn push_unsaid(text: &mut Vec<u8>, notes: &[Note], unsaid: &UnsaidDay) -> Result<(), OutOfMemory>
    ensures { OnOk result (text.new.items ≡ text.old.items ++ unsaid_lines notes.now unsaid.now) }
{
    push_report(text, &unsaid.report)?;
    push_refused(text, notes)?;
    push_standing(text, &unsaid.names, 0, unsaid.standing.as_slice())
}

/// The line of the counts of a day.
fn push_report(text: &mut Vec<u8>, report: &DayReport) -> Result<(), OutOfMemory>
    ensures { OnOk result (text.new.items ≡ text.old.items ++ report_line report.now) }
{
    push_accepted(text, report.accepted)?;
    push_number(text, report.refused)?;
    push_text(text, " refused\n")
}

/// How many rows were accepted.
fn push_accepted(text: &mut Vec<u8>, rows: u64) -> Result<(), OutOfMemory>
    ensures { OnOk result (text.new.items ≡ text.old.items ++ accepted_text rows) }
{
    push_text(text, "no mistake: ")?;
    push_number(text, rows)?;
    push_text(text, " rows accepted, ")
}

/// The lines of refused rows.
fn push_refused(text: &mut Vec<u8>, notes: &[Note]) -> Result<(), OutOfMemory>
    ensures { OnOk result (text.new.items ≡ text.old.items ++ refused_lines notes.now) }
{
    match notes {
        [] => Ok(()),
        [first, more @ ..] => {
            push_refusal(text, first)?;
            push_refused(text, more)
        }
    }
}

/// The line of rows that were refused for one reason.
fn push_refusal(text: &mut Vec<u8>, note: &Note) -> Result<(), OutOfMemory>
    ensures { OnOk result (text.new.items ≡ text.old.items ++ told_refusal note.now) }
{
    push_refused_as(text, note)?;
    push_reason(text, note)
}

/// Where the first of these rows stands, and why it was refused.
fn push_refused_as(text: &mut Vec<u8>, note: &Note) -> Result<(), OutOfMemory>
    ensures { OnOk result (text.new.items ≡ text.old.items ++ refusal_text note.now) }
{
    push_text(text, note.place.as_str())?;
    push_text(text, ": refused as ")?;
    push_text(text, refusal_word(note.rows.refusal))?;
    push_text(text, ": ")
}

/// What it was refused for, and how many rows were refused so.
fn push_reason(text: &mut Vec<u8>, note: &Note) -> Result<(), OutOfMemory>
    ensures { OnOk result (text.new.items ≡ text.old.items ++ reason_text note.now) }
{
    push_text(text, note.reason.as_str())?;
    push_text(text, "; rows refused so: ")?;
    push_number(text, note.rows.rows)?;
    push_text(text, "\n")
}

/// The lines of securities that haven't ended, of which the first has this index.
fn push_standing(
    text: &mut Vec<u8>,
    names: &SegmentNames,
    index: usize,
    standing: &[Standing],
) -> Result<(), OutOfMemory>
    requires { index + length standing.now < 2 ^ 64 }
    ensures { OnOk result (text.new.items ≡ text.old.items ++ standing_lines names.now index standing.now) }
{
    match standing {
        [] => Ok(()),
        [first, more @ ..] => {
            push_stands(text, name_at(names, index), first)?;
            push_standing(text, names, index + 1, more)
        }
    }
}

/// The name of the security with this index, or none.
fn name_at(names: &SegmentNames, index: usize) -> &str
    ensures { result.now ≡ name_at names.now.securities index }
{
    if index >= names.securities() as usize {
        return "";
    }
    names.security(index as u32).unwrap_or("")
}

/// The line of a security that hasn't ended.
fn push_stands(text: &mut Vec<u8>, name: &str, standing: &Standing) -> Result<(), OutOfMemory>
    ensures { OnOk result (text.new.items ≡ text.old.items ++ standing_line name.now standing.now) }
{
    if standing.phase.is_ended() {
        Ok(())
    } else {
        push_unended(text, name, standing)
    }
}

/// The line of a security that stands so.
fn push_unended(text: &mut Vec<u8>, name: &str, standing: &Standing) -> Result<(), OutOfMemory>
    ensures { OnOk result (text.new.items ≡ text.old.items ++ unended_line name.now standing.now) }
{
    push_text(text, "security ")?;
    push_text(text, name)?;
    push_text(text, " has not ended: ")?;
    push_text(text, phase_word(standing.phase))?;
    push_text(text, " ")?;
    push_since(text, u64::from(standing.since))
}

/// Since when a security stands so.
fn push_since(text: &mut Vec<u8>, since: u64) -> Result<(), OutOfMemory>
    ensures { OnOk result (text.new.items ≡ text.old.items ++ since_text since) }
{
    if since == 0 {
        push_text(text, "since the day began\n")
    } else {
        push_record(text, since)
    }
}

/// Since which record a security stands so.
fn push_record(text: &mut Vec<u8>, number: u64) -> Result<(), OutOfMemory>
    ensures { OnOk result (text.new.items ≡ text.old.items ++ record_text number) }
{
    push_text(text, "since record ")?;
    push_number(text, number)?;
    push_text(text, "\n")
}
