//! What is said of refused rows beside their number: where the first of them stands, and what it is refused for.
ghost use Rattle.std.specs.Prelude.{◌≡◌, IfOk, map};
ghost use Rattle.xm_explanations.specs.declared.notes.Note.{Note};

use crate::read_files::ReadFile;
use crate::unsaid::RefusedRows;
use std::alloc::Global;
use xm_csv_mistakes::FoundRecord;
use xm_memory::OutOfMemory;
use xm_rules::Refusal;

/// Rows that were refused for one reason, with words beside their number.
#[derive(Drop)]
pub struct Note {
    pub rows: RefusedRows,
    /// The file, the line and the record of the first.
    pub place: String,
    /// What it was refused for.
    pub reason: String,
}

/// The words of the rows that were refused for these reasons, of which the first stand there.
pub(crate) fn notes_of(
    alloc: Global,
    refused: &[RefusedRows],
    found: &[FoundRecord],
    orders: &[ReadFile<'_>],
) -> Result<Vec<Note>, OutOfMemory>
    ensures { IfOk result (λ notes. map (λ (note : Note). note.rows) notes.items ≡ refused.now) }
{
    let mut notes = Vec::new(alloc);
    for index in 0..refused.len() {
        notes.push(note_of(alloc, &refused[index], found.get(index), orders)?)?;
    }
    Ok(notes)
}

/// The words of rows that were refused for one reason, of which the first stands there.
fn note_of(
    alloc: Global,
    rows: &RefusedRows,
    found: Option<&FoundRecord>,
    orders: &[ReadFile<'_>],
) -> Result<Note, OutOfMemory>
    ensures { IfOk result (λ note. note.rows ≡ rows.now) }
{
    let mut place = String::new(alloc);
    let mut reason = String::new(alloc);
    if let Some(record) = found {
        if let Some(file) = orders.get(record.file) {
            place.push_str(file.path)?;
            place.push_str(": ")?;
        }
        place.push_str(record.place.as_str())?;
        reason.push_str(name_in(&rows.refusal, record))?;
    }
    reason.push_str(why(&rows.refusal))?;
    Ok(Note {
        rows: *rows,
        place,
        reason,
    })
}

/// The name in a record that isn't known, where it is refused for that.
fn name_in<'r>(refusal: &Refusal, record: &'r FoundRecord) -> &'r str {
    match refusal {
        Refusal::UnknownSecurity => record.security.as_str(),
        Refusal::UnknownMember => record.member.as_str(),
        _ => "",
    }
}

/// Why a row is refused, behind the name in it that isn't known.
fn why(refusal: &Refusal) -> &'static str {
    match refusal {
        Refusal::UnknownSecurity => " is no security of the segment file",
        Refusal::UnknownMember => " is no member of the segment file",
        Refusal::DayEnded => "the day of the security has ended",
        Refusal::BadQuantity => "a quantity is 1 to 1000000",
        Refusal::BadPrice => "a limit or a trigger is 1 to 1000000 ticks",
        Refusal::BadValidity => "the order would be valid till a date before today",
        Refusal::BadCombination => {
            "ioc, fok and boc go with no stop and no restriction, boc with a limit, and a stop with no restriction"
        }
        Refusal::WrongPhase => {
            "the phase that the security is in takes no such command: calls begin with open, intraday and close, and end with uncross; ioc, fok and boc go with continuous trading"
        }
        Refusal::DuplicateReference => {
            "the member has an order or a stop with this reference in the security"
        }
        Refusal::UnknownOrder => {
            "the member has no order and no stop with this reference in the security: it was executed, cancelled or deleted, or never entered"
        }
        Refusal::NotChangeable => {
            "a stop isn't changed, and a market order gets no limit: cancel it and enter another"
        }
        Refusal::TriggerReached => "the price of the last trade has reached the trigger already",
        Refusal::JournalFull => {
            "the security takes no more commands: its key journal in the segment file says how many it takes"
        }
        Refusal::OutOfMemory(_) => "memory is wanting",
        Refusal::WouldExecute =>
            "the order is to rest only, and one of the other side would meet it",
    }
}
