//! The texts of a day.
ghost use Rattle.std.specs.Prelude.{◌≡◌, IfOk, length, map};
ghost use Rattle.std.specs.List.{list_all};
ghost use Rattle.xm_config.specs.Day.{day_of};
ghost use Rattle.xm_day.specs.Days.{HasTextsOf, completeness_of, hands_on, has_ended, text_where};
ghost use Rattle.xm_texts.specs.Carry.{carry_text};
ghost use Rattle.xm_rules.specs.Step.{replay};

use crate::statement_text::StatementText;
use crate::taking::TakenDay;
use std::alloc::Global;
use xm_desk::Desk;
use xm_files::SegmentNames;
use xm_memory::OutOfMemory;
use xm_replay::{DayFault, DayReport, OpenDay};
use xm_texts::carry_text;

/// What a day hands on to the next one.
#[derive(Clone, Copy, PartialEq, Eq, Debug)]
pub enum HandsOn {
    Nothing,
    /// A carry file: the orders and stops that are valid beyond the day.
    WhatIsLeft,
}

/// Whether a day is complete: none of its rows was refused, and each of its securities has ended.
#[derive(Clone, Copy, PartialEq, Eq, Debug)]
pub enum Completeness {
    Complete,
    Incomplete,
}

/// The texts of a day, all made whole, what it counts, and whether it is complete. A text that isn't asked for is empty.
#[derive(Drop)]
pub struct DayTexts {
    pub statement: StatementText,
    /// The answers to its rows.
    pub answers: Vec<u8>,
    /// Its trades, each with the row that set it off.
    pub trades: Vec<u8>,
    /// The events of its orders.
    pub events: Vec<u8>,
    /// The levels behind its rows.
    pub depth: Vec<u8>,
    /// The carry file of the next day.
    pub carry: Vec<u8>,
    pub report: DayReport,
    pub completeness: Completeness,
}

/// Makes the texts of a day whose rows are taken.
///
/// `OutOfMemory`: a growth was refused. The other faults are those that the day has.
pub fn day_texts(
    alloc: Global,
    names: &SegmentNames,
    taken: Result<TakenDay, DayFault>,
    handing: HandsOn,
) -> Result<DayTexts, DayFault>
    requires { IfOk taken (λ t. length names.now.securities ≡ length t.day.desks.items) }
    ensures { HasTextsOf names.now handing taken result }
{
    let TakenDay { day, statement } = taken?;
    let completeness = completeness_of(day.desks.as_slice(), &day.report);
    let OpenDay {
        desks,
        report,
        told,
    } = day;
    let carry = left_text(alloc, desks.as_slice(), names, handing)?;
    Ok(DayTexts {
        statement,
        answers: told.answers.into_text(alloc),
        trades: told.trades.into_text(alloc),
        events: told.events.into_text(alloc),
        depth: told.depth.into_text(alloc),
        carry,
        report,
        completeness,
    })
}

/// Whether the day of desks that took rows, and counted these, is complete.
pub fn completeness_of(desks: &[Desk<Global>], report: &DayReport) -> Completeness
    ensures { result ≡ completeness_of (day_of desks.now report.now.accepted report.now.refused) }
{
    if report.refused == 0 && have_ended(desks) {
        Completeness::Complete
    } else {
        Completeness::Incomplete
    }
}

/// Whether the day of each security has ended.
fn have_ended(desks: &[Desk<Global>]) -> bool
    ensures { result ≡ list_all has_ended (map replay desks.now) }
{
    match desks {
        [] => true,
        [desk, desks @ ..] => desk.phase().is_ended() && have_ended(desks),
    }
}

/// The text of what desks leave, if it is handed on.
fn left_text(
    alloc: Global,
    desks: &[Desk<Global>],
    names: &SegmentNames,
    handing: HandsOn,
) -> Result<Vec<u8>, OutOfMemory>
    requires { length names.now.securities ≡ length desks.now }
    ensures { IfOk result (λ text. text.items ≡ text_where (hands_on handing) (carry_text names.now (map replay desks.now))) }
{
    match handing {
        HandsOn::Nothing => Ok(Vec::new(alloc)),
        HandsOn::WhatIsLeft => carry_text(alloc, desks, names),
    }
}
