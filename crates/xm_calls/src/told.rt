//! The calls that are told as the rows of a day come.
ghost use Rattle.std.specs.Prelude.{◌≡◌, ◌++◌, OnOk, map};
ghost use Rattle.xm_calls.specs.Calls.{call_text, told_of_row};
ghost use Rattle.xm_rules.specs.Step.{replay};

use crate::asked::{CallsAsked, Form, has_this_name, moment_of};
use std::alloc::Global;
use xm_config::Row;
use xm_desk::Desk;
use xm_files::SegmentNames;
use xm_memory::OutOfMemory;
use xm_observers::Observer;
use xm_reason_texts::{push_block, push_rows};
use xm_reasons::reasons;
use xm_replay::answer_row;
use xm_rules::{Refusal, Reply};

/// The calls that were told of the rows so far.
#[derive(Drop)]
pub(crate) struct ToldCalls<'a> {
    pub(crate) alloc: Global,
    pub(crate) names: &'a SegmentNames,
    /// The name of the security.
    pub(crate) name: &'a str,
    pub(crate) asked: CallsAsked,
    pub(crate) text: Vec<u8>,
}

impl Observer for ToldCalls<'_> {
    ghost use Rattle.xm_calls.specs.Calls.{CallsTold, next_told};

    ghost Seen = { CallsTold };

    ghost seen = { λ c. record { names = c.names.now; name = c.name.now; asked = c.asked; text = c.text.items } };

    ghost next = { next_told };

    ghost rows = { λ seen. 0 };

    fn take(
        &mut self,
        desks: &mut [Desk<Global>],
        row: &Row,
    ) -> Result<Result<Reply, Refusal>, OutOfMemory> {
        if has_this_name(self.names, self.name, row.security) && self.asked.is_moment(row) {
            push_told(
                self.alloc,
                &mut self.text,
                self.name,
                self.asked.form,
                desks,
                row,
            )?;
        }
        answer_row(desks, row)
    }
}

/// Adds the call of the security of a row, as it stands before the row.
fn push_told(
    alloc: Global,
    text: &mut Vec<u8>,
    name: &str,
    form: Form,
    desks: &[Desk<Global>],
    row: &Row,
) -> Result<(), OutOfMemory>
    ensures { OnOk result (text.new.items ≡ text.old.items ++ told_of_row name.now form (map replay desks.now) row.now) }
{
    let index = row.security as usize;
    if index >= desks.len() {
        return Ok(());
    }
    push_call(alloc, text, name, form, &desks[index], row)
}

/// Adds the call of a desk, if it is in one.
fn push_call(
    alloc: Global,
    text: &mut Vec<u8>,
    name: &str,
    form: Form,
    desk: &Desk<Global>,
    row: &Row,
) -> Result<(), OutOfMemory>
    ensures { OnOk result (text.new.items ≡ text.old.items ++ call_text name.now form row.now (replay desk.now)) }
{
    let Some(reasons) = reasons(alloc, desk)? else {
        return Ok(());
    };
    let tick = desk.settings().tick;
    let number = u64::from(row.line);
    match form {
        Form::Plain => {
            let moment = moment_of(&row.command);
            push_block(alloc, text, name, tick, number, moment, &reasons)
        }
        Form::Csv => push_rows(alloc, text, name, tick, number, &reasons),
    }
}
