//! The tables of the calls of a security.
ghost use Rattle.std.specs.Prelude.{◌≡◌, ◌≤◌, ◌++◌, [], IfErr, IfOk, OnOk, length, map};
ghost use Rattle.xm_calls.specs.Calls.{HasTables, tables_text, untold};
ghost use Rattle.xm_files.specs.declared.order_files.TheConstants.{MAX_FILES};
ghost use Rattle.xm_replay.specs.Taken.{FilesRun};

use crate::asked::{CallsAsked, Form};
use crate::told::ToldCalls;
use itoa::Buffer;
use std::alloc::Global;
use std::io::Read;
use xm_config::SegmentConfig;
use xm_files::{OrdersFault, SegmentNames};
use xm_memory::OutOfMemory;
use xm_name_index::Storage;
use xm_observers::observe_rows;
use xm_reason_texts::push_header;
use xm_replay::DayFault;

/// Runs the rows of the order files of a day, and tells the calls of the security with this name that are asked for, each before the row
/// that ends it, or before the record that was asked for.
///
/// The first fault of a file is answered, if one has any; else `Open`: the segment can't be opened; `OutOfMemory`: a growth was refused.
pub fn call_tables<R: Read>(
    storage: Storage<Global>,
    config: &SegmentConfig,
    names: &SegmentNames,
    orders: &mut [R],
    name: &str,
    asked: CallsAsked,
) -> Result<Result<Vec<u8>, DayFault>, OrdersFault>
    requires { length orders.old ≤ MAX_FILES }
    ensures { FilesRun (λ texts. HasTables names.now name.now asked) config.now names.now (map R.remaining orders.old) result }
{
    let told = ToldCalls {
        alloc: storage.alloc,
        names,
        name,
        asked,
        text: Vec::new(storage.alloc),
    };
    match observe_rows(storage, config, names, orders, told) {
        Ok(Ok(day)) => Ok(finished(storage.alloc, name, asked, day.observer.text)),
        Ok(Err(fault)) => Ok(Err(fault)),
        Err(fault) => Err(fault),
    }
}

/// The whole text, by the calls that were told.
fn finished(
    alloc: Global,
    name: &str,
    asked: CallsAsked,
    told: Vec<u8>,
) -> Result<Vec<u8>, DayFault>
    ensures text { IfOk result (λ text. text.items ≡ tables_text name.now asked told.items) }
    ensures memory { IfErr result (λ fault. fault ≡ DayFault.OutOfMemory tt) }
{
    let mut text = Vec::new(alloc);
    match asked.form {
        Form::Csv => {
            push_header(&mut text)?;
            text.extend_from_slice(told.as_slice())
                .map_err(OutOfMemory::from)?;
        }
        Form::Plain if told.is_empty() => {
            push_untold(&mut text, name, asked.at)?;
        }
        Form::Plain => return Ok(told),
    }
    Ok(text)
}

/// Says that no call is told.
fn push_untold(text: &mut Vec<u8>, name: &str, at: Option<u32>) -> Result<(), OutOfMemory>
    requires { text.old.items ≡ [] }
    ensures { OnOk result (text.new.items ≡ untold name.now at) }
{
    text.extend_from_slice(name.as_bytes())?;
    let Some(record) = at else {
        text.extend_from_slice(b": no call ends in these files\n")?;
        return Ok(());
    };
    let mut digits = Buffer::new();
    text.extend_from_slice(b", record ")?;
    text.extend_from_slice(digits.format(record).as_bytes())?;
    text.extend_from_slice(b": it is in no call there, or this is no record of it\n")?;
    Ok(())
}
