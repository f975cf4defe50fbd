//! What is wrong with the files of a day, as a call of the program tells it.
ghost use Rattle.std.specs.Prelude.{◌≡◌, ◌≢◌, ◌≤◌, IfErr, IfOk, length, map};
ghost use Rattle.xm_explanations.specs.declared.read_files.ReadFile.{ReadFile};
ghost use Rattle.xm_files.specs.declared.order_files.TheConstants.{MAX_FILES};
ghost use Rattle.xm_program.specs.Days.{ExplanationEnds, HasExplained, IsReadFor};
ghost use Rattle.xm_program.specs.Ends.{AskedEnds};
ghost use Rattle.xm_program.specs.Requests.{explanation, named_explanation};

use crate::outcome::Outcome;
use crate::program::{send, storage};
use crate::requests::ExplanationRequest;
use arrayvec::ArrayVec;
use std::alloc::Global;
use std::fs;
use std::io::Write;
use std::random::RandomSource;
use std::rt::Files;
use xm_day::DayFault;
use xm_explanations::{ReadDay, ReadFile, explain, explanation_text};
use xm_files::{MAX_FILES, ReadFault, read_file};
use xm_memory::OutOfMemory;
use xm_name_index::Storage;

/// Writes to standard output what is wrong with the files of a day, or unsaid of it.
pub(crate) fn write_explanation<R: AllocGlobal + Files + RandomSource, W: Write>(
    rt: &R,
    request: &ExplanationRequest<'_>,
    out: &mut W,
) -> Result<Outcome, DayFault>
    ensures ends { AskedEnds (explanation (named_explanation request.now)) (W.contents out.old) (W.contents out.new) result }
    ensures untouched { IfErr result (λ fault. fault ≢ DayFault.WriteFailed → out.new ≡ out.old) }
{
    let storage = storage(rt);
    let day = read_day(rt, storage.alloc, request)?;
    explain_day(storage, &day, out)
}

/// Writes what is wrong with the files of a day as they were read, or unsaid of it.
///
/// The faults are `OutOfMemory`, and then `WriteFailed`.
pub fn explain_day<W: Write>(
    storage: Storage<Global>,
    day: &ReadDay<'_>,
    out: &mut W,
) -> Result<Outcome, DayFault>
    requires few { length day.now.orders.items ≤ MAX_FILES }
    ensures ends { ExplanationEnds day.now (record { old = W.contents out.old; new = W.contents out.new }) result }
    ensures untouched { IfErr result (λ fault. fault ≢ DayFault.WriteFailed → out.new ≡ out.old) }
{
    let (text, outcome) = explained(storage, day)?;
    match send(out, &text) {
        Ok(()) => Ok(outcome),
        Err(fault) => Err(fault),
    }
}

/// The text of an explanation, and what comes of it.
fn explained(storage: Storage<Global>, day: &ReadDay<'_>) -> Result<(Vec<u8>, Outcome), OutOfMemory>
    requires few { length day.now.orders.items ≤ MAX_FILES }
    ensures { IfOk result (λ said. HasExplained day.now said.0.items said.1) }
{
    let explanation = explain(storage, day)?;
    let text = explanation_text(storage.alloc, day.orders.as_slice(), &explanation)?;
    Ok((text, Outcome::explained(&explanation)))
}

/// Reads the files of a day, each whole.
fn read_day<'a, R: Files>(
    rt: &R,
    alloc: Global,
    request: &ExplanationRequest<'a>,
) -> Result<ReadDay<'a>, OutOfMemory>
    ensures paths { IfOk result (IsReadFor (named_explanation request.now)) }
    ensures few { IfOk result (λ day. length day.orders.items ≤ MAX_FILES) }
{
    let segment = read_at(rt, alloc, request.segment);
    let carried = match request.carried {
        None => None,
        Some(path) => Some(read_at(rt, alloc, path)),
    };
    let orders = read_each(rt, alloc, &request.orders)?;
    Ok(ReadDay {
        segment,
        carried,
        orders,
    })
}

/// Reads the files at these paths, in their order.
fn read_each<'a, R: Files>(
    rt: &R,
    alloc: Global,
    paths: &ArrayVec<&'a str, MAX_FILES>,
) -> Result<Vec<ReadFile<'a>>, OutOfMemory>
    ensures paths { IfOk result (λ files. map (λ (file : ReadFile). file.path.now) files.items ≡ map (λ s. s.now) paths.now.items) }
    ensures few { IfOk result (λ files. length files.items ≤ MAX_FILES) }
{
    let mut files = Vec::new(alloc);
    for path in paths.as_slice() {
        files.push(read_at(rt, alloc, *path))?;
    }
    Ok(files)
}

/// Reads the file at a path.
fn read_at<'a, R: Files>(rt: &R, alloc: Global, path: &'a str) -> ReadFile<'a>
    ensures { result.path.now ≡ path.entry.now }
{
    let text = match fs::open(rt, path) {
        Ok(mut file) => read_file(alloc, &mut file),
        Err(error) => Err(ReadFault::Failed(error)),
    };
    ReadFile { path, text }
}
