//! A call of the program, over any runtime.
ghost use Rattle.std.specs.Prelude.{◌≡◌, ◌≢◌, ◌≤◌, Err, IfErr, IfOk, None, OnOk, Some, is_some, length, map, string_bytes};
ghost use Rattle.std.specs.Io.KnownBytes.{Appends};
ghost use Rattle.std.specs.Process.{exit_status};
ghost use Rattle.clap.specs.Words.{fault_of};
ghost use Rattle.xm_day.specs.Days.{TakesFile};
ghost use Rattle.xm_files.specs.declared.order_files.TheConstants.{MAX_FILES};
ghost use Rattle.xm_program.specs.Days.{AppendsBeginning, CheckCallEnds, DayCallEnds, DayIsSent, EndsBy, FilesEnd, IsChosen, IsDayBy, SendingEnds, asked_with, sendings};
ghost use Rattle.xm_program.specs.Ends.{AskedEnds, CallEnds, IsDone, IsToldAs};
ghost use Rattle.xm_program.specs.Outputs.{outputs_of};
ghost use Rattle.xm_program.specs.Requests.{RefusesBytes, asked_of, asked_texts, check, day, day_app, end_status, named_day};

use crate::auctions::write_auction;
use crate::complaints::Complaints;
use crate::concurrency::Concurrency;
use crate::count::Count;
use crate::explanations::write_explanation;
use crate::fault_lines::fault_line;
use crate::outcome::Outcome;
use crate::outputs::TextFiles;
use crate::places::place_in;
use crate::requests::{self, DayRequest, Failure, Request};
use crate::{inputs, outputs};
use clap::Error;
use std::alloc::Global;
use std::io::{Read, Write};
use std::process::ExitCode;
use std::random::RandomSource;
use std::rt::{Env, Files};
use std::sync::Wait;
use std::thread::Threads;
use std::{env, fs, io, thread};
use xm_config::SegmentConfig;
use xm_day::{
    AskedTexts, Completeness, DayFault, DayTexts, HandsOn, TakenDay, day_texts, open_carried_files,
    open_files, send_statement, take_on_threads, take_shared,
};
use xm_files::SegmentNames;
use xm_memory::OutOfMemory;
use xm_name_index::{Seed, Storage};
use xm_segment::NoGate;
use xm_ticks::write_whole;

/// What is told where the words name no security of the segment.
const UNKNOWN_SECURITY: &str = "xetra-day: the segment file has no security of this name\n";

/// The least bytes of order files that are worth several threads: those of some 20,000 rows.
const LONG_FILE: u64 = 700_000;

/// Does what the command line asks for, tells on standard error where it can't, and gives the status to end with.
pub fn run_program<
    R: Env + AllocGlobal + Files + Print + Eprint + RandomSource + Threads + Wait + Sync,
>(rt: &R) -> ExitCode
    ensures { exit_status result ≤ 4 }
{
    let mut complaints = Complaints { rt };
    match read_command_line(rt) {
        Ok(words) => run_words(rt, words.as_slice(), &mut io::writer(rt), &mut complaints),
        Err(failure) => tell(&mut complaints, Err(failure)),
    }
}

/// Does what these words ask for, of which the first is the program's name, tells on the second stream where it can't, and
/// gives the status to end with.
pub fn run_words<R: AllocGlobal + Files + RandomSource + Threads + Wait + Sync, W: Write, E: Write>(
    rt: &R,
    words: &[String],
    out: &mut W,
    complaints: &mut E,
) -> ExitCode
    ensures { CallEnds (fault_of day_app (map string_bytes words.now)) (asked_of (map string_bytes words.now)) (W.contents out.old) (W.contents out.new)
        (E.contents complaints.old) (E.contents complaints.new) (exit_status result) }
{
    let ended = answer(rt, words, out);
    tell(complaints, ended)
}

/// Does what these words ask for. Words that ask for help are never a mistake.
fn answer<R: AllocGlobal + Files + RandomSource + Threads + Wait + Sync, W: Write>(
    rt: &R,
    words: &[String],
    out: &mut W,
) -> Result<Outcome, Failure>
    ensures { IsDone (fault_of day_app (map string_bytes words.now)) (asked_of (map string_bytes words.now)) (W.contents out.old) (W.contents out.new) result }
{
    match requests::read_words(rt.alloc(), words)? {
        Request::Day(request) => Ok(write_day(rt, &request, out)?),
        Request::Check { segment } => Ok(check_file(rt, segment, out)?),
        Request::Auction(request) => Ok(write_auction(rt, &request, out)?),
        Request::Explanation(request) => Ok(write_explanation(rt, &request, out)?),
        Request::Help(text) => Ok(print_help(text, out)?),
    }
}

/// Writes the texts of a day to standard output and to their files, and judges it as it is asked for.
fn write_day<R: AllocGlobal + Files + RandomSource + Threads + Wait + Sync, W: Write>(
    rt: &R,
    request: &DayRequest<'_>,
    out: &mut W,
) -> Result<Outcome, DayFault>
    ensures ends { AskedEnds (day (named_day request.now)) (W.contents out.old) (W.contents out.new) result }
    ensures untouched { IfErr result (λ fault. fault ≢ DayFault.WriteFailed → out.new ≡ out.old) }
{
    match write_texts(rt, request, out) {
        Ok(completeness) => Ok(request.strictness.outcome(completeness)),
        Err(fault) => Err(fault),
    }
}

/// Writes the texts of a day to standard output and to their files, which are made before any is read.
fn write_texts<R: AllocGlobal + Files + RandomSource + Threads + Wait + Sync, W: Write>(
    rt: &R,
    request: &DayRequest<'_>,
    out: &mut W,
) -> Result<Completeness, DayFault>
    ensures ends { FilesEnd request.now.concurrency (asked_texts (named_day request.now)) (is_some (named_day request.now).carrying) (length (named_day request.now).orders) (W.contents out.old) (W.contents out.new) result }
    ensures untouched { IfErr result (λ fault. fault ≢ DayFault.WriteFailed → out.new ≡ out.old) }
{
    let lies = |path: &str| place_in(fs::metadata(rt, path));
    let made = outputs::make_files(&lies, &|path: &str| fs::create(rt, path), request);
    let mut files = match made {
        Ok(files) => files,
        Err(_) => return Err(DayFault::WriteFailed),
    };
    let (concurrency, asked) = (chosen(rt, request), request.asked());
    let opens = |path: &str| fs::open(rt, path);
    let mut segment = inputs::open_input(|path| fs::open(rt, path), request.segment);
    match &request.carrying {
        None => {
            let mut orders = inputs::open_inputs(rt.alloc(), &opens, &request.orders)?;
            run(
                rt,
                storage(rt),
                &mut segment,
                orders.as_mut_slice(),
                concurrency,
                asked,
                out,
                &mut files,
            )
        }
        Some(carrying) => {
            let mut carried = inputs::open_input(|path| fs::open(rt, path), carrying.from);
            let mut orders = inputs::open_inputs(rt.alloc(), &opens, &request.orders)?;
            carry_over(
                rt,
                storage(rt),
                &mut segment,
                &mut carried,
                orders.as_mut_slice(),
                concurrency,
                asked,
                out,
                &mut files,
            )
        }
    }
}

/// How the rows of a day are taken: as the words say it, and on as many threads as they are worth where these say none.
fn chosen<R: Files + Threads>(rt: &R, request: &DayRequest<'_>) -> Concurrency
    ensures { IsChosen request.now.concurrency result }
{
    match request.concurrency {
        Concurrency::Threads(None) => {
            Concurrency::Threads(Some(threads_for(rt, request.orders.as_slice())))
        }
        Concurrency::Threads(Some(threads)) => Concurrency::Threads(Some(threads)),
        Concurrency::Workers(workers) => Concurrency::Workers(workers),
    }
}

/// On how many threads the rows of order files are taken where the words don't say it: on as many as there are processors, and on one
/// where the files are short together, or where the system tells no length of them, as of pipes.
fn threads_for<R: Files + Threads>(rt: &R, orders: &[&str]) -> Count {
    let mut length = 0_u64;
    for path in orders {
        if let Ok(found) = fs::metadata(rt, *path) {
            length = length.saturating_add(found.len());
        }
    }
    if length < LONG_FILE {
        return Count::nearest(1);
    }
    match thread::available_parallelism(rt) {
        Ok(processors) => Count::nearest(processors.get()),
        Err(_) => Count::nearest(1),
    }
}

/// Checks the segment file at a path, and writes its line.
fn check_file<R: AllocGlobal + Files + RandomSource, W: Write>(
    rt: &R,
    segment: &str,
    out: &mut W,
) -> Result<Outcome, DayFault>
    ensures ends { AskedEnds (check segment.entry.now) (W.contents out.old) (W.contents out.new) result }
    ensures untouched { IfErr result (λ fault. fault ≢ DayFault.WriteFailed → out.new ≡ out.old) }
{
    let mut segment = inputs::open_input(|path| fs::open(rt, path), segment);
    match check(storage(rt), &mut segment, out) {
        Ok(()) => Ok(Outcome::Done),
        Err(fault) => Err(fault),
    }
}

/// Where the structures of a call lie, whose tables have a seed that is drawn.
pub(crate) fn storage<R: AllocGlobal + RandomSource>(rt: &R) -> Storage<Global> {
    Storage {
        alloc: rt.alloc(),
        seed: Seed::drawn(rt),
    }
}

/// Prints a help text, or the version.
fn print_help<W: Write>(text: Error, out: &mut W) -> Result<Outcome, DayFault>
    ensures done { IfOk result (λ outcome. outcome ≡ Outcome.Done) }
    ensures failed { IfErr result (λ fault. fault ≡ DayFault.WriteFailed) }
{
    write!(out, "{text}").map_err(|_| DayFault::WriteFailed)?;
    out.flush().map_err(|_| DayFault::WriteFailed)?;
    Ok(Outcome::Done)
}

/// The words of the command line, of which the first is the program's name.
fn read_command_line<R: Env + AllocGlobal>(rt: &R) -> Result<Vec<String>, Failure>
    ensures { IfErr result RefusesBytes }
{
    match env::args(rt) {
        Ok(words) => Ok(words.collect(rt.alloc()).map_err(OutOfMemory::from)?),
        Err(error) => Err(requests::unread_words(rt.alloc(), error.kind())),
    }
}

/// Makes the day of a segment file and its order files, whose rows are taken so, and sends out its texts, one after the other: its
/// statement, and the answers to its rows, their trades, the events of their orders and the levels behind them, as far as they are
/// asked for, each to its file.
///
/// It answers whether the day is complete. The faults are those of the day, in their order. `WriteFailed` tells that a text didn't go out
/// whole. Nothing of those behind it did.
pub fn run<R: Threads + Wait + Sync, S: Read, O: Read, W: Write, F: Write>(
    rt: &R,
    storage: Storage<Global>,
    segment: &mut S,
    orders: &mut [O],
    concurrency: Concurrency,
    asked: AskedTexts,
    out: &mut W,
    files: &mut TextFiles<F>,
) -> Result<Completeness, DayFault>
    requires { length orders.old ≤ MAX_FILES }
    ensures ends { DayCallEnds concurrency asked HandsOn.Nothing (record { segment = S.remaining segment.old; carried = None; orders = map O.remaining orders.old })
        (outputs_of F.contents (record { old = W.contents out.old; new = W.contents out.new }) files.old files.new) result }
    ensures untouched { IfErr result (λ fault. fault ≢ DayFault.WriteFailed → out.new ≡ out.old) }
{
    let made = day_of_files(rt, storage, segment, orders, concurrency, asked);
    send_day(made, out, files)
}

/// Makes the same day, which opens with a carry file, and sends out its texts as `run` does, and last the
/// carry file of the next day.
pub fn carry_over<R: Threads + Wait + Sync, S: Read, C: Read, O: Read, W: Write, F: Write>(
    rt: &R,
    storage: Storage<Global>,
    segment: &mut S,
    carried: &mut C,
    orders: &mut [O],
    concurrency: Concurrency,
    asked: AskedTexts,
    out: &mut W,
    files: &mut TextFiles<F>,
) -> Result<Completeness, DayFault>
    requires { length orders.old ≤ MAX_FILES }
    ensures ends { DayCallEnds concurrency asked HandsOn.WhatIsLeft (record { segment = S.remaining segment.old; carried = Some (C.remaining carried.old); orders = map O.remaining orders.old })
        (outputs_of F.contents (record { old = W.contents out.old; new = W.contents out.new }) files.old files.new) result }
    ensures untouched { IfErr result (λ fault. fault ≢ DayFault.WriteFailed → out.new ≡ out.old) }
{
    let made = day_of_carried_files(rt, storage, segment, carried, orders, concurrency, asked);
    send_day(made, out, files)
}

/// The texts of the day of a segment file and its order files, whose rows are taken so.
fn day_of_files<R: Threads + Wait + Sync, S: Read, O: Read>(
    rt: &R,
    storage: Storage<Global>,
    segment: &mut S,
    orders: &mut [O],
    concurrency: Concurrency,
    asked: AskedTexts,
) -> Result<DayTexts, DayFault>
    requires { length orders.old ≤ MAX_FILES }
    ensures { IsDayBy concurrency asked HandsOn.Nothing (record { segment = S.remaining segment.old; carried = None; orders = map O.remaining orders.old }) result }
{
    let (config, names) = open_files(storage, segment)?;
    let taken = take_rows(rt, storage, &config, &names, orders, concurrency, asked);
    day_texts(storage.alloc, &names, taken, HandsOn::Nothing)
}

/// The texts of the same day, which opens with a carry file, and of what it leaves.
fn day_of_carried_files<R: Threads + Wait + Sync, S: Read, C: Read, O: Read>(
    rt: &R,
    storage: Storage<Global>,
    segment: &mut S,
    carried: &mut C,
    orders: &mut [O],
    concurrency: Concurrency,
    asked: AskedTexts,
) -> Result<DayTexts, DayFault>
    requires { length orders.old ≤ MAX_FILES }
    ensures { IsDayBy concurrency asked HandsOn.WhatIsLeft (record { segment = S.remaining segment.old; carried = Some (C.remaining carried.old); orders = map O.remaining orders.old }) result }
{
    let (config, names) = open_carried_files(storage, segment, carried)?;
    let taken = take_rows(rt, storage, &config, &names, orders, concurrency, asked);
    day_texts(storage.alloc, &names, taken, HandsOn::WhatIsLeft)
}

/// Takes the rows of order files so. Workers tell nothing of them.
fn take_rows<R: Threads + Wait + Sync, O: Read>(
    rt: &R,
    storage: Storage<Global>,
    config: &SegmentConfig,
    names: &SegmentNames,
    orders: &mut [O],
    concurrency: Concurrency,
    asked: AskedTexts,
) -> Result<TakenDay, DayFault>
    requires securities { length names.now.securities ≡ length config.now.securities }
    requires files { length orders.old ≤ MAX_FILES }
    ensures taken { EndsBy concurrency (λ days. TakesFile days (asked_with concurrency asked) config.now names.now (map O.remaining orders.old) result) }
    ensures each { IfOk result (λ t. length t.day.desks.items ≡ length config.now.securities) }
{
    match concurrency {
        Concurrency::Threads(threads) => {
            let threads = match threads {
                Some(threads) => threads.get(),
                None => 1,
            };
            take_on_threads(rt, threads, storage, config, names, orders, asked)
        }
        Concurrency::Workers(workers) => {
            take_shared(rt, &NoGate, workers.get(), storage, config, names, orders)
        }
    }
}

/// Sends out the texts of a day, one after the other, and answers whether it is complete; or tells its fault.
fn send_day<W: Write, F: Write>(
    made: Result<DayTexts, DayFault>,
    out: &mut W,
    files: &mut TextFiles<F>,
) -> Result<Completeness, DayFault>
    ensures sent { DayIsSent (outputs_of F.contents (record { old = W.contents out.old; new = W.contents out.new }) files.old files.new) made result }
    ensures untouched { IfErr result (λ fault. fault ≢ DayFault.WriteFailed → out.new ≡ out.old) }
{
    let texts = made?;
    send_texts(&texts, out, files)?;
    Ok(texts.completeness)
}

/// Sends out the texts of a day, one after the other.
fn send_texts<W: Write, F: Write>(
    texts: &DayTexts,
    out: &mut W,
    files: &mut TextFiles<F>,
) -> Result<(), DayFault>
    ensures { SendingEnds (sendings (outputs_of F.contents (record { old = W.contents out.old; new = W.contents out.new }) files.old files.new) texts.now) result }
{
    send_statement(&texts.statement, out)?;
    send(&mut files.answers, &texts.answers)?;
    send(&mut files.trades, &texts.trades)?;
    send(&mut files.events, &texts.events)?;
    send(&mut files.depth, &texts.depth)?;
    send(&mut files.carry, &texts.carry)?;
    Ok(())
}

/// Writes a text, and sees that all of it went out.
pub(crate) fn send<W: Write>(out: &mut W, text: &Vec<u8>) -> Result<(), DayFault>
    ensures sent { OnOk result (Appends (W.contents out.old) (W.contents out.new) text.now.items) }
    ensures failed { IfErr result (λ fault. (fault ≡ DayFault.WriteFailed) × AppendsBeginning (W.contents out.old) (W.contents out.new) text.now.items) }
{
    match write_whole(out, text.as_slice()) {
        Ok(()) => out.flush().map_err(|_| DayFault::WriteFailed),
        Err(_) => Err(DayFault::WriteFailed),
    }
}

/// Writes the line of a segment file that opens, and sees that all of it went out.
///
/// The faults are those of `xm_day::check`, in their order; then `WriteFailed`.
pub fn check<S: Read, W: Write>(
    storage: Storage<Global>,
    segment: &mut S,
    out: &mut W,
) -> Result<(), DayFault>
    ensures ends { CheckCallEnds (S.remaining segment.old) (record { old = W.contents out.old; new = W.contents out.new }) result }
    ensures untouched { IfErr result (λ fault. fault ≢ DayFault.WriteFailed → out.new ≡ out.old) }
{
    match xm_day::check(storage, segment) {
        Ok(line) => send(out, &line),
        Err(fault) => Err(fault),
    }
}

/// Tells on a stream why the program ends without what it was asked for, if it does, and gives the status to end with.
///
/// Where that can't be written, the status tells alone.
fn tell<E: Write>(complaints: &mut E, ended: Result<Outcome, Failure>) -> ExitCode
    ensures status { exit_status result ≡ end_status ended }
    ensures told { IsToldAs (E.contents complaints.old) (E.contents complaints.new) ended }
{
    let status = match ended {
        Ok(outcome) => {
            tell_outcome(complaints, outcome);
            outcome.status()
        }
        Err(failure) => {
            let status = failure.status();
            complain(complaints, failure);
            status
        }
    };
    ExitCode::from(status)
}

/// Writes that the segment has no such security, where that is what came of a call.
fn tell_outcome<E: Write>(complaints: &mut E, outcome: Outcome)
    ensures { IsToldAs (E.contents complaints.old) (E.contents complaints.new) (Ok outcome) }
{
    match outcome {
        Outcome::UnknownSecurity => {
            let _ = write_whole(complaints, UNKNOWN_SECURITY.as_bytes());
        }
        Outcome::Done | Outcome::Incomplete | Outcome::Mistaken => {}
    }
}

/// Writes the line of a fault, or what is mistaken in the words.
fn complain<E: Write>(complaints: &mut E, failure: Failure)
    ensures { IsToldAs (E.contents complaints.old) (E.contents complaints.new) (Err failure) }
{
    match failure {
        Failure::Day(fault) => {
            let _ = write_whole(complaints, fault_line(fault).as_slice());
        }
        Failure::Words(text) => {
            let _ = write!(complaints, "{text}");
        }
    }
}
