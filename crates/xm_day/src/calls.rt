//! Days and texts that are written as they are made: readers in, writers out.
ghost use Rattle.std.specs.Prelude.{◌≡◌, ◌≢◌, ◌≤◌, ◌<◌, ◌⊎◌, Err, IfErr, OnErr, OnOk, length, map};
ghost use Rattle.std.specs.List.{flat_map};
ghost use Rattle.std.specs.Io.KnownBytes.{Appends};
ghost use Rattle.xm_day.specs.Answers.{DayEnds, InFileOrder, IsOfWriting, OrdersEnd};
ghost use Rattle.xm_day.specs.CarriedDays.{CarriedDayEnds};
ghost use Rattle.xm_day.specs.Days.{BothWritten, StatementWritten};
ghost use Rattle.xm_texts.specs.Carry.{carry_text};
ghost use Rattle.xm_texts.specs.Statement.{statement};
ghost use Rattle.xm_rules.specs.Step.{replay};
ghost use Rattle.xm_ticks.specs.Writing.{AppendsPrefix};
ghost use Rattle.xm_workers.specs.Workers.{IsShared};
ghost use Rattle.xm_config.specs.declared.opening.TheConstants.{MAX_WORKERS};
ghost use Rattle.xm_files.specs.declared.order_files.TheConstants.{MAX_FILES};

use crate::opening::{open_carried_files, open_files};
use crate::statement_text::StatementText;
use crate::taking::{take_in_order, take_shared};
use crate::value::{DayTexts, HandsOn, day_texts};
use std::alloc::{Allocator, Global};
use std::io::{Read, Write};
use std::sync::Wait;
use std::thread::Threads;
use xm_config::SegmentConfig;
use xm_desk::Desk;
use xm_files::SegmentNames;
use xm_name_index::Storage;
use xm_replay::{DayFault, DayReport};
use xm_segment::Gate;
use xm_texts::{AskedTexts, carry_text, statement_text};
use xm_ticks::write_whole;

/// Writes the statement of the desks of a segment, which are in index order.
///
/// The text is made whole first. After `OutOfMemory` nothing was written, and after `WriteFailed`
/// a proper prefix of the text.
pub fn statement<A: Allocator, B: Allocator + Copy, W: Write>(
    alloc: A,
    desks: &[Desk<B>],
    names: &SegmentNames,
    report: &DayReport,
    out: &mut W,
) -> Result<(), DayFault>
    requires some { 0 < length desks.now }
    requires names { length names.now.securities ≡ length desks.now }
    ensures ok { OnOk result (Appends (W.contents out.old) (W.contents out.new)
        (statement names.now (map replay desks.now) report.now.accepted report.now.refused)) }
    ensures memory { result ≡ Err (DayFault.OutOfMemory tt) → out.new ≡ out.old }
    ensures failed { result ≡ Err DayFault.WriteFailed → AppendsPrefix (W.contents out.old) (W.contents out.new)
        (statement names.now (map replay desks.now) report.now.accepted report.now.refused) }
    ensures faults { IfErr result IsOfWriting }
{
    let text = statement_text(alloc, desks, names, report.accepted, report.refused)?;
    write_text(out, text.as_slice())
}

/// Writes the carry file of the desks of a segment, which are in index order: the orders and stops of each security that are
/// valid beyond the day, the orders in the order of the time list and the stops in order of entry. `read_carry` reads it.
///
/// The text is made whole first. After `OutOfMemory` nothing was written, and after `WriteFailed` a proper prefix of the text.
pub fn carry<A: Allocator, B: Allocator + Copy, W: Write>(
    alloc: A,
    desks: &[Desk<B>],
    names: &SegmentNames,
    out: &mut W,
) -> Result<(), DayFault>
    requires { length names.now.securities ≡ length desks.now }
    ensures ok { OnOk result (Appends (W.contents out.old) (W.contents out.new) (carry_text names.now (map replay desks.now))) }
    ensures memory { result ≡ Err (DayFault.OutOfMemory tt) → out.new ≡ out.old }
    ensures failed { result ≡ Err DayFault.WriteFailed → AppendsPrefix (W.contents out.old) (W.contents out.new) (carry_text names.now (map replay desks.now)) }
    ensures faults { IfErr result IsOfWriting }
{
    let text = carry_text(alloc, desks, names)?;
    write_text(out, text.as_slice())
}

/// Runs the day of a segment whose file is read: reads the order files, one after another, takes their rows, and writes
/// the statement. The checks come in this order.
///
/// `Orders`: an order file has a fault. `Open`: the segment can't be opened. `OutOfMemory`: a
/// growth was refused. After these nothing was written. `WriteFailed`: the writer failed; what went
/// out is a proper prefix of the statement. A refused row is counted and changes nothing.
pub fn run_orders<R: Read, W: Write>(
    storage: Storage<Global>,
    config: &SegmentConfig,
    names: &SegmentNames,
    orders: &mut [R],
    out: &mut W,
) -> Result<DayReport, DayFault>
    requires securities { length names.now.securities ≡ length config.now.securities }
    requires members { length names.now.members ≡ config.now.members }
    requires files { length orders.old ≤ MAX_FILES }
    ensures ends { OrdersEnd InFileOrder config.now names.now (map R.remaining orders.old) (W.contents out.old) (W.contents out.new) result }
    ensures untouched { IfErr result (λ fault. fault ≢ DayFault.WriteFailed → out.new ≡ out.old) }
{
    let taken = take_in_order(storage, config, names, orders, AskedTexts::nothing());
    let made = day_texts(storage.alloc, names, taken, HandsOn::Nothing);
    write_statement(made, out)
}

/// Runs the day of a segment file and its order files: reads them, takes the rows on the calling
/// thread, and writes the statement.
///
/// `Segment`: the segment file has a fault; it is read first. The other faults are those of
/// `run_orders`, in their order.
pub fn run_alone<S: Read, R: Read, W: Write>(
    storage: Storage<Global>,
    segment: &mut S,
    orders: &mut [R],
    out: &mut W,
) -> Result<DayReport, DayFault>
    requires { length orders.old ≤ MAX_FILES }
    ensures ends { DayEnds InFileOrder (S.remaining segment.old) (map R.remaining orders.old) (W.contents out.old) (W.contents out.new) result }
    ensures untouched { IfErr result (λ fault. fault ≢ DayFault.WriteFailed → out.new ≡ out.old) }
{
    let (config, names) = open_files(storage, segment)?;
    run_orders(storage, &config, &names, orders, out)
}

/// Runs the day of a segment file and its order files with so many workers. One takes the rows as `run_alone` does.
///
/// Several take each round of an order file side by side, each the rows of its members, in their order, in a thread of its
/// own, or on the calling one where one worker alone has rows; then the round's phase rows are taken. So two runs may differ
/// where members compete. What is written is the statement of lawful journals, one for each security, whose commands are the
/// accepted rows.
///
/// The faults are those of `run_alone`, in their order. `OutOfMemory` also tells that a thread's start was refused.
pub fn run_day<T: Threads + Wait + Sync, G: Gate + Sync, S: Read, R: Read, W: Write>(
    rt: &T,
    storage: Storage<Global>,
    segment: &mut S,
    orders: &mut [R],
    out: &mut W,
    workers: u32,
    gate: &G,
) -> Result<DayReport, DayFault>
    requires some { 1 ≤ workers }
    requires few { workers ≤ MAX_WORKERS }
    requires files { length orders.old ≤ MAX_FILES }
    ensures alone { workers ≡ 1 → DayEnds InFileOrder (S.remaining segment.old) (map R.remaining orders.old) (W.contents out.old) (W.contents out.new) result }
    ensures shared { workers ≢ 1 → DayEnds (IsShared workers) (S.remaining segment.old) (map R.remaining orders.old) (W.contents out.old) (W.contents out.new) result }
    ensures untouched { IfErr result (λ fault. fault ≢ DayFault.WriteFailed → out.new ≡ out.old) }
{
    let (config, names) = open_files(storage, segment)?;
    let taken = take_shared(rt, gate, workers, storage, &config, &names, orders);
    let made = day_texts(storage.alloc, &names, taken, HandsOn::Nothing);
    write_statement(made, out)
}

/// Runs the day of a segment file, a carry file and order files: reads them in this order, opens each security with the
/// orders and stops that the carry file lists for it and that are still valid, takes the rows on the calling thread, writes the
/// statement, and then, to `keep`, the carry file of the next day. Both texts are made whole first.
///
/// `Segment`, `Carry`, `Orders`: the file has a fault. `Open`: the segment can't be opened. `OutOfMemory`: a growth was refused.
/// After these nothing was written. `WriteFailed`: a writer failed; what went out of the statement is a prefix of it, and `keep`
/// got nothing unless that is the whole, and then a prefix of the carry file. A refused row is counted and changes nothing.
pub fn carry_alone<S: Read, C: Read, R: Read, W: Write, K: Write>(
    storage: Storage<Global>,
    segment: &mut S,
    carry: &mut C,
    orders: &mut [R],
    out: &mut W,
    keep: &mut K,
) -> Result<DayReport, DayFault>
    requires { length orders.old ≤ MAX_FILES }
    ensures ends { CarriedDayEnds InFileOrder (S.remaining segment.old) (C.remaining carry.old) (map R.remaining orders.old)
        (record { old = W.contents out.old; new = W.contents out.new; kept_old = K.contents keep.old; kept_new = K.contents keep.new }) result }
    ensures untouched { IfErr result (λ fault. fault ≢ DayFault.WriteFailed → (out.new ≡ out.old) × (keep.new ≡ keep.old)) }
{
    let (config, names) = open_carried_files(storage, segment, carry)?;
    let taken = take_in_order(storage, &config, &names, orders, AskedTexts::nothing());
    let made = day_texts(storage.alloc, &names, taken, HandsOn::WhatIsLeft);
    write_both(made, out, keep)
}

/// Runs the day of a segment file, a carry file and order files with so many workers, as `run_day` runs the rows, and as
/// `carry_alone` reads the files and writes both texts.
///
/// The faults are those of `carry_alone`, in their order. `OutOfMemory` also tells that a thread's start was refused.
pub fn carry_day<
    T: Threads + Wait + Sync,
    G: Gate + Sync,
    S: Read,
    C: Read,
    R: Read,
    W: Write,
    K: Write,
>(
    rt: &T,
    storage: Storage<Global>,
    segment: &mut S,
    carry: &mut C,
    orders: &mut [R],
    out: &mut W,
    keep: &mut K,
    workers: u32,
    gate: &G,
) -> Result<DayReport, DayFault>
    requires some { 1 ≤ workers }
    requires few { workers ≤ MAX_WORKERS }
    requires files { length orders.old ≤ MAX_FILES }
    ensures alone { workers ≡ 1 → CarriedDayEnds InFileOrder (S.remaining segment.old) (C.remaining carry.old) (map R.remaining orders.old)
        (record { old = W.contents out.old; new = W.contents out.new; kept_old = K.contents keep.old; kept_new = K.contents keep.new }) result }
    ensures shared { workers ≢ 1 → CarriedDayEnds (IsShared workers) (S.remaining segment.old) (C.remaining carry.old) (map R.remaining orders.old)
        (record { old = W.contents out.old; new = W.contents out.new; kept_old = K.contents keep.old; kept_new = K.contents keep.new }) result }
    ensures untouched { IfErr result (λ fault. fault ≢ DayFault.WriteFailed → (out.new ≡ out.old) × (keep.new ≡ keep.old)) }
{
    let (config, names) = open_carried_files(storage, segment, carry)?;
    let taken = take_shared(rt, gate, workers, storage, &config, &names, orders);
    let made = day_texts(storage.alloc, &names, taken, HandsOn::WhatIsLeft);
    write_both(made, out, keep)
}

/// Writes the text of a statement, one piece after another.
fn write_pieces<W: Write>(text: &StatementText, out: &mut W) -> Result<(), DayFault>
    ensures ok { OnOk result (Appends (W.contents out.old) (W.contents out.new) text.now) }
    ensures failed { OnErr result (AppendsPrefix (W.contents out.old) (W.contents out.new) text.now) }
    ensures fault { IfErr result (λ fault. fault ≡ DayFault.WriteFailed) }
{
    write_text(out, text.beginning.as_slice())?;
    write_each(out, text.securities.as_slice())?;
    write_text(out, text.end.as_slice())
}

/// Writes the text of a statement, and sees that all of it went out.
pub fn send_statement<W: Write>(text: &StatementText, out: &mut W) -> Result<(), DayFault>
    ensures sent { OnOk result (Appends (W.contents out.old) (W.contents out.new) text.now) }
    ensures failed { OnErr result (AppendsPrefix (W.contents out.old) (W.contents out.new) text.now ⊎ Appends (W.contents out.old) (W.contents out.new) text.now) }
    ensures fault { IfErr result (λ fault. fault ≡ DayFault.WriteFailed) }
{
    write_pieces(text, out)?;
    match out.flush() {
        Ok(()) => Ok(()),
        Err(_) => Err(DayFault::WriteFailed),
    }
}

/// Writes the statement of a day.
fn write_statement<W: Write>(
    made: Result<DayTexts, DayFault>,
    out: &mut W,
) -> Result<DayReport, DayFault>
    ensures written { StatementWritten (W.contents out.old) (W.contents out.new) made result }
    ensures untouched { IfErr result (λ fault. fault ≢ DayFault.WriteFailed → out.new ≡ out.old) }
{
    let texts = made?;
    write_pieces(&texts.statement, out)?;
    Ok(texts.report)
}

/// Writes the statement of a day, sees that all of it went out, and then writes what the day leaves.
fn write_both<W: Write, K: Write>(
    made: Result<DayTexts, DayFault>,
    out: &mut W,
    keep: &mut K,
) -> Result<DayReport, DayFault>
    ensures written { BothWritten (record { old = W.contents out.old; new = W.contents out.new; kept_old = K.contents keep.old; kept_new = K.contents keep.new }) made result }
    ensures untouched { IfErr result (λ fault. fault ≢ DayFault.WriteFailed → (out.new ≡ out.old) × (keep.new ≡ keep.old)) }
{
    let texts = made?;
    send_statement(&texts.statement, out)?;
    write_text(keep, texts.carry.as_slice())?;
    Ok(texts.report)
}

/// Writes a text.
fn write_text<W: Write>(out: &mut W, text: &[u8]) -> Result<(), DayFault>
    ensures ok { OnOk result (Appends (W.contents out.old) (W.contents out.new) text.now) }
    ensures failed { OnErr result (AppendsPrefix (W.contents out.old) (W.contents out.new) text.now) }
    ensures fault { IfErr result (λ fault. fault ≡ DayFault.WriteFailed) }
{
    match write_whole(out, text) {
        Ok(()) => Ok(()),
        Err(_) => Err(DayFault::WriteFailed),
    }
}

/// Writes texts, one after another.
fn write_each<W: Write>(out: &mut W, texts: &[Vec<u8>]) -> Result<(), DayFault>
    ensures ok { OnOk result (Appends (W.contents out.old) (W.contents out.new) (flat_map (λ text. text.items) texts.now)) }
    ensures failed { OnErr result (AppendsPrefix (W.contents out.old) (W.contents out.new) (flat_map (λ text. text.items) texts.now)) }
    ensures fault { IfErr result (λ fault. fault ≡ DayFault.WriteFailed) }
{
    for text in texts {
        write_text(out, text.as_slice())?;
    }
    Ok(())
}
