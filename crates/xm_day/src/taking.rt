//! The rows of the order files of a day, taken in one of three ways, with its statement.
ghost use Rattle.std.specs.Prelude.{◌≡◌, ◌≢◌, ◌≤◌, ◌<◌, IfOk, None, length, map};
ghost use Rattle.xm_day.specs.Answers.{InFileOrder};
ghost use Rattle.xm_day.specs.Days.{IsStated, TakesFile, nothing_asked};
ghost use Rattle.xm_texts.specs.Statement.{statement};
ghost use Rattle.xm_workers.specs.Workers.{IsShared};
ghost use Rattle.xm_rules.specs.Step.{replay};
ghost use Rattle.xm_config.specs.Opening.{segment_fault};
ghost use Rattle.xm_config.specs.declared.opening.TheConstants.{MAX_WORKERS};
ghost use Rattle.xm_files.specs.declared.order_files.TheConstants.{MAX_FILES};

use crate::order_files::{share_orders, take_orders, take_orders_apart};
use crate::statement_text::StatementText;
use std::alloc::Global;
use std::io::Read;
use std::sync::Wait;
use std::thread::Threads;
use xm_config::SegmentConfig;
use xm_desk::Desk;
use xm_files::SegmentNames;
use xm_memory::OutOfMemory;
use xm_name_index::Storage;
use xm_replay::{DayFault, DayReport, OpenDay};
use xm_segment::Gate;
use xm_texts::{AskedTexts, push_day, push_members, push_rows, statement_text};
use xm_threads::security_texts;

/// A day whose rows are taken, with the text of its statement.
#[derive(Drop)]
pub struct TakenDay {
    pub day: OpenDay,
    pub statement: StatementText,
}

/// Has the desks of a segment take the rows of the order files, one after another, which tell the texts that are asked for.
///
/// `Orders`: an order file has a fault. `Open`: the segment can't be opened. `OutOfMemory`: a growth was refused.
pub fn take_in_order<R: Read>(
    storage: Storage<Global>,
    config: &SegmentConfig,
    names: &SegmentNames,
    orders: &mut [R],
    asked: AskedTexts,
) -> Result<TakenDay, DayFault>
    requires securities { length names.now.securities ≡ length config.now.securities }
    requires files { length orders.old ≤ MAX_FILES }
    ensures taken { TakesFile InFileOrder asked config.now names.now (map R.remaining orders.old) result }
    ensures each { IfOk result (λ t. length t.day.desks.items ≡ length config.now.securities) }
{
    let taken = take_orders(storage, config, names, orders, asked);
    stated(storage.alloc, config, names, taken)
}

/// Has the securities of a segment take the rows of the order files as `take_in_order` does, on so many threads: each takes the rows of
/// securities of its own, in their order, and the next rows are read beside it. What they give is what one thread gives.
///
/// The faults are those of `take_in_order`.
pub fn take_on_threads<T: Threads + Sync, R: Read>(
    rt: &T,
    threads: u32,
    storage: Storage<Global>,
    config: &SegmentConfig,
    names: &SegmentNames,
    orders: &mut [R],
    asked: AskedTexts,
) -> Result<TakenDay, DayFault>
    requires some { 1 ≤ threads }
    requires securities { length names.now.securities ≡ length config.now.securities }
    requires files { length orders.old ≤ MAX_FILES }
    ensures taken { TakesFile InFileOrder asked config.now names.now (map R.remaining orders.old) result }
    ensures each { IfOk result (λ t. length t.day.desks.items ≡ length config.now.securities) }
{
    if threads == 1 {
        return take_in_order(storage, config, names, orders, asked);
    }
    let taken = take_orders_apart(rt, threads, storage, config, names, orders, asked);
    stated_apart(rt, threads, storage.alloc, config, names, taken)
}

/// Has so many workers take the rows of the order files. One takes them as `take_in_order` does.
///
/// Several take each round of an order file side by side, each the rows of its members, in their order, in a thread of its
/// own, or on the calling one where one worker alone has rows; then the round's phase rows are taken. So two runs may differ
/// where members compete.
///
/// The faults are those of `take_in_order`. `OutOfMemory` also tells that a thread's start was refused.
pub fn take_shared<T: Threads + Wait + Sync, G: Gate + Sync, R: Read>(
    rt: &T,
    gate: &G,
    workers: u32,
    storage: Storage<Global>,
    config: &SegmentConfig,
    names: &SegmentNames,
    orders: &mut [R],
) -> Result<TakenDay, DayFault>
    requires some { 1 ≤ workers }
    requires few { workers ≤ MAX_WORKERS }
    requires securities { length names.now.securities ≡ length config.now.securities }
    requires files { length orders.old ≤ MAX_FILES }
    ensures alone { workers ≡ 1 → TakesFile InFileOrder nothing_asked config.now names.now (map R.remaining orders.old) result }
    ensures shared { workers ≢ 1 → TakesFile (IsShared workers) nothing_asked config.now names.now (map R.remaining orders.old) result }
    ensures each { IfOk result (λ t. length t.day.desks.items ≡ length config.now.securities) }
{
    if workers == 1 {
        return take_in_order(storage, config, names, orders, AskedTexts::nothing());
    }
    let taken = share_orders(rt, gate, workers, storage, config, names, orders);
    stated(storage.alloc, config, names, taken)
}

/// Makes the statement of a day whose rows are taken.
fn stated(
    alloc: Global,
    config: &SegmentConfig,
    names: &SegmentNames,
    taken: Result<OpenDay, DayFault>,
) -> Result<TakenDay, DayFault>
    requires securities { length names.now.securities ≡ length config.now.securities }
    requires opened { IfOk taken (λ day. (segment_fault config.now ≡ None) × (length day.desks.items ≡ length config.now.securities)) }
    ensures stated { IsStated names.now taken result }
    ensures each { IfOk result (λ t. length t.day.desks.items ≡ length config.now.securities) }
{
    let day = taken?;
    let text = statement_text(
        alloc,
        day.desks.as_slice(),
        names,
        day.report.accepted,
        day.report.refused,
    )?;
    let statement = StatementText::whole(alloc, text);
    Ok(TakenDay { day, statement })
}

/// Makes the statement of a day whose rows are taken, on so many threads.
fn stated_apart<T: Threads + Sync>(
    rt: &T,
    threads: u32,
    alloc: Global,
    config: &SegmentConfig,
    names: &SegmentNames,
    taken: Result<OpenDay, DayFault>,
) -> Result<TakenDay, DayFault>
    requires securities { length names.now.securities ≡ length config.now.securities }
    requires opened { IfOk taken (λ day. (segment_fault config.now ≡ None) × (length day.desks.items ≡ length config.now.securities)) }
    ensures stated { IsStated names.now taken result }
    ensures each { IfOk result (λ t. length t.day.desks.items ≡ length config.now.securities) }
{
    let OpenDay {
        desks,
        report,
        told,
    } = taken?;
    let (desks, statement) = statement_apart(rt, threads, alloc, desks, names, &report)?;
    let day = OpenDay {
        desks,
        report,
        told,
    };
    Ok(TakenDay { day, statement })
}

/// The text of the statement of these desks, which are given back, made on so many threads.
fn statement_apart<T: Threads + Sync>(
    rt: &T,
    threads: u32,
    alloc: Global,
    desks: Vec<Desk<Global>>,
    names: &SegmentNames,
    report: &DayReport,
) -> Result<(Vec<Desk<Global>>, StatementText), OutOfMemory>
    requires some { 0 < length desks.items }
    requires names { length names.now.securities ≡ length desks.items }
    ensures desks { IfOk result (λ made. made.0.items ≡ desks.items) }
    ensures text { IfOk result (λ made. made.1 ≡ statement names.now (map replay desks.items) report.now.accepted report.now.refused) }
{
    let mut beginning = Vec::new(alloc);
    let mut end = Vec::new(alloc);
    push_day(&mut beginning, desks[0].settings().today)?;
    let (desks, securities) = security_texts(rt, threads, desks, names)?;
    push_members(&mut end, desks.as_slice(), names)?;
    push_rows(&mut end, report.accepted, report.refused)?;
    let text = StatementText {
        beginning,
        securities,
        end,
    };
    Ok((desks, text))
}
