//! The day of a case, and what it gives.

use crate::differences;
use crate::texts::{self, CaseFault};
use std::fs;
use std::io::Read;
use std::rt::Files;
use std::sync::Wait;
use std::thread::Threads;
use xm_day::{AskedTexts, Completeness, DayFault};
use xm_files::MAX_FILES;
use xm_name_index::Storage;
use xm_program::{
    Concurrency, Count, Input, Output, TextFiles, carry_over, fault_line, open_input, run,
};

/// On how many threads the rows of a case are taken, in turn.
const NUMBERS: [u32; 2] = [1, 3];

/// The order files of a case, as they are opened.
type OrderFiles<F> = Vec<Input<F>>;

/// The texts beside a statement that are compared.
const ALL_TEXTS: AskedTexts = AskedTexts {
    answers: true,
    trades: true,
    events: true,
    depth: true,
};

/// Runs the day of a case on each number of threads, prints whether it gives what is stored, and tells it.
pub fn is_as_stored<R: AllocGlobal + Files + Print + Threads + Wait + Sync>(
    rt: &R,
    name: &str,
) -> Result<bool, CaseFault> {
    for number in NUMBERS {
        let Some(threads) = Count::new(number) else {
            return Err(CaseFault);
        };
        if !is_day_as_stored(rt, name, threads)? {
            texts::said(println!(rt; "{name} differs, on {number} threads"))?;
            return Ok(false);
        }
    }
    texts::said(println!(rt; "{name} as stored"))?;
    Ok(true)
}

/// Whether the day of a case gives what is stored, on so many threads.
fn is_day_as_stored<R: AllocGlobal + Files + Print + Threads + Wait + Sync>(
    rt: &R,
    name: &str,
    threads: Count,
) -> Result<bool, CaseFault> {
    let path = texts::path(rt, name, "in.csv")?;
    match open_input(|path| fs::open(rt, path), path.as_str()) {
        Input::Opened(mut file) => is_carry_as_stored(rt, name, &mut file, threads),
        Input::Unopened => is_run_as_stored(rt, name, threads),
    }
}

/// The same of a day that opens with a carry file. Its answers may be stored.
fn is_carry_as_stored<R: AllocGlobal + Files + Print + Threads + Wait + Sync, C: Read>(
    rt: &R,
    name: &str,
    carried: &mut C,
    threads: Count,
) -> Result<bool, CaseFault> {
    let mut statement = Vec::new(rt.alloc());
    let mut files = made_files(rt);
    match carry_day(rt, name, carried, threads, &mut statement, &mut files)? {
        Ok(_) => {
            let left = differences::is_stored(rt, name, "out.csv", text_of(&files.carry))?;
            let answers = text_of(&files.answers);
            let answers = differences::is_stored_if_any(rt, name, "answers.csv", answers)?;
            let others = are_as_stored(rt, name, statement.as_slice(), &files)?;
            Ok(left && answers && others)
        }
        Err(fault) => is_fault_as_stored(rt, name, fault),
    }
}

/// Writes the statement of the day of a case that opens with a carry file, the texts beside it, and what it leaves.
fn carry_day<R: AllocGlobal + Files + Threads + Wait + Sync, C: Read>(
    rt: &R,
    name: &str,
    carried: &mut C,
    threads: Count,
    statement: &mut Vec<u8>,
    files: &mut TextFiles<Vec<u8>>,
) -> Result<Result<Completeness, DayFault>, CaseFault> {
    let (mut segment, mut orders) = open_files(rt, name)?;
    if orders.len() > MAX_FILES {
        return Err(CaseFault);
    }
    let storage = Storage::with_fixed_seed(rt.alloc());
    Ok(carry_over(
        rt,
        storage,
        &mut segment,
        carried,
        orders.as_mut_slice(),
        Concurrency::Threads(Some(threads)),
        ALL_TEXTS,
        statement,
        files,
    ))
}

/// The same of a day that opens with nothing.
fn is_run_as_stored<R: AllocGlobal + Files + Print + Threads + Wait + Sync>(
    rt: &R,
    name: &str,
    threads: Count,
) -> Result<bool, CaseFault> {
    let mut statement = Vec::new(rt.alloc());
    let mut files = made_files(rt);
    match run_day(rt, name, threads, &mut statement, &mut files)? {
        Ok(_) => {
            let answers = differences::is_stored(rt, name, "answers.csv", text_of(&files.answers))?;
            let others = are_as_stored(rt, name, statement.as_slice(), &files)?;
            Ok(answers && others)
        }
        Err(fault) => is_fault_as_stored(rt, name, fault),
    }
}

/// Writes the statement of the day of a case, and the texts beside it.
fn run_day<R: AllocGlobal + Files + Threads + Wait + Sync>(
    rt: &R,
    name: &str,
    threads: Count,
    statement: &mut Vec<u8>,
    files: &mut TextFiles<Vec<u8>>,
) -> Result<Result<Completeness, DayFault>, CaseFault> {
    let (mut segment, mut orders) = open_files(rt, name)?;
    if orders.len() > MAX_FILES {
        return Err(CaseFault);
    }
    let storage = Storage::with_fixed_seed(rt.alloc());
    Ok(run(
        rt,
        storage,
        &mut segment,
        orders.as_mut_slice(),
        Concurrency::Threads(Some(threads)),
        ALL_TEXTS,
        statement,
        files,
    ))
}

/// Texts beside a statement that are kept.
fn made_files<R: AllocGlobal>(rt: &R) -> TextFiles<Vec<u8>> {
    TextFiles {
        answers: Output::Made(Vec::new(rt.alloc())),
        trades: Output::Made(Vec::new(rt.alloc())),
        events: Output::Made(Vec::new(rt.alloc())),
        depth: Output::Made(Vec::new(rt.alloc())),
        carry: Output::Made(Vec::new(rt.alloc())),
    }
}

/// What was kept of one.
fn text_of(kept: &Output<Vec<u8>>) -> &[u8] {
    match kept {
        Output::Made(text) => text.as_slice(),
        Output::Unasked => b"",
    }
}

/// The segment file and the order files of a case.
fn open_files<R: AllocGlobal + Files>(
    rt: &R,
    name: &str,
) -> Result<(Input<R::File>, OrderFiles<R::File>), CaseFault> {
    let own = texts::path(rt, name, "segment.toml")?;
    let orders = open_orders(rt, name)?;
    Ok((open_segment(rt, own.as_str()), orders))
}

/// The order files of a case: the first one, and those with the numbers from 2 on, up to the first number that isn't there.
fn open_orders<R: AllocGlobal + Files>(
    rt: &R,
    name: &str,
) -> Result<OrderFiles<R::File>, CaseFault> {
    let first = texts::path(rt, name, "orders.csv")?;
    let mut orders = Vec::new(rt.alloc());
    add(
        &mut orders,
        open_input(|path| fs::open(rt, path), first.as_str()),
    )?;
    for number in 2..=MAX_FILES {
        let path = texts::orders_path(rt, name, number)?;
        match open_input(|path| fs::open(rt, path), path.as_str()) {
            Input::Opened(file) => add(&mut orders, Input::Opened(file))?,
            Input::Unopened => break,
        }
    }
    Ok(orders)
}

/// Adds an order file.
fn add<F: Drop>(orders: &mut OrderFiles<F>, file: Input<F>) -> Result<(), CaseFault> {
    match orders.push(file) {
        Ok(()) => Ok(()),
        Err(_) => Err(CaseFault),
    }
}

/// The segment file of a case: its own, or the one that all others have.
fn open_segment<R: Files>(rt: &R, own: &str) -> Input<R::File> {
    match open_input(|path| fs::open(rt, path), own) {
        Input::Opened(file) => Input::Opened(file),
        Input::Unopened => open_input(|path| fs::open(rt, path), "segment.toml"),
    }
}

/// Whether the statement of a case is the one that is stored, and so are its trades, its events and its levels,
/// where they are.
fn are_as_stored<R: AllocGlobal + Files + Print>(
    rt: &R,
    name: &str,
    statement: &[u8],
    files: &TextFiles<Vec<u8>>,
) -> Result<bool, CaseFault> {
    let faultless = differences::is_stored(rt, name, "fault", b"")?;
    let statements = differences::is_stored(rt, name, "statement", statement)?;
    let trades = differences::is_stored_if_any(rt, name, "trades.csv", text_of(&files.trades))?;
    let levels = differences::is_stored_if_any(rt, name, "depth.csv", text_of(&files.depth))?;
    let events = differences::is_stored_if_any(rt, name, "events.csv", text_of(&files.events))?;
    Ok(faultless && statements && trades && events && levels)
}

/// Whether the fault of a case is the one that is stored, and nothing else is.
fn is_fault_as_stored<R: AllocGlobal + Files + Print>(
    rt: &R,
    name: &str,
    fault: DayFault,
) -> Result<bool, CaseFault> {
    let faults = differences::is_stored(rt, name, "fault", fault_line(fault).as_slice())?;
    let statements = differences::is_stored(rt, name, "statement", b"")?;
    let answers = differences::is_stored(rt, name, "answers.csv", b"")?;
    Ok(faults && statements && answers)
}
