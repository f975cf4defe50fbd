//! `xetra_cases`: runs the days of `crates/xetra_cases/data` whose names are its words, and compares what each gives with what is stored.
//! Prints a line for each case, and where one differs the first line that does.
#![tactic(auto)]

mod days;
mod differences;
mod texts;

use crate::texts::CaseFault;
use std::env;
use std::process::ExitCode;
use std::rt::{Env, Files};
use std::sync::Wait;
use std::thread::Threads;

fn main(rt: HostRuntime) -> ExitCode {
    match run(&rt) {
        Ok(true) => ExitCode::SUCCESS,
        Ok(false) | Err(CaseFault) => ExitCode::FAILURE,
    }
}

/// Runs the cases that the command line names, and tells whether each gives what is stored.
fn run<R: Env + AllocGlobal + Files + Print + Threads + Wait + Sync>(
    rt: &R,
) -> Result<bool, CaseFault> {
    let words: Result<Vec<String>, _> = match env::args(rt) {
        Ok(words) => words.collect(rt.alloc()),
        Err(_) => return Err(CaseFault),
    };
    match words {
        Ok(words) => run_cases(rt, words.as_slice()),
        Err(_) => Err(CaseFault),
    }
}

/// Runs the cases that words name, of which the first is the program's name.
fn run_cases<R: AllocGlobal + Files + Print + Threads + Wait + Sync>(
    rt: &R,
    words: &[String],
) -> Result<bool, CaseFault> {
    let mut count: u64 = 0;
    let mut differ: u64 = 0;
    for name in words.iter().skip(1) {
        count = count.saturating_add(1);
        if !days::is_as_stored(rt, name.as_str())? {
            differ = differ.saturating_add(1);
        }
    }
    texts::said(println!(rt; "{count} cases, {differ} differ"))?;
    Ok(differ == 0)
}
