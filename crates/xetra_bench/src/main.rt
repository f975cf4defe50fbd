//! `xetra_bench`: days of commands on one desk. Alone it runs days that are drawn at random, and prints what they did; with the word
//! `sessions` and names of shapes it runs large days of these shapes alone, and prints the time that they took.
#![tactic(auto)]

mod draws;
mod flows;
mod lines;
mod loads;
mod records;
mod sessions;
mod whole_days;

use crate::loads::LoadFault;
use std::env;
use std::process::ExitCode;
use std::rt::{Clock, Env};

fn main(rt: HostRuntime) -> ExitCode {
    match run(&rt) {
        Ok(()) => ExitCode::SUCCESS,
        Err(LoadFault) => ExitCode::FAILURE,
    }
}

fn run<R: Env + AllocGlobal + Print + Clock>(rt: &R) -> Result<(), LoadFault> {
    let words: Result<Vec<String>, _> = match env::args(rt) {
        Ok(words) => words.collect(rt.alloc()),
        Err(_) => return Err(LoadFault),
    };
    match words {
        Ok(words) => run_words(rt, words.as_slice()),
        Err(_) => Err(LoadFault),
    }
}

/// Runs the loads that the words of the command line ask for.
fn run_words<R: AllocGlobal + Print + Clock>(rt: &R, words: &[String]) -> Result<(), LoadFault> {
    if has_word(words, "sessions") {
        sessions::measure(rt, words)
    } else {
        whole_days::count(rt)?;
        sessions::count(rt)
    }
}

fn has_word(words: &[String], wanted: &str) -> bool {
    for word in words {
        if word.as_str() == wanted {
            return true;
        }
    }
    false
}
