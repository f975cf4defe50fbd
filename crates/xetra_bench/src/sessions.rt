//! Days of one security in the shapes of real ones: their commands are drawn first, then a desk of its own takes them.

use crate::flows::{Flow, OPENING, SHAPES, Shape};
use crate::has_word;
use crate::lines::{now, tell_figures, tell_text, tell_time};
use crate::loads::{LoadFault, Loaded};
use std::rt::Clock;
use xm_rules::Command;

/// About how many commands a day has that is counted, and one that is measured.
const COUNTED: u32 = 20_000;

const MEASURED: u32 = 300_000;

/// How many desks in turn take the commands of a day that is measured.
const RUNS: u32 = 5;

const HEAD: &str =
    "shape                         commands      accepted        trades       trading interruptions     immediate        killed         calls          book        quotes       refused";

/// Prints what the days of each shape did.
pub fn count<R: AllocGlobal + Print + Clock>(rt: &R) -> Result<(), LoadFault> {
    tell_text(rt, HEAD)?;
    for (shape, name) in &SHAPES {
        tell_shape(rt, *shape, name, COUNTED, 0)?;
    }
    Ok(())
}

/// Prints what the days of the shapes did that the command line names, and the nanoseconds of an accepted command in each
/// of their runs.
pub fn measure<R: AllocGlobal + Print + Clock>(rt: &R, words: &[String]) -> Result<(), LoadFault> {
    tell_text(rt, HEAD)?;
    for (shape, name) in &SHAPES {
        if has_word(words, name) {
            tell_shape(rt, *shape, name, MEASURED, RUNS)?;
        }
    }
    Ok(())
}

/// Draws about so many commands, prints what they did, and gives them to so many desks in turn.
fn tell_shape<R: AllocGlobal + Print + Clock>(
    rt: &R,
    shape: Shape,
    name: &str,
    commands: u32,
    runs: u32,
) -> Result<(), LoadFault> {
    let mut flow = Flow::new(rt.alloc(), shape);
    draw(rt, &mut flow, commands)?;
    tell_course(rt, &flow, name)?;
    tell_runs(rt, flow.commands.as_slice(), runs)
}

fn tell_runs<R: AllocGlobal + Print + Clock>(
    rt: &R,
    commands: &[Command],
    runs: u32,
) -> Result<(), LoadFault> {
    for _run in 0..runs {
        tell_run(rt, commands)?;
    }
    tell_text(rt, "")
}

/// Draws about so many commands, beside a desk that ends with them.
fn draw<R: AllocGlobal>(rt: &R, flow: &mut Flow, commands: u32) -> Result<(), LoadFault> {
    let mut loaded = Loaded::open(rt.alloc(), OPENING)?;
    flow.day(&mut loaded, commands);
    if flow.is_whole {
        Ok(())
    } else {
        Err(LoadFault)
    }
}

fn tell_course<R: Print>(rt: &R, flow: &Flow, name: &str) -> Result<(), LoadFault> {
    let (course, drawn) = (&flow.course, flow.commands.len() as u64);
    let (accepted, trades, trading) = (course.accepted, course.trades, course.trading);
    let (interruptions, immediate, killed) = (
        course.interruptions,
        course.immediate,
        course.killed,
    );
    let (uncrosses, book) = (course.uncrosses, course.book);
    let (quotes, refused) = (course.quotes, course.refused);
    tell_figures(
        rt,
        name,
        &[
            drawn,
            accepted,
            trades,
            trading,
            interruptions,
            immediate,
            killed,
            uncrosses,
            book,
            quotes,
            refused,
        ],
    )
}

/// Prints the nanoseconds that a desk took for each command that it accepted. It is told how many come, as plain Rust is.
fn tell_run<R: AllocGlobal + Print + Clock>(rt: &R, commands: &[Command]) -> Result<(), LoadFault> {
    let mut loaded = Loaded::open(rt.alloc(), OPENING)?;
    let start = now(rt)?;
    loaded.reserve(commands.len())?;
    let accepted = loaded.take(commands);
    tell_time(rt, &start, accepted)
}
