//! What loads print, a line of a name and figures for each, and the time that they take.

use crate::loads::LoadFault;
use std::io;
use std::rt::Clock;
use std::time::Instant;

/// Ends a line with a text: the heads of the columns, or nothing.
pub fn tell_text<R: Print>(rt: &R, text: &str) -> Result<(), LoadFault> {
    said(println!(rt; "{text}"))
}

/// Prints a figure in its column.
pub fn tell_figure<R: Print>(rt: &R, figure: u64) -> Result<(), LoadFault> {
    said(print!(rt; " {figure:>13}"))
}

/// Begins a line with a name and figures.
pub fn tell_figures<R: Print>(rt: &R, name: &str, figures: &[u64]) -> Result<(), LoadFault> {
    said(print!(rt; "{name:<24}"))?;
    for figure in figures {
        tell_figure(rt, *figure)?;
    }
    Ok(())
}

fn said(printed: io::Result<()>) -> Result<(), LoadFault> {
    match printed {
        Ok(()) => Ok(()),
        Err(_) => Err(LoadFault),
    }
}

pub fn now<R: Clock>(rt: &R) -> Result<Instant, LoadFault> {
    match Instant::now(rt) {
        Ok(instant) => Ok(instant),
        Err(_) => Err(LoadFault),
    }
}

/// The nanoseconds since an instant.
pub fn nanoseconds_since<R: Clock>(rt: &R, start: &Instant) -> Result<u64, LoadFault> {
    match start.elapsed(rt) {
        Ok(taken) => Ok(
            taken
                .as_secs()
                .wrapping_mul(1_000_000_000)
                .wrapping_add(u64::from(taken.subsec_nanos())),
        ),
        Err(_) => Err(LoadFault),
    }
}

/// Prints the nanoseconds since an instant that each of so many units took, or nothing where there is no unit.
pub fn tell_time<R: Print + Clock>(rt: &R, start: &Instant, units: u32) -> Result<(), LoadFault> {
    let taken = nanoseconds_since(rt, start)?;
    if units == 0 {
        return Ok(());
    }
    tell_figure(rt, taken / u64::from(units))
}
