//! Tests of a desk that no day of files shows: its calls, each once, refused growth, and cascades of hundreds of stops. Rules
//! and refusals are shown by the cases in `crates/xetra_cases/data`. Commands and answers stand in tables: a table is a value, while
//! each call in a test is proved.

mod carried;
mod cascades;
mod day;
mod growths;
mod opening;
mod readers;

use std::process::Abort;
use xm_rules::{Carried, DeskSettings, Widths};
use xm_ticks::{JournalLimit, Price, TickSize};

pub(crate) fn settings(rt: &impl Abort, limit: u32) -> DeskSettings {
    DeskSettings {
        today: 20260105,
        members: 2,
        tick: TickSize::new(100).expect(rt, "a tick"),
        reference: Price::new(1000).expect(rt, "a price"),
        widths: Widths {
            dynamic: 20,
            statics: 50,
            wide: 40,
        },
        limit: JournalLimit::new(limit).expect(rt, "a limit"),
        carried: Carried::none(),
    }
}
