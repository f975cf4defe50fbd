//! A security before the day.
ghost use Rattle.std.specs.Prelude.{◌≡◌, [], IfOk, None};
ghost use Rattle.xm_config.specs.Opening.{open_fault};
ghost use Rattle.xm_desk.specs.declared.unsettled.Ready.TheVariants.{Nothing};
ghost use Rattle.xm_events.specs.Seen.{nothing_seen};
ghost use Rattle.xm_rules.specs.Opening.{opening};

use crate::open_entries::OpenEntries;
use crate::tape::Tape;
use crate::unsettled::{Ready, Unsettled};
use std::alloc::Allocator;
use std::snapshot::Snapshot;
use xm_memory::OutOfMemory;
use xm_rules::{DeskSettings, Phase};
use xm_stops::Pending;

impl<A: Allocator + Copy> Unsettled<A> {
    /// A security before the day, with the orders and stops that it opens with. It fails where a growth is refused.
    pub fn before_day(
        alloc: A,
        settings: DeskSettings,
        entries: OpenEntries<A>,
    ) -> Result<Unsettled<A>, OutOfMemory>
        requires opens { open_fault settings ≡ None }
        requires entries { entries ≡ record { orders = (opening settings).orders; stops = (opening settings).stops } }
        ensures { IfOk result (λ u. u ≡ record { state = opening settings; pending = []; ready = Nothing; seen = nothing_seen }) }
    {
        let OpenEntries { book, stops } = entries;
        let mut tape = Tape::new(alloc, settings.reference);
        tape.reserve(book.len() + stops.len())?;
        let mut pending = Pending::new(alloc);
        pending.reserve(stops.len())?;
        Ok(Unsettled {
            settings,
            accepted: 0,
            phase: Phase::PreTrading,
            book,
            stops,
            pending,
            tape,
            sweeps: 0,
            ready: Snapshot::of(&Ready::Nothing),
            interruption: None,
        })
    }
}
