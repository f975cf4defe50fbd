//! The growth that a command may need. It comes before the first change, and it alone can be refused.
ghost use Rattle.std.specs.Prelude.{◌≡◌, ◌≤◌, ◌<◌, ◌+◌, [], OnErr, OnOk};
ghost use Rattle.xm_desk.specs.Accepted.{IsAccepted};
ghost use Rattle.xm_desk.specs.Growth.{ready_for};
ghost use Rattle.xm_desk.specs.declared.unsettled.Ready.TheVariants.{Nothing, ForStop, ForOrder, OneTrade};
ghost use Rattle.xm_rules.specs.declared.settings.TheConstants.{PHASE_COMMANDS_MORE};
ghost use Rattle.xm_ticks.specs.declared.numbers.TheConstants.{MAX_PRICE};

use crate::accepted::{Accepted, Action};
use crate::unsettled::{Ready, Unsettled};
use std::alloc::Allocator;
use std::snapshot::Snapshot;
use xm_book::Place;
use xm_memory::OutOfMemory;
use xm_rules::Stop;

impl<A: Allocator + Copy> Unsettled<A> {
    /// Reserves all that an accepted command may need. The state is unchanged.
    #[inline(always)]
    pub fn reserve(&mut self, accepted: &Accepted) -> Result<(), OutOfMemory>
        requires ready { self.old.ready ≡ Nothing }
        requires settled { self.old.pending ≡ [] }
        requires accepted { IsAccepted self.old.state accepted.now }
        ensures ok { OnOk result (self.new ≡ record self.old { ready = ready_for accepted.now.action }) }
        ensures err { OnErr result (self.new ≡ self.old) }
    {
        match &accepted.action {
            Action::Enter(order, _condition) => self.reserve_place(&Place::of(order)),
            Action::Replace(order) => self.reserve_place(&Place::of(order)),
            Action::Hold(stop) => self.reserve_stop(stop),
            Action::EndCall(_auction, _stage) => self.reserve_trade(),
            _ => Ok(()),
        }
    }

    /// Reserves room for one trade more than there are orders and stops.
    fn reserve_trade(&mut self) -> Result<(), OutOfMemory>
        requires ready { self.old.ready ≡ Nothing }
        requires settled { self.old.pending ≡ [] }
        requires accepted { self.old.state.accepted < self.old.state.settings.limit + PHASE_COMMANDS_MORE }
        ensures ok { OnOk result (self.new ≡ record self.old { ready = OneTrade }) }
        ensures err { OnErr result (self.new ≡ self.old) }
    {
        self.tape.reserve(self.book.len() + self.stops.len() + 1)?;
        self.ready = Snapshot::of(&Ready::OneTrade);
        Ok(())
    }

    /// Reserves a place in the book, and room for a trade.
    #[inline(always)]
    fn reserve_place(&mut self, place: &Place) -> Result<(), OutOfMemory>
        requires ready { self.old.ready ≡ Nothing }
        requires settled { self.old.pending ≡ [] }
        requires accepted { self.old.state.accepted < self.old.state.settings.limit + PHASE_COMMANDS_MORE }
        ensures ok { OnOk result (self.new ≡ record self.old { ready = ForOrder place.now }) }
        ensures err { OnErr result (self.new ≡ self.old) }
    {
        let _ = self.settings.limit.get(); // The range of the limit is known where it is asked for.
        self.tape.reserve(self.book.len() + self.stops.len() + 1)?;
        self.book.reserve_for(place)?;
        self.ready = Snapshot::of(&Ready::ForOrder(*place));
        Ok(())
    }

    /// Reserves room for a stop, held and pending, with a place in the book for its order, and room for a trade.
    fn reserve_stop(&mut self, stop: &Stop) -> Result<(), OutOfMemory>
        requires ready { self.old.ready ≡ Nothing }
        requires settled { self.old.pending ≡ [] }
        requires accepted { self.old.state.accepted < self.old.state.settings.limit + PHASE_COMMANDS_MORE }
        requires trigger { stop.now.trigger ≤ MAX_PRICE }
        ensures ok { OnOk result (self.new ≡ record self.old { ready = ForStop stop.now }) }
        ensures err { OnErr result (self.new ≡ self.old) }
    {
        let _ = self.settings.limit.get(); // The range of the limit is known where it is asked for.
        self.tape.reserve(self.book.len() + self.stops.len() + 1)?;
        self.pending.reserve(self.stops.len() + 1)?;
        self.stops.reserve_one(stop)?;
        self.book.reserve_for(&Place::of(&stop.order_of_stop()))?;
        self.ready = Snapshot::of(&Ready::ForStop(*stop));
        Ok(())
    }
}
