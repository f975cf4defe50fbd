//! Settling: the stops that the last price has reached come in, until none is pending.
ghost use Rattle.std.specs.Prelude.{◌≡◌, ◌<◌, ◌+◌, ◌++◌, ◌∷◌, [], IfNone, IfSome, IsTrue, drop, false, length, slice_get};
ghost use Rattle.xm_desk.specs.Made.{CanSettle, Makes};
ghost use Rattle.xm_desk.specs.Settled.{place_of_stop, places_in};
ghost use Rattle.xm_desk.specs.declared.unsettled.Ready.TheVariants.{ForOrder};
ghost use Rattle.xm_events.specs.Seen.{seen_after};
ghost use Rattle.xm_events.specs.Story.{settle_events};
ghost use Rattle.xm_rules.specs.Settling.{reached, released, settle};

use crate::unsettled::{Ready, Unsettled};
use std::alloc::Allocator;
use std::snapshot::Snapshot;
use xm_book::Place;
use xm_rules::Stop;

impl<A: Allocator + Copy> Unsettled<A> {
    /// The stops that are reached come in, one after the other, with those that they reach in turn, until none is pending. No
    /// growth is needed, and nothing can fail.
    #[inline(always)]
    pub fn settle(&mut self)
        requires { CanSettle self.old }
        ensures settled { self.new ≡ record self.old {
          state = settle self.old.state self.old.pending;
          pending = [];
          ready = self.new.ready;
          seen = seen_after self.old.seen (settle_events self.old.state self.old.pending);
        } }
        ensures standing { CanSettle self.new }
        ensures made { Makes self.old self.new }
    {
        if self.stops.len() == 0 && self.pending.len() == 0 {
            return;
        }
        while self.settle_next() {}
    }

    /// The stops that are reached become pending, and the first pending one comes in. Answers `false` where there is none.
    fn settle_next(&mut self) -> bool
        requires { CanSettle self.old }
        ensures none { result ≡ false → self.new ≡ record self.old {
          state = settle self.old.state self.old.pending;
          pending = [];
          seen = seen_after self.old.seen (settle_events self.old.state self.old.pending);
        } }
        ensures fewer { IsTrue result → length self.new.state.stops + length self.new.pending < length self.old.state.stops + length self.old.pending }
        ensures same { IsTrue result → settle self.new.state self.new.pending ≡ settle self.old.state self.old.pending }
        ensures told { IsTrue result → seen_after self.new.seen (settle_events self.new.state self.new.pending) ≡ seen_after self.old.seen (settle_events self.old.state self.old.pending) }
        ensures standing { CanSettle self.new }
        ensures made { Makes self.old self.new }
    {
        self.take_reached();
        match self.next_pending() {
            None => false,
            Some(stop) => {
                self.come(&stop.order_of_stop());
                true
            }
        }
    }

    /// The stops that the last price has reached become pending, behind those that are.
    fn take_reached(&mut self)
        ensures { self.new ≡ record self.old { state = released self.old.state; pending = self.old.pending ++ reached self.old.state } }
    {
        let last = self.tape.last_price();
        self.stops.take_reached(last, &mut self.pending);
    }

    /// The first pending stop is the next to come in: its place is the one that is kept.
    fn next_pending(&mut self) -> Option<Stop>
        requires { places_in self.old.ready ≡ [] }
        ensures first { result ≡ slice_get self.old.pending 0 }
        ensures some { IfSome result (λ stop. self.new ≡ record self.old {
          pending = drop 1 self.old.pending;
          ready = ForOrder (place_of_stop stop);
          seen = record self.old.seen { triggered = self.old.seen.triggered ++ stop ∷ [] };
        }) }
        ensures none { IfNone result (self.new ≡ self.old) }
    {
        let stop = self.pending.pop()?;
        self.ready = Snapshot::of(&Ready::ForOrder(Place::of(&stop.order_of_stop())));
        Some(stop)
    }
}
