//! Calls, and the end of the day.
ghost use Rattle.std.specs.Prelude.{◌≡◌, ◌+◌, ◌<◌, [], IsTrue, Some, drop, false, length};
ghost use Rattle.xm_auction.specs.Allotment.{uncrossing_of};
ghost use Rattle.xm_desk.specs.Made.{Makes};
ghost use Rattle.xm_desk.specs.Settled.{came};
ghost use Rattle.xm_desk.specs.declared.unsettled.Ready.TheVariants.{Used, OneTrade};
ghost use Rattle.xm_events.specs.Seen.{seen_after};
ghost use Rattle.xm_events.specs.Story.{uncross_at_events};
ghost use Rattle.xm_rules.specs.Auction.{auction_price};
ghost use Rattle.xm_rules.specs.State.{ranges, ref1};
ghost use Rattle.xm_rules.specs.Step.{day_ended, stage_after, traded, uncrossed_at};
ghost use Rattle.xm_rules.specs.declared.phases.CallStage.TheVariants.{Ordinary};
ghost use Rattle.xm_rules.specs.declared.phases.Phase.TheVariants.{Call};
ghost use Rattle.xm_rules.specs.declared.settings.TheConstants.{PHASE_COMMANDS_MORE};

use crate::unsettled::{Ready, Unsettled};
use std::alloc::Allocator;
use std::snapshot::Snapshot;
use xm_auction::auction_price;
use xm_book::Place;
use xm_rules::{Auction, CallStage, Phase};
use xm_ticks::Price;

impl<A: Allocator + Copy> Unsettled<A> {
    /// The call of an auction begins.
    pub fn start_call(&mut self, auction: Auction)
        ensures { self.new ≡ record self.old { state = record self.old.state { phase = Call auction Ordinary } } }
    {
        self.phase = Phase::Call(auction, CallStage::Ordinary);
    }

    /// The call of an auction ends in this stage: it trades at its price, where it has one that this stage lets it trade at.
    pub fn end_call(&mut self, auction: Auction, stage: CallStage)
        requires phase { self.old.state.phase ≡ Call auction stage }
        requires ready { self.old.ready ≡ OneTrade }
        requires sweeps { self.old.state.sweeps < came self.old.state.settings (self.old.state.settings.limit + PHASE_COMMANDS_MORE) }
        ensures uncrossed { self.new ≡ record self.old {
          state = uncrossed_at self.old.state auction stage (auction_price (Call auction stage) self.old.state.orders (ref1 self.old.state));
          ready = Used;
          seen = seen_after self.old.seen (uncross_at_events self.old.state auction stage (auction_price (Call auction stage) self.old.state.orders (ref1 self.old.state)));
        } }
        ensures made { Makes self.old self.new }
    {
        let last = self.tape.last_price();
        match auction_price(&self.book, Phase::Call(auction, stage), last) {
            None => self.go_on_in(auction.next_phase()),
            Some((price, volume)) => match self.stage_after(stage, price) {
                None => self.trade(auction, stage, price, volume),
                Some(next) => {
                    self.interruption = Some(price);
                    self.go_on_in(Phase::Call(auction, next));
                }
            },
        }
    }

    /// The security goes on in a phase without a trade.
    fn go_on_in(&mut self, phase: Phase)
        requires { self.old.ready ≡ OneTrade }
        ensures phase { self.new ≡ record self.old { state = record self.old.state { phase = phase }; ready = Used } }
        ensures made { Makes self.old self.new }
    {
        self.phase = phase;
        self.ready = Snapshot::of(&Ready::Used);
    }

    /// The stage that a call goes on in, where its price is outside a range that this stage asks.
    fn stage_after(&self, stage: CallStage, price: Price) -> Option<CallStage>
        ensures { result ≡ stage_after (ranges self.now.state) stage price }
    {
        self.settings.widths.stage_after(
            self.tape.last_price(),
            self.tape.last_auction_price(),
            stage,
            price,
        )
    }

    /// A call trades its volume at its price, and ends.
    fn trade(&mut self, auction: Auction, stage: CallStage, price: Price, volume: u64)
        requires price { auction_price (Call auction stage) self.old.state.orders (ref1 self.old.state) ≡ Some (price, volume) }
        requires ready { self.old.ready ≡ OneTrade }
        requires sweeps { self.old.state.sweeps < came self.old.state.settings (self.old.state.settings.limit + PHASE_COMMANDS_MORE) }
        ensures traded { self.new ≡ record self.old {
          state = traded self.old.state (uncrossing_of auction stage self.old.state.orders price volume);
          ready = Used;
        } }
        ensures made { Makes self.old self.new }
    {
        // What every book keeps, and the ranges of these numbers, are known where they are asked for.
        let _ = (self.book.len(), self.settings.limit.get(), price.get());
        self.sweeps += 1;
        self.tape
            .allot(&mut self.book, auction, stage, self.sweeps, price, volume);
        self.phase = auction.next_phase();
        self.ready = Snapshot::of(&Ready::Used);
    }

    /// The day ends: orders and stops that aren't valid beyond it are deleted.
    pub fn end_day(&mut self)
        requires settled { self.old.pending ≡ [] }
        requires unseen { self.old.seen.triggered ≡ [] }
        ensures { self.new ≡ record self.old { state = day_ended self.old.state } }
    {
        let today = self.settings.today;
        self.book.remove_expired(today);
        self.stops.take_expired(today, &mut self.pending);
        self.phase = Phase::Ended;
        while self.delete_pending() {}
        self.pending.forget();
    }

    /// The first pending stop is deleted, and its place in the book is given up. Answers `false` where none is pending.
    fn delete_pending(&mut self) -> bool
        ensures deleted { self.new ≡ record self.old { pending = drop 1 self.old.pending; seen = self.new.seen } }
        ensures interruption { self.new.seen.interruption ≡ self.old.seen.interruption }
        ensures none { result ≡ false → self.old.pending ≡ [] }
        ensures some { IsTrue result → length self.new.pending < length self.old.pending }
    {
        let Some(stop) = self.pending.pop() else {
            return false;
        };
        self.book.release(&Place::of(&stop.order_of_stop()));
        true
    }
}
