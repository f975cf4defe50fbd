//! Orders that come in, and stops that are entered.
ghost use Rattle.std.specs.Prelude.{◌≡◌, ◌==◌, ◌++◌, ◌∷◌, [], false, true, if◌then◌else◌, IsTrue, is_some};
ghost use Rattle.xm_book.specs.Places.{place_of};
ghost use Rattle.xm_desk.specs.Incoming.{CanComeIn, CanJoin};
ghost use Rattle.xm_desk.specs.Made.{Makes};
ghost use Rattle.xm_desk.specs.declared.unsettled.Ready.TheVariants.{ForStop, ForOrder, Used};
ghost use Rattle.xm_events.specs.Seen.{latest, seen_after};
ghost use Rattle.xm_events.specs.Story.{come_events, come_under_events, sweep_events};
ghost use Rattle.xm_rules.specs.Refusals.{has_stop};
ghost use Rattle.xm_rules.specs.Settling.{come, is_continuous, joined, sweep_of, swept};
ghost use Rattle.xm_rules.specs.Step.{come_under};
ghost use Rattle.xm_rules.specs.Sweep.{is_fillable, rest_after};
ghost use Rattle.xm_rules.specs.declared.commands.Condition.TheVariants.{Fok, Ioc};
ghost use Rattle.xm_rules.specs.declared.phases.Auction.TheVariants.{Interruption};
ghost use Rattle.xm_rules.specs.declared.phases.CallStage.TheVariants.{Interrupted};
ghost use Rattle.xm_rules.specs.declared.phases.Phase.TheVariants.{Call};

use crate::unsettled::{Ready, Unsettled};
use std::alloc::Allocator;
use std::snapshot::Snapshot;
use xm_book::Place;
use xm_match::fillable;
use xm_rules::{Auction, CallStage, Condition, Order, Phase, Stop};
use xm_ticks::Price;

impl<A: Allocator + Copy> Unsettled<A> {
    /// An order comes in, on its condition.
    #[inline(always)]
    pub fn enter(&mut self, order: &Order, condition: Condition)
        requires can { CanComeIn self.old order.now }
        requires immediate { condition ≡ Ioc → is_continuous self.old.state.phase ≡ true }
        ensures come { self.new ≡ record self.old { state = come_under condition self.old.state order.now; ready = Used; seen = seen_after self.old.seen (come_under_events condition self.old.state order.now) } }
        ensures made { Makes self.old self.new }
    {
        match condition {
            Condition::Plain | Condition::Boc => self.come(order),
            Condition::Ioc => self.execute_or_kill(order),
            Condition::Fok => self.fill_or_kill(order),
        }
    }

    /// A stop joins the held ones last.
    pub fn hold(&mut self, stop: &Stop)
        requires ready { self.old.ready ≡ ForStop stop.now }
        requires name { has_stop self.old.state stop.now.member stop.now.reference ≡ false }
        ensures held { self.new ≡ record self.old { state = record self.old.state { stops = self.old.state.stops ++ stop.now ∷ [] }; ready = Used } }
        ensures made { Makes self.old self.new }
    {
        self.stops.add(*stop);
        self.ready = Snapshot::of(&Ready::Used);
    }

    /// An order comes in. In continuous trading a free one is executed, and its rest joins the book last; any other order
    /// joins last.
    #[inline(always)]
    pub fn come(&mut self, order: &Order)
        requires { CanComeIn self.old order.now }
        ensures come { self.new ≡ record self.old { state = come self.old.state order.now; ready = Used; seen = seen_after self.old.seen (come_events self.old.state order.now) } }
        ensures made { Makes self.old self.new }
    {
        if !(self.phase.is_continuous() && order.restriction.is_free()) {
            return self.join(*order);
        }
        let rest = self.execute(order);
        if rest > 0 {
            self.join(Order { rest, ..*order });
        }
    }

    /// An immediate-or-cancel order comes in: it is executed, and its rest is deleted.
    fn execute_or_kill(&mut self, order: &Order)
        requires can { CanComeIn self.old order.now }
        requires continuous { IsTrue (is_continuous self.old.state.phase) }
        ensures come { self.new ≡ record self.old { state = come_under Ioc self.old.state order.now; ready = Used; seen = seen_after self.old.seen (come_under_events Ioc self.old.state order.now) } }
        ensures made { Makes self.old self.new }
    {
        if self.execute(order) > 0 {
            self.give_up_place(Place::of(order));
        }
    }

    /// A fill-or-kill order comes in where it can be executed whole, and else is deleted.
    fn fill_or_kill(&mut self, order: &Order)
        requires { CanComeIn self.old order.now }
        ensures come { self.new ≡ record self.old { state = come_under Fok self.old.state order.now; ready = Used; seen = seen_after self.old.seen (come_under_events Fok self.old.state order.now) } }
        ensures made { Makes self.old self.new }
    {
        if self.is_fillable(order) {
            self.come(order);
        } else {
            self.give_up_place(Place::of(order));
        }
    }

    /// Whether an order could be executed whole.
    fn is_fillable(&self, order: &Order) -> bool
        ensures { result ≡ is_fillable (sweep_of self.now.state order.now) }
    {
        let last = self.tape.last_price();
        let last_auction = self.tape.last_auction_price();
        fillable(&self.book, order, last, last_auction, &self.settings.widths)
    }

    /// An order is executed against the other side of the book. Where the next one is met outside a range, trading is
    /// interrupted. Answers the units of the order that are left; its place is kept for them, and given up where there are none.
    fn execute(&mut self, order: &Order) -> u32
        requires can { CanComeIn self.old order.now }
        requires continuous { IsTrue (is_continuous self.old.state.phase) }
        ensures swept { self.new ≡ record self.old {
          state = swept self.old.state order.now;
          ready = if rest_after (sweep_of self.old.state order.now) == 0 then Used else ForOrder (place_of order.now);
          seen = seen_after self.old.seen (sweep_events self.old.state order.now);
        } }
        ensures rest { result ≡ rest_after (sweep_of self.old.state order.now) }
        ensures made { Makes self.old self.new }
    {
        // What every book keeps, and the range of the limit, are known where they are asked for.
        let _ = (self.book.len(), self.settings.limit.get());
        self.sweeps += 1;
        let widths = self.settings.widths;
        let swept = self.tape.sweep(&mut self.book, order, self.sweeps, &widths);
        self.phase = phase_after(self.phase, swept.interruption);
        self.interruption = latest(self.interruption, swept.interruption);
        if swept.rest == 0 {
            self.book.release(&Place::of(order));
            self.ready = Snapshot::of(&Ready::Used);
        }
        swept.rest
    }

    /// An order joins the book last, in the place that is kept for it.
    #[inline(always)]
    fn join(&mut self, order: Order)
        requires { CanJoin self.old order }
        ensures joined { self.new ≡ record self.old { state = joined self.old.state order; ready = Used } }
        ensures made { Makes self.old self.new }
    {
        let _ = self.settings.limit.get(); // The range of the limit is known where it is asked for.
        self.book.add(order);
        self.ready = Snapshot::of(&Ready::Used);
    }

    /// Gives up the place that is kept for an order of which nothing is left.
    fn give_up_place(&mut self, place: Place)
        requires { self.old.ready ≡ ForOrder place }
        ensures given_up { self.new ≡ record self.old { ready = Used } }
        ensures made { Makes self.old self.new }
    {
        self.book.release(&place);
        self.ready = Snapshot::of(&Ready::Used);
    }
}

/// The phase after a sweep: a price that interrupts it ends continuous trading.
fn phase_after(phase: Phase, interruption: Option<Price>) -> Phase
    ensures { result ≡ (if is_some interruption then Call Interruption Interrupted else phase) }
{
    match interruption {
        Some(_) => Phase::Call(Auction::Interruption, CallStage::Interrupted),
        None => phase,
    }
}

/// The later of two prices, where there is one.
fn latest(before: Option<Price>, price: Option<Price>) -> Option<Price>
    ensures { result ≡ latest before price }
{
    match price {
        Some(price) => Some(price),
        None => before,
    }
}
