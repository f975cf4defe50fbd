//! Changes and cancellations of orders and stops.
ghost use Rattle.std.specs.Prelude.{◌≡◌, ◌<◌, ◌≤◌, ◌+◌, IfSome, IsTrue, false, find, length};
ghost use Rattle.xm_book.specs.Places.{place_of};
ghost use Rattle.xm_desk.specs.Made.{Makes, uses};
ghost use Rattle.xm_desk.specs.Settled.{came};
ghost use Rattle.xm_desk.specs.declared.unsettled.Ready.TheVariants.{ForOrder, Used};
ghost use Rattle.xm_events.specs.Seen.{seen_after};
ghost use Rattle.xm_events.specs.Story.{come_events};
ghost use Rattle.xm_rules.specs.Commands.{is_in_range};
ghost use Rattle.xm_rules.specs.Orders.{is_named, removed_stop, with_rest, without_stops_of};
ghost use Rattle.xm_rules.specs.Refusals.{has_stop};
ghost use Rattle.xm_rules.specs.Settling.{come};
ghost use Rattle.xm_rules.specs.Step.{all_cancelled, cancelled};
ghost use Rattle.xm_rules.specs.declared.settings.TheConstants.{PHASE_COMMANDS_MORE};

use crate::unsettled::Unsettled;
use std::alloc::Allocator;
use xm_book::Place;
use xm_rules::Order;

impl<A: Allocator + Copy> Unsettled<A> {
    /// The order of a name keeps its priority, and has so many units left.
    pub fn reduce(&mut self, member: u32, reference: u32, rest: u32)
        requires { IfSome (find (is_named member reference) self.old.state.orders) (λ o. (1 ≤ rest) × (rest ≤ o.rest)) }
        ensures reduced { self.new ≡ record self.old { state = record self.old.state { orders = with_rest member reference rest self.old.state.orders } } }
        ensures made { Makes self.old self.new }
    {
        self.book.reduce(member, reference, rest);
    }

    /// The order of this one's name leaves the book, and comes in again as this one.
    pub fn replace(&mut self, order: &Order)
        requires ready { self.old.ready ≡ ForOrder (place_of order.now) }
        requires name { has_stop self.old.state order.now.member order.now.reference ≡ false }
        requires rest { IsTrue (is_in_range order.now.rest) }
        requires accepted { self.old.state.accepted < self.old.state.settings.limit + PHASE_COMMANDS_MORE }
        requires sweeps { self.old.state.sweeps < came self.old.state.settings (self.old.state.settings.limit + PHASE_COMMANDS_MORE) }
        ensures replaced { self.new ≡ record self.old {
          state = come (cancelled self.old.state order.now.member order.now.reference) order.now;
          ready = Used;
          seen = seen_after self.old.seen (come_events (cancelled self.old.state order.now.member order.now.reference) order.now);
        } }
        ensures made { Makes self.old self.new }
    {
        self.book.remove(order.member, order.reference);
        self.come(order);
    }

    /// The order, or the stop, of this name is deleted.
    #[inline(always)]
    pub fn cancel(&mut self, member: u32, reference: u32)
        requires { uses member reference self.old.state ≤ 1 }
        ensures { self.new ≡ record self.old { state = cancelled self.old.state member reference } }
    {
        if self.book.remove(member, reference).is_none() {
            self.cancel_stop(member, reference);
        }
    }

    /// The stop of this name is deleted, and its place in the book is given up.
    fn cancel_stop(&mut self, member: u32, reference: u32)
        ensures { self.new ≡ record self.old { state = record self.old.state { stops = removed_stop member reference self.old.state.stops } } }
    {
        let _ = self.stops.len(); // That each stop has a name of its own is known where their number is asked.
        if let Some(stop) = self.stops.remove(member, reference) {
            self.book.release(&Place::of(&stop.order_of_stop()));
        }
    }

    /// All orders and stops of the member are deleted.
    pub fn cancel_all(&mut self, member: u32)
        ensures { self.new ≡ record self.old { state = all_cancelled self.old.state member } }
    {
        self.book.remove_all(member);
        while self.cancel_any_stop(member) {}
    }

    /// Some stop of the member is deleted, and its place in the book is given up. Answers `false` where the member has none.
    fn cancel_any_stop(&mut self, member: u32) -> bool
        ensures none { result ≡ false → self.new ≡ record self.old { state = record self.old.state { stops = without_stops_of member self.old.state.stops } } }
        ensures some { IsTrue result → length self.new.state.stops < length self.old.state.stops }
        ensures left { without_stops_of member self.new.state.stops ≡ without_stops_of member self.old.state.stops }
        ensures rest { self.new ≡ record self.old { state = record self.old.state { stops = self.new.state.stops } } }
    {
        let _ = self.stops.len(); // That each stop has a name of its own is known where their number is asked.
        let Some(stop) = self.stops.remove_any(member) else {
            return false;
        };
        self.book.release(&Place::of(&stop.order_of_stop()));
        true
    }
}
