//! The orders and stops that a security opens with.
ghost use Rattle.std.specs.Prelude.{ℕ, ◌≡◌, ◌+◌, ◌<◌, ◌≤◌, ◌++◌, ◌∷◌, [], All, IfOk, IsTrue, OnOk, count_by, false, filter, length, map, not, true};
ghost use Rattle.std.specs.List.{list_any};
ghost use Rattle.xm_rules.specs.Commands.{is_in_range};
ghost use Rattle.xm_rules.specs.Entries.{none_left};
ghost use Rattle.xm_rules.specs.Opening.{are_carriable, is_still_valid, opening};
ghost use Rattle.xm_rules.specs.Orders.{is_named, is_stop_named};
ghost use Rattle.xm_rules.specs.Settling.{is_reached, order_of_stop};
ghost use Rattle.xm_rules.specs.declared.carried.TheConstants.{MAX_CARRIED};
ghost use Rattle.xm_rules.specs.declared.orders.Order.{Order};
ghost use Rattle.xm_rules.specs.declared.orders.Stop.{Stop};
ghost use Rattle.xm_stops.specs.HeldStops.{is_held};
ghost use Rattle.xm_ticks.specs.declared.numbers.TheConstants.{MAX_PRICE};

use std::alloc::Allocator;
use std::marker::Model;
use xm_book::{Book, Place};
use xm_memory::OutOfMemory;
use xm_name_index::Storage;
use xm_rules::{DeskSettings, Order, Stop};
use xm_stops::Stops;
use xm_ticks::Price;

/// A book and held stops before the day, with a place in the book for each held stop. A clause sees the orders and the stops.
#[derive(Drop)]
pub struct OpenEntries<A: Allocator + Copy> {
    pub book: Book<A>,
    pub stops: Stops<A>,
}

impl<A: Allocator + Copy> Model for OpenEntries<A> {
    ghost use Rattle.std.specs.Prelude.{◌≡◌, length};
    ghost use Rattle.xm_book.specs.Places.{SamePlaces};
    ghost use Rattle.xm_desk.specs.Frame.{places_of_stops};
    ghost use Rattle.xm_rules.specs.Entries.{Entries};

    ghost Value = { Entries };

    ghost view = { λ e. record { orders = e.book.orders; stops = e.stops.stops } };

    ghost invariant = { λ e. record {
      reserved : SamePlaces e.book.reserved (places_of_stops e.stops.stops);
      adds : e.book.adds ≡ length e.book.orders;
    } };
}

impl<A: Allocator + Copy> OpenEntries<A> {
    /// What a security opens with that takes what its settings carry: the orders that are still valid and those of the stops
    /// that the reference has reached, and the other stops that are. It fails where a growth is refused.
    pub fn of(storage: Storage<A>, settings: &DeskSettings) -> Result<OpenEntries<A>, OutOfMemory>
        requires { are_carriable settings.now ≡ true }
        ensures { IfOk result (λ entries. entries ≡ record { orders = (opening settings.now).orders; stops = (opening settings.now).stops }) }
    {
        let mut entries = OpenEntries {
            book: Book::new(storage),
            stops: Stops::new(storage),
        };
        entries.add_orders(settings.carried.orders(), settings.today)?;
        entries.add_stops(settings.carried.stops(), settings.today, settings.reference)?;
        Ok(entries)
    }

    /// The orders that are still valid today join the book, in which nothing is.
    fn add_orders(&mut self, orders: &[Order], today: u32) -> Result<(), OutOfMemory>
        requires fresh { self.old ≡ none_left }
        requires names { (member reference : ℕ) → count_by (is_named member reference) orders.now ≤ 1 }
        requires units { All (λ (o : Order). IsTrue (is_in_range o.rest)) orders.now }
        requires few { length orders.now ≤ MAX_CARRIED }
        ensures { OnOk result (self.new ≡ record { orders = filter (λ (o : Order). is_still_valid today o.validity) orders.now; stops = [] }) }
    {
        for order in orders {
            if order.validity.is_still_valid(today) {
                self.add_order(*order)?;
            }
        }
        Ok(())
    }

    /// Of the stops that are still valid today those that the reference has reached join the book, and the others are held.
    fn add_stops(&mut self, stops: &[Stop], today: u32, reference: Price) -> Result<(), OutOfMemory>
        requires none_held { self.old.stops ≡ [] }
        requires names { (m r : ℕ) → count_by (is_named m r) self.old.orders + count_by (is_stop_named m r) stops.now ≤ 1 }
        requires units { All (λ (s : Stop). IsTrue (is_in_range s.quantity)) stops.now }
        requires triggers { All (λ (s : Stop). s.trigger ≤ MAX_PRICE) stops.now }
        requires few { length self.old.orders + length stops.now ≤ MAX_CARRIED }
        ensures { OnOk result (let valid = filter (λ (s : Stop). is_still_valid today s.validity) stops.now in self.new ≡ record {
          orders = self.old.orders ++ map order_of_stop (filter (is_reached reference) valid);
          stops = filter (λ (s : Stop). not (is_reached reference s)) valid;
        }) }
    {
        for stop in stops {
            if stop.validity.is_still_valid(today) {
                self.add_stop(stop, reference)?;
            }
        }
        Ok(())
    }

    /// A stop that the reference has reached joins the book last, as its order; any other is held.
    fn add_stop(&mut self, stop: &Stop, reference: Price) -> Result<(), OutOfMemory>
        requires name { list_any (is_named stop.now.member stop.now.reference) self.old.orders ≡ false }
        requires held_name { is_held stop.now.member stop.now.reference self.old.stops ≡ false }
        requires units { IsTrue (is_in_range stop.now.quantity) }
        requires trigger { stop.now.trigger ≤ MAX_PRICE }
        requires few { length self.old.orders + length self.old.stops < MAX_CARRIED }
        ensures reached { OnOk result (is_reached reference stop.now ≡ true → self.new ≡ record self.old { orders = self.old.orders ++ order_of_stop stop.now ∷ [] }) }
        ensures held { OnOk result (is_reached reference stop.now ≡ false → self.new ≡ record self.old { stops = self.old.stops ++ stop.now ∷ [] }) }
    {
        if stop.is_reached(reference) {
            self.add_order(stop.order_of_stop())
        } else {
            self.hold(stop)
        }
    }

    /// An order joins the book last.
    fn add_order(&mut self, order: Order) -> Result<(), OutOfMemory>
        requires name { list_any (is_named order.member order.reference) self.old.orders ≡ false }
        requires units { IsTrue (is_in_range order.rest) }
        requires few { length self.old.orders + length self.old.stops < MAX_CARRIED }
        ensures { OnOk result (self.new ≡ record self.old { orders = self.old.orders ++ order ∷ [] }) }
    {
        self.book.reserve_for(&Place::of(&order))?;
        self.book.add(order);
        Ok(())
    }

    /// A stop joins the held ones last, and its order has a place in the book.
    fn hold(&mut self, stop: &Stop) -> Result<(), OutOfMemory>
        requires name { is_held stop.now.member stop.now.reference self.old.stops ≡ false }
        requires trigger { stop.now.trigger ≤ MAX_PRICE }
        requires few { length self.old.orders + length self.old.stops < MAX_CARRIED }
        ensures { OnOk result (self.new ≡ record self.old { stops = self.old.stops ++ stop.now ∷ [] }) }
    {
        self.stops.reserve_one(stop)?;
        self.book.reserve_for(&Place::of(&stop.order_of_stop()))?;
        self.stops.add(*stop);
        Ok(())
    }
}
