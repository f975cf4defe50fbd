//! Entries of orders and stops.
ghost use Rattle.std.specs.Prelude.{◌≡◌, IsTrue};
ghost use Rattle.xm_desk.specs.Accepted.{entering};
ghost use Rattle.xm_desk.specs.Entries.{order_in, stop_in};
ghost use Rattle.xm_rules.specs.Commands.{has_prices_in_range, trigger_of};

use crate::accepted::Action;
use xm_rules::{Condition, Kind, Order, Restriction, Side, Stop, Validity};

/// The entry of an order or of a stop.
#[derive(Clone, Copy)]
pub struct EntryFields {
    pub member: u32,
    pub reference: u32,
    pub side: Side,
    pub kind: Kind,
    pub quantity: u32,
    pub validity: Validity,
    pub restriction: Restriction,
    pub condition: Condition,
}

impl EntryFields {
    /// What the entry does. Its prices are in range.
    pub fn action(&self) -> Action
        requires { IsTrue (has_prices_in_range self.now.kind) }
        ensures { result ≡ entering self.now.condition (trigger_of self.now.kind) (order_in self.now) }
    {
        match self.stop() {
            None => Action::Enter(self.order(), self.condition),
            Some(stop) => Action::Hold(stop),
        }
    }

    /// The order that is entered, or that the stop becomes. The prices are in range.
    pub fn order(&self) -> Order
        requires { IsTrue (has_prices_in_range self.now.kind) }
        ensures { result ≡ order_in self.now }
    {
        Order {
            member: self.member,
            reference: self.reference,
            side: self.side,
            kind: self.kind.order_kind(),
            rest: self.quantity,
            validity: self.validity,
            restriction: self.restriction,
        }
    }

    /// The stop that is entered, if it is one. The prices are in range.
    fn stop(&self) -> Option<Stop>
        requires { IsTrue (has_prices_in_range self.now.kind) }
        ensures { result ≡ stop_in self.now }
    {
        let trigger = self.kind.trigger_of()?;
        Some(Stop {
            member: self.member,
            reference: self.reference,
            side: self.side,
            trigger,
            becomes: self.kind.order_kind(),
            quantity: self.quantity,
            validity: self.validity,
        })
    }
}
