//! Places of a book.
ghost use Rattle.std.specs.Prelude.{◌≡◌, ◌+◌, ◌<◌, ◌^◌, [], IsTrue, length};
ghost use Rattle.std.specs.List.{list_any};
ghost use Rattle.xm_book.specs.Places.{place_of, same_place};
ghost use Rattle.xm_book.specs.Reserved.{Gains};

use std::marker::Model;
use std::mem;
use std::snapshot::Snapshot;
use xm_rules::{Order, OrderKind, Restriction, Side};

/// The most orders and reserved places that a book has together.
pub const MAX_PLACES: usize = 2_000_000;

/// What is reserved for an order that is to come: room for it among the levels of its side and restriction, and in the
/// index of names.
#[derive(Clone, Copy, PartialEq, Eq, Hash, Debug)]
pub struct Place {
    /// The index of the member.
    pub member: u32,
    pub reference: u32,
    pub kind: OrderKind,
    pub side: Side,
    pub restriction: Restriction,
}

impl Place {
    /// The place that an order takes.
    pub fn of(order: &Order) -> Place
        ensures { result ≡ place_of order.now }
    {
        Place {
            side: order.side,
            kind: order.kind,
            restriction: order.restriction,
            member: order.member,
            reference: order.reference,
        }
    }
}

/// What was done last to the reserved places, and what before. A snapshot has no bytes.
#[derive(Drop)]
enum PlaceChange {
    Nothing,
    Reserved(Snapshot<Place>, Snapshot<PlaceChange>),
    Released(Snapshot<Place>, Snapshot<PlaceChange>),
}

/// Places, each as often as it is reserved. How many there are is kept; which they are, a clause alone sees, and so it
/// costs neither memory nor a search.
#[derive(Drop)]
pub struct Places {
    last: PlaceChange,
    total: usize,
}

impl Model for Places {
    ghost use Rattle.std.specs.Prelude.{◌≡◌, List, length};
    ghost use Rattle.xm_book.specs.declared.places.Place.{Place};

    ghost Value = { List Place };

    ghost use Rattle.xm_book.specs.Reserved.{held};

    ghost view = { λ p. held p.last };

    ghost invariant = { λ p. p.total ≡ length (held p.last) };
}

impl Places {
    /// No place.
    pub fn new() -> Places
        ensures { result ≡ [] }
    {
        Places {
            last: PlaceChange::Nothing,
            total: 0,
        }
    }

    /// How many places are reserved.
    pub fn len(&self) -> usize
        ensures { result ≡ length self.now }
    {
        self.total
    }

    /// Reserves a place once more.
    pub fn add(&mut self, place: &Place)
        requires { length self.old < 2 ^ 63 }
        ensures { Gains place.now self.old self.new }
    {
        let before = mem::replace(&mut self.last, PlaceChange::Nothing);
        self.last = PlaceChange::Reserved(Snapshot::of(place), Snapshot::of(&before));
        self.total += 1;
    }

    /// Gives up a place once.
    pub fn release(&mut self, place: &Place)
        requires { IsTrue (list_any (same_place place.now) self.old) }
        ensures { Gains place.now self.new self.old }
    {
        let before = mem::replace(&mut self.last, PlaceChange::Nothing);
        self.last = PlaceChange::Released(Snapshot::of(place), Snapshot::of(&before));
        self.total -= 1;
    }
}
