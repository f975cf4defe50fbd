//! The best price at which the units of a side cover those of the other.
ghost use Rattle.std.specs.Prelude.{◌≡◌, ◌-◌, ◌+◌, ◌≤◌, ◌<◌, IsTrue, None, false};
ghost use Rattle.xm_auction.specs.Covered.{best_covered};
ghost use Rattle.xm_auction.specs.Crossings.{IsCrossing, IsAtEnd, IsPassed, IsStart};
ghost use Rattle.xm_book.specs.Curves.{orders_left};
ghost use Rattle.xm_auction.specs.Prices.{is_preferred};

use crate::depth::Depth;
use std::alloc::Allocator;
use xm_book::Book;
use xm_rules::Phase;
use xm_ticks::Price;

/// A price at which the units of a side are no fewer than those of the other: the units that can be
/// executed at it, and those that the side has above them.
#[derive(Clone, Copy)]
pub struct Covered {
    pub price: Price,
    pub volume: u64,
    pub surplus: u64,
}

impl Covered {
    /// At a price, with the units of the side and those of the other, which aren't more.
    fn new(price: Price, units: u64, other: u64) -> Covered
        requires { other ≤ units }
        ensures { result ≡ record { price = price; volume = other; surplus = units - other } }
    {
        Covered {
            price,
            volume: other,
            surplus: units - other,
        }
    }

    /// Whether it has more volume than another, or as much and less surplus.
    pub fn is_preferred(&self, other: &Covered) -> bool
        ensures { result ≡ is_preferred self.now other.now }
    {
        self.volume > other.volume || (self.volume == other.volume && self.surplus < other.surplus)
    }

    /// At the best candidate of a side at which its units are no fewer than those of the other, by a walk along the
    /// curves of both that begins here.
    pub fn best_from<A: Allocator + Copy>(
        book: &Book<A>,
        phase: Phase,
        own: &Depth,
        other: &Depth,
    ) -> Option<Covered>
        requires { IsStart phase book.now.orders own.now other.now }
        ensures { result ≡ best_covered phase book.now.orders own.now.side }
    {
        let own = own.to_units(book, phase, other.units)?;
        let other = *other;
        let mut crossing = Crossing { own, other };
        while crossing.advance(book, phase) {}
        crossing.best(book, phase)
    }
}

/// The curves of a side and of the other, as far as they were walked.
#[derive(Clone, Copy)]
struct Crossing {
    own: Depth,
    other: Depth,
}

impl Crossing {
    /// Takes the next level of the other side that the own limit reaches, where it is covered with it,
    /// else the own next level, where it comes before that one; or answers `false`.
    fn advance<A: Allocator + Copy>(&mut self, book: &Book<A>, phase: Phase) -> bool
        requires { IsCrossing phase book.now.orders self.old.own self.old.other }
        ensures side { self.new.own.side ≡ self.old.own.side }
        ensures kept { IsCrossing phase book.now.orders self.new.own self.new.other }
        ensures fewer { IsTrue result
            → orders_left phase self.new.own.side self.new.own.limit book.now.orders + orders_left phase self.new.other.side self.new.other.limit book.now.orders
            < orders_left phase self.old.own.side self.old.own.limit book.now.orders + orders_left phase self.old.other.side self.old.other.limit book.now.orders }
        ensures last { result ≡ false → IsAtEnd self.new.own self.new.other }
    {
        let level = match self.other.next_reached(&self.own) {
            None => return false,
            Some(level) => level,
        };
        if level.1 <= self.own.units - self.other.units {
            self.other = self.other.with_level(book, phase, level);
            return true;
        }
        match self.own.next {
            None => false,
            Some(next) => {
                let before = self.own.side.reaches(next.0.get(), level.0.get());
                if before {
                    self.own = self.own.with_level(book, phase, next);
                }
                before
            }
        }
    }

    /// The best candidate at which the side covers the other, once the curves were walked.
    fn best<A: Allocator + Copy>(&self, book: &Book<A>, phase: Phase) -> Option<Covered>
        requires crossing { IsCrossing phase book.now.orders self.now.own self.now.other }
        requires last { IsAtEnd self.now.own self.now.other }
        ensures { result ≡ best_covered phase book.now.orders self.now.own.side }
    {
        let limit = self.own.limit;
        match self.other.next_reached(&self.own) {
            Some(_level) => self.best_passed(book, phase),
            None => match limit {
                None => self.best_passed(book, phase),
                Some(price) => Some(Covered::new(price, self.own.units, self.other.units)),
            },
        }
    }

    /// The better of the own next level and the other's limit.
    fn best_passed<A: Allocator + Copy>(&self, book: &Book<A>, phase: Phase) -> Option<Covered>
        requires crossing { IsCrossing phase book.now.orders self.now.own self.now.other }
        requires last { IsAtEnd self.now.own self.now.other }
        requires passed { IsPassed self.now.own self.now.other }
        ensures { result ≡ best_covered phase book.now.orders self.now.own.side }
    {
        let limit = self.other.limit;
        match self.own.next_reached(&self.other) {
            Some(level) => {
                let price = level.0;
                let own = self.own.with_level(book, phase, level);
                Some(Covered::new(price, own.units, self.other.units))
            }
            None => match limit {
                None => None,
                Some(price) => Some(Covered::new(price, self.own.units, self.other.units)),
            },
        }
    }
}
