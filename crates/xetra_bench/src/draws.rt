//! What is drawn at random.

use crate::loads::TODAY;
use xm_rules::{Condition, Side, Validity};

/// The stages of a call, each of which an uncross ends.
pub const STAGES: u32 = 3;

/// The multiplier of the generator, and of sums.
pub const FACTOR: u64 = 6_364_136_223_846_793_005;

/// A linear congruential generator: each run draws the same.
#[derive(Drop)]
pub struct Draws {
    state: u64,
}

impl Draws {
    pub fn new(seed: u64) -> Draws {
        Draws { state: seed }
    }

    /// A number below this one.
    pub fn below(&mut self, bound: u32) -> u32 {
        self.state = self
            .state
            .wrapping_mul(FACTOR)
            .wrapping_add(1_442_695_040_888_963_407);
        ((self.state >> 33) % u64::from(bound.max(1))) as u32
    }

    /// One of so many numbers, from this one on.
    pub fn from(&mut self, first: u32, numbers: u32) -> u32 {
        first.wrapping_add(self.below(numbers))
    }

    /// Whether one of so many cases occurs.
    pub fn is_one_in(&mut self, cases: u32) -> bool {
        self.below(cases) == 0
    }

    pub fn side(&mut self) -> Side {
        if self.is_one_in(2) {
            Side::Buy
        } else {
            Side::Sell
        }
    }

    pub fn validity(&mut self) -> Validity {
        match self.below(4) {
            0 => Validity::TillDate(TODAY),
            1 => Validity::TillDate(TODAY + 1),
            2 => Validity::TillCancelled,
            _ => Validity::Day,
        }
    }

    /// A condition: each of the two immediate ones in one of so many cases, and book or cancel in so many of them.
    pub fn condition(&mut self, cases: u32, book_or_cancel: u32) -> Condition {
        match self.below(cases) {
            0 => Condition::Ioc,
            1 => Condition::Fok,
            case if case.wrapping_sub(2) < book_or_cancel => Condition::Boc,
            _ => Condition::Plain,
        }
    }
}
