//! The candidates of a call.
ghost use Rattle.std.specs.Prelude.{◌≡◌};
ghost use Rattle.xm_reasons.specs.Candidates.{absolute_surplus_of, surplus_of, surplus_on, volume_of};

use xm_rules::Side;
use xm_ticks::Price;

/// A limit of an order that takes part in a call, in ticks, with the units of the buys that accept it as a price, and of the sells.
#[derive(Clone, Copy, PartialEq, Eq, Debug)]
pub struct Candidate {
    /// The limit, in ticks.
    pub price: Price,
    /// The units of the buys that accept the price.
    pub demand: u64,
    /// The units of the sells that accept it.
    pub supply: u64,
}

impl Candidate {
    /// The units that can be executed at the price.
    pub fn volume(&self) -> u64
        ensures { result ≡ volume_of self.now }
    {
        self.demand.min(self.supply)
    }

    /// The units that a side has above the other at the price, and 0 where it has none.
    pub fn surplus_on(&self, side: Side) -> u64
        ensures { result ≡ surplus_on side self.now }
    {
        match side {
            Side::Buy => self.demand.saturating_sub(self.supply),
            Side::Sell => self.supply.saturating_sub(self.demand),
        }
    }

    /// The side that has more units at the price, and how many more; nothing where both have as many.
    pub fn surplus(&self) -> Option<(Side, u64)>
        ensures { result ≡ surplus_of self.now }
    {
        if self.supply < self.demand {
            Some((Side::Buy, self.demand - self.supply))
        } else if self.demand < self.supply {
            Some((Side::Sell, self.supply - self.demand))
        } else {
            None
        }
    }

    /// The units that either side has above the other at the price.
    pub fn absolute_surplus(&self) -> u64
        ensures { result ≡ absolute_surplus_of self.now }
    {
        self.demand.abs_diff(self.supply)
    }
}
