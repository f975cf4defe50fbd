//! The ladders of both sides, one for each restriction.
ghost use Rattle.std.specs.Prelude.{◌≡◌};
ghost use Rattle.std.specs.Borrow.{sem};
ghost use Rattle.xm_ladders.specs.Ladder.{IsCleared};
ghost use Rattle.xm_ladders.specs.Ladders.{ladder_on, level_on, side_of};
ghost use Rattle.xm_rules.specs.declared.orders.OrderKind.{OrderKind};
ghost use Rattle.xm_rules.specs.declared.orders.Restriction.{Restriction};
ghost use Rattle.xm_rules.specs.declared.orders.Side.{Side};

use crate::ladder::Ladder;
use std::alloc::Allocator;
use xm_rules::{Restriction, Side};

/// The ladders of one side.
pub struct SideLadders<A: Allocator + Copy> {
    free: Ladder<A>,
    opening_only: Ladder<A>,
    auctions_only: Ladder<A>,
    closing_only: Ladder<A>,
}

impl<A: Allocator + Copy> Drop for SideLadders<A> {
    fn drop(self) {
        let SideLadders {
            free: _free,
            opening_only: _opening_only,
            auctions_only: _auctions_only,
            closing_only: _closing_only,
        } = self;
    }
}

impl<A: Allocator + Copy> SideLadders<A> {
    ghost use Rattle.xm_ladders.specs.Lends.{lends_ladder};

    /// Ladders without an order, which have taken no memory.
    fn new(alloc: A) -> SideLadders<A>
        ensures { (r : Restriction) (k : OrderKind) → IsCleared (level_on result r k) }
    {
        SideLadders {
            free: Ladder::new(alloc),
            opening_only: Ladder::new(alloc),
            auctions_only: Ladder::new(alloc),
            closing_only: Ladder::new(alloc),
        }
    }

    /// The ladder of a restriction.
    #[inline(always)]
    pub fn of(&self, restriction: Restriction) -> &Ladder<A>
        ensures { result.now ≡ ladder_on restriction self.now }
    {
        match restriction {
            Restriction::Free => &self.free,
            Restriction::OpeningOnly => &self.opening_only,
            Restriction::AuctionsOnly => &self.auctions_only,
            Restriction::ClosingOnly => &self.closing_only,
        }
    }

    /// The ladder of a restriction, to change.
    pub fn of_mut(&mut self, restriction: Restriction) -> &mut Ladder<A>
        ensures* writes_back { sem 𝓛 (lends_ladder A.row A.Allocator self.entry restriction result) }
        ensures value { result.now ≡ ladder_on restriction self.old }
    {
        match restriction {
            Restriction::Free => &mut self.free,
            Restriction::OpeningOnly => &mut self.opening_only,
            Restriction::AuctionsOnly => &mut self.auctions_only,
            Restriction::ClosingOnly => &mut self.closing_only,
        }
    }
}

/// The ladders of both sides.
#[derive(Drop)]
pub struct Ladders<A: Allocator + Copy> {
    buys: SideLadders<A>,
    sells: SideLadders<A>,
}

impl<A: Allocator + Copy> Ladders<A> {
    ghost use Rattle.xm_ladders.specs.Lends.{lends_side};

    /// Ladders without an order, which have taken no memory.
    pub fn new(alloc: A) -> Ladders<A>
        ensures { (side : Side) (r : Restriction) (k : OrderKind) → IsCleared (level_on (side_of side result) r k) }
    {
        Ladders {
            buys: SideLadders::new(alloc),
            sells: SideLadders::new(alloc),
        }
    }

    /// The ladders of a side.
    #[inline(always)]
    pub fn of(&self, side: Side) -> &SideLadders<A>
        ensures { result.now ≡ side_of side self.now }
    {
        match side {
            Side::Buy => &self.buys,
            Side::Sell => &self.sells,
        }
    }

    /// The ladders of a side, to change.
    pub fn of_mut(&mut self, side: Side) -> &mut SideLadders<A>
        ensures* writes_back { sem 𝓛 (lends_side A.row A.Allocator self.entry side result) }
        ensures value { result.now ≡ side_of side self.old }
    {
        match side {
            Side::Buy => &mut self.buys,
            Side::Sell => &mut self.sells,
        }
    }
}
