//! Where the walk along the curves of a side and of the other begins.
ghost use Rattle.std.specs.Prelude.{◌≡◌, ◌<◌, None, IsTrue};
ghost use Rattle.xm_auction.specs.Crossings.{IsStart};
ghost use Rattle.xm_auction.specs.Depths.{depth_at};
ghost use Rattle.xm_auction.specs.Narrowing.{IsGap, IsNextWider, IsShort, groups_left_of};
ghost use Rattle.xm_price_maps.specs.declared.sums.GroupWidth.TheVariants.{Narrow, Middle, Wide};
ghost use Rattle.xm_rules.specs.Sides.{opposite};

use crate::bound::Bound;
use crate::depth::Depth;
use std::alloc::Allocator;
use xm_book::Book;
use xm_price_maps::GroupWidth;
use xm_rules::Phase;

/// A bound of a side and the one before it, a bound of the other side and the one after it, where there is one, and the
/// market orders of both sides. The bounds lie between groups of one width, and approach each other.
#[derive(Clone, Copy)]
pub struct Gap {
    pub width: GroupWidth,
    pub market: Depth,
    pub other_market: Depth,
    pub own: Bound,
    pub before: Bound,
    pub other: Bound,
    pub next: Option<Bound>,
}

impl Gap {
    /// Before the best limits of both sides, whose market orders are given, between wide groups.
    fn before_best<A: Allocator + Copy>(
        book: &Book<A>,
        phase: Phase,
        own: &Depth,
        other: &Depth,
    ) -> Gap
        requires own { own.now ≡ depth_at phase own.now.side None book.now.orders }
        requires other { other.now ≡ depth_at phase (opposite own.now.side) None book.now.orders }
        ensures market { result.market ≡ own.now }
        ensures width { result.width ≡ Wide }
        ensures gap { IsGap phase book.now.orders result }
    {
        let width = GroupWidth::Wide;
        let own_bound = Bound::before_best(own, width);
        let bound = Bound::before_best(other, width);
        Gap {
            width,
            market: *own,
            other_market: *other,
            own: own_bound,
            before: own_bound,
            other: bound,
            next: bound.with_group(book, phase, other.side, width),
        }
    }

    /// The same between groups of the next narrower width, from the own bound before.
    fn narrow<A: Allocator + Copy>(&self, book: &Book<A>, phase: Phase, width: GroupWidth) -> Gap
        requires gap { IsGap phase book.now.orders self.now }
        requires width { IsNextWider self.now.width width }
        ensures market { result.market ≡ self.now.market }
        ensures width { result.width ≡ width }
        ensures gap { IsGap phase book.now.orders result }
    {
        let before = self.before.narrow(&self.market, width);
        let other = self.other.narrow(&self.other_market, width);
        Gap {
            width,
            market: self.market,
            other_market: self.other_market,
            own: before,
            before,
            other,
            next: other.with_group(book, phase, self.other_market.side, width),
        }
    }

    /// Takes the next group of the other side, where the side has the units within the bound after it; else the own next
    /// group, where the side has too few units for what the other one has; or answers `false`.
    fn advance<A: Allocator + Copy>(&mut self, book: &Book<A>, phase: Phase) -> bool
        requires { IsGap phase book.now.orders self.old }
        ensures market { self.new.market ≡ self.old.market }
        ensures width { self.new.width ≡ self.old.width }
        ensures kept { IsGap phase book.now.orders self.new }
        ensures fewer { IsTrue result → groups_left_of self.new < groups_left_of self.old }
    {
        let side = self.market.side;
        if let Some(next) = self.next {
            let reached = side.reaches(self.own.group, next.group);
            let units = if reached {
                self.own.units
            } else {
                self.market.units
            };
            if next.units <= units {
                self.other = next;
                self.next = next.with_group(book, phase, side.opposite(), self.width);
                return true;
            }
            if reached {
                return self.advance_own(book, phase);
            }
        }
        self.own.units < self.other_market.units && self.advance_own(book, phase)
    }

    /// Takes the own next group, where there is one.
    fn advance_own<A: Allocator + Copy>(&mut self, book: &Book<A>, phase: Phase) -> bool
        requires gap { IsGap phase book.now.orders self.old }
        requires short { IsShort phase book.now.orders self.old }
        ensures market { self.new.market ≡ self.old.market }
        ensures width { self.new.width ≡ self.old.width }
        ensures kept { IsGap phase book.now.orders self.new }
        ensures fewer { IsTrue result → groups_left_of self.new < groups_left_of self.old }
    {
        match self
            .own
            .with_group(book, phase, self.market.side, self.width)
        {
            None => false,
            Some(next) => {
                self.before = self.own;
                self.own = next;
                true
            }
        }
    }

    /// Once the bounds have come as near to each other as they can.
    fn closed<A: Allocator + Copy>(&self, book: &Book<A>, phase: Phase) -> Gap
        requires { IsGap phase book.now.orders self.now }
        ensures market { result.market ≡ self.now.market }
        ensures width { result.width ≡ self.now.width }
        ensures gap { IsGap phase book.now.orders result }
    {
        let mut gap = *self;
        while gap.advance(book, phase) {}
        gap
    }

    /// What the side has within the bound before the own one, and the other side within its own bound. There the walk
    /// begins, whichever of both is to cover the other.
    fn depths<A: Allocator + Copy>(&self, book: &Book<A>, phase: Phase) -> (Depth, Depth)
        requires { IsGap phase book.now.orders self.now }
        ensures side { result.0.side ≡ self.now.market.side }
        ensures start { IsStart phase book.now.orders result.0 result.1 }
        ensures turned { IsStart phase book.now.orders result.1 result.0 }
    {
        // The rests of a book are in range, and so each limit within a bound has units.
        let _ = book.len();
        let own = self.before.depth(book, phase, self.width, &self.market);
        let other = self
            .other
            .depth(book, phase, self.width, &self.other_market);
        (own, other)
    }
}

/// Whether the best limits of a side and of the other cross, where the market orders of both are given.
fn is_crossed(own: &Depth, other: &Depth) -> bool {
    match own.next {
        None => false,
        Some(level) => match other.next {
            None => false,
            Some(against) => own.side.reaches(level.0.get(), against.0.get()),
        },
    }
}

/// Where the walk along the curves of a side and of the other begins, whichever of both is to cover the other: near the
/// crossing; or with the market orders of both, which are given, where these are as many and no limits cross, so that there
/// is nothing to walk.
pub fn near_crossing<A: Allocator + Copy>(
    book: &Book<A>,
    phase: Phase,
    own: &Depth,
    other: &Depth,
) -> (Depth, Depth)
    requires own { own.now ≡ depth_at phase own.now.side None book.now.orders }
    requires other { other.now ≡ depth_at phase (opposite own.now.side) None book.now.orders }
    ensures side { result.0.side ≡ own.now.side }
    ensures start { IsStart phase book.now.orders result.0 result.1 }
    ensures turned { IsStart phase book.now.orders result.1 result.0 }
{
    if own.units == other.units && !is_crossed(own, other) {
        return (*own, *other);
    }
    let wide = Gap::before_best(book, phase, own, other).closed(book, phase);
    let middle = wide
        .narrow(book, phase, GroupWidth::Middle)
        .closed(book, phase);
    let narrow = middle
        .narrow(book, phase, GroupWidth::Narrow)
        .closed(book, phase);
    narrow.depths(book, phase)
}
