//! What is fixed before the first fill of a sweep.
ghost use Rattle.std.specs.Prelude.{◌≡◌, ◌≤◌};
ghost use Rattle.std.specs.Option.{option_to_list};
ghost use Rattle.xm_match.specs.Meeting.{is_inside, is_kind_met, meets_inside, price_of_kind, sweep_over, terms_of};
ghost use Rattle.xm_rules.specs.Sides.{best_from, opposite};
ghost use Rattle.xm_ticks.specs.declared.ranges.TheConstants.{MAX_WIDTH};

use std::alloc::Allocator;
use xm_book::Book;
use xm_rules::{Order, OrderKind, Phase, Side, Trade, TradeKind, Widths};
use xm_ticks::Price;

/// The incoming order, the references and widths of the price ranges, and the price at which a market order of the other
/// side is met. They hold for the whole sweep.
#[derive(Clone, Copy)]
pub struct Terms {
    pub incoming: Order,
    pub ref1: Price,
    pub ref2: Price,
    pub widths: Widths,
    pub market: Price,
}

/// The better of a price and another for a side, where there is another.
fn better(side: Side, price: Price, other: Option<Price>) -> Price
    ensures { result ≡ best_from side price (option_to_list other) }
{
    match other {
        None => price,
        Some(limit) => side.better(price, limit),
    }
}

impl Terms {
    /// The terms on which an incoming order finds a book.
    pub fn new<A: Allocator + Copy>(
        book: &Book<A>,
        incoming: &Order,
        ref1: Price,
        ref2: Price,
        widths: &Widths,
    ) -> Terms
        ensures { result ≡ terms_of (sweep_over book.now.orders incoming.now ref1 ref2 widths.now) }
    {
        let side = incoming.side.opposite();
        let resting = better(side, ref1, book.best_limit(side, Phase::Continuous));
        let market = better(side, resting, incoming.kind.limit());
        Terms {
            incoming: *incoming,
            ref1,
            ref2,
            widths: *widths,
            market,
        }
    }

    /// The side that the incoming order is executed against.
    pub fn other_side(&self) -> Side
        ensures { result ≡ opposite self.now.incoming.side }
    {
        self.incoming.side.opposite()
    }

    /// Whether the incoming order meets one of this kind.
    pub fn is_kind_met(&self, kind: &OrderKind) -> bool
        ensures { result ≡ is_kind_met self.now kind.now }
    {
        self.incoming.kind.meets(self.incoming.side, *kind)
    }

    /// The price at which an order of this kind is met.
    pub fn price_of_kind(&self, kind: OrderKind) -> Price
        ensures { result ≡ price_of_kind self.now kind }
    {
        match kind {
            OrderKind::Market => self.market,
            OrderKind::Limit(limit) => limit,
        }
    }

    /// Whether the price at which an order of this kind is met is inside both ranges.
    pub fn is_inside(&self, kind: &OrderKind) -> bool
        requires dynamic { self.now.widths.dynamic ≤ MAX_WIDTH }
        requires statics { self.now.widths.statics ≤ MAX_WIDTH }
        ensures { result ≡ is_inside self.now kind.now }
    {
        self.widths
            .is_inside_both(self.ref1, self.ref2, self.price_of_kind(*kind))
    }

    /// Whether an order of this kind is met at a price inside both ranges.
    pub fn meets_inside(&self, kind: &OrderKind) -> bool
        requires dynamic { self.now.widths.dynamic ≤ MAX_WIDTH }
        requires statics { self.now.widths.statics ≤ MAX_WIDTH }
        ensures { result ≡ meets_inside self.now kind.now }
    {
        self.is_kind_met(kind) && self.is_inside(kind)
    }
}
