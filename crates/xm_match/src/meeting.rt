//! What an incoming order meets next.
ghost use Rattle.std.specs.Prelude.{◌≡◌, ◌≤◌};
ghost use Rattle.xm_match.specs.Meeting.{meets_any, next_met, price_outside};
ghost use Rattle.xm_rules.specs.Crossing.{would_execute};
ghost use Rattle.xm_ticks.specs.declared.ranges.TheConstants.{MAX_WIDTH};

use crate::terms::Terms;
use std::alloc::Allocator;
use xm_book::Book;
use xm_rules::{Order, Phase};
use xm_ticks::Price;

/// What an incoming order meets next.
#[derive(Clone, Copy)]
pub enum Next {
    /// Nothing: no units are left, or no order is met.
    Nothing,
    /// This order, at a price inside both ranges.
    Inside(Order),
    /// An order at this price, which is outside a range.
    Outside(Price),
}

impl Next {
    /// The price outside a range at which an order is met, where it is met so.
    pub fn price_outside(&self) -> Option<Price>
        ensures { result ≡ price_outside self.now }
    {
        match self {
            Next::Outside(price) => Some(*price),
            _ => None,
        }
    }
}

/// Whether an order that comes in in continuous trading would be executed: an active order of the other side meets it, inside
/// the ranges or not. It takes no memory.
pub fn would_execute<A: Allocator + Copy>(book: &Book<A>, order: &Order) -> bool
    ensures { result ≡ would_execute book.now.orders order.now.side order.now.kind }
{
    meets_any(book, order)
}

/// Whether an incoming order meets the best order of the other side, inside the ranges or not.
#[inline(always)]
pub fn meets_any<A: Allocator + Copy>(book: &Book<A>, incoming: &Order) -> bool
    ensures { result ≡ meets_any book.now.orders incoming.now }
{
    match book.best_kind(incoming.side.opposite(), Phase::Continuous) {
        None => false,
        Some(kind) => incoming.kind.meets(incoming.side, kind),
    }
}

/// What an incoming order meets next of which so many units are left: the best order of the other side, inside the ranges
/// or not.
#[inline(always)]
pub fn next_met<A: Allocator + Copy>(book: &Book<A>, terms: &Terms, units: u32) -> Next
    requires dynamic { terms.now.widths.dynamic ≤ MAX_WIDTH }
    requires statics { terms.now.widths.statics ≤ MAX_WIDTH }
    ensures { result ≡ next_met terms.now units book.now.orders }
{
    if units == 0 {
        return Next::Nothing;
    }
    let Some(best) = book.best(terms.other_side(), Phase::Continuous) else {
        return Next::Nothing;
    };
    if !terms.is_kind_met(&best.kind) {
        return Next::Nothing;
    }
    if !terms.is_inside(&best.kind) {
        return Next::Outside(terms.price_of_kind(best.kind));
    }
    Next::Inside(*best)
}
