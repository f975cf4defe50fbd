//! Whether an incoming order can be executed whole.
ghost use Rattle.std.specs.Prelude.{◌≡◌, ◌≤◌};
ghost use Rattle.xm_match.specs.Meeting.{sweep_over};
ghost use Rattle.xm_rules.specs.Sweep.{is_fillable};
ghost use Rattle.xm_ticks.specs.declared.ranges.TheConstants.{MAX_WIDTH};

use crate::terms::Terms;
use std::alloc::Allocator;
use xm_book::Book;
use xm_rules::{Order, OrderKind, Phase, Widths};
use xm_ticks::Price;

/// Whether the orders that a sweep may execute have at least the quantity of the incoming order. The ranges are those of the
/// sweep. It looks at the levels in priority, the market orders first, until their sum suffices or one may not be executed.
pub fn fillable<A: Allocator + Copy>(
    book: &Book<A>,
    incoming: &Order,
    ref1: Price,
    ref2: Price,
    widths: &Widths,
) -> bool
    requires dynamic { widths.now.dynamic ≤ MAX_WIDTH }
    requires statics { widths.now.statics ≤ MAX_WIDTH }
    ensures { result ≡ is_fillable (sweep_over book.now.orders incoming.now ref1 ref2 widths.now) }
{
    let _ = book.len(); // What every book keeps is known of one whose length is asked.
    let terms = Terms::new(book, incoming, ref1, ref2, widths);
    let side = terms.other_side();
    let market = book.market_sum(side, Phase::Continuous);
    if 0 < market && !terms.meets_inside(&OrderKind::Market) {
        return incoming.rest == 0; // None behind the market orders may be executed either.
    }
    let mut missing = u64::from(incoming.rest).saturating_sub(market);
    let mut after = None;
    while 0 < missing {
        match book.level_after(side, Phase::Continuous, after) {
            None => return false,
            Some(level) => {
                let (limit, units) = level;
                if !terms.meets_inside(&OrderKind::Limit(limit)) {
                    return false;
                }
                missing = missing.saturating_sub(units);
                after = Some(limit);
            }
        }
    }
    true
}
