//! Orders, as what lies under keys.
ghost use Rattle.xm_book.specs.Listing.{reduced_to};

use xm_rules::Order;
use xm_slots::Rests;

/// How orders become less.
pub struct OrderItems;

impl Rests<Order> for OrderItems {
    ghost reduced_to = { reduced_to };

    fn reduce_to(item: &mut Order, rest: u32) {
        item.rest = rest;
    }
}
