//! One level.
ghost use Rattle.std.specs.Prelude.{◌≡◌, List, []};
ghost use Rattle.xm_queues.specs.Queue.{IsQueue};
ghost use Rattle.xm_queues.specs.declared.links.Link.{Link};

use xm_queues::Ends;

/// The most units of a level: more than those of all orders that a book can have.
pub const MAX_LEVEL_UNITS: u64 = 1 << 41;

/// The orders of one limit, or market orders.
#[derive(Clone, Copy)]
pub struct Level {
    /// The queue of their keys, in time order.
    pub ends: Ends,
    /// How many there are.
    pub orders: u32,
    /// The sum of their rests.
    pub units: u64,
}

impl Level {
    /// A level without an order.
    pub fn empty() -> Level
        ensures queue { (links : List Link) → IsQueue links result.ends [] }
        ensures orders { result.orders ≡ 0 }
        ensures units { result.units ≡ 0 }
    {
        Level {
            ends: Ends::new(),
            orders: 0,
            units: 0,
        }
    }
}
