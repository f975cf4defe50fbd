//! The trades of a security, in the order in which they were made.
ghost use Rattle.std.specs.Prelude.{◌≡◌, ◌-◌, ◌<◌, ◌≤◌, ◌++◌, ◌∷◌, [], All, OnErr, OnOk};
ghost use Rattle.xm_ticks.specs.declared.numbers.TheConstants.{MAX_PRICE};

use std::alloc::Allocator;
use std::marker::Model;
use xm_memory::OutOfMemory;
use xm_rules::Trade;

/// A list of trades. A clause sees the trades in their order, and for how many more there is room.
#[derive(Drop)]
pub struct Trades<A: Allocator> {
    items: Vec<Trade, A>,
    room: usize,
}

impl<A: Allocator> Model for Trades<A> {
    ghost use Rattle.std.specs.Prelude.{◌+◌, ◌≤◌, All, vec_len};
    ghost use Rattle.std.specs.Vec.{vec_capacity};
    ghost use Rattle.xm_book.specs.Trades.{TradeList};
    ghost use Rattle.xm_ticks.specs.declared.numbers.TheConstants.{MAX_PRICE};

    ghost Value = { TradeList };

    ghost view = { λ t. record { trades = t.items.items; room = t.room } };

    ghost invariant = { λ t. record {
      fits : vec_len t.items + t.room ≤ vec_capacity t.items;
      priced : All (λ trade. trade.price ≤ MAX_PRICE) t.items.items;
    } };
}

impl<A: Allocator> Trades<A> {
    /// No trade, which takes no memory.
    pub fn new(alloc: A) -> Trades<A>
        ensures { result ≡ record { trades = []; room = 0 } }
    {
        Trades {
            items: Vec::new(alloc),
            room: 0,
        }
    }

    /// The trades, the first one first. Their prices are in range.
    pub fn as_slice(&self) -> &[Trade]
        ensures trades { result.now ≡ self.now.trades }
        ensures priced { All (λ trade. trade.price ≤ MAX_PRICE) result.now }
    {
        self.items.as_slice()
    }

    /// Reserves room for so many trades, in place of what was reserved before.
    pub fn reserve(&mut self, trades: usize) -> Result<(), OutOfMemory>
        ensures ok { OnOk result (self.new ≡ record self.old { room = trades }) }
        ensures err { OnErr result (self.new ≡ self.old) }
    {
        self.items.reserve(trades)?;
        self.room = trades;
        Ok(())
    }

    /// Makes room for so many more trades ahead, so that they needn't be copied as the list grows. What is reserved stays as
    /// it is.
    pub fn make_room(&mut self, trades: usize) -> Result<(), OutOfMemory>
        ensures { self.new ≡ self.old }
    {
        self.items.reserve(trades)?;
        Ok(())
    }

    /// Adds a trade as the last one, in reserved room.
    pub fn push(&mut self, trade: Trade)
        requires { 0 < self.old.room }
        ensures { self.new ≡ record { trades = self.old.trades ++ trade ∷ []; room = self.old.room - 1 } }
    {
        let _ = trade.price.get(); // The range of a price is known where it is asked for.
        self.items.push_reserved(trade);
        self.room -= 1;
    }
}
