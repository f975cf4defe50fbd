//! The trades of a security, with the reference prices that they make.
ghost use Rattle.std.specs.Prelude.{◌≡◌, ◌+◌, ◌<◌, ◌≤◌, ◌++◌, [], All, drop, length, OnErr, OnOk};
ghost use Rattle.xm_auction.specs.Allotment.{UsesUpOrders, uncrossing_of};
ghost use Rattle.xm_match.specs.Meeting.{EachUsesUp};
ghost use Rattle.xm_rules.specs.Allotment.{auction_trades, orders_after_call};
ghost use Rattle.xm_rules.specs.Auction.{volume as executable};
ghost use Rattle.xm_desk.specs.Tape.{swept_by};
ghost use Rattle.xm_rules.specs.declared.phases.Phase.TheVariants.{Call};
ghost use Rattle.xm_rules.specs.State.{last_auction_price, last_price};
ghost use Rattle.xm_events.specs.Story.{interruption};
ghost use Rattle.xm_rules.specs.Sweep.{filled, orders_after_sweep, rest_after, sweep_trades};
ghost use Rattle.xm_ticks.specs.declared.numbers.TheConstants.{MAX_PRICE};
ghost use Rattle.xm_ticks.specs.declared.ranges.TheConstants.{MAX_WIDTH};

use std::alloc::Allocator;
use std::marker::Model;
use xm_auction::allocate;
use xm_book::{Book, Trades};
use xm_match::{Swept, sweep};
use xm_memory::OutOfMemory;
use xm_rules::{Auction, CallStage, Order, Trade, Widths, last_price};
use xm_ticks::Price;

/// The most trades of a desk: 2,000,000 for each command that its journal takes, of members and of
/// the phases.
pub const MAX_TRADES: u64 = 2_000_128_000_000;

/// The trades so far. The last price and the last auction price are kept with them.
#[derive(Drop)]
pub struct Tape<A: Allocator> {
    opening: Price,
    trades: Trades<A>,
    last: Price,
    last_auction: Price,
}

impl<A: Allocator> Model for Tape<A> {
    ghost use Rattle.std.specs.Prelude.{◌≡◌};
    ghost use Rattle.xm_desk.specs.Tape.{TapeView};
    ghost use Rattle.xm_rules.specs.State.{last_auction_price, last_price};

    ghost Value = { TapeView };

    ghost view = { λ t. record { opening = t.opening; trades = t.trades.trades; room = t.trades.room } };

    ghost invariant = { λ t. record {
      last : t.last ≡ last_price t.opening t.trades.trades;
      last_auction : t.last_auction ≡ last_auction_price t.opening t.trades.trades;
    } };
}

impl<A: Allocator> Tape<A> {
    /// A tape without a trade, which takes no memory. The opening reference is the price before the first one.
    pub fn new(alloc: A, opening: Price) -> Tape<A>
        ensures { result ≡ record { opening = opening; trades = []; room = 0 } }
    {
        Tape {
            opening,
            trades: Trades::new(alloc),
            last: opening,
            last_auction: opening,
        }
    }

    /// The trades, the first one first. Their prices are in range.
    pub fn as_slice(&self) -> &[Trade]
        ensures trades { result.now ≡ self.now.trades }
        ensures priced { All (λ trade. trade.price ≤ MAX_PRICE) result.now }
    {
        self.trades.as_slice()
    }

    /// How many trades there are.
    pub fn len(&self) -> usize
        ensures { result ≡ length self.now.trades }
    {
        self.trades.as_slice().len()
    }

    /// The price of the last trade; before the first one, the opening reference.
    pub fn last_price(&self) -> Price
        ensures { result ≡ last_price self.now.opening self.now.trades }
    {
        self.last
    }

    /// The price of the last auction trade; before the first one, the opening reference.
    pub fn last_auction_price(&self) -> Price
        ensures { result ≡ last_auction_price self.now.opening self.now.trades }
    {
        self.last_auction
    }

    /// Reserves room for so many trades, in place of what was reserved before.
    pub fn reserve(&mut self, trades: usize) -> Result<(), OutOfMemory>
        ensures ok { OnOk result (self.new ≡ record self.old { room = trades }) }
        ensures err { OnErr result (self.new ≡ self.old) }
    {
        self.trades.reserve(trades)
    }

    /// Makes room for so many more trades ahead. What is reserved stays as it is.
    pub fn make_room(&mut self, trades: usize) -> Result<(), OutOfMemory>
        ensures { self.new ≡ self.old }
    {
        self.trades.make_room(trades)
    }

    /// The trades from this one on.
    pub fn after(&self, first: usize) -> &[Trade]
        requires { first ≤ length self.now.trades }
        ensures trades { result.now ≡ drop first self.now.trades }
        ensures priced { All (λ trade. trade.price ≤ MAX_PRICE) result.now }
    {
        &self.trades.as_slice()[first..]
    }

    /// Takes the trades by which a call's volume, of at least a unit, is allotted to the orders of a book.
    pub fn allot<B: Allocator + Copy>(
        &mut self,
        book: &mut Book<B>,
        auction: Auction,
        stage: CallStage,
        sweep: u64,
        price: Price,
        volume: u64,
    )
        requires some { 0 < volume }
        requires volume { volume ≤ executable (Call auction stage) book.old.orders price }
        requires room { length book.old.orders ≤ self.old.room }
        ensures orders { book.new ≡ record book.old { orders = orders_after_call (uncrossing_of auction stage book.old.orders price volume) } }
        ensures trades { self.new ≡ record self.old { trades = self.old.trades ++ auction_trades sweep (uncrossing_of auction stage book.old.orders price volume); room = self.new.room } }
        ensures room { self.new.room + length (auction_trades sweep (uncrossing_of auction stage book.old.orders price volume)) ≡ self.old.room }
        ensures used { UsesUpOrders sweep (uncrossing_of auction stage book.old.orders price volume) }
    {
        allocate(book, auction, stage, sweep, price, volume, &mut self.trades);
        self.last = price;
        self.last_auction = price;
    }

    /// Takes the trades by which an incoming order is executed against a book. The ranges are those around the last price and
    /// the last auction price; their widths are in thousandths, at most `MAX_WIDTH`.
    pub fn sweep<B: Allocator + Copy>(
        &mut self,
        book: &mut Book<B>,
        incoming: &Order,
        number: u64,
        widths: &Widths,
    ) -> Swept
        requires dynamic { widths.now.dynamic ≤ MAX_WIDTH }
        requires statics { widths.now.statics ≤ MAX_WIDTH }
        requires room { length book.old.orders ≤ self.old.room }
        ensures orders { book.new ≡ record book.old { orders = orders_after_sweep (swept_by self.old book.old.orders incoming.now widths.now) } }
        ensures trades { self.new ≡ record self.old { trades = self.old.trades ++ sweep_trades number (swept_by self.old book.old.orders incoming.now widths.now); room = self.new.room } }
        ensures room { self.new.room + length (sweep_trades number (swept_by self.old book.old.orders incoming.now widths.now)) ≡ self.old.room }
        ensures filled { result.filled ≡ filled (swept_by self.old book.old.orders incoming.now widths.now) }
        ensures rest { result.rest ≡ rest_after (swept_by self.old book.old.orders incoming.now widths.now) }
        ensures interruption { result.interruption ≡ interruption (swept_by self.old book.old.orders incoming.now widths.now) }
        ensures used_up { EachUsesUp number (swept_by self.old book.old.orders incoming.now widths.now) }
    {
        let swept = sweep(
            book,
            incoming,
            number,
            self.last,
            self.last_auction,
            widths,
            &mut self.trades,
        );
        self.last = last_price(self.trades.as_slice(), self.opening);
        swept
    }
}
