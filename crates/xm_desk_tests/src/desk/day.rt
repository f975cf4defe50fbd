use super::settings;
use std::alloc::Allocator;
use std::marker::Model;
use std::process::Abort;
use xm_config::OpenFault;
use xm_desk::{Desk, KeptJournal};
use xm_memory::OutOfMemory;
use xm_name_index::Storage;
use xm_rules::{
    Command, DeskSettings, Order, OrderKind, Phase, Quote, Refusal, Reply, Side, Stop, Totals,
    Trade,
};
use xm_ticks::Price;

/// A command with the version or the refusal that it is answered with.
pub type Step = (Command, Result<u64, Refusal>);

/// A trade: the number of its sweep, its price in ticks, its units, and the member and reference that bought and sold.
pub type Made = (u64, u32, u32, (u32, u32), (u32, u32));

/// A live order: its side, member and reference, its limit in ticks, or 0 for a market order, and its rest.
pub type Live = (Side, u32, u32, u32, u32);

/// A held stop: member, reference, trigger in ticks and quantity.
pub type Held = (u32, u32, u32, u32);

/// The net position and the cash of a member, where the desk knows it, and whether it has traded.
pub type Position = (Option<i64>, Option<i64>, bool);

/// A quote: version, phase, best limits and references in ticks, and traded units.
pub type Quoted = (u64, Phase, Option<u32>, Option<u32>, u32, u32, u64);

/// Whether an answer is for want of memory.
pub fn lacks_memory(answer: &Result<Reply, Refusal>) -> bool {
    matches!(answer, Err(Refusal::OutOfMemory(_)))
}

/// A desk under test. A clause sees nothing of it: the proof of a test is long where it follows what
/// each call promises.
pub struct Day<A: Allocator + Copy> {
    desk: Desk<A, KeptJournal<A>>,
}

// In a function of its own, so that whoever drops one proves one call.
impl<A: Allocator + Copy> Drop for Day<A> {
    fn drop(self) {
        let Day { desk: _desk } = self;
    }
}

impl<A: Allocator + Copy> Model for Day<A> {
    ghost Value = { Unit };

    ghost view = { λ _. tt };
}

impl<A: Allocator + Copy> Day<A> {
    /// A day before the opening, whose journal takes this many commands of a member.
    pub fn open(rt: &impl Abort, alloc: A, limit: u32) -> Day<A> {
        Day::opened(alloc, settings(rt, limit)).expect(rt, "a desk")
    }

    /// A day with these settings before the opening.
    pub fn opened(alloc: A, settings: DeskSettings) -> Result<Day<A>, OpenFault> {
        match Desk::open_kept(Storage::with_fixed_seed(alloc), settings) {
            Ok(desk) => Ok(Day { desk }),
            Err(fault) => Err(fault),
        }
    }

    /// Makes room for so many commands ahead.
    pub fn reserve(&mut self, commands: usize) -> Result<(), OutOfMemory> {
        self.desk.reserve(commands)
    }

    /// Gives a command. The desk knows its refusal beforehand, and takes into the journal what it
    /// accepts and nothing else.
    pub fn apply(&mut self, rt: &impl Abort, command: Command) -> Result<Reply, Refusal> {
        let expected = self.desk.refusal_of(&command);
        let accepted = self.desk.journal().len();
        let answer = self.desk.apply(&command);
        match expected {
            Some(refusal) => assert!(rt; answer == Err(refusal)),
            None => assert!(rt; answer.is_ok() || lacks_memory(&answer)),
        }
        let added = if answer.is_ok() { 1 } else { 0 };
        assert!(rt; self.desk.journal().len() - accepted == added);
        answer
    }

    /// Gives each command, which has to answer the version or the refusal beside it.
    pub fn give_all(&mut self, rt: &impl Abort, steps: &[Step]) {
        for (command, expected) in steps {
            let answer = version(self.apply(rt, *command));
            assert!(rt; answer == *expected, "at {command:?}");
        }
    }

    /// Gives commands, each of which is accepted.
    pub fn accept(&mut self, rt: &impl Abort, commands: &[Command]) {
        for command in commands {
            assert!(rt; self.apply(rt, *command).is_ok(), "at {command:?}");
        }
    }

    /// The live orders in time order.
    pub fn orders(&self) -> Result<Vec<Order, A>, OutOfMemory> {
        self.desk.orders()
    }

    /// The held stops in order of entry.
    pub fn stops(&self) -> Result<Vec<Stop, A>, OutOfMemory> {
        self.desk.stops()
    }

    /// The live orders of a member in time order.
    pub fn orders_of(&self, member: u32) -> Result<Vec<Order, A>, OutOfMemory> {
        self.desk.orders_of(member)
    }

    /// The held stops of a member in order of entry.
    pub fn stops_of(&self, member: u32) -> Result<Vec<Stop, A>, OutOfMemory> {
        self.desk.stops_of(member)
    }

    /// The stops that the last command led to orders of, in the order in which these came in.
    pub fn triggered(&self) -> Result<Vec<Stop, A>, OutOfMemory> {
        self.desk.triggered()
    }

    /// Compares the live orders and the held stops with what the tables have of them.
    pub fn has_left(&self, rt: &impl Abort, live: &[Live], held: &[Held]) {
        are_live(rt, &self.orders().expect(rt, "memory"), live);
        are_held(rt, &self.stops().expect(rt, "memory"), held);
    }

    /// Compares the trades.
    pub fn has_made(&self, rt: &impl Abort, made: &[Made]) {
        let trades = self.trades();
        assert!(rt; trades.len() == made.len());
        for (trade, made) in trades.iter().zip(made) {
            assert!(rt; is_made(trade, *made), "in place of {made:?}");
        }
    }

    /// Compares the quote.
    pub fn has_quoted(&self, rt: &impl Abort, expected: Quoted) {
        let quote = self.desk.quote();
        assert!(rt; quoted(&quote) == expected);
    }

    /// Whether two days show the same to each reader.
    pub fn shows_as(&self, rt: &impl Abort, like: &Day<A>) -> bool {
        let (orders, others) = (self.orders(), like.orders());
        let (stops, held) = (self.stops(), like.stops());
        are_alike(self.settings(), like.settings())
            && self.desk.quote() == like.desk.quote()
            && self.indicative() == like.indicative()
            && self.journal() == like.journal()
            && self.trades() == like.trades()
            && self.totals() == like.totals()
            && self.position(0) == like.position(0)
            && self.position(1) == like.position(1)
            && orders.expect(rt, "memory").as_slice() == others.expect(rt, "memory").as_slice()
            && stops.expect(rt, "memory").as_slice() == held.expect(rt, "memory").as_slice()
    }

    pub fn settings(&self) -> &DeskSettings {
        self.desk.settings()
    }

    pub fn phase(&self) -> Phase {
        self.desk.phase()
    }

    /// The prices in ticks of the last trade and of the last trade of an auction.
    pub fn reference_prices(&self) -> (u32, u32) {
        (self.desk.ref1().get(), self.desk.ref2().get())
    }

    pub fn trades(&self) -> &[Trade] {
        self.desk.trades()
    }

    /// The price of a call in ticks, with its volume.
    pub fn indicative(&self) -> Option<(u32, u64)> {
        in_ticks(self.desk.indicative())
    }

    /// The best limits in ticks of the active buys and sells.
    pub fn best_limits(&self) -> (Option<u32>, Option<u32>) {
        let (buy, sell) = (self.desk.best(Side::Buy), self.desk.best(Side::Sell));
        (ticks(buy), ticks(sell))
    }

    /// The best limit in ticks that is worse than this one, or the best of all, with its units.
    pub fn level_after(&self, side: Side, after: Option<u32>) -> Option<(u32, u64)> {
        let after = match after {
            None => None,
            Some(limit) => Price::new(limit),
        };
        in_ticks(self.desk.level_after(side, after))
    }

    pub fn market_sum(&self, side: Side) -> u64 {
        self.desk.market_sum(side)
    }

    pub fn units_left(&self, member: u32, reference: u32) -> u32 {
        self.desk.units_left(member, reference)
    }

    /// The net position and the cash of a member, and whether it has traded.
    pub fn position(&self, member: u32) -> Position {
        (
            self.desk.net(member),
            self.desk.cash(member),
            self.desk.has_traded(member),
        )
    }

    pub fn totals(&self) -> Totals {
        self.desk.totals()
    }

    pub fn journal(&self) -> &[Command] {
        self.desk.journal()
    }
}

/// What the tables have of an answer.
fn version(answer: Result<Reply, Refusal>) -> Result<u64, Refusal> {
    match answer {
        Ok(reply) => Ok(reply.version),
        Err(refusal) => Err(refusal),
    }
}

/// What the tables have of a quote.
fn quoted(quote: &Quote) -> Quoted {
    (
        quote.version,
        quote.phase,
        ticks(quote.best_buy),
        ticks(quote.best_sell),
        quote.ref1.get(),
        quote.ref2.get(),
        quote.quantity,
    )
}

/// A limit in ticks.
fn ticks(limit: Option<Price>) -> Option<u32> {
    match limit {
        Some(limit) => Some(limit.get()),
        None => None,
    }
}

/// A limit in ticks, with units.
fn in_ticks(level: Option<(Price, u64)>) -> Option<(u32, u64)> {
    match level {
        Some((limit, units)) => Some((limit.get(), units)),
        None => None,
    }
}

pub fn is_made(trade: &Trade, made: Made) -> bool {
    let bought = (trade.buyer, trade.buy_ref);
    let sold = (trade.seller, trade.sell_ref);
    (trade.sweep, trade.price.get(), trade.quantity, bought, sold) == made
}

fn limit_of(order: &Order) -> u32 {
    match order.kind {
        OrderKind::Market => 0,
        OrderKind::Limit(limit) => limit.get(),
    }
}

fn is_live(order: &Order, live: Live) -> bool {
    let (side, member, reference, limit, rest) = live;
    order.side == side
        && order.member == member
        && order.reference == reference
        && limit_of(order) == limit
        && order.rest == rest
}

fn are_live(rt: &impl Abort, orders: &[Order], live: &[Live]) {
    assert!(rt; orders.len() == live.len());
    for (order, live) in orders.iter().zip(live) {
        assert!(rt; is_live(order, *live));
    }
}

fn is_held(stop: &Stop, held: Held) -> bool {
    (stop.member, stop.reference, stop.trigger, stop.quantity) == held
}

fn are_held(rt: &impl Abort, stops: &[Stop], held: &[Held]) {
    assert!(rt; stops.len() == held.len());
    for (stop, held) in stops.iter().zip(held) {
        assert!(rt; is_held(stop, *held), "in place of {held:?}");
    }
}

/// Whether two settings open the same desk.
pub(crate) fn are_alike(settings: &DeskSettings, other: &DeskSettings) -> bool {
    settings.today == other.today
        && settings.members == other.members
        && settings.tick == other.tick
        && settings.reference == other.reference
        && settings.widths == other.widths
        && settings.limit == other.limit
        && settings.carried.orders() == other.carried.orders()
        && settings.carried.stops() == other.carried.stops()
}
