//! A security between commands.
ghost use Rattle.std.specs.Prelude.{◌≡◌, ◌==◌, ◌+◌, ◌++◌, ◌<◌, ◌≤◌, [], All, IsTrue, None, Some, OnErr, OnOk, IfErr, IfOk, drop, filter, find, length, option_copied};
ghost use Rattle.xm_desk.specs.Accepted.{IsAccepted};
ghost use Rattle.xm_desk.specs.Growth.{ready_for};
ghost use Rattle.xm_desk.specs.Made.{AreSized, IsCounted, Makes};
ghost use Rattle.xm_config.specs.Opening.{open_fault};
ghost use Rattle.xm_desk.specs.Settled.{places_in};
ghost use Rattle.xm_desk.specs.Shown.{level_in, market_units, units_left};
ghost use Rattle.xm_desk.specs.declared.tape.TheConstants.{MAX_TRADES};
ghost use Rattle.xm_desk.specs.declared.unsettled.Ready.TheVariants.{Nothing};
ghost use Rattle.xm_events.specs.Seen.{nothing_seen, seen_of};
ghost use Rattle.xm_rules.specs.Opening.{opening};
ghost use Rattle.xm_rules.specs.Orders.{is_named, is_stop_named};
ghost use Rattle.xm_rules.specs.Quote.{best_limit, indicative};
ghost use Rattle.xm_rules.specs.Refusals.{refusal_of};
ghost use Rattle.xm_rules.specs.Settings.{are_widths};
ghost use Rattle.xm_rules.specs.State.{ref1, ref2};
ghost use Rattle.xm_rules.specs.declared.orders.Order.{Order};
ghost use Rattle.xm_rules.specs.declared.orders.Stop.{Stop};
ghost use Rattle.xm_rules.specs.Step.{new_trades, step};
ghost use Rattle.xm_rules.specs.Sums.{AreWithinLimits, IsBetweenMembers, total_money, total_quantity};
ghost use Rattle.xm_rules.specs.declared.carried.TheConstants.{MAX_CARRIED};
ghost use Rattle.xm_rules.specs.declared.settings.TheConstants.{PHASE_COMMANDS_MORE};
ghost use Rattle.xm_ticks.specs.declared.numbers.TheConstants.{MAX_JOURNAL_LIMIT, MAX_PRICE};

use crate::accepted::Accepted;
use crate::open_entries::OpenEntries;
use crate::unsettled::{Ready, Unsettled};
use std::alloc::Allocator;
use std::marker::Model;
use std::snapshot::Snapshot;
use xm_auction::auction_price;
use xm_memory::OutOfMemory;
use xm_name_index::Storage;
use xm_positions::Positions;
use xm_rules::{Command, DeskSettings, Order, Phase, Refusal, Reply, Side, Stop, Trade, Widths};
use xm_ticks::Price;

/// A security after the commands that it accepted. No stop is pending.
#[derive(Drop)]
pub struct Market<A: Allocator + Copy> {
    inside: Unsettled<A>,
}

impl<A: Allocator + Copy> Model for Market<A> {
    ghost use Rattle.std.specs.Prelude.{◌≡◌, []};
    ghost use Rattle.xm_desk.specs.Made.{IsCounted};
    ghost use Rattle.xm_desk.specs.Settled.{Settled};

    ghost Value = { Settled };

    ghost view = { λ m. record { state = m.inside.state; ready = m.inside.ready; seen = m.inside.seen } };

    ghost invariant = { λ m. record {
      pending : m.inside.pending ≡ [];
      counted : IsCounted m.inside.state;
    } };
}

impl<A: Allocator + Copy> Market<A> {
    /// A security before the day, with what earlier days left. It fails where a growth is refused.
    pub fn open(storage: Storage<A>, settings: DeskSettings) -> Result<Market<A>, OutOfMemory>
        requires { open_fault settings ≡ None }
        ensures { IfOk result (λ market. market ≡ record { state = opening settings; ready = Nothing; seen = nothing_seen }) }
    {
        let entries = OpenEntries::of(storage, &settings)?;
        let inside = Unsettled::before_day(storage.alloc, settings, entries)?;
        Ok(Market { inside })
    }

    /// The live orders in time order, or `OutOfMemory` where the growth of their list was refused.
    pub fn orders(&self) -> Result<Vec<Order, A>, OutOfMemory>
        ensures { IfOk result (λ orders. orders.items ≡ self.now.state.orders) }
    {
        self.inside.book.orders()
    }

    /// The held stops in order of entry, or `OutOfMemory` where the growth of their list was refused.
    pub fn stops(&self) -> Result<Vec<Stop, A>, OutOfMemory>
        ensures { IfOk result (λ stops. stops.items ≡ self.now.state.stops) }
    {
        self.inside.stops.list()
    }

    /// A member's live orders in time order, or `OutOfMemory` where the growth of their list was refused.
    pub fn orders_of(&self, member: u32) -> Result<Vec<Order, A>, OutOfMemory>
        ensures { IfOk result (λ orders. orders.items ≡ filter (λ (o : Order). o.member == member) self.now.state.orders) }
    {
        self.inside.book.of_member(member)
    }

    /// A member's held stops in order of entry, or `OutOfMemory` where the growth of their list was refused.
    pub fn stops_of(&self, member: u32) -> Result<Vec<Stop, A>, OutOfMemory>
        ensures { IfOk result (λ stops. stops.items ≡ filter (λ (s : Stop). s.member == member) self.now.state.stops) }
    {
        self.inside.stops.of_member(member)
    }

    /// What a command will do, or why it is refused, memory aside.
    #[inline(always)]
    pub fn check(&self, command: &Command) -> Result<Accepted, Refusal>
        ensures accepted { IfOk result (λ accepted. IsAccepted self.now.state accepted) }
        ensures command { IfOk result (λ accepted. accepted.command.value ≡ command.now) }
        ensures refused { IfErr result (λ refusal. refusal_of self.now.state command.now ≡ Some refusal) }
    {
        self.inside.check(command)
    }

    /// Makes room for so many more trades ahead.
    pub fn make_room(&mut self, trades: usize) -> Result<(), OutOfMemory>
        ensures { self.new ≡ self.old }
    {
        self.inside.tape.make_room(trades)
    }

    /// Reserves all that an accepted command may need, so that its step can't fail. The state is
    /// unchanged.
    #[inline(always)]
    pub fn reserve(&mut self, accepted: &Accepted) -> Result<(), OutOfMemory>
        requires ready { self.old.ready ≡ Nothing }
        requires accepted { IsAccepted self.old.state accepted.now }
        ensures ok { OnOk result (self.new ≡ record self.old { ready = ready_for accepted.now.action }) }
        ensures err { OnErr result (self.new ≡ self.old) }
    {
        self.inside.reserve(accepted)
    }

    /// The step by an accepted command.
    #[inline(always)]
    pub fn step(&mut self, accepted: &Accepted)
        requires ready { self.old.ready ≡ ready_for accepted.now.action }
        requires accepted { IsAccepted self.old.state accepted.now }
        ensures state { self.new ≡ record {
          state = step self.old.state accepted.now.command.value;
          ready = Nothing;
          seen = seen_of self.old.state accepted.now.command.value;
        } }
        ensures appended { self.new.state.trades ≡ self.old.state.trades ++ new_trades self.old.state self.new.state }
    {
        self.inside.step(accepted);
    }

    /// Records the trades from this one on, and answers the reply to the command that made them: their sums are by how much
    /// the totals grew.
    #[inline(always)]
    pub fn record_from<B: Allocator>(
        &self,
        first_trade: usize,
        positions: &mut Positions<B>,
    ) -> Reply
        requires first { first_trade ≤ length self.now.state.trades }
        requires members { All (IsBetweenMembers positions.old.members) (drop first_trade self.now.state.trades) }
        requires limits { AreWithinLimits (positions.old.trades ++ drop first_trade self.now.state.trades) }
        ensures recorded { positions.new ≡ record positions.old { trades = positions.old.trades ++ drop first_trade self.now.state.trades } }
        ensures reply { result ≡ (let trades = drop first_trade self.now.state.trades in record {
          version = self.now.state.accepted;
          first_trade = first_trade;
          trades = length trades;
          quantity = total_quantity trades;
          money = total_money trades;
          phase = self.now.state.phase;
        }) }
    {
        let before = positions.totals();
        let made = self.inside.tape.after(first_trade);
        positions.record_all(made);
        let after = positions.totals();
        Reply {
            version: self.inside.accepted,
            first_trade: first_trade as u64,
            trades: made.len() as u64,
            quantity: after.quantity - before.quantity,
            money: after.money - before.money,
            phase: self.inside.phase,
        }
    }

    /// The settings of the day.
    pub fn settings(&self) -> &DeskSettings
        ensures { result.now ≡ self.now.state.settings }
    {
        &self.inside.settings
    }

    /// The widths of the price ranges.
    pub fn widths(&self) -> Widths
        ensures widths { result ≡ self.now.state.settings.widths }
        ensures lawful { IsTrue (are_widths result) }
    {
        self.inside.widths()
    }

    /// The trades, the first one first.
    pub fn trades(&self) -> &[Trade]
        ensures trades { result.now ≡ self.now.state.trades }
        ensures few { length result.now ≤ MAX_TRADES }
        ensures sized { AreSized result.now }
        ensures priced { All (λ trade. trade.price ≤ MAX_PRICE) result.now }
        ensures limited { self.now.state.settings.limit ≤ MAX_JOURNAL_LIMIT }
    {
        let _ = self.inside.settings.limit.get(); // The range of the limit is known where it is asked for.
        self.inside.tape.as_slice()
    }

    /// The price and the volume that a call has at this moment; nothing outside a call.
    pub fn indicative(&self) -> Option<(Price, u64)>
        ensures { result ≡ indicative self.now.state }
    {
        match self.inside.phase {
            Phase::Call(_auction, _stage) => {
                auction_price(&self.inside.book, self.inside.phase, self.inside.ref1())
            }
            _ => None,
        }
    }

    /// The best limit of the active orders of a side.
    pub fn best(&self, side: Side) -> Option<Price>
        ensures { result ≡ best_limit self.now.state side }
    {
        self.inside.book.best_limit(side, self.inside.phase)
    }

    /// The best limit of the active orders of a side that is worse than this one, or the best of all where there is none,
    /// with the units that rest at it.
    pub fn level_after(&self, side: Side, after: Option<Price>) -> Option<(Price, u64)>
        ensures { result ≡ level_in self.now.state side after }
    {
        self.inside.book.level_after(side, self.inside.phase, after)
    }

    /// The units that rest in the active market orders of a side.
    pub fn market_sum(&self, side: Side) -> u64
        ensures { result ≡ market_units self.now.state side }
    {
        self.inside.book.market_sum(side, self.inside.phase)
    }

    /// The units that are left of what has this name, an order or a held stop.
    pub fn units_left(&self, member: u32, reference: u32) -> u32
        ensures { result ≡ units_left self.now.state member reference }
    {
        match self.inside.book.find(member, reference) {
            Some(order) => order.rest,
            None => match self.inside.stops.find(member, reference) {
                Some(stop) => stop.quantity,
                None => 0,
            },
        }
    }

    /// The live order of this name.
    pub fn order(&self, member: u32, reference: u32) -> Option<&Order>
        ensures { option_copied result ≡ find (is_named member reference) self.now.state.orders }
    {
        self.inside.book.find(member, reference)
    }

    /// The held stop of this name.
    pub fn stop(&self, member: u32, reference: u32) -> Option<&Stop>
        ensures { option_copied result ≡ find (is_stop_named member reference) self.now.state.stops }
    {
        self.inside.stops.find(member, reference)
    }

    /// The number of sweeps, and of calls that traded.
    pub fn sweeps(&self) -> u64
        ensures sweeps { result ≡ self.now.state.sweeps }
        ensures few { result ≤ MAX_CARRIED + MAX_JOURNAL_LIMIT + PHASE_COMMANDS_MORE }
    {
        let _ = self.inside.settings.limit.get(); // The range of the limit is known where it is asked for.
        self.inside.sweeps
    }

    /// The stops that came in as orders in the last command, or `OutOfMemory` where the growth of their list was refused.
    pub fn triggered(&self) -> Result<Vec<Stop, A>, OutOfMemory>
        ensures { IfOk result (λ stops. stops.items ≡ self.now.seen.triggered) }
    {
        self.inside.pending.gone()
    }

    /// The price that interrupted trading in the last command, or led a call to its next stage.
    pub fn interruption(&self) -> Option<Price>
        ensures { result ≡ self.now.seen.interruption }
    {
        self.inside.interruption
    }

    /// How many commands it accepted.
    pub fn accepted(&self) -> u64
        ensures { result ≡ self.now.state.accepted }
    {
        self.inside.accepted
    }

    /// The phase.
    pub fn phase(&self) -> Phase
        ensures { result ≡ self.now.state.phase }
    {
        self.inside.phase
    }

    /// The price of the last trade, or the opening reference.
    pub fn ref1(&self) -> Price
        ensures { result ≡ ref1 self.now.state }
    {
        self.inside.ref1()
    }

    /// The price of the last auction trade, or the opening reference.
    pub fn ref2(&self) -> Price
        ensures { result ≡ ref2 self.now.state }
    {
        self.inside.ref2()
    }
}

impl<A: Allocator + Copy> Unsettled<A> {
    /// The step by an accepted command: what it does, settled and counted.
    #[inline(always)]
    fn step(&mut self, accepted: &Accepted)
        requires ready { self.old.ready ≡ ready_for accepted.now.action }
        requires settled { self.old.pending ≡ [] }
        requires accepted { IsAccepted self.old.state accepted.now }
        requires counted { IsCounted self.old.state }
        ensures stepped { self.new ≡ record self.old {
          state = step self.old.state accepted.now.command.value;
          ready = Nothing;
          seen = seen_of self.old.state accepted.now.command.value;
        } }
        ensures counted { IsCounted self.new.state }
        ensures made { Makes self.old self.new }
    {
        let _ = self.settings.limit.get(); // The range of the limit is known where it is asked for.
        self.forget();
        self.act(accepted);
        self.settle();
        self.count();
    }

    /// Forgets what was seen of the last command.
    fn forget(&mut self)
        requires { self.old.pending ≡ [] }
        ensures { self.new ≡ record self.old { seen = nothing_seen } }
    {
        self.pending.forget();
        self.interruption = None;
    }

    /// Counts a command, for which nothing is kept any more.
    fn count(&mut self)
        requires ready { places_in self.old.ready ≡ [] }
        requires room { self.old.state.accepted < self.old.state.settings.limit + PHASE_COMMANDS_MORE }
        ensures { self.new ≡ record self.old { state = record self.old.state { accepted = self.old.state.accepted + 1 }; ready = Nothing } }
    {
        let _ = self.settings.limit.get(); // The range of the limit is known where it is asked for.
        self.accepted += 1;
        self.ready = Snapshot::of(&Ready::Nothing);
    }
}
