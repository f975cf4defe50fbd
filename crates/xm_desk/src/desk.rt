//! The desk of one security.
ghost use Rattle.std.specs.Prelude.{◌≡◌, ◌≢◌, ◌≤◌, ◌==◌, ◌+◌, ◌++◌, ◌∷◌, [], All, IsTrue, None, Some, Err, IfOk, IfErr, OnErr, OnOk, filter, find, length, option_copied, pos, true};
ghost use Rattle.xm_config.specs.Day.{answer_by};
ghost use Rattle.xm_config.specs.Opening.{open_fault};
ghost use Rattle.xm_desk.specs.Answered.{journal_after};
ghost use Rattle.xm_desk.specs.Shown.{level_in, market_units, units_left};
ghost use Rattle.xm_desk.specs.declared.tape.TheConstants.{MAX_TRADES};
ghost use Rattle.xm_positions.specs.Positions.{cash_position, net_position};
ghost use Rattle.xm_events.specs.Seen.{last_seen};
ghost use Rattle.xm_rules.specs.Refusals.{refusal_of};
ghost use Rattle.xm_rules.specs.Opening.{are_carriable};
ghost use Rattle.xm_rules.specs.Orders.{is_named, is_stop_named};
ghost use Rattle.xm_rules.specs.Quote.{best_limit, indicative, quote};
ghost use Rattle.xm_rules.specs.Settings.{are_widths};
ghost use Rattle.xm_rules.specs.State.{ref1, ref2};
ghost use Rattle.xm_rules.specs.declared.orders.Order.{Order};
ghost use Rattle.xm_rules.specs.declared.orders.Stop.{Stop};
ghost use Rattle.xm_rules.specs.Step.{is_lawful, new_trades, replay, reply};
ghost use Rattle.xm_rules.specs.Sums.{AreWithinLimits, cash, has_traded, net, total_money, total_quantity};
ghost use Rattle.xm_rules.specs.declared.carried.TheConstants.{MAX_CARRIED};
ghost use Rattle.xm_rules.specs.declared.settings.TheConstants.{PHASE_COMMANDS_MORE};
ghost use Rattle.xm_ticks.specs.declared.numbers.TheConstants.{MAX_JOURNAL_LIMIT, MAX_QUANTITY};

use crate::journal::{Journaling, KeptJournal, UnkeptJournal};
use crate::unsettled::market::Market;
use std::alloc::Allocator;
use std::marker::Model;
use xm_config::{OpenFault, open_fault};
use xm_memory::OutOfMemory;
use xm_name_index::Storage;
use xm_positions::Positions;
use xm_rules::{
    Command, DeskSettings, Order, PHASE_COMMANDS_MORE, Phase, Quote, Refusal, Reply, Side, Stop,
    Totals, Trade, Widths,
};
use xm_ticks::Price;

/// One security. A clause sees it as its journal: the settings that it was opened with, and the
/// commands that it accepted. The journal is lawful, and the state is its replay. Its commands are kept where a desk with a
/// `KeptJournal` is asked for, and else are known to clauses alone.
pub struct Desk<A: Allocator + Copy, J: Journaling = UnkeptJournal> {
    market: Market<A>,
    journal: J,
    positions: Positions<A>,
}

// In a function of its own, so that whoever drops one proves one call.
impl<A: Allocator + Copy, J: Journaling> Drop for Desk<A, J> {
    fn drop(self) {
        let Desk {
            market: _market,
            journal: _journal,
            positions: _positions,
        } = self;
    }
}

impl<A: Allocator + Copy, J: Journaling> Model for Desk<A, J> {
    ghost use Rattle.std.specs.Prelude.{◌≡◌, true};
    ghost use Rattle.xm_desk.specs.declared.unsettled.Ready.TheVariants.{Nothing};
    ghost use Rattle.xm_events.specs.Seen.{last_seen};
    ghost use Rattle.xm_rules.specs.Step.{Journal, is_lawful, replay};

    ghost Value = { Journal };

    ghost view = { λ d. record { settings = d.market.state.settings; commands = J.commands d.journal } };

    ghost invariant = { λ d. record {
      replayed : d.market.state ≡ replay (record { settings = d.market.state.settings; commands = J.commands d.journal });
      lawful : is_lawful (record { settings = d.market.state.settings; commands = J.commands d.journal }) ≡ true;
      ready : d.market.ready ≡ Nothing;
      seen : d.market.seen ≡ last_seen (record { settings = d.market.state.settings; commands = J.commands d.journal });
      positions : d.positions ≡ record { members = d.market.state.settings.members; trades = d.market.state.trades };
    } };
}

impl<A: Allocator + Copy, J: Journaling> Desk<A, J> {
    /// A desk before the day, with what it keeps of the commands to come.
    fn before_day(
        storage: Storage<A>,
        settings: DeskSettings,
        journal: J,
    ) -> Result<Desk<A, J>, OpenFault>
        requires { J.commands journal ≡ [] }
        ensures opened { IfOk result (λ desk. desk ≡ record { settings = settings; commands = [] }) }
        ensures sound { OnOk result (open_fault settings ≡ None) }
        ensures refused { IfErr result (λ fault. fault ≢ OpenFault.OutOfMemory tt → open_fault settings ≡ Some fault) }
        ensures memory { result ≡ Err (OpenFault.OutOfMemory tt) → open_fault settings ≡ None }
    {
        if let Some(fault) = open_fault(&settings) {
            return Err(fault);
        }
        let positions = Positions::new(storage.alloc, settings.members)?;
        Ok(Desk {
            market: Market::open(storage, settings)?,
            journal,
            positions,
        })
    }

    /// The live orders in time order, or `OutOfMemory` where the growth of their list was refused.
    pub fn orders(&self) -> Result<Vec<Order, A>, OutOfMemory>
        ensures { IfOk result (λ orders. orders.items ≡ (replay self.now).orders) }
    {
        self.market.orders()
    }

    /// The held stops in order of entry, or `OutOfMemory` where the growth of their list was refused.
    pub fn stops(&self) -> Result<Vec<Stop, A>, OutOfMemory>
        ensures { IfOk result (λ stops. stops.items ≡ (replay self.now).stops) }
    {
        self.market.stops()
    }

    /// A member's live orders in time order, or `OutOfMemory` where the growth of their list was refused. The cost grows with their
    /// number alone.
    pub fn orders_of(&self, member: u32) -> Result<Vec<Order, A>, OutOfMemory>
        ensures { IfOk result (λ orders. orders.items ≡ filter (λ (o : Order). o.member == member) (replay self.now).orders) }
    {
        self.market.orders_of(member)
    }

    /// A member's held stops in order of entry, or `OutOfMemory` where the growth of their list was refused. The cost grows with
    /// their number alone.
    pub fn stops_of(&self, member: u32) -> Result<Vec<Stop, A>, OutOfMemory>
        ensures { IfOk result (λ stops. stops.items ≡ filter (λ (s : Stop). s.member == member) (replay self.now).stops) }
    {
        self.market.stops_of(member)
    }

    /// The trades, the first one first.
    pub fn trades(&self) -> &[Trade]
        ensures trades { result.now ≡ (replay self.now).trades }
        ensures few { length result.now ≤ MAX_TRADES }
        ensures sized { All (λ trade. trade.quantity ≤ MAX_QUANTITY) result.now }
    {
        self.market.trades()
    }

    /// Makes room for so many more commands, no more than the journal takes, and for as many trades. A desk that is told how
    /// many come needn't copy the journal and the trades as they grow. Nothing that is seen of it changes. Where the growth
    /// was refused, the answer is `OutOfMemory`, and the desk still takes commands as before.
    pub fn reserve(&mut self, commands: usize) -> Result<(), OutOfMemory>
        ensures { self.new ≡ self.old }
    {
        let most = self.market.settings().limit.get() as usize + PHASE_COMMANDS_MORE as usize;
        let commands = commands.min(most.saturating_sub(self.market.accepted() as usize));
        self.journal.reserve(commands)?;
        self.market.make_room(commands)
    }

    /// Takes a command into the journal and answers its reply. A refused one changes nothing.
    ///
    /// The refusal is that of `refusal_of`, or `OutOfMemory` where a growth was refused.
    #[inline(always)]
    pub fn apply(&mut self, command: &Command) -> Result<Reply, Refusal>
        ensures accepted { OnOk result (refusal_of (replay self.old) command.now ≡ None) }
        ensures journal { OnOk result (self.new ≡ record self.old { commands = self.old.commands ++ command.now ∷ [] }) }
        ensures reply { IfOk result (λ answer. answer ≡ reply (replay self.old) (replay self.new)) }
        ensures appended { OnOk result ((replay self.new).trades ≡ (replay self.old).trades ++ new_trades (replay self.old) (replay self.new)) }
        ensures refused { IfErr result (λ refusal. refusal ≢ Refusal.OutOfMemory tt → refusal_of (replay self.old) command.now ≡ Some refusal) }
        ensures memory { result ≡ Err (Refusal.OutOfMemory tt) → refusal_of (replay self.old) command.now ≡ None }
        ensures kept { OnErr result (self.new ≡ self.old) }
    {
        let accepted = match self.market.check(command) {
            Ok(accepted) => accepted,
            Err(refusal) => return Err(refusal),
        };
        self.journal.reserve(1)?;
        self.market.reserve(&accepted)?;
        let first_trade = self.market.trades().len();
        self.market.step(&accepted);
        let _ = self.market.trades(); // The range of their prices is known where they are asked for.
        let reply = self.market.record_from(first_trade, &mut self.positions);
        self.journal.add(command);
        Ok(reply)
    }

    /// Answers a command: it is taken into the journal, or refused by a rule. `OutOfMemory` changes nothing, and comes only where no
    /// rule refuses the command.
    #[inline(always)]
    pub fn answer(&mut self, command: &Command) -> Result<Result<Reply, Refusal>, OutOfMemory>
        ensures answer { IfOk result (λ answer. answer ≡ answer_by (replay self.old) command.now (refusal_of (replay self.old) command.now)) }
        ensures after { OnOk result (self.new ≡ journal_after self.old command.now) }
        ensures appended { OnOk result ((replay self.new).trades ≡ (replay self.old).trades ++ new_trades (replay self.old) (replay self.new)) }
        ensures kept { OnErr result (self.new ≡ self.old) }
        ensures memory { OnErr result (refusal_of (replay self.old) command.now ≡ None) }
    {
        match self.apply(command) {
            Ok(reply) => Ok(Ok(reply)),
            Err(refusal) => Ok(Err(by_rule(refusal)?)),
        }
    }

    /// The settings that the desk was opened with. It takes the orders and stops that they carry.
    pub fn settings(&self) -> &DeskSettings
        ensures opened { result.now ≡ self.now.settings }
        ensures carriable { are_carriable result.now ≡ true }
        ensures kept { result.now ≡ (replay self.now).settings }
    {
        self.market.settings()
    }

    /// The widths of the price ranges.
    pub fn widths(&self) -> Widths
        ensures widths { result ≡ (replay self.now).settings.widths }
        ensures lawful { IsTrue (are_widths result) }
    {
        self.market.widths()
    }

    /// The phase of the security.
    pub fn phase(&self) -> Phase
        ensures { result ≡ (replay self.now).phase }
    {
        self.market.phase()
    }

    /// The price of the last trade, or the opening reference.
    pub fn ref1(&self) -> Price
        ensures { result ≡ ref1 (replay self.now) }
    {
        self.market.ref1()
    }

    /// The price of the last auction trade of the day, or the opening reference.
    pub fn ref2(&self) -> Price
        ensures { result ≡ ref2 (replay self.now) }
    {
        self.market.ref2()
    }

    /// The price of a call, in ticks, and the units that would be executed at it, if it ended now; nothing outside a call,
    /// and where nothing can be executed.
    pub fn indicative(&self) -> Option<(Price, u64)>
        ensures { result ≡ indicative (replay self.now) }
    {
        self.market.indicative()
    }

    /// The best limit of the active orders of a side, in ticks.
    pub fn best(&self, side: Side) -> Option<Price>
        ensures { result ≡ best_limit (replay self.now) side }
    {
        self.market.best(side)
    }

    /// The best limit of the active orders of a side, in ticks, that is worse than this one, or the best of all where there is
    /// none, with the units that rest at it. It costs no pass over orders.
    pub fn level_after(&self, side: Side, after: Option<Price>) -> Option<(Price, u64)>
        ensures { result ≡ level_in (replay self.now) side after }
    {
        self.market.level_after(side, after)
    }

    /// The units that rest in the active market orders of a side. It costs no pass over orders.
    pub fn market_sum(&self, side: Side) -> u64
        ensures { result ≡ market_units (replay self.now) side }
    {
        self.market.market_sum(side)
    }

    /// The units that are left of what a member entered under this reference: those that rest in the book, those of a held
    /// stop, and 0 where it is gone. It costs no pass over orders or stops.
    pub fn units_left(&self, member: u32, reference: u32) -> u32
        ensures { result ≡ units_left (replay self.now) member reference }
    {
        self.market.units_left(member, reference)
    }

    /// The live order of this name. It costs no pass over orders.
    pub fn order(&self, member: u32, reference: u32) -> Option<&Order>
        ensures { option_copied result ≡ find (is_named member reference) (replay self.now).orders }
    {
        self.market.order(member, reference)
    }

    /// The held stop of this name. It costs no pass over stops.
    pub fn stop(&self, member: u32, reference: u32) -> Option<&Stop>
        ensures { option_copied result ≡ find (is_stop_named member reference) (replay self.now).stops }
    {
        self.market.stop(member, reference)
    }

    /// The number of sweeps so far, and of calls that traded.
    pub fn sweeps(&self) -> u64
        ensures sweeps { result ≡ (replay self.now).sweeps }
        ensures few { result ≤ MAX_CARRIED + MAX_JOURNAL_LIMIT + PHASE_COMMANDS_MORE }
    {
        self.market.sweeps()
    }

    /// The stops that the last command triggered, in the order in which they came in, or `OutOfMemory` where the growth of their
    /// list was refused.
    pub fn triggered(&self) -> Result<Vec<Stop, A>, OutOfMemory>
        ensures { IfOk result (λ stops. stops.items ≡ (last_seen self.now).triggered) }
    {
        self.market.triggered()
    }

    /// The price at which the last command interrupted trading, or led a call to its next stage, if it did.
    pub fn interruption(&self) -> Option<Price>
        ensures { result ≡ (last_seen self.now).interruption }
    {
        self.market.interruption()
    }

    /// What is shown of the security to those who watch it. It costs no pass over orders or trades.
    pub fn quote(&self) -> Quote
        ensures { result ≡ quote (replay self.now) }
    {
        Quote {
            version: self.market.accepted(),
            phase: self.phase(),
            best_buy: self.best(Side::Buy),
            best_sell: self.best(Side::Sell),
            ref1: self.ref1(),
            ref2: self.ref2(),
            quantity: self.positions.totals().quantity,
        }
    }

    /// What a member bought less what it sold, in units; nothing for a member that the desk doesn't know.
    pub fn net(&self, member: u32) -> Option<i64>
        ensures known { result ≡ net_position (record { members = self.now.settings.members; trades = (replay self.now).trades }) member }
        ensures unknown { result ≡ None → net member (replay self.now).trades ≡ pos 0 }
    {
        self.positions.net(member)
    }

    /// What a member received less what it paid, in ticks times units; nothing for a member that the desk doesn't know.
    pub fn cash(&self, member: u32) -> Option<i64>
        ensures known { result ≡ cash_position (record { members = self.now.settings.members; trades = (replay self.now).trades }) member }
        ensures unknown { result ≡ None → cash member (replay self.now).trades ≡ pos 0 }
    {
        self.positions.cash(member)
    }

    /// Whether a member bought or sold a unit.
    pub fn has_traded(&self, member: u32) -> bool
        ensures { result ≡ has_traded member (replay self.now).trades }
    {
        self.positions.has_traded(member)
    }

    /// The quantity and the money of all trades, each of which counts once. They are within the limits of a day.
    pub fn totals(&self) -> Totals
        ensures quantity { result.quantity ≡ total_quantity (replay self.now).trades }
        ensures money { result.money ≡ total_money (replay self.now).trades }
        ensures limits { AreWithinLimits (replay self.now).trades }
    {
        self.positions.totals()
    }

    /// How many commands the desk accepted. Each was lawful when it came.
    pub fn accepted(&self) -> u64
        ensures count { result ≡ length self.now.commands }
        ensures lawful { IsTrue (is_lawful self.now) }
    {
        self.market.accepted()
    }

    /// Why a command would be refused, memory aside: the first of its checks that fails.
    pub fn refusal_of(&self, command: &Command) -> Option<Refusal>
        ensures { result ≡ refusal_of (replay self.now) command.now }
    {
        match self.market.check(command) {
            Ok(_accepted) => None,
            Err(refusal) => Some(refusal),
        }
    }
}

/// A refusal by a rule, or the want of memory that it is.
#[inline(always)]
fn by_rule(refusal: Refusal) -> Result<Refusal, OutOfMemory>
    ensures rule { IfOk result (λ same. (same ≡ refusal) × (refusal ≢ Refusal.OutOfMemory tt)) }
    ensures memory { OnErr result (refusal ≡ Refusal.OutOfMemory tt) }
{
    match refusal {
        Refusal::OutOfMemory(error) => Err(error),
        _ => Ok(refusal),
    }
}

impl<A: Allocator + Copy> Desk<A> {
    /// A desk before the day, with the orders and stops of its settings that are still valid.
    ///
    /// More than 1,000 members are `TooMany`. A width outside 1 to `MAX_WIDTH` thousandths, or a dynamic
    /// one that is not below the wide one, is `BadWidths`. Orders and stops that earlier days can't have left are `BadCarried`.
    /// Where a growth is refused, it is `OutOfMemory`. The settings are given up then.
    pub fn open(storage: Storage<A>, settings: DeskSettings) -> Result<Desk<A>, OpenFault>
        ensures opened { IfOk result (λ desk. desk ≡ record { settings = settings; commands = [] }) }
        ensures sound { OnOk result (open_fault settings ≡ None) }
        ensures refused { IfErr result (λ fault. fault ≢ OpenFault.OutOfMemory tt → open_fault settings ≡ Some fault) }
        ensures memory { result ≡ Err (OpenFault.OutOfMemory tt) → open_fault settings ≡ None }
    {
        Desk::before_day(storage, settings, UnkeptJournal::new())
    }
}

impl<A: Allocator + Copy> Desk<A, KeptJournal<A>> {
    /// A desk as `open` gives it, which keeps its commands.
    pub fn open_kept(
        storage: Storage<A>,
        settings: DeskSettings,
    ) -> Result<Desk<A, KeptJournal<A>>, OpenFault>
        ensures opened { IfOk result (λ desk. desk ≡ record { settings = settings; commands = [] }) }
        ensures sound { OnOk result (open_fault settings ≡ None) }
        ensures refused { IfErr result (λ fault. fault ≢ OpenFault.OutOfMemory tt → open_fault settings ≡ Some fault) }
        ensures memory { result ≡ Err (OpenFault.OutOfMemory tt) → open_fault settings ≡ None }
    {
        Desk::before_day(storage, settings, KeptJournal::new(storage.alloc))
    }

    /// The commands that the desk accepted. Each was lawful when it came.
    pub fn journal(&self) -> &[Command]
        ensures commands { result.now ≡ self.now.commands }
        ensures lawful { IsTrue (is_lawful self.now) }
    {
        self.journal.as_slice()
    }
}
