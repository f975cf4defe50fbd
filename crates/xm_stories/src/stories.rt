//! The story of a command.
ghost use Rattle.std.specs.Prelude.{◌≡◌, ℕ, ◌++◌, ◌+◌, ◌<◌, ◌≤◌, ◌^◌, ◌∷◌, [], IfOk, IsTrue, List, OnOk, Option, length};
ghost use Rattle.xm_events.specs.Life.{with_rests};
ghost use Rattle.xm_events.specs.SeenStory.{seen_change, seen_own, seen_story};
ghost use Rattle.xm_events.specs.Story.{leave_events, story};
ghost use Rattle.xm_events.specs.declared.events.Event.TheVariants.{Began};
ghost use Rattle.xm_rules.specs.Refusals.{is_given_in_range};
ghost use Rattle.xm_rules.specs.State.{State};
ghost use Rattle.xm_rules.specs.Step.{Journal, replay};
ghost use Rattle.xm_rules.specs.declared.orders.Order.{Order};
ghost use Rattle.xm_rules.specs.declared.orders.Stop.{Stop};
ghost use Rattle.xm_rules.specs.declared.phases.CallStage.TheVariants as stage;
ghost use Rattle.xm_rules.specs.declared.phases.Phase.TheVariants.{Call};
ghost use Rattle.xm_stories.specs.Around.{AreLeaving, GivesPricesInRange, IsAfter, IsBefore, IsFound, between_of, gone_for, outcome_in};
ghost use Rattle.xm_stories.specs.Telling.{CanBeTold, IsTakenByJournal};
ghost use Rattle.xm_ticks.specs.declared.ranges.TheConstants.{MAX_WIDTH};

use crate::around::{After, Before, Between, Touched};
use crate::arrivals::{numbered_so, push_arrivals};
use crate::calls::push_uncross;
use crate::leaving::push_leaving;
use crate::orders::{push_change, push_entry};
use crate::rests::{Left, with_rests};
use std::alloc::Allocator;
use xm_events::{Deletion, Event};
use xm_memory::OutOfMemory;
use xm_name_index::Storage;
use xm_rules::{Auction, CallStage, Command, Order, Phase, Stop, Trade, last_price};

/// Adds that a phase begins.
fn push_began<A: Allocator>(events: &mut Vec<Event, A>, phase: Phase) -> Result<(), OutOfMemory>
    ensures { OnOk result (events.new.items ≡ events.old.items ++ Began phase ∷ []) }
{
    events.push(Event::Began(phase))?;
    Ok(())
}

/// Adds that the call of an auction begins.
fn push_call<A: Allocator>(events: &mut Vec<Event, A>, auction: Auction) -> Result<(), OutOfMemory>
    ensures { OnOk result (events.new.items ≡ events.old.items ++ Began (Call auction stage.Ordinary) ∷ []) }
{
    push_began(events, Phase::Call(auction, CallStage::Ordinary))
}

/// Adds what leaves of what a command touches.
fn push_touched<A: Allocator, B: Allocator>(
    events: &mut Vec<Event, A>,
    reason: Option<Deletion>,
    touched: &Touched<B>,
) -> Result<(), OutOfMemory>
    ensures { OnOk result ((orders : List Order) (stops : List Stop) → AreLeaving orders stops touched.now → events.new.items ≡ events.old.items ++ leave_events (gone_for reason) orders stops) }
{
    match touched {
        Touched::Leaving(orders, stops) => push_leaving(events, reason, orders, stops),
        Touched::Nothing | Touched::Changing(_) => Ok(()),
    }
}

/// Adds what a change of what it touches tells.
fn push_found<A: Allocator, B: Allocator>(
    events: &mut Vec<Event, A>,
    between: &Between,
    quantity: u32,
    limit: Option<u32>,
    touched: &Touched<B>,
    trades: &[Trade],
) -> Result<(), OutOfMemory>
    requires widths { between.now.widths.dynamic ≤ MAX_WIDTH }
    requires numbers { between.now.sweeps + 1 < 2 ^ 64 }
    requires limit { IsTrue (is_given_in_range limit) }
    ensures { OnOk result ((found : Option Order) → IsFound found touched.now → events.new.items ≡ events.old.items ++ seen_change (outcome_in between.now) between.now.sweeps between.now.last quantity limit found trades.now) }
{
    match touched {
        Touched::Changing(order) => push_change(events, between, quantity, limit, order, trades),
        Touched::Nothing | Touched::Leaving(_, _) => Ok(()),
    }
}

/// What is the same for all orders that come in.
fn between<B: Allocator>(before: &Before<B>, after: &After) -> Between
    ensures { result ≡ between_of before.now after.now }
{
    Between {
        widths: before.widths,
        sweeps: before.sweeps,
        last: before.last,
        sweeps_after: after.sweeps,
        interruption: after.interruption,
    }
}

/// Adds what a command does itself.
fn push_own<A: Allocator, B: Allocator>(
    events: &mut Vec<Event, A>,
    command: &Command,
    before: &Before<B>,
    after: &After,
    trades: &[Trade],
) -> Result<(), OutOfMemory>
    requires widths { before.now.widths.dynamic ≤ MAX_WIDTH }
    requires numbers { before.now.sweeps + 1 < 2 ^ 64 }
    requires prices { GivesPricesInRange command.now }
    ensures { OnOk result ((s : State) → IsBefore s command.now before.now → events.new.items ≡ events.old.items ++ seen_own (outcome_in (between_of before.now after.now)) s command.now trades.now after.now.phase) }
{
    let between = between(before, after);
    match *command {
        Command::Enter {
            member,
            reference,
            side,
            kind,
            quantity,
            validity,
            restriction,
            condition,
        } => {
            let order = Order {
                member,
                reference,
                kind: kind.order_kind(),
                rest: quantity,
                validity,
                side,
                restriction,
            };
            push_entry(
                events,
                &between,
                condition,
                kind.trigger_of(),
                &order,
                trades,
            )
        }
        Command::Change {
            member: _,
            reference: _,
            quantity,
            limit,
        } => push_found(events, &between, quantity, limit, &before.touched, trades),
        Command::Cancel {
            member: _,
            reference: _,
        } => push_touched(events, None, &before.touched),
        Command::CancelAll { member: _ } => push_touched(events, None, &before.touched),
        Command::StartOpening => push_call(events, Auction::Opening),
        Command::StartIntraday => push_call(events, Auction::Intraday),
        Command::StartClosing => push_call(events, Auction::Closing),
        Command::Uncross => push_uncross(events, &between, before.phase, trades, after.phase),
        Command::EndDay => {
            push_touched(events, Some(Deletion::EndOfDay), &before.touched)?;
            push_began(events, Phase::Ended)
        }
    }
}

/// The story of a command with bare fills, put together from what is seen after it: what is asked of the state before it and of the
/// state after it, the trades that it added, and the stops that it triggered, in their order. It fails where a growth is refused.
pub fn seen_story<A: Allocator, B: Allocator>(
    alloc: A,
    command: &Command,
    before: &Before<B>,
    after: &After,
    trades: &[Trade],
    triggered: &[Stop],
) -> Result<Vec<Event, A>, OutOfMemory>
    requires widths { before.now.widths.dynamic ≤ MAX_WIDTH }
    requires numbers { before.now.sweeps + 2 + length triggered.now < 2 ^ 64 }
    requires prices { GivesPricesInRange command.now }
    ensures { IfOk result (λ events. (s t : State) → IsBefore s command.now before.now → IsAfter t after.now → events.items ≡ seen_story s command.now (record { triggered = triggered.now; interruption = after.now.interruption }) trades.now t) }
{
    let mut events = Vec::new(alloc);
    push_own(&mut events, command, before, after, trades)?;
    let between = between(before, after);
    let number = before.sweeps + 1;
    let (own, behind) = trades.split_at(numbered_so(number, trades));
    let last = last_price(own, before.last);
    push_arrivals(&mut events, &between, number + 1, last, behind, triggered)?;
    Ok(events)
}

/// The same, and each fill tells what is left of its order behind it, where so much is left in the end.
fn tell_seen<L: Left, A: Allocator + Copy, B: Allocator>(
    storage: Storage<A>,
    left: &L,
    command: &Command,
    before: &Before<B>,
    after: &After,
    trades: &[Trade],
    triggered: &[Stop],
) -> Result<Vec<Event, A>, OutOfMemory>
    requires widths { before.now.widths.dynamic ≤ MAX_WIDTH }
    requires numbers { before.now.sweeps + 2 + length triggered.now < 2 ^ 64 }
    requires prices { GivesPricesInRange command.now }
    requires units { CanBeTold (L.units left.now) command.now before.now after.now trades.now triggered.now }
    ensures { IfOk result (λ events. (s t : State) → IsBefore s command.now before.now → IsAfter t after.now → events.items ≡ with_rests (L.units left.now) (seen_story s command.now (record { triggered = triggered.now; interruption = after.now.interruption }) trades.now t)) }
{
    let mut events = seen_story(storage.alloc, command, before, after, trades, triggered)?;
    with_rests(storage, left, &mut events)?;
    Ok(events)
}

/// The story of a command: the same, and each fill tells what is left of its order behind it, where so much is left in the end. The
/// storage is that of the events, and of a sum for each order that they take of. It fails where a growth is refused. So what is told of a
/// command that a lawful journal takes is what happens by it.
pub fn tell<L: Left, A: Allocator + Copy, B: Allocator>(
    storage: Storage<A>,
    left: &L,
    command: &Command,
    before: &Before<B>,
    after: &After,
    trades: &[Trade],
    triggered: &[Stop],
) -> Result<Vec<Event, A>, OutOfMemory>
    requires widths { before.now.widths.dynamic ≤ MAX_WIDTH }
    requires numbers { before.now.sweeps + 2 + length triggered.now < 2 ^ 64 }
    requires prices { GivesPricesInRange command.now }
    requires units { CanBeTold (L.units left.now) command.now before.now after.now trades.now triggered.now }
    ensures seen { IfOk result (λ events. (s t : State) → IsBefore s command.now before.now → IsAfter t after.now → events.items ≡ with_rests (L.units left.now) (seen_story s command.now (record { triggered = triggered.now; interruption = after.now.interruption }) trades.now t)) }
    ensures story { IfOk result (λ events. (j : Journal) → IsTakenByJournal j (L.units left.now) command.now before.now after.now trades.now triggered.now → events.items ≡ story (replay j) command.now) }
{
    tell_seen(storage, left, command, before, after, trades, triggered)
}
