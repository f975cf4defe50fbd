//! A desk that takes a command, and tells what happens by it.
ghost use Rattle.std.specs.Prelude.{◌≡◌, ◌==◌, ◌<◌, ◌≤◌, ◌^◌, IfOk, IsTrue, OnErr, OnOk, filter, not, option_copied, option_to_list};
ghost use Rattle.xm_config.specs.Day.{answer_by};
ghost use Rattle.xm_desk.specs.Answered.{journal_after};
ghost use Rattle.xm_events.specs.Story.{story};
ghost use Rattle.xm_rules.specs.Commands.{outlasts};
ghost use Rattle.xm_rules.specs.Orders.{is_named, is_stop_named};
ghost use Rattle.xm_rules.specs.Refusals.{refusal_of};
ghost use Rattle.xm_rules.specs.Step.{Journal, is_lawful, replay};
ghost use Rattle.xm_rules.specs.declared.orders.Order.{Order};
ghost use Rattle.xm_rules.specs.declared.orders.Stop.{Stop};
ghost use Rattle.xm_stories.specs.Around.{AreLeaving, IsBefore, IsFound, IsTouched};
ghost use Rattle.xm_stories.specs.OfDesks.{HasJustTaken, StandsBeforeOrBehind, story_by};
ghost use Rattle.xm_ticks.specs.declared.ranges.TheConstants.{MAX_WIDTH};

use crate::around::{After, Before, Touched};
use crate::rests::Left;
use crate::stories::tell;
use std::alloc::Allocator;
use xm_desk::Desk;
use xm_events::Event;
use xm_memory::OutOfMemory;
use xm_name_index::Storage;
use xm_rules::{Command, Order, Refusal, Reply, Stop};

/// What came of a command: the answer to it, and what happened by it, which is nothing where it was refused.
#[derive(Drop)]
pub struct Taken<A: Allocator> {
    pub answer: Result<Reply, Refusal>,
    pub events: Vec<Event, A>,
}

impl<A: Allocator + Copy> Left for Desk<A> {
    ghost use Rattle.xm_events.specs.Life.{units_named};
    ghost use Rattle.xm_rules.specs.Step.{replay};

    ghost units = { λ desk member reference. units_named (replay desk) member reference };

    fn left(&self, member: u32, reference: u32) -> u32 {
        let _ = self.accepted(); // What each desk took was lawful, so that no two orders or stops have one name.
        self.units_left(member, reference)
    }
}

/// Has a desk answer a command, and tells what happened by it: its story, where the desk takes it, and nothing where it is refused. Want
/// of memory may come before the desk has taken the command or behind that. The cost grows with what happens: of the orders of a member
/// those are looked at that leave.
pub fn take<A: Allocator + Copy>(
    storage: Storage<A>,
    desk: &mut Desk<A>,
    command: &Command,
) -> Result<Taken<A>, OutOfMemory>
    ensures answer { IfOk result (λ taken. taken.answer ≡ answer_by (replay desk.old) command.now (refusal_of (replay desk.old) command.now)) }
    ensures story { IfOk result (λ taken. taken.events.items ≡ story_by (replay desk.old) command.now (refusal_of (replay desk.old) command.now)) }
    ensures after { OnOk result (desk.new ≡ journal_after desk.old command.now) }
    ensures wanting { OnErr result (StandsBeforeOrBehind desk.old command.now desk.new) }
{
    if let Some(refusal) = desk.refusal_of(command) {
        return Ok(Taken {
            answer: Err(refusal),
            events: Vec::new(storage.alloc),
        });
    }
    let _ = desk.accepted(); // What each desk took was lawful.
    let before = before(storage.alloc, desk, command)?;
    let first = desk.trades().len();
    let answer = desk.answer(command)?;
    let events = story_behind(storage, desk, command, &before, first)?;
    Ok(Taken { answer, events })
}

/// The story of the command that a desk has just taken, before which these were the values, and so many trades.
fn story_behind<A: Allocator + Copy>(
    storage: Storage<A>,
    desk: &Desk<A>,
    command: &Command,
    before: &Before<A>,
    first: usize,
) -> Result<Vec<Event, A>, OutOfMemory>
    requires { (j : Journal) × HasJustTaken desk.now command.now before.now first j }
    ensures { IfOk result (λ events. (j : Journal) → HasJustTaken desk.now command.now before.now first j → events.items ≡ story (replay j) command.now) }
{
    let after = After {
        phase: desk.phase(),
        sweeps: desk.sweeps(),
        interruption: desk.interruption(),
    };
    let triggered = desk.triggered()?;
    let made = &desk.trades()[first..];
    tell(storage, desk, command, before, &after, made, &triggered)
}

/// What a story asks of a desk before it takes a command.
fn before<A: Allocator + Copy>(
    alloc: A,
    desk: &Desk<A>,
    command: &Command,
) -> Result<Before<A>, OutOfMemory>
    requires { IsTrue (is_lawful desk.now) }
    ensures before { IfOk result (IsBefore (replay desk.now) command.now) }
    ensures narrow { IfOk result (λ before. before.widths.dynamic ≤ MAX_WIDTH) }
    ensures few { IfOk result (λ before. before.sweeps < 2 ^ 62) }
{
    let touched = touched(alloc, desk, command)?;
    Ok(Before {
        phase: desk.phase(),
        sweeps: desk.sweeps(),
        widths: desk.widths(),
        last: desk.ref1(),
        touched,
    })
}

/// What a command touches of a desk before it.
fn touched<A: Allocator + Copy>(
    alloc: A,
    desk: &Desk<A>,
    command: &Command,
) -> Result<Touched<A>, OutOfMemory>
    requires { IsTrue (is_lawful desk.now) }
    ensures { IfOk result (IsTouched (replay desk.now) command.now) }
{
    match *command {
        Command::Change {
            member,
            reference,
            ..
        } => Ok(changing(desk.order(member, reference))),
        Command::Cancel { member, reference } => named(alloc, desk, member, reference),
        Command::CancelAll { member } => of_member(desk, member),
        Command::EndDay => expiring(desk),
        _ => Ok(Touched::Nothing),
    }
}

/// The order that a change finds.
fn changing<A: Allocator>(found: Option<&Order>) -> Touched<A>
    ensures { IsFound (option_copied found.entry) result }
{
    match found {
        Some(order) => Touched::Changing(*order),
        None => Touched::Nothing,
    }
}

/// The order of a name, and the stop: there is one at most.
fn named<A: Allocator + Copy>(
    alloc: A,
    desk: &Desk<A>,
    member: u32,
    reference: u32,
) -> Result<Touched<A>, OutOfMemory>
    requires { IsTrue (is_lawful desk.now) }
    ensures { IfOk result (AreLeaving (filter (is_named member reference) (replay desk.now).orders) (filter (is_stop_named member reference) (replay desk.now).stops)) }
{
    let orders = list_of(alloc, desk.order(member, reference))?;
    let stops = list_of(alloc, desk.stop(member, reference))?;
    Ok(Touched::Leaving(orders, stops))
}

/// What was found, as a list.
fn list_of<T: Copy, A: Allocator>(alloc: A, found: Option<&T>) -> Result<Vec<T, A>, OutOfMemory>
    ensures { IfOk result (λ items. items.items ≡ option_to_list (option_copied found.entry)) }
{
    let mut items = Vec::new(alloc);
    if let Some(item) = found {
        items.push(*item)?;
    }
    Ok(items)
}

/// The orders of a member, and its stops.
fn of_member<A: Allocator + Copy>(desk: &Desk<A>, member: u32) -> Result<Touched<A>, OutOfMemory>
    ensures { IfOk result (AreLeaving (filter (λ (o : Order). o.member == member) (replay desk.now).orders) (filter (λ (stop : Stop). stop.member == member) (replay desk.now).stops)) }
{
    let orders = desk.orders_of(member)?;
    let stops = desk.stops_of(member)?;
    Ok(Touched::Leaving(orders, stops))
}

/// The orders that aren't valid beyond the day, and the stops.
fn expiring<A: Allocator + Copy>(desk: &Desk<A>) -> Result<Touched<A>, OutOfMemory>
    ensures { IfOk result (AreLeaving (filter (λ (o : Order). not (outlasts (replay desk.now).settings.today o.validity)) (replay desk.now).orders) (filter (λ (stop : Stop). not (outlasts (replay desk.now).settings.today stop.validity)) (replay desk.now).stops)) }
{
    let today = desk.settings().today;
    let mut orders = desk.orders()?;
    orders.retain(
        |order: &Order| -> bool
            ensures { result ≡ not (outlasts today order.now.validity) }
        { !order.validity.outlasts(today) },
    );
    let mut stops = desk.stops()?;
    stops.retain(
        |stop: &Stop| -> bool
            ensures { result ≡ not (outlasts today stop.now.validity) }
        { !stop.validity.outlasts(today) },
    );
    Ok(Touched::Leaving(orders, stops))
}
