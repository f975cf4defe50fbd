//! The checks of a command, which give what it will do or why it is refused. Nothing here changes anything.
ghost use Rattle.std.specs.Prelude.{◌≡◌, None, Some, Ok, Err, IfErr, IfOk, IsTrue, OnOk, if◌then◌else◌};
ghost use Rattle.xm_desk.specs.Accepted.{IsAccepted, action_of, changing};
ghost use Rattle.xm_desk.specs.Entries.{command_of};
ghost use Rattle.xm_rules.specs.Refusals.{first_failing, is_trigger_reached, has_stop, is_allowed, is_full, is_given_in_range, is_limit_for_market, is_unknown_member, is_unknown_order, own_checks, refusal_of};
ghost use Rattle.xm_rules.specs.declared.commands.Command.TheVariants.{Cancel, Change, Uncross};
ghost use Rattle.xm_rules.specs.declared.replies.Refusal.TheVariants.{WrongPhase};

use crate::accepted::{Accepted, Action};
use crate::entries::EntryFields;
use crate::unsettled::Unsettled;
use std::alloc::Allocator;
use std::snapshot::Snapshot;
use xm_match::would_execute;
use xm_rules::{
    Auction, Command, Order, OrderKind, PHASE_COMMANDS_MORE, Phase, Refusal, Side,
    is_given_in_range, is_in_range,
};

impl<A: Allocator + Copy> Unsettled<A> {
    /// What a command will do, or why it is refused, memory aside: the first of its checks that fails.
    #[inline(always)]
    pub fn check(&self, command: &Command) -> Result<Accepted, Refusal>
        ensures accepted { IfOk result (λ accepted. IsAccepted self.now.state accepted) }
        ensures command { IfOk result (λ accepted. accepted.command.value ≡ command.now) }
        ensures refused { IfErr result (λ refusal. refusal_of self.now.state command.now ≡ Some refusal) }
    {
        let member = command.member();
        if self.is_unknown_member(member) {
            return Err(Refusal::UnknownMember);
        }
        if self.phase.is_ended() {
            return Err(Refusal::DayEnded);
        }
        let action = match self.check_by_itself(command) {
            Ok(action) => action,
            Err(refusal) => return Err(refusal),
        };
        if self.is_full(member) {
            return Err(Refusal::JournalFull);
        }
        Ok(Accepted {
            action,
            command: Snapshot::of(command),
        })
    }

    /// The checks that a command has by itself.
    #[inline(always)]
    fn check_by_itself(&self, command: &Command) -> Result<Action, Refusal>
        ensures passed { OnOk result (first_failing (own_checks self.now.state command.now) ≡ None) }
        ensures action { IfOk result (λ action. action_of self.now.state command.now ≡ Some action) }
        ensures refused { IfErr result (λ refusal. first_failing (own_checks self.now.state command.now) ≡ Some refusal) }
    {
        match *command {
            Command::Enter {
                member,
                reference,
                side,
                kind,
                quantity,
                validity,
                restriction,
                condition,
            } => self.check_entry(&EntryFields {
                member,
                reference,
                side,
                kind,
                quantity,
                validity,
                restriction,
                condition,
            }),
            Command::Change {
                member,
                reference,
                quantity,
                limit,
            } => self.check_change(member, reference, quantity, limit),
            Command::Cancel { member, reference } => self.check_cancellation(member, reference),
            Command::CancelAll { member } => Ok(Action::CancelAll { member }),
            Command::StartOpening => self.check_phase(command, Action::StartCall(Auction::Opening)),
            Command::StartIntraday => {
                self.check_phase(command, Action::StartCall(Auction::Intraday))
            }
            Command::StartClosing => self.check_phase(command, Action::StartCall(Auction::Closing)),
            Command::Uncross => self.check_uncross(),
            Command::EndDay => self.check_phase(command, Action::EndDay),
        }
    }

    /// The checks of an entry.
    #[inline(always)]
    fn check_entry(&self, entry: &EntryFields) -> Result<Action, Refusal>
        ensures passed { OnOk result (first_failing (own_checks self.now.state (command_of entry.now)) ≡ None) }
        ensures action { IfOk result (λ action. action_of self.now.state (command_of entry.now) ≡ Some action) }
        ensures refused { IfErr result (λ refusal. first_failing (own_checks self.now.state (command_of entry.now)) ≡ Some refusal) }
    {
        match self.refusal_of_entry(entry) {
            Some(refusal) => Err(refusal),
            None => Ok(entry.action()),
        }
    }

    /// Why an entry is refused by its own checks.
    #[inline(always)]
    fn refusal_of_entry(&self, entry: &EntryFields) -> Option<Refusal>
        ensures { result ≡ first_failing (own_checks self.now.state (command_of entry.now)) }
    {
        let condition = entry.condition;
        if !is_in_range(entry.quantity) {
            Some(Refusal::BadQuantity)
        } else if !entry.kind.has_prices_in_range() {
            Some(Refusal::BadPrice)
        } else if entry.validity.is_over(self.settings.today) {
            Some(Refusal::BadValidity)
        } else if condition.is_bad_combination(entry.kind, entry.restriction) {
            Some(Refusal::BadCombination)
        } else if condition.is_for_trading() && !self.phase.is_continuous() {
            Some(Refusal::WrongPhase)
        } else if !self.is_unknown_order(entry.member, entry.reference) {
            Some(Refusal::DuplicateReference)
        } else if self.is_trigger_reached(entry.side, entry.kind.trigger_of()) {
            Some(Refusal::TriggerReached)
        } else if condition.is_book_or_cancel() && would_execute(&self.book, &entry.order()) {
            Some(Refusal::WouldExecute)
        } else {
            None
        }
    }

    /// The checks of a change. The order is looked up before the numbers are checked.
    #[inline(always)]
    fn check_change(
        &self,
        member: u32,
        reference: u32,
        quantity: u32,
        limit: Option<u32>,
    ) -> Result<Action, Refusal>
        ensures passed { OnOk result (first_failing (own_checks self.now.state (Change member reference quantity limit)) ≡ None) }
        ensures action { IfOk result (λ action. action_of self.now.state (Change member reference quantity limit) ≡ Some action) }
        ensures refused { IfErr result (λ refusal. first_failing (own_checks self.now.state (Change member reference quantity limit)) ≡ Some refusal) }
    {
        if self.has_stop(member, reference) {
            return Err(Refusal::NotChangeable);
        }
        match self.book.find(member, reference) {
            None => Err(Refusal::UnknownOrder),
            Some(order) => {
                if order.is_limit_for_market(limit) {
                    Err(Refusal::NotChangeable)
                } else if !is_in_range(quantity) {
                    Err(Refusal::BadQuantity)
                } else if !is_given_in_range(limit) {
                    Err(Refusal::BadPrice)
                } else {
                    Ok(change_of(order, quantity, limit))
                }
            }
        }
    }

    /// The checks of the cancellation of one order or stop.
    #[inline(always)]
    fn check_cancellation(&self, member: u32, reference: u32) -> Result<Action, Refusal>
        ensures passed { OnOk result (first_failing (own_checks self.now.state (Cancel member reference)) ≡ None) }
        ensures action { IfOk result (λ action. action_of self.now.state (Cancel member reference) ≡ Some action) }
        ensures refused { IfErr result (λ refusal. first_failing (own_checks self.now.state (Cancel member reference)) ≡ Some refusal) }
    {
        if self.is_unknown_order(member, reference) {
            Err(Refusal::UnknownOrder)
        } else {
            Ok(Action::Cancel { member, reference })
        }
    }

    /// The checks of the end of a call.
    fn check_uncross(&self) -> Result<Action, Refusal>
        ensures passed { OnOk result (first_failing (own_checks self.now.state Uncross) ≡ None) }
        ensures action { IfOk result (λ action. action_of self.now.state Uncross ≡ Some action) }
        ensures refused { IfErr result (λ refusal. first_failing (own_checks self.now.state Uncross) ≡ Some refusal) }
    {
        match self.phase {
            Phase::Call(auction, stage) => Ok(Action::EndCall(auction, stage)),
            _ => Err(Refusal::WrongPhase),
        }
    }

    /// What another command of the phases does, where it is allowed in this one.
    fn check_phase(&self, command: &Command, action: Action) -> Result<Action, Refusal>
        ensures { result ≡ (if is_allowed self.now.state.phase command.now then Ok action else Err WrongPhase) }
    {
        if command.is_allowed(self.phase) {
            Ok(action)
        } else {
            Err(Refusal::WrongPhase)
        }
    }

    /// Whether the member has neither a live order nor a held stop with this reference.
    #[inline(always)]
    fn is_unknown_order(&self, member: u32, reference: u32) -> bool
        ensures { result ≡ is_unknown_order self.now.state member reference }
    {
        self.book.find(member, reference).is_none() && !self.has_stop(member, reference)
    }

    /// Whether the member has a held stop with this reference. Where none is held, no name is looked for.
    #[inline(always)]
    fn has_stop(&self, member: u32, reference: u32) -> bool
        ensures { result ≡ has_stop self.now.state member reference }
    {
        self.stops.len() > 0 && self.stops.find(member, reference).is_some()
    }

    /// Whether the last price has reached this trigger.
    fn is_trigger_reached(&self, side: Side, trigger: Option<u32>) -> bool
        ensures { result ≡ is_trigger_reached self.now.state side trigger }
    {
        match trigger {
            None => false,
            Some(trigger) => side.reaches(self.ref1().get(), trigger),
        }
    }

    /// Whether the index of the member is out of the segment.
    fn is_unknown_member(&self, member: Option<u32>) -> bool
        ensures { result ≡ is_unknown_member self.now.state member }
    {
        match member {
            Some(member) => self.settings.members <= member,
            None => false,
        }
    }

    /// Whether the journal takes no more commands of members, or of the phases where no member is given.
    fn is_full(&self, member: Option<u32>) -> bool
        ensures { result ≡ is_full self.now.state member }
    {
        let more = match member {
            Some(_) => 0,
            None => PHASE_COMMANDS_MORE,
        };
        u64::from(self.settings.limit.get()) + u64::from(more) <= self.accepted
    }
}

/// What a change of an order does, whose limit is in range.
fn change_of(order: &Order, quantity: u32, limit: Option<u32>) -> Action
    requires { IsTrue (is_given_in_range limit) }
    ensures { result ≡ changing quantity limit order.now }
{
    if order.keeps_priority(quantity, limit) {
        Action::Reduce {
            member: order.member,
            reference: order.reference,
            rest: quantity,
        }
    } else {
        Action::Replace(order.changed_order(quantity, limit))
    }
}
