//! A security in the middle of a command: settled up to the pending stops.
ghost use Rattle.std.specs.Prelude.{◌≡◌, [], IsTrue};
ghost use Rattle.xm_desk.specs.Accepted.{IsAccepted};
ghost use Rattle.xm_desk.specs.Growth.{ready_for};
ghost use Rattle.xm_desk.specs.Made.{IsCounted, Makes};
ghost use Rattle.xm_desk.specs.Settled.{once_used};
ghost use Rattle.xm_events.specs.Seen.{nothing_seen, seen_after};
ghost use Rattle.xm_events.specs.Story.{act_events};
ghost use Rattle.xm_rules.specs.Settings.{are_widths};
ghost use Rattle.xm_rules.specs.State.{ref1, ref2};
ghost use Rattle.xm_rules.specs.Step.{act};

mod before_day;
mod calls;
mod changes;
mod checks;
mod growth;
mod incoming;
pub mod market;
mod settling;

use crate::accepted::{Accepted, Action};
use crate::tape::Tape;
use std::alloc::Allocator;
use std::marker::Model;
use std::snapshot::Snapshot;
use xm_book::{Book, Place};
use xm_rules::{DeskSettings, Phase, Stop, Widths};
use xm_stops::{Pending, Stops};
use xm_ticks::Price;

/// What is kept ready for a command.
#[derive(Clone, Copy)]
pub enum Ready {
    /// Nothing.
    Nothing,
    /// Room for one trade more than there are orders and stops.
    OneTrade,
    /// This place in the book, for an order.
    ForOrder(Place),
    /// Room among the held stops for this one, and a place in the book for its order.
    ForStop(Stop),
    /// It was used: an order or a stop joined, or nothing was left that could.
    Used,
}

/// All that changes orders, trades and stops stands on this. A clause sees a state of the model, the pending stops, what is kept ready
/// for the command, and what was seen of it so far.
#[derive(Drop)]
pub struct Unsettled<A: Allocator + Copy> {
    settings: DeskSettings,
    accepted: u64,
    phase: Phase,
    book: Book<A>,
    stops: Stops<A>,
    pending: Pending<A>,
    tape: Tape<A>,
    // The number of sweeps, and of calls that traded.
    sweeps: u64,
    // A snapshot has no bytes.
    ready: Snapshot<Ready>,
    // The price that interrupted trading, or led a call to its next stage, in the last command.
    interruption: Option<Price>,
}

impl<A: Allocator + Copy> Model for Unsettled<A> {
    ghost use Rattle.std.specs.Prelude.{◌≡◌, ◌≤◌, None};
    ghost use Rattle.xm_desk.specs.Frame.{IsFramed};
    ghost use Rattle.xm_config.specs.Opening.{open_fault};
    ghost use Rattle.xm_desk.specs.Settled.{Unsettled, came};
    ghost use Rattle.xm_rules.specs.declared.carried.TheConstants.{MAX_CARRIED};

    ghost Value = { Unsettled };

    ghost view = { λ u. record {
      state = record {
        settings = u.settings;
        accepted = u.accepted;
        phase = u.phase;
        orders = u.book.orders;
        stops = u.stops.stops;
        trades = u.tape.trades;
        sweeps = u.sweeps;
      };
      pending = u.pending.stops;
      ready = u.ready.value;
      seen = record { triggered = u.pending.gone; interruption = u.interruption };
    } };

    ghost invariant = { λ u. record {
      opening : u.tape.opening ≡ u.settings.reference;
      opens : open_fault u.settings ≡ None;
      few : came u.settings 0 ≤ MAX_CARRIED;
      frame : IsFramed (came u.settings u.accepted) u.book u.stops u.pending u.tape.room u.ready.value;
    } };
}

impl<A: Allocator + Copy> Unsettled<A> {
    /// The price of the last trade, or the opening reference.
    pub fn ref1(&self) -> Price
        ensures { result ≡ ref1 self.now.state }
    {
        self.tape.last_price()
    }

    /// The price of the last auction trade, or the opening reference.
    pub fn ref2(&self) -> Price
        ensures { result ≡ ref2 self.now.state }
    {
        self.tape.last_auction_price()
    }

    /// The widths of the price ranges.
    pub fn widths(&self) -> Widths
        ensures widths { result ≡ self.now.state.settings.widths }
        ensures lawful { IsTrue (are_widths result) }
    {
        self.settings.widths
    }

    /// What an accepted command does, before the stops that it reached are settled.
    #[inline(always)]
    pub fn act(&mut self, accepted: &Accepted)
        requires ready { self.old.ready ≡ ready_for accepted.now.action }
        requires settled { self.old.pending ≡ [] }
        requires accepted { IsAccepted self.old.state accepted.now }
        requires counted { IsCounted self.old.state }
        requires unseen { self.old.seen ≡ nothing_seen }
        ensures acted { self.new ≡ record self.old {
          state = act self.old.state accepted.now.command.value;
          ready = once_used self.old.ready;
          seen = seen_after self.old.seen (act_events self.old.state accepted.now.command.value);
        } }
        ensures made { Makes self.old self.new }
    {
        match &accepted.action {
            Action::Enter(order, condition) => self.enter(order, *condition),
            Action::Hold(stop) => self.hold(stop),
            Action::Reduce {
                member,
                reference,
                rest,
            } => self.reduce(*member, *reference, *rest),
            Action::Replace(order) => self.replace(order),
            Action::Cancel { member, reference } => self.cancel(*member, *reference),
            Action::CancelAll { member } => self.cancel_all(*member),
            Action::StartCall(auction) => self.start_call(*auction),
            Action::EndCall(auction, stage) => self.end_call(*auction, *stage),
            Action::EndDay => self.end_day(),
        }
    }
}
