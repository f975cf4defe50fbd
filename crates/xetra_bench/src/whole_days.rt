//! Days of all commands in all phases that are drawn at random, bad ones among them. Orders and stops lie near the last
//! price and the ranges are narrow, so that interruptions, cascades and their cuts are common.

use crate::draws::{Draws, STAGES};
use crate::lines::{tell_figures, tell_text};
use crate::loads::{LoadFault, Loaded, Opening, TODAY};
use crate::records::{Record, is_interruption};
use xm_rules::{Command, Kind, MAX_NUMBER, Restriction, Side, Validity, Widths};

/// After how many days what they did is told.
const DAYS: [u32; 2] = [100, 1_000];

/// The days with their names, and in how many of twelve cases an order is book or cancel.
const LOADS: [(&str, u32); 2] = [("all commands", 0), ("all, book or cancel", 4)];

const HEAD: &str =
    "shape                             days      accepted       refused interruptions stops came in  cut cascades        trades   orders left    stops left           sum";

/// How many commands continuous trading has, beside those in calls.
const COMMANDS: u32 = 80;

/// How many members a desk has.
const MEMBERS: u32 = 3;

/// Where the generator begins.
const SEED: u64 = 20260108;

/// One in how many names, quantities or prices is bad.
const BAD: u32 = 40;

/// Days that follow one another, each on a desk of its own, and what they did.
#[derive(Drop)]
struct Days {
    draws: Draws,
    /// In how many of the cases of a condition an order is book or cancel.
    book_or_cancel: u32,
    record: Record,
    /// How many days were run.
    run: u32,
    /// How many orders and stops were entered on the day.
    entered: u32,
    /// Stops that came in.
    reached: u64,
    /// Commands that set off stops and left trading interrupted.
    cut: u64,
}

/// Prints what the days of each load did.
pub fn count<R: AllocGlobal + Print>(rt: &R) -> Result<(), LoadFault> {
    tell_text(rt, HEAD)?;
    for (name, book_or_cancel) in &LOADS {
        count_days(rt, name, *book_or_cancel)?;
    }
    Ok(())
}

fn count_days<R: AllocGlobal + Print>(
    rt: &R,
    name: &str,
    book_or_cancel: u32,
) -> Result<(), LoadFault> {
    let mut days = Days {
        draws: Draws::new(SEED),
        book_or_cancel,
        record: Record {
            sum: 0,
            accepted: 0,
            refused: 0,
            interruptions: 0,
            trades: 0,
            orders: 0,
            stops: 0,
            is_whole: true,
        },
        run: 0,
        entered: 0,
        reached: 0,
        cut: 0,
    };
    for wanted in &DAYS {
        run_to(rt, &mut days, *wanted)?;
        tell(rt, &days, name)?;
    }
    Ok(())
}

/// Runs days until there were so many.
fn run_to<R: AllocGlobal>(rt: &R, days: &mut Days, wanted: u32) -> Result<(), LoadFault> {
    for _day in days.run..wanted {
        let mut loaded = Loaded::open(rt.alloc(), days.opening())?;
        days.day(&mut loaded);
    }
    days.run = wanted;
    if days.record.is_whole {
        Ok(())
    } else {
        Err(LoadFault)
    }
}

fn tell<R: Print>(rt: &R, days: &Days, name: &str) -> Result<(), LoadFault> {
    let record = &days.record;
    let (accepted, refused) = (record.accepted, record.refused);
    let (interruptions, reached, cut) = (record.interruptions, days.reached, days.cut);
    let (trades, orders, stops) = (record.trades, record.orders, record.stops);
    tell_figures(
        rt,
        name,
        &[
            u64::from(days.run),
            accepted,
            refused,
            interruptions,
            reached,
            cut,
            trades,
            orders,
            stops,
            record.sum,
        ],
    )?;
    tell_text(rt, "")
}

impl Days {
    /// Narrow ranges, and a journal that may get full.
    fn opening(&mut self) -> Opening {
        let dynamic = self.draws.below(5).wrapping_mul(10).wrapping_add(10);
        let statics = self.draws.below(3).wrapping_mul(20).wrapping_add(10);
        let wider = self.draws.below(2).wrapping_mul(10).wrapping_add(10);
        Opening {
            members: MEMBERS,
            reference: 100,
            widths: Widths {
                dynamic,
                statics,
                wide: dynamic.wrapping_add(wider),
            },
            limit: self.draws.from(60, 100),
        }
    }

    /// A day from pre-trading to what is refused after its end.
    fn day(&mut self, loaded: &mut Loaded) {
        self.entered = 0;
        self.give_some(loaded, 6);
        self.call(loaded, Command::StartOpening, 12);
        for _command in 0..COMMANDS {
            self.trade(loaded);
        }
        self.call(loaded, Command::StartClosing, 8);
        self.give_some(loaded, 6);
        self.record.add_left(loaded);
        self.give(loaded, Command::EndDay);
        self.give_some(loaded, 4);
        self.record.add_left(loaded);
    }

    /// A call from its start to its end, with fewer commands than this.
    fn call(&mut self, loaded: &mut Loaded, start: Command, commands: u32) {
        self.give(loaded, start);
        self.give_some(loaded, commands);
        self.uncross(loaded);
    }

    /// A command, or an intraday call, and the end of the interruption that it leads to.
    fn trade(&mut self, loaded: &mut Loaded) {
        if self.draws.is_one_in(30) {
            self.call(loaded, Command::StartIntraday, 8);
        } else {
            let command = self.command(loaded.last_price());
            self.give(loaded, command);
        }
        self.uncross(loaded);
    }

    /// Ends a call, stage after stage, each with some commands.
    fn uncross(&mut self, loaded: &mut Loaded) {
        for _stage in 0..STAGES {
            if loaded.is_in_call() {
                self.give_some(loaded, 3);
                self.give(loaded, Command::Uncross);
            }
        }
    }

    /// Gives commands that are drawn, fewer than this.
    fn give_some(&mut self, loaded: &mut Loaded, bound: u32) {
        for _command in 0..self.draws.below(bound) {
            let command = self.command(loaded.last_price());
            self.give(loaded, command);
        }
    }

    /// Gives a command, and counts what it did. Held stops that leave by a command that deletes none came in.
    fn give(&mut self, loaded: &mut Loaded, command: Command) {
        let deletes = matches!(
            command,
            Command::Cancel { .. } | Command::CancelAll { .. } | Command::EndDay
        );
        let held = self.record.held(loaded);
        self.record.give(loaded, &command);
        let left = self.record.held(loaded);
        if left < held && !deletes {
            self.reached = self.reached.wrapping_add(held - left);
            let cut = is_interruption(loaded.phase());
            self.cut = self.cut.wrapping_add(u64::from(cut));
        }
    }

    /// A command, whether or not it is allowed now.
    fn command(&mut self, last: u32) -> Command {
        match self.draws.below(40) {
            0 => match self.draws.below(5) {
                0 => Command::StartOpening,
                1 => Command::StartIntraday,
                2 => Command::StartClosing,
                3 => Command::Uncross,
                _ => Command::EndDay,
            },
            1 => Command::CancelAll {
                member: self.draws.below(MEMBERS + 1),
            },
            2..=3 => {
                let (member, reference) = self.name();
                Command::Cancel { member, reference }
            }
            4..=6 => self.change(last),
            7..=23 => self.stop(last),
            _ => self.order(last),
        }
    }

    fn change(&mut self, last: u32) -> Command {
        let (member, reference) = self.name();
        let limit = if self.draws.is_one_in(2) {
            Some(self.limit(last))
        } else {
            None
        };
        Command::Change {
            member,
            reference,
            quantity: self.number(1, 6),
            limit,
        }
    }

    fn order(&mut self, last: u32) -> Command {
        let (member, reference) = self.new_name();
        let side = self.draws.side();
        let kind = if self.draws.is_one_in(4) {
            Kind::Market
        } else {
            Kind::Limit(self.limit(last))
        };
        Command::Enter {
            member,
            reference,
            side,
            kind,
            quantity: self.number(1, 6),
            validity: self.validity(),
            restriction: self.restriction(),
            condition: self.draws.condition(12, self.book_or_cancel),
        }
    }

    /// A stop whose trigger is near the last price, and seldom at it, most often free and plain, as it must be.
    fn stop(&mut self, last: u32) -> Command {
        let (member, reference) = self.new_name();
        let side = self.draws.side();
        let ticks = self.draws.below(5);
        let trigger = match side {
            Side::Buy => last.wrapping_add(ticks),
            Side::Sell => last.saturating_sub(ticks),
        };
        let kind = if self.draws.is_one_in(2) {
            Kind::StopMarket(trigger)
        } else {
            let limit = self.limit(trigger);
            Kind::StopLimit { trigger, limit }
        };
        Command::Enter {
            member,
            reference,
            side,
            kind,
            quantity: self.number(1, 6),
            validity: self.validity(),
            restriction: match self.draws.below(BAD) {
                0 => Restriction::AuctionsOnly,
                _ => Restriction::Free,
            },
            condition: self.draws.condition(BAD, self.book_or_cancel),
        }
    }

    /// The name of an order or a stop that was entered not long ago; it may be gone, and some names were never used.
    fn name(&mut self) -> (u32, u32) {
        if self.draws.is_one_in(BAD) {
            return (self.draws.below(MEMBERS + 1), u32::MAX);
        }
        let reference = self.entered.saturating_sub(self.draws.below(20));
        (reference % MEMBERS, reference)
    }

    /// A name for an entry, which may be used already.
    fn new_name(&mut self) -> (u32, u32) {
        if self.draws.is_one_in(BAD) {
            return self.name();
        }
        self.entered = self.entered.wrapping_add(1);
        (self.entered % MEMBERS, self.entered)
    }

    /// A limit near a price.
    fn limit(&mut self, near: u32) -> u32 {
        self.number(near.saturating_sub(3), 7)
    }

    /// One of so many numbers, from this one on, or one that is out of range.
    fn number(&mut self, first: u32, numbers: u32) -> u32 {
        let number = self.draws.from(first, numbers);
        if !self.draws.is_one_in(BAD) {
            number
        } else if self.draws.is_one_in(2) {
            0
        } else {
            MAX_NUMBER + 1
        }
    }

    /// A restriction, of few orders.
    fn restriction(&mut self) -> Restriction {
        if !self.draws.is_one_in(8) {
            return Restriction::Free;
        }
        match self.draws.below(8) {
            0 => Restriction::OpeningOnly,
            1 => Restriction::AuctionsOnly,
            2 => Restriction::ClosingOnly,
            _ => Restriction::Free,
        }
    }

    fn validity(&mut self) -> Validity {
        if self.draws.is_one_in(BAD) {
            Validity::TillDate(TODAY - 1)
        } else {
            self.draws.validity()
        }
    }
}
