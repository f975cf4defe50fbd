//! The commands of members in the shapes of real days. They are drawn beside a desk that takes them: limits follow the
//! market, cancellations name orders that live, and interruptions are ended.

use crate::draws::{Draws, STAGES};
use crate::loads::{LoadFault, Loaded, Opening};
use crate::records::is_interruption;
use std::alloc::Global;
use xm_rules::{
    Auction, CallStage, Command, Condition, Kind, Phase, Refusal, Reply, Restriction, Side, Widths,
};

/// How many members enter orders.
const MEMBERS: u32 = 100;

/// Where the generator begins.
const SEED: u64 = 20260107;

/// From how many orders on more leave than come: in continuous trading, and in a call.
const BOOK: usize = 2_000;

const CALL_BOOK: usize = 15_000;

/// Among how many of the last orders a young one is looked for.
const YOUNG: usize = 64;

/// After how many commands the book is counted.
const COUNT_EVERY: usize = 1_000;

/// The units of a lot.
const LOT: u32 = 10;

/// How many ticks behind the best limit of the other side quotes lie, at most; those at none would execute.
const QUOTED: u32 = 9;

/// The greatest distance of a limit that is drawn, in ticks.
const FARTHEST: u32 = 1_000;

/// What the desk of a day is opened with.
pub const OPENING: Opening = Opening {
    members: MEMBERS,
    reference: 10_000,
    widths: Widths {
        dynamic: 50,
        statics: 150,
        wide: 100,
    },
    limit: 1_000_000,
};

/// How orders come.
#[derive(Clone, Copy)]
pub enum Shape {
    /// More than nine of ten orders rest, and most are cancelled.
    Passive,
    /// Many orders cross the spread.
    Crossing,
    /// Large calls, one after the other.
    Auction,
    /// Orders of all restrictions and immediate ones, in continuous trading and in few calls.
    Mixed,
    /// Book-or-cancel orders quote both sides, and are cancelled and changed, while other orders cross the spread.
    Quoting,
}

/// The shapes with their names.
pub const SHAPES: [(Shape, &str); 5] = [
    (Shape::Passive, "passive"),
    (Shape::Crossing, "crossing"),
    (Shape::Auction, "auction"),
    (Shape::Mixed, "mixed"),
    (Shape::Quoting, "quoting"),
];

impl Shape {
    /// One in how many commands of continuous trading starts a call; in none of 0.
    fn commands_between_calls(self) -> u32 {
        match self {
            Shape::Auction => 1,
            Shape::Mixed => 30_000,
            _ => 0,
        }
    }

    /// One in how many commands of a call ends it. What was interrupted or extended ends soon.
    fn commands_in_call(self, stage: CallStage) -> u32 {
        match (self, stage) {
            (Shape::Auction, CallStage::Ordinary) => 3_000,
            (_, CallStage::Ordinary) => 500,
            _ => 10,
        }
    }
}

/// What drawn commands did.
#[derive(Drop)]
pub struct Course {
    pub accepted: u64,
    pub trades: u64,
    /// Orders that came in and traded.
    pub trading: u64,
    pub interruptions: u64,
    /// Immediate orders.
    pub immediate: u64,
    /// Immediate orders of which units were deleted.
    pub killed: u64,
    /// Ends of the stages of calls.
    pub uncrosses: u64,
    /// The largest number of live orders.
    pub book: u64,
    /// Book-or-cancel orders that joined the book.
    pub quotes: u64,
    /// Those that were refused since they would execute.
    pub refused: u64,
}

/// Whether nothing of an order on this condition joins the book.
fn is_immediate(condition: Condition) -> bool {
    matches!(condition, Condition::Ioc | Condition::Fok)
}

impl Course {
    fn add(&mut self, command: &Command, reply: &Reply) {
        self.accepted = self.accepted.wrapping_add(1);
        match command {
            Command::Enter {
                quantity,
                condition,
                ..
            } => {
                let is_immediate = is_immediate(*condition);
                let is_killed = is_immediate && reply.quantity < u64::from(*quantity);
                self.trading = self.trading.wrapping_add(u64::from(reply.trades > 0));
                self.immediate = self.immediate.wrapping_add(u64::from(is_immediate));
                self.killed = self.killed.wrapping_add(u64::from(is_killed));
                let is_quote = condition.is_book_or_cancel();
                self.quotes = self.quotes.wrapping_add(u64::from(is_quote));
            }
            Command::Uncross => self.uncrosses = self.uncrosses.wrapping_add(1),
            _ => {}
        }
    }
}

/// The commands of a day.
pub struct Flow {
    shape: Shape,
    draws: Draws,
    /// The member and reference of the orders that were entered and may live.
    names: Vec<(u32, u32)>,
    /// How many orders were entered.
    entered: u32,
    pub commands: Vec<Command>,
    pub course: Course,
    /// Whether memory sufficed for all.
    pub is_whole: bool,
}

// In a function of its own, so that whoever drops one proves one call.
impl Drop for Flow {
    fn drop(self) {
        let Flow {
            shape: _shape,
            draws: _draws,
            names: _names,
            entered: _entered,
            commands: _commands,
            course: _course,
            is_whole: _is_whole,
        } = self;
    }
}

impl Flow {
    pub fn new(alloc: Global, shape: Shape) -> Flow {
        Flow {
            shape,
            draws: Draws::new(SEED),
            names: Vec::new(alloc),
            entered: 0,
            commands: Vec::new(alloc),
            course: Course {
                accepted: 0,
                trades: 0,
                trading: 0,
                interruptions: 0,
                immediate: 0,
                killed: 0,
                uncrosses: 0,
                book: 0,
                quotes: 0,
                refused: 0,
            },
            is_whole: true,
        }
    }

    /// Whether so many of the commands were accepted, as when they were drawn.
    pub fn checked(&self, accepted: u32) -> Result<(), LoadFault> {
        if u64::from(accepted) == self.course.accepted {
            Ok(())
        } else {
            Err(LoadFault)
        }
    }

    /// Draws about so many commands, from pre-trading to the end of the day.
    pub fn day(&mut self, loaded: &mut Loaded, commands: u32) {
        for _command in 0..(commands / 20).min(400) {
            let command = self.passive(loaded);
            self.give(loaded, command);
        }
        self.give(loaded, Command::StartOpening);
        // The opening call ends at once where there are no other calls.
        if !matches!(self.shape, Shape::Auction) {
            self.uncross(loaded);
        }
        for _command in 0..commands {
            let command = self.step(loaded);
            self.give(loaded, command);
        }
        self.uncross(loaded);
        self.give(loaded, Command::StartClosing);
        self.uncross(loaded);
        self.give(loaded, Command::EndDay);
        self.course.trades = loaded.trades().len() as u64;
    }

    /// Ends a call, stage after stage.
    fn uncross(&mut self, loaded: &mut Loaded) {
        for _stage in 0..STAGES {
            if loaded.is_in_call() {
                self.give(loaded, Command::Uncross);
            }
        }
    }

    /// Gives the desk a command, and keeps it: a refusal is part of the load.
    fn give(&mut self, loaded: &mut Loaded, command: Command) {
        let was_in_call = loaded.is_in_call();
        match loaded.apply(&command) {
            Ok(reply) => self.course.add(&command, &reply),
            Err(Refusal::WouldExecute) => {
                self.course.refused = self.course.refused.wrapping_add(1);
            }
            Err(_) => {}
        }
        let is_interrupted = !was_in_call && is_interruption(loaded.phase());
        self.course.interruptions = self
            .course
            .interruptions
            .wrapping_add(u64::from(is_interrupted));
        if self.commands.len() % COUNT_EVERY == 0 {
            self.count_orders(loaded);
        }
        self.keep(command);
    }

    fn count_orders(&mut self, loaded: &Loaded) {
        match loaded.orders() {
            Ok(orders) => self.course.book = self.course.book.max(orders.len() as u64),
            Err(LoadFault) => self.is_whole = false,
        }
    }

    /// Keeps a command, and the name that it enters.
    fn keep(&mut self, command: Command) {
        if let Command::Enter {
            member,
            reference,
            ..
        } = command
        {
            self.is_whole = self.names.push((member, reference)).is_ok() && self.is_whole;
        }
        self.is_whole = self.commands.push(command).is_ok() && self.is_whole;
    }

    fn step(&mut self, loaded: &Loaded) -> Command {
        match loaded.phase() {
            Phase::Call(_, stage) if self.draws.is_one_in(self.shape.commands_in_call(stage)) => {
                Command::Uncross
            }
            Phase::Call(Auction::Interruption, _) => self.passive(loaded),
            Phase::Call(_, _) => self.call(loaded),
            _ => self.trade(loaded),
        }
    }

    /// A command of continuous trading.
    fn trade(&mut self, loaded: &Loaded) -> Command {
        let commands = self.shape.commands_between_calls();
        if commands > 0 && self.draws.is_one_in(commands) {
            return Command::StartIntraday;
        }
        match self.shape {
            Shape::Passive => self.passive(loaded),
            Shape::Crossing => self.crossing(loaded),
            Shape::Auction | Shape::Mixed => self.mixed(loaded),
            Shape::Quoting => self.quoting(loaded),
        }
    }

    fn passive(&mut self, loaded: &Loaded) -> Command {
        match self.draws.below(100) {
            0..=1 => {
                let lots = self.draws.from(1, 10);
                self.cross(loaded, 0, lots, Condition::Plain)
            }
            2..=11 => self.change(loaded, None),
            12..=49 => self.cancel(loaded),
            50..=61 if self.names.len() >= BOOK => self.cancel(loaded),
            _ => {
                let far = if self.draws.is_one_in(20) { 150 } else { 6 };
                self.rest(loaded, far, Restriction::Free)
            }
        }
    }

    fn crossing(&mut self, loaded: &Loaded) -> Command {
        match self.draws.below(100) {
            0..=7 => self.cancel(loaded),
            8..=49 => {
                let lots = self.draws.from(1, 30);
                self.cross(loaded, 3, lots, Condition::Plain)
            }
            _ => self.rest(loaded, 3, Restriction::Free),
        }
    }

    fn mixed(&mut self, loaded: &Loaded) -> Command {
        match self.draws.below(1_000) {
            0 => Command::CancelAll {
                member: self.draws.below(MEMBERS),
            },
            1..=9 => Command::Cancel {
                member: self.draws.below(MEMBERS),
                reference: u32::MAX,
            },
            10..=24 => self.cross_at_once(loaded),
            25..=59 => {
                let restriction = if self.draws.is_one_in(2) {
                    Restriction::AuctionsOnly
                } else {
                    Restriction::ClosingOnly
                };
                self.rest(loaded, 10, restriction)
            }
            60..=259 => self.crossing(loaded),
            _ => self.passive(loaded),
        }
    }

    /// Quotes lie behind the best limit of the other side; an order of that side that is changed to such a limit may trade.
    fn quoting(&mut self, loaded: &Loaded) -> Command {
        let side = self.draws.side();
        let ticks = self.draws.below(QUOTED + 1);
        let limit = worse(side, loaded.touch(side.opposite()), ticks);
        let lots = self.draws.from(1, 20);
        match self.draws.below(100) {
            0..=9 => self.cross(loaded, 3, lots, Condition::Plain),
            10..=29 => self.cancel(loaded),
            30..=39 => self.change(loaded, Some(limit)),
            40..=61 if self.names.len() >= BOOK => self.cancel(loaded),
            _ => {
                let kind = Kind::Limit(limit);
                self.enter(side, kind, lots, Restriction::Free, Condition::Boc)
            }
        }
    }

    /// A command in a call: orders of both sides lie around the last price.
    fn call(&mut self, loaded: &Loaded) -> Command {
        match self.draws.below(100) {
            0..=3 => self.change(loaded, None),
            4..=19 => self.cancel(loaded),
            20..=44 if self.names.len() >= CALL_BOOK => self.cancel(loaded),
            _ => self.enter_in_call(loaded.last_price()),
        }
    }

    fn enter_in_call(&mut self, last: u32) -> Command {
        let above = self.draws.below(61).wrapping_add(self.draws.below(61));
        let kind = if self.draws.is_one_in(12) {
            Kind::Market
        } else {
            Kind::Limit(last.saturating_sub(60).saturating_add(above))
        };
        let restriction = match self.draws.below(100) {
            0..=14 => Restriction::AuctionsOnly,
            15..=16 => Restriction::ClosingOnly,
            _ => Restriction::Free,
        };
        let (side, lots) = (self.draws.side(), self.draws.from(1, 20));
        self.enter(side, kind, lots, restriction, Condition::Plain)
    }

    /// An order that rests, about so many ticks behind the best limit of its side.
    fn rest(&mut self, loaded: &Loaded, far: u32, restriction: Restriction) -> Command {
        let side = self.draws.side();
        let kind = Kind::Limit(self.limit_behind(loaded, side, far));
        let lots = self.draws.from(1, 20);
        self.enter(side, kind, lots, restriction, Condition::Plain)
    }

    /// An immediate order that crosses the spread.
    fn cross_at_once(&mut self, loaded: &Loaded) -> Command {
        let lots = self.draws.from(1, 20);
        let condition = if self.draws.is_one_in(2) {
            Condition::Ioc
        } else {
            Condition::Fok
        };
        self.cross(loaded, 2, lots, condition)
    }

    /// An order of so many lots that crosses the spread, by up to so many ticks.
    fn cross(&mut self, loaded: &Loaded, deep: u32, lots: u32, condition: Condition) -> Command {
        let side = self.draws.side();
        let kind = if !is_immediate(condition) && self.draws.is_one_in(7) {
            Kind::Market
        } else {
            let other = side.opposite();
            let deeper = self.draws.below(deep.wrapping_add(1));
            Kind::Limit(worse(other, loaded.touch(other), deeper))
        };
        self.enter(side, kind, lots, Restriction::Free, condition)
    }

    /// A limit about so many ticks behind the best one of its side, or before it where the spread is wide.
    fn limit_behind(&mut self, loaded: &Loaded, side: Side, far: u32) -> u32 {
        let best = loaded.touch(side);
        let spread = best.abs_diff(loaded.touch(side.opposite()));
        let closer = if spread > 1 && self.draws.is_one_in(3) {
            self.draws.from(1, spread - 1)
        } else {
            0
        };
        let distance = self.distance(far);
        worse(side, worse(side.opposite(), best, closer), distance)
    }

    /// A number of ticks of about this mean, small ones most often.
    fn distance(&mut self, mean: u32) -> u32 {
        for distance in 0..FARTHEST {
            if self.draws.is_one_in(mean.wrapping_add(1)) {
                return distance;
            }
        }
        FARTHEST
    }

    fn cancel(&mut self, loaded: &Loaded) -> Command {
        match self.live(loaded) {
            Some(place) if place < self.names.len() => {
                let (member, reference) = self.names.swap_remove(place);
                Command::Cancel { member, reference }
            }
            _ => self.rest(loaded, 6, Restriction::Free),
        }
    }

    /// A change of the quantity, which is less in most cases, and of the limit where one is given.
    fn change(&mut self, loaded: &Loaded, limit: Option<u32>) -> Command {
        match self.live(loaded) {
            Some(place) if place < self.names.len() => {
                let (member, reference) = self.names[place];
                let quantity = self.draws.from(1, 10).wrapping_mul(LOT);
                Command::Change {
                    member,
                    reference,
                    quantity,
                    limit,
                }
            }
            _ => self.rest(loaded, 6, Restriction::Free),
        }
    }

    /// The place of the name of a live order, in half of the cases of a young one. The names that were met of orders that
    /// are gone are forgotten.
    fn live(&mut self, loaded: &Loaded) -> Option<usize> {
        for _name in 0..self.names.len() {
            let place = self.place();
            let (member, reference) = *self.names.get(place)?;
            if loaded.is_live(member, reference) {
                return Some(place);
            }
            self.names.swap_remove(place);
        }
        None
    }

    /// The place of a name, in half of the cases among the last ones.
    fn place(&mut self) -> usize {
        let names = self.names.len();
        let from = if self.draws.is_one_in(2) {
            names.saturating_sub(YOUNG)
        } else {
            0
        };
        let span = (names - from).min(u32::MAX as usize) as u32;
        from.wrapping_add(self.draws.below(span) as usize)
    }

    /// An entry of so many lots under a new name.
    fn enter(
        &mut self,
        side: Side,
        kind: Kind,
        lots: u32,
        restriction: Restriction,
        condition: Condition,
    ) -> Command {
        let member = self.draws.below(MEMBERS);
        self.entered = self.entered.wrapping_add(1);
        Command::Enter {
            member,
            reference: self.entered,
            side,
            kind,
            quantity: lots.wrapping_mul(LOT),
            validity: self.draws.validity(),
            restriction,
            condition,
        }
    }
}

/// A limit that is worse for its side by so many ticks: lower for a buy.
fn worse(side: Side, limit: u32, ticks: u32) -> u32 {
    match side {
        Side::Buy => limit.saturating_sub(ticks),
        Side::Sell => limit.saturating_add(ticks),
    }
}
