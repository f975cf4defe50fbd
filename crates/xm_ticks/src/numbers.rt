//! The numbers of the market model that have a range. A clause sees each as its number.
ghost use Rattle.std.specs.Prelude.{◌≡◌, ℕ, ◌≤◌, SomeIff};
ghost use Rattle.xm_ticks.specs.Ranges.{kept_between};
ghost use Rattle.xm_ticks.specs.declared.numbers.TheConstants.{MAX_PRICE, MAX_TICK_SIZE, MAX_JOURNAL_LIMIT};

use std::marker::Model;

/// The highest price, in ticks.
pub const MAX_PRICE: u32 = 1_000_000;

/// The highest quantity, in units.
pub const MAX_QUANTITY: u32 = 1_000_000;

/// The largest tick, in ten-thousandths of a euro.
pub const MAX_TICK_SIZE: u32 = 10_000;

/// The most commands of members that a journal takes.
pub const MAX_JOURNAL_LIMIT: u32 = 1_000_000;

/// A price, 1 to `MAX_PRICE` ticks of its security.
#[derive(Clone, Copy, PartialEq, Eq, PartialOrd, Ord, Hash, Debug)]
pub struct Price {
    ticks: u32,
}

impl Model for Price {
    ghost Value = { ℕ };

    ghost view = { λ p. p.ticks };

    ghost invariant = { λ p. (1 ≤ p.ticks) × (p.ticks ≤ MAX_PRICE) };

    ghost inverse = { λ n. record { ticks = n } };
}

impl Price {
    /// The price of this many ticks, if they are in range.
    pub fn new(ticks: u32) -> Option<Price>
        ensures { SomeIff result ((1 ≤ ticks) × (ticks ≤ MAX_PRICE)) ticks }
    {
        if (1..=MAX_PRICE).contains(&ticks) {
            Some(Price { ticks })
        } else {
            None
        }
    }

    /// The number of ticks.
    pub fn get(self) -> u32
        ensures value { result ≡ self }
        ensures low { 1 ≤ result }
        ensures high { result ≤ MAX_PRICE }
    {
        self.ticks
    }

    /// This price, kept between two others: the low one where it is no higher than that, the high one where it is no
    /// lower than that.
    pub fn kept_between(self, low: Price, high: Price) -> Price
        ensures { result ≡ kept_between low high self }
    {
        if self.ticks <= low.ticks {
            low
        } else if high.ticks <= self.ticks {
            high
        } else {
            self
        }
    }
}

/// The size of a tick, 1 to `MAX_TICK_SIZE` ten-thousandths of a euro.
#[derive(Clone, Copy, PartialEq, Eq, PartialOrd, Ord, Hash, Debug)]
pub struct TickSize {
    ten_thousandths: u32,
}

impl Model for TickSize {
    ghost Value = { ℕ };

    ghost view = { λ t. t.ten_thousandths };

    ghost invariant = { λ t. (1 ≤ t.ten_thousandths) × (t.ten_thousandths ≤ MAX_TICK_SIZE) };

    ghost inverse = { λ n. record { ten_thousandths = n } };
}

impl TickSize {
    /// A tick of one ten-thousandth of a euro, the finest that there is.
    pub const FINEST: TickSize = TickSize { ten_thousandths: 1 };

    /// The tick size of this many ten-thousandths of a euro, if they are in range.
    pub fn new(ten_thousandths: u32) -> Option<TickSize>
        ensures { SomeIff result ((1 ≤ ten_thousandths) × (ten_thousandths ≤ MAX_TICK_SIZE)) ten_thousandths }
    {
        if (1..=MAX_TICK_SIZE).contains(&ten_thousandths) {
            Some(TickSize { ten_thousandths })
        } else {
            None
        }
    }

    /// The number of ten-thousandths of a euro.
    pub fn get(self) -> u32
        ensures value { result ≡ self }
        ensures low { 1 ≤ result }
        ensures high { result ≤ MAX_TICK_SIZE }
    {
        self.ten_thousandths
    }
}

/// How many commands of members a journal takes, 1 to `MAX_JOURNAL_LIMIT`.
#[derive(Clone, Copy, PartialEq, Eq, PartialOrd, Ord, Hash, Debug)]
pub struct JournalLimit {
    commands: u32,
}

impl Model for JournalLimit {
    ghost Value = { ℕ };

    ghost view = { λ l. l.commands };

    ghost invariant = { λ l. (1 ≤ l.commands) × (l.commands ≤ MAX_JOURNAL_LIMIT) };

    ghost inverse = { λ n. record { commands = n } };
}

impl JournalLimit {
    /// The limit of this many commands, if they are in range.
    pub fn new(commands: u32) -> Option<JournalLimit>
        ensures { SomeIff result ((1 ≤ commands) × (commands ≤ MAX_JOURNAL_LIMIT)) commands }
    {
        if (1..=MAX_JOURNAL_LIMIT).contains(&commands) {
            Some(JournalLimit { commands })
        } else {
            None
        }
    }

    /// The number of commands.
    pub fn get(self) -> u32
        ensures value { result ≡ self }
        ensures low { 1 ≤ result }
        ensures high { result ≤ MAX_JOURNAL_LIMIT }
    {
        self.commands
    }
}
