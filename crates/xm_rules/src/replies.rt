//! What a desk answers.
ghost use Rattle.std.specs.Prelude.{◌≡◌};

use crate::phases::Phase;
use xm_memory::OutOfMemory;
use xm_ticks::Price;

/// How many refusals there are.
pub const REFUSALS: usize = 15;

/// Why a command is refused, in the order of the checks, in which `WouldExecute` stands before `JournalFull`. A refusal changes
/// nothing.
#[derive(Clone, Copy, PartialEq, Eq, Hash, Debug)]
pub enum Refusal {
    /// The index of the security is out of the segment.
    UnknownSecurity,
    /// The index of the member is out of the segment.
    UnknownMember,
    /// The day has ended.
    DayEnded,
    /// The quantity is 0 or above 1,000,000.
    BadQuantity,
    /// A limit or a trigger is 0 or above 1,000,000.
    BadPrice,
    /// The order would be valid till a date before today.
    BadValidity,
    /// An immediate-or-cancel, fill-or-kill or book-or-cancel order with a restriction or a stop, a
    /// book-or-cancel market order, or a stop with a restriction.
    BadCombination,
    /// A command of the phases, or an immediate-or-cancel, fill-or-kill or book-or-cancel order, outside
    /// its phase.
    WrongPhase,
    /// The member has a live order or a held stop with this reference.
    DuplicateReference,
    /// The member has no live order and no held stop with this reference.
    UnknownOrder,
    /// A stop, or a limit given to a market order.
    NotChangeable,
    /// The reference price has already reached the trigger.
    TriggerReached,
    /// The journal has taken all the commands that it takes.
    JournalFull,
    /// A growth was refused.
    OutOfMemory(OutOfMemory),
    /// A book-or-cancel order that an active order of the other side would meet.
    WouldExecute,
}

impl From<OutOfMemory> for Refusal {
    ghost use Rattle.xm_rules.specs.declared.replies.Refusal.TheVariants.{OutOfMemory};

    ghost from_gives = { λ _ refusal. refusal ≡ OutOfMemory tt };

    fn from(error: OutOfMemory) -> Refusal {
        Refusal::OutOfMemory(error)
    }
}

impl Refusal {
    ghost use Rattle.std.specs.Prelude.{◌≡◌, ◌<◌};
    ghost use Rattle.xm_rules.specs.Refusals.{refusal_place};
    ghost use Rattle.xm_rules.specs.declared.replies.TheConstants.{REFUSALS};

    /// Its place among all, in the order of the variants.
    pub fn place(&self) -> usize
        ensures place { result ≡ refusal_place self.now }
        ensures within { result < REFUSALS }
    {
        match self {
            Refusal::UnknownSecurity => 0,
            Refusal::UnknownMember => 1,
            Refusal::DayEnded => 2,
            Refusal::BadQuantity => 3,
            Refusal::BadPrice => 4,
            Refusal::BadValidity => 5,
            Refusal::BadCombination => 6,
            Refusal::WrongPhase => 7,
            Refusal::DuplicateReference => 8,
            Refusal::UnknownOrder => 9,
            Refusal::NotChangeable => 10,
            Refusal::TriggerReached => 11,
            Refusal::JournalFull => 12,
            Refusal::OutOfMemory(_) => 13,
            Refusal::WouldExecute => 14,
        }
    }
}

/// The sums over trades, each of which counts once.
#[derive(Clone, Copy, PartialEq, Eq, Hash, Debug)]
pub struct Totals {
    /// In units.
    pub quantity: u64,
    /// In ticks times units.
    pub money: u64,
}

/// The reply to an accepted command.
#[derive(Clone, Copy, PartialEq, Eq, Hash, Debug)]
pub struct Reply {
    /// The number of accepted commands, with this one.
    pub version: u64,
    /// The number of trades before it.
    pub first_trade: u64,
    /// The number of its own trades.
    pub trades: u64,
    /// The quantity of its own trades in units.
    pub quantity: u64,
    /// The money of its own trades in ticks times units.
    pub money: u64,
    /// The phase after it.
    pub phase: Phase,
}

/// What is shown of a security to those who watch it.
#[derive(Clone, Copy, PartialEq, Eq, Hash, Debug)]
pub struct Quote {
    /// The number of accepted commands.
    pub version: u64,
    pub phase: Phase,
    /// The best limit of the active buy orders.
    pub best_buy: Option<Price>,
    /// The best limit of the active sell orders.
    pub best_sell: Option<Price>,
    /// The price of the last trade, or the opening reference.
    pub ref1: Price,
    /// The price of the last auction trade, or the opening reference.
    pub ref2: Price,
    /// The traded quantity so far in units.
    pub quantity: u64,
}
