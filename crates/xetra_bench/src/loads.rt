//! A desk under load, and what loads have in common.

use std::alloc::Global;
use std::marker::Model;
use xm_desk::Desk;
use xm_name_index::Storage;
use xm_rules::{
    Carried, Command, DeskSettings, Order, Phase, Quote, Refusal, Reply, Side, Stop, Trade, Widths,
};
use xm_ticks::{JournalLimit, Price, TickSize};

/// The load did not run as it should, or could not be told.
#[derive(Clone, Copy)]
pub struct LoadFault;

pub const TODAY: u32 = 20260105;

/// In ten-thousandths of a euro.
const TICK: u32 = 100;

/// What a desk is opened with, beside what all have in common. The reference is in ticks.
#[derive(Clone, Copy)]
pub struct Opening {
    pub members: u32,
    pub reference: u32,
    pub widths: Widths,
    pub limit: u32,
}

impl Opening {
    pub fn settings(self) -> Option<DeskSettings> {
        Some(DeskSettings {
            today: TODAY,
            members: self.members,
            tick: TickSize::new(TICK)?,
            reference: Price::new(self.reference)?,
            widths: self.widths,
            limit: JournalLimit::new(self.limit)?,
            carried: Carried::none(),
        })
    }
}

/// A desk under load. A clause sees nothing of it: what follows what each call promises is long to prove, and a load
/// asks for none of it.
pub struct Loaded {
    desk: Desk<Global>,
}

// In a function of its own, so that whoever drops one proves one call.
impl Drop for Loaded {
    fn drop(self) {
        let Loaded { desk: _desk } = self;
    }
}

impl Model for Loaded {
    ghost Value = { Unit };

    ghost view = { λ _. tt };
}

impl Loaded {
    /// A desk without orders.
    pub fn open(alloc: Global, opening: Opening) -> Result<Loaded, LoadFault> {
        let settings = opening.settings().ok_or(LoadFault)?;
        match Desk::open(Storage::with_fixed_seed(alloc), settings) {
            Ok(desk) => Ok(Loaded { desk }),
            Err(_) => Err(LoadFault),
        }
    }

    /// Gives the desk a command, and answers its reply or its refusal. It is called and not inlined, so that whole answers are
    /// measured.
    #[inline(never)]
    pub fn apply(&mut self, command: &Command) -> Result<Reply, Refusal> {
        self.desk.apply(command)
    }

    /// Makes room for so many commands.
    pub fn reserve(&mut self, commands: usize) -> Result<(), LoadFault> {
        match self.desk.reserve(commands) {
            Ok(()) => Ok(()),
            Err(_) => Err(LoadFault),
        }
    }

    /// Gives the desk some commands, and answers how many it accepted.
    pub fn take(&mut self, commands: &[Command]) -> u32 {
        let mut accepted: u32 = 0;
        for command in commands {
            if self.apply(command).is_ok() {
                accepted = accepted.wrapping_add(1);
            }
        }
        accepted
    }

    pub fn quote(&self) -> Quote {
        self.desk.quote()
    }

    /// The live orders in time order.
    pub fn orders(&self) -> Result<Vec<Order>, LoadFault> {
        match self.desk.orders() {
            Ok(orders) => Ok(orders),
            Err(_) => Err(LoadFault),
        }
    }

    /// The held stops in order of entry.
    pub fn stops(&self) -> Result<Vec<Stop>, LoadFault> {
        match self.desk.stops() {
            Ok(stops) => Ok(stops),
            Err(_) => Err(LoadFault),
        }
    }

    pub fn trades(&self) -> &[Trade] {
        self.desk.trades()
    }

    pub fn phase(&self) -> Phase {
        self.desk.phase()
    }

    pub fn is_in_call(&self) -> bool {
        matches!(self.desk.phase(), Phase::Call(_, _))
    }

    /// Whether a member has a live order of this reference.
    pub fn is_live(&self, member: u32, reference: u32) -> bool {
        let cancel = Command::Cancel { member, reference };
        self.desk.refusal_of(&cancel).is_none()
    }

    /// The best limit of a side, or the last price, in ticks.
    pub fn touch(&self, side: Side) -> u32 {
        match self.desk.best(side) {
            None => self.last_price(),
            Some(limit) => limit.get(),
        }
    }

    /// The price of the last trade, or the opening reference, in ticks.
    pub fn last_price(&self) -> u32 {
        self.desk.ref1().get()
    }
}
