//! The settings of a security for its day.
ghost use Rattle.std.specs.Prelude.{ℕ, ◌≡◌, ◌≤◌, IfOk, true};
ghost use Rattle.xm_rules.specs.Opening.{are_carriable};
ghost use Rattle.xm_rules.specs.Settings.{are_widths, is_width};
ghost use Rattle.xm_rules.specs.State.{inside_both, inside_wide};
ghost use Rattle.xm_rules.specs.Step.{stage_after};
ghost use Rattle.xm_ticks.specs.declared.ranges.TheConstants.{MAX_WIDTH};

use crate::carried::Carried;
use crate::phases::CallStage;
use xm_memory::OutOfMemory;
use xm_ticks::{JournalLimit, MAX_WIDTH, Price, TickSize, inside};

/// The widths of the price ranges in thousandths of their reference price. A desk opens only with
/// each within 1 to `MAX_WIDTH` and `dynamic` below `wide`.
#[derive(Clone, Copy, PartialEq, Eq, Hash, Debug)]
pub struct Widths {
    /// Of the range around the price of the last trade.
    pub dynamic: u32,
    /// Of the range around the price of the last auction trade of the day.
    pub statics: u32,
    /// Of the range around the price of the last trade that an interrupted call is held to.
    pub wide: u32,
}

impl Widths {
    /// Whether each is 1 to `MAX_WIDTH` thousandths and the dynamic range is narrower than the wide one.
    pub fn are_widths(&self) -> bool
        ensures { result ≡ are_widths self.now }
    {
        is_width(self.dynamic)
            && is_width(self.statics)
            && is_width(self.wide)
            && self.dynamic < self.wide
    }

    /// Whether a price is inside both the dynamic range, around the price of the last trade, and the static range, around
    /// that of the last auction trade. The edges are inside.
    pub fn is_inside_both(&self, ref1: Price, ref2: Price, price: Price) -> bool
        requires dynamic { self.now.dynamic ≤ MAX_WIDTH }
        requires statics { self.now.statics ≤ MAX_WIDTH }
        ensures { result ≡ inside_both (record { ref1 = ref1; ref2 = ref2; widths = self.now }) price }
    {
        inside(price, ref1, self.dynamic) && inside(price, ref2, self.statics)
    }

    /// Whether a price is inside the wide range around the price of the last trade, whatever that of the last auction
    /// trade. The edges are inside.
    pub fn is_inside_wide(&self, ref1: Price, price: Price) -> bool
        requires { self.now.wide ≤ MAX_WIDTH }
        ensures { (ref2 : ℕ) → result ≡ inside_wide (record { ref1 = ref1; ref2 = ref2; widths = self.now }) price }
    {
        inside(price, ref1, self.wide)
    }

    /// The stage in which a call goes on whose price is outside a range that its stage asks; nothing where it is inside
    /// each, and the call ends.
    pub fn stage_after(
        &self,
        ref1: Price,
        ref2: Price,
        stage: CallStage,
        price: Price,
    ) -> Option<CallStage>
        requires { are_widths self.now ≡ true }
        ensures { result ≡ stage_after (record { ref1 = ref1; ref2 = ref2; widths = self.now }) stage price }
    {
        match stage {
            CallStage::Ordinary => {
                if self.is_inside_both(ref1, ref2, price) {
                    None
                } else {
                    Some(CallStage::Interrupted)
                }
            }
            CallStage::Interrupted => {
                if self.is_inside_wide(ref1, price) {
                    None
                } else {
                    Some(CallStage::Extended)
                }
            }
            CallStage::Extended => None,
        }
    }
}

/// Whether a width is 1 to `MAX_WIDTH` thousandths.
fn is_width(width: u32) -> bool
    ensures { result ≡ is_width width }
{
    1 <= width && width <= MAX_WIDTH
}

/// How many commands a journal takes of the phases beyond its limit, which is that of members.
pub const PHASE_COMMANDS_MORE: u32 = 64;

/// The settings that a desk is opened with.
#[derive(Drop, Debug)]
pub struct DeskSettings {
    /// The date, as a number.
    pub today: u32,
    /// The number of members.
    pub members: u32,
    /// The size of a tick, the unit of all prices.
    pub tick: TickSize,
    /// The last price of a previous day, in ticks.
    pub reference: Price,
    /// The widths of the price ranges.
    pub widths: Widths,
    /// The number of commands up to which the journal takes those of members; those of the phases
    /// it takes up to `PHASE_COMMANDS_MORE` more.
    pub limit: JournalLimit,
    /// The orders and stops that earlier days left.
    pub carried: Carried,
}

impl DeskSettings {
    /// The same settings, with orders and stops of their own. It fails where a growth is refused.
    pub fn copied(&self) -> Result<DeskSettings, OutOfMemory>
        ensures { IfOk result (λ settings. settings ≡ self.now) }
    {
        let carried = self.carried.copied()?;
        Ok(DeskSettings {
            today: self.today,
            members: self.members,
            tick: self.tick,
            reference: self.reference,
            widths: self.widths,
            limit: self.limit,
            carried,
        })
    }

    /// Whether the security takes the orders and stops that earlier days left.
    pub fn are_carriable(&self) -> bool
        ensures { result ≡ are_carriable self.now }
    {
        self.carried.can_be_left(self.members)
    }
}
