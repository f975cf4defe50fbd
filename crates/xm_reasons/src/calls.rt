//! Why the price of a call is the price.
ghost use Rattle.std.specs.Prelude.{◌≡◌, ℕ, IfOk};
ghost use Rattle.xm_reasons.specs.Candidates.{candidate_rows};
ghost use Rattle.xm_reasons.specs.Reasons.{AreReasons, HasReasons};
ghost use Rattle.xm_reasons.specs.Rules.{decided_by};
ghost use Rattle.xm_rules.specs.Auction.{auction_price};
ghost use Rattle.xm_rules.specs.State.{State};
ghost use Rattle.xm_rules.specs.Step.{replay};
ghost use Rattle.xm_rules.specs.declared.phases.Phase.TheVariants.{Call};

use crate::candidates::Candidate;
use crate::ranges::{AskedRange, asked_ranges};
use crate::rules::{PriceRule, decide, leader};
use crate::walks::candidate_rows;
use std::alloc::Allocator;
use xm_desk::Desk;
use xm_memory::OutOfMemory;
use xm_rules::{Auction, CallStage, Phase};
use xm_ticks::Price;

/// Why the price of a call is the price, as if the call ended now.
#[derive(Drop, Debug)]
pub struct CallReasons<A: Allocator> {
    pub auction: Auction,
    pub stage: CallStage,
    /// The limits of the orders that take part, each once, the highest first, with what accepts each.
    pub candidates: Vec<Candidate, A>,
    /// The last price, in ticks: that of the last trade, or the opening reference.
    pub last: Price,
    /// The rule that decides the price.
    pub rule: PriceRule,
    /// The price, in ticks, and the units that can be executed at it; nothing where there is no price.
    pub price: Option<(Price, u64)>,
    /// The ranges that the stage asks of the price, in the order in which they are asked; none where there is no price.
    pub ranges: Vec<AskedRange, A>,
}

/// Why the price of the call of a desk is the price, if the call ended now; nothing outside a call. `OutOfMemory` where the growth of
/// a list was refused. The cost grows with the number of levels of active orders.
pub fn reasons<A: Allocator + Copy>(
    alloc: A,
    desk: &Desk<A>,
) -> Result<Option<CallReasons<A>>, OutOfMemory>
    ensures { IfOk result (HasReasons (replay desk.now)) }
{
    match desk.phase() {
        Phase::Call(auction, stage) => Ok(Some(call_reasons(alloc, desk, auction, stage)?)),
        _ => Ok(None),
    }
}

/// The same in a call.
fn call_reasons<A: Allocator + Copy>(
    alloc: A,
    desk: &Desk<A>,
    auction: Auction,
    stage: CallStage,
) -> Result<CallReasons<A>, OutOfMemory>
    requires { (replay desk.now).phase ≡ Call auction stage }
    ensures { IfOk result (AreReasons (replay desk.now)) }
{
    let candidates = candidate_rows(alloc, desk)?;
    let price = desk.indicative();
    let last = desk.ref1();
    let ranges = asked_ranges(alloc, &desk.widths(), last, desk.ref2(), stage, &price)?;
    let rule = deciding(&candidates, &price);
    Ok(CallReasons {
        auction,
        stage,
        candidates,
        last,
        rule,
        price,
        ranges,
    })
}

/// The rule that decides between the candidates of a call that has this price.
fn deciding(candidates: &[Candidate], price: &Option<(Price, u64)>) -> PriceRule
    ensures { (s : State) (last : ℕ) → candidates.now ≡ candidate_rows s → price.now ≡ auction_price s.phase s.orders last → result ≡ decided_by s.phase s.orders last }
{
    match leader(candidates) {
        Some(leader) => decide(candidates, &leader),
        None => match price {
            Some(_) => PriceRule::NoLimit,
            None => PriceRule::NothingExecutable,
        },
    }
}
