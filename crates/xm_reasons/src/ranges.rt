//! The ranges that the stage of a call asks.
ghost use Rattle.std.specs.Prelude.{◌≡◌, ◌<◌, ◌≤◌, IfOk, true};
ghost use Rattle.xm_reasons.specs.AskedRanges.{range_answer, asked_range, asked_ranges, highest_inside, is_kept, lowest_inside, reach_of};
ghost use Rattle.xm_rules.specs.Settings.{are_widths};
ghost use Rattle.xm_ticks.specs.declared.ranges.TheConstants.{MAX_WIDTH};

use std::alloc::Allocator;
use xm_events::PriceRange;
use xm_memory::OutOfMemory;
use xm_rules::{CallStage, Widths};
use xm_ticks::{MAX_PRICE, Price, inside};

/// Whether a price keeps a range.
#[derive(Clone, Copy, PartialEq, Eq, Debug)]
pub enum RangeAnswer {
    /// The price is inside, or at an edge.
    Kept,
    /// It is outside.
    Left,
}

/// A range that the stage of a call asks, and whether the price of the call keeps it.
#[derive(Clone, Copy, PartialEq, Eq, Debug)]
pub struct AskedRange {
    pub range: PriceRange,
    /// The reference price that it is around, in ticks.
    pub around: Price,
    /// The lowest price inside, in ticks.
    pub low: Price,
    /// The highest price inside, in ticks.
    pub high: Price,
    /// Whether the price of the call keeps it.
    pub answer: RangeAnswer,
}

impl AskedRange {
    /// A range of this width, in thousandths, around a reference price, asked of a price.
    fn of(range: PriceRange, around: Price, width: u32, price: Price) -> AskedRange
        requires { width ≤ MAX_WIDTH }
        ensures { result ≡ asked_range range around width price }
    {
        AskedRange {
            range,
            around,
            low: lowest_inside(around, width),
            high: highest_inside(around, width),
            answer: range_answer(inside(price, around, width)),
        }
    }

    /// Whether the price of the call keeps it.
    pub fn is_kept(&self) -> bool
        ensures { result ≡ is_kept self.now }
    {
        match self.answer {
            RangeAnswer::Kept => true,
            RangeAnswer::Left => false,
        }
    }
}

/// The answer of a range with the price inside, or not.
fn range_answer(is_inside: bool) -> RangeAnswer
    ensures { result ≡ range_answer is_inside }
{
    if is_inside {
        RangeAnswer::Kept
    } else {
        RangeAnswer::Left
    }
}

/// How far the prices inside a range of this width, in thousandths, lie from its reference price at most, in ticks.
fn reach(around: Price, width: u32) -> u32
    requires { width ≤ MAX_WIDTH }
    ensures reach { result ≡ reach_of around width }
    ensures below { result < around }
{
    (u64::from(width) * u64::from(around.get()) / 1000) as u32
}

/// The lowest price inside a range of this width, in thousandths, around a reference price.
fn lowest_inside(around: Price, width: u32) -> Price
    requires { width ≤ MAX_WIDTH }
    ensures { result ≡ lowest_inside around width }
{
    Price::new(around.get() - reach(around, width)).unwrap()
}

/// The highest one.
fn highest_inside(around: Price, width: u32) -> Price
    requires { width ≤ MAX_WIDTH }
    ensures { result ≡ highest_inside around width }
{
    Price::new((around.get() + reach(around, width)).min(MAX_PRICE)).unwrap()
}

/// The ranges that a stage asks of the price of its call: an ordinary one the dynamic range, around the last price, and the static
/// range, around the last auction price; an interrupted one the wide range, around the last price; an extended one none. Of a call
/// without a price none is asked.
pub(crate) fn asked_ranges<A: Allocator>(
    alloc: A,
    widths: &Widths,
    last: Price,
    last_auction: Price,
    stage: CallStage,
    price: &Option<(Price, u64)>,
) -> Result<Vec<AskedRange, A>, OutOfMemory>
    requires { are_widths widths.now ≡ true }
    ensures { IfOk result (λ ranges. ranges.items ≡ asked_ranges (record { ref1 = last; ref2 = last_auction; widths = widths.now }) stage price.now) }
{
    let mut ranges = Vec::new(alloc);
    let Some((price, _)) = *price else {
        return Ok(ranges);
    };
    match stage {
        CallStage::Ordinary => {
            ranges.push(AskedRange::of(PriceRange::Dynamic, last, widths.dynamic, price))?;
            ranges.push(AskedRange::of(PriceRange::Static, last_auction, widths.statics, price))?;
        }
        CallStage::Interrupted => {
            ranges.push(AskedRange::of(PriceRange::Wide, last, widths.wide, price))?;
        }
        CallStage::Extended => {}
    }
    Ok(ranges)
}
