//! The walk down the candidates of a call, from the highest limit on.
ghost use Rattle.std.specs.Prelude.{◌≡◌, ◌+◌, ◌<◌, ◌^◌, ℕ, IfOk, IfSome, None, option_map};
ghost use Rattle.xm_book.specs.Fronts.{better_of_two};
ghost use Rattle.xm_reasons.specs.Candidates.{candidate_rows};
ghost use Rattle.xm_reasons.specs.Walks.{IsNextRow, HasPassed, IsWalk, curve_of, supply_from, units_with};
ghost use Rattle.xm_reasons.specs.declared.walks.CurvePoint.{CurvePoint};
ghost use Rattle.xm_rules.specs.Step.{replay};

use crate::candidates::Candidate;
use std::alloc::Allocator;
use std::marker::Model;
use xm_desk::Desk;
use xm_memory::OutOfMemory;
use xm_rules::Side;
use xm_ticks::Price;

/// A limit of a side, with the units of the side that accept it.
#[derive(Clone, Copy)]
pub(crate) struct CurvePoint {
    limit: Price,
    units: u64,
}

/// The candidates of a desk's active orders with what accepts each, the highest first.
pub(crate) fn candidate_rows<A: Allocator + Copy>(
    alloc: A,
    desk: &Desk<A>,
) -> Result<Vec<Candidate, A>, OutOfMemory>
    ensures { IfOk result (λ rows. rows.items ≡ candidate_rows (replay desk.now)) }
{
    let mut walk = Walk::of(alloc, desk)?;
    let mut rows = Vec::new(alloc);
    while let Some(row) = walk.next(desk) {
        rows.push(row)?;
    }
    Ok(rows)
}

/// The limits of a side, the best one first, each with the units of the side that accept it.
fn curve<A: Allocator + Copy>(
    alloc: A,
    desk: &Desk<A>,
    side: Side,
) -> Result<Vec<CurvePoint, A>, OutOfMemory>
    ensures { IfOk result (λ points. points.items ≡ curve_of (replay desk.now) side None) }
{
    let _ = desk.accepted(); // A desk's journal is lawful,
    let _ = desk.settings().limit.get(); // and as long as a journal may be: so sums of units are in range.
    let mut points = Vec::new(alloc);
    let mut units = desk.market_sum(side);
    let mut limit = None;
    while let Some(level) = desk.level_after(side, limit) {
        units += level.1;
        points.push(CurvePoint {
            limit: level.0,
            units,
        })?;
        limit = Some(level.0);
    }
    Ok(points)
}

/// How far the candidates were walked down: the last one, and the units of the buys that accept it; the sells' limits below it, the
/// highest one apart.
struct Walk<A: Allocator> {
    last: Option<Price>,
    demand: u64,
    market_supply: u64,
    sell: Option<CurvePoint>,
    sells: Vec<CurvePoint, A>,
}

impl<A: Allocator> Drop for Walk<A> {
    fn drop(self) {
        let Walk {
            last: _,
            demand: _,
            market_supply: _,
            sell: _,
            sells: _sells,
        } = self;
    }
}

impl<A: Allocator> Model for Walk<A> {
    ghost use Rattle.xm_reasons.specs.Walks.{Walked};

    ghost Value = { Walked };

    ghost view = { λ w. record { last = w.last; demand = w.demand; market_supply = w.market_supply; sell = w.sell; sells = w.sells.items } };
}

impl<A: Allocator + Copy> Walk<A> {
    /// Before the highest candidate.
    fn of(alloc: A, desk: &Desk<A>) -> Result<Walk<A>, OutOfMemory>
        ensures start { IfOk result (λ walk. walk.last ≡ None) }
        ensures walk { IfOk result (IsWalk (replay desk.now)) }
    {
        let mut sells = curve(alloc, desk, Side::Sell)?;
        let sell = sells.pop();
        Ok(Walk {
            last: None,
            demand: desk.market_sum(Side::Buy),
            market_supply: desk.market_sum(Side::Sell),
            sell,
            sells,
        })
    }

    /// The next lower candidate, or nothing behind the lowest.
    fn next(&mut self, desk: &Desk<A>) -> Option<Candidate>
        requires { IsWalk (replay desk.now) self.old }
        ensures next { IsNextRow (replay desk.now) self.old.last result self.new.last }
        ensures walk { IsWalk (replay desk.now) self.new }
    {
        let _ = desk.accepted(); // As in `curve`.
        let _ = desk.settings().limit.get();
        let buy = desk.level_after(Side::Buy, self.last);
        let price = better_of(Side::Buy, limit_of_level(&buy), limit_of_point(&self.sell))?;
        let demand = units_with(self.demand, &buy, price);
        let supply = supply_from(&self.sell, self.market_supply);
        self.last = Some(price);
        self.demand = demand;
        self.pass(price);
        Some(Candidate {
            price,
            demand,
            supply,
        })
    }

    /// Leaves the highest of the sells' limits behind, where it is this price.
    fn pass(&mut self, price: Price)
        ensures { HasPassed price self.old self.new }
    {
        if let Some(point) = self.sell {
            if point.limit == price {
                self.sell = self.sells.pop();
            }
        }
    }
}

/// The better of two prices for a side, where there are two.
fn better_of(side: Side, first: Option<Price>, second: Option<Price>) -> Option<Price>
    ensures { result ≡ better_of_two side first second }
{
    match first {
        None => second,
        Some(p) => match second {
            None => Some(p),
            Some(q) => {
                if side.reaches(p.get(), q.get()) {
                    Some(p)
                } else {
                    Some(q)
                }
            }
        },
    }
}

/// The limit of a level.
fn limit_of_level(level: &Option<(Price, u64)>) -> Option<Price>
    ensures { result ≡ option_map (λ (l : ℕ × ℕ). l.0) level.now }
{
    match level {
        None => None,
        Some((limit, _)) => Some(*limit),
    }
}

/// The limit of a point.
fn limit_of_point(point: &Option<CurvePoint>) -> Option<Price>
    ensures { result ≡ option_map (λ (p : CurvePoint). p.limit) point.now }
{
    match point {
        None => None,
        Some(point) => Some(point.limit),
    }
}

/// So many units, with those of a level, where it has this price as its limit.
fn units_with(units: u64, level: &Option<(Price, u64)>, price: Price) -> u64
    requires { IfSome level.now (λ l. units + l.1 < 2 ^ 64) }
    ensures { result ≡ units_with units level.now price }
{
    match level {
        None => units,
        Some((limit, more)) => {
            if *limit == price {
                units + *more
            } else {
                units
            }
        }
    }
}

/// The units that accept the limit of a point, or those of the market orders where there is none.
fn supply_from(point: &Option<CurvePoint>, market: u64) -> u64
    ensures { result ≡ supply_from point.now market }
{
    match point {
        None => market,
        Some(point) => point.units,
    }
}
