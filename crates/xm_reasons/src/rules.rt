//! The rule that decides the price of a call.
ghost use Rattle.std.specs.Prelude.{◌≡◌, Contains};
ghost use Rattle.xm_reasons.specs.RowRules.{better_than, between_all, group_prices, is_in_group, is_preferred_to, leader_of, preferred_of, rule_beside, rule_by_surplus};
ghost use Rattle.xm_reasons.specs.Rules.{is_one_price};
ghost use Rattle.xm_rules.specs.Sides.{best};

use crate::candidates::Candidate;
use xm_rules::Side;
use xm_ticks::Price;

/// The rule that decides the price of a call: the first of these that leaves one price, or none.
#[derive(Clone, Copy, PartialEq, Eq, Debug)]
pub enum PriceRule {
    /// Nothing can be executed: neither at any candidate, nor at the last price where there is no candidate. There is no price.
    NothingExecutable,
    /// No order has a limit: the price is the last price.
    NoLimit,
    /// One candidate has the greatest volume.
    MostVolume,
    /// Of those that have it, one has the least surplus.
    LeastSurplus,
    /// Each of these has a surplus of buys: the price is the highest.
    HighestOfBuys,
    /// Each has a surplus of sells: the price is the lowest.
    LowestOfSells,
    /// None has a surplus, or some have one of buys and some one of sells: the price is the last price, kept between the two: the
    /// lowest and the highest, or the highest with a surplus of buys and the lowest with one of sells.
    LastPriceBetween { low: Price, high: Price },
}

/// Some of the candidates, beside one that no other is better than.
#[derive(Clone, Copy)]
enum Group {
    /// Those of its volume.
    OfVolume,
    /// Of these, those of its surplus on either side.
    OfSurplus,
    /// Of these, those with a surplus on a side.
    OnSide(Side),
}

impl Group {
    /// Whether a candidate is one of them.
    fn has(self, leader: &Candidate, row: &Candidate) -> bool
        ensures { result ≡ is_in_group leader.now self row.now }
    {
        match self {
            Group::OfVolume => row.volume() == leader.volume(),
            Group::OfSurplus => is_level(row, leader),
            Group::OnSide(side) => is_level(row, leader) && 0 < row.surplus_on(side),
        }
    }
}

/// Whether two candidates have the same volume, and the same surplus on either side.
fn is_level(row: &Candidate, leader: &Candidate) -> bool
    ensures { result ≡ is_in_group leader.now Group.OfSurplus row.now }
{
    row.volume() == leader.volume() && row.absolute_surplus() == leader.absolute_surplus()
}

/// Whether a candidate has more volume than another, or as much and less surplus.
fn is_preferred(row: &Candidate, other: &Candidate) -> bool
    ensures { result ≡ is_preferred_to other.now row.now }
{
    other.volume() < row.volume()
        || (other.volume() == row.volume() && row.absolute_surplus() < other.absolute_surplus())
}

/// A candidate of the greatest volume and, of these, of the least surplus: the first one of several.
pub(crate) fn leader(rows: &[Candidate]) -> Option<Candidate>
    ensures { result ≡ leader_of rows.now }
{
    let mut leader = None;
    for row in rows {
        leader = Some(preferred(leader, row));
    }
    leader
}

/// The one of two that is preferred.
fn preferred(leader: Option<Candidate>, row: &Candidate) -> Candidate
    ensures { result ≡ preferred_of leader row.now }
{
    match leader {
        None => *row,
        Some(leader) => {
            if is_preferred(row, &leader) {
                *row
            } else {
                leader
            }
        }
    }
}

/// Of the candidates of a group, the best price for a side: the highest for buys, the lowest for sells.
fn best_price(rows: &[Candidate], leader: &Candidate, group: Group, side: Side) -> Option<Price>
    ensures { result ≡ best side (group_prices leader.now group rows.now) }
{
    let mut best = None;
    for row in rows {
        if group.has(leader, row) {
            best = Some(better(side, best, row.price));
        }
    }
    best
}

/// The better of two prices for a side, where there are two.
fn better(side: Side, best: Option<Price>, price: Price) -> Price
    ensures { result ≡ better_than side best price }
{
    match best {
        None => price,
        Some(best) => {
            if side.reaches(best.get(), price.get()) {
                best
            } else {
                price
            }
        }
    }
}

/// Whether the candidates of a group are one price.
fn is_one_price(rows: &[Candidate], leader: &Candidate, group: Group) -> bool
    ensures { result ≡ is_one_price (group_prices leader.now group rows.now) }
{
    match best_price(rows, leader, group, Side::Buy) {
        None => true,
        Some(highest) => match best_price(rows, leader, group, Side::Sell) {
            None => false,
            Some(lowest) => highest == lowest,
        },
    }
}

/// The rule that decides between candidates, beside one that no other is preferred to.
pub(crate) fn decide(rows: &[Candidate], leader: &Candidate) -> PriceRule
    requires { Contains rows.now leader.now }
    ensures { result ≡ rule_beside leader.now rows.now }
{
    if leader.volume() == 0 {
        return PriceRule::NothingExecutable;
    }
    if is_one_price(rows, leader, Group::OfVolume) {
        return PriceRule::MostVolume;
    }
    if is_one_price(rows, leader, Group::OfSurplus) {
        return PriceRule::LeastSurplus;
    }
    decide_by_surplus(rows, leader)
}

/// The rule that decides between several of the same volume and surplus.
fn decide_by_surplus(rows: &[Candidate], leader: &Candidate) -> PriceRule
    requires { Contains rows.now leader.now }
    ensures { result ≡ rule_by_surplus leader.now rows.now }
{
    let of_buys = best_price(rows, leader, Group::OnSide(Side::Buy), Side::Buy);
    let of_sells = best_price(rows, leader, Group::OnSide(Side::Sell), Side::Sell);
    match of_buys {
        None => match of_sells {
            None => between_all(rows, leader),
            Some(_) => PriceRule::LowestOfSells,
        },
        Some(low) => match of_sells {
            None => PriceRule::HighestOfBuys,
            Some(high) => PriceRule::LastPriceBetween { low, high },
        },
    }
}

/// The last price, kept between the lowest and the highest of the same volume and surplus.
fn between_all(rows: &[Candidate], leader: &Candidate) -> PriceRule
    requires { Contains rows.now leader.now }
    ensures { result ≡ between_all leader.now rows.now }
{
    PriceRule::LastPriceBetween {
        low: best_price(rows, leader, Group::OfSurplus, Side::Sell).unwrap(),
        high: best_price(rows, leader, Group::OfSurplus, Side::Buy).unwrap(),
    }
}
