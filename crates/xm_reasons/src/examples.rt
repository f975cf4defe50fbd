//! Worked examples of the reasons of calls.
#![tactic(auto)]

ghost use Rattle.std.specs.Prelude.{◌≡◌, [], ◌∷◌, Some, None};
ghost use Rattle.xm_events.specs.declared.events.PriceRange.TheVariants.{Dynamic, Static, Wide};
ghost use Rattle.xm_reasons.specs.AskedRanges.{asked_ranges};
ghost use Rattle.xm_reasons.specs.Candidates.{descending, surplus_of};
ghost use Rattle.xm_reasons.specs.Examples.{market_orders, range_of, row, rows_in_call, rule_of, two_surpluses};
ghost use Rattle.xm_reasons.specs.Rules.{price_by};
ghost use Rattle.xm_reasons.specs.declared.ranges.RangeAnswer.TheVariants.{Kept, Left};
ghost use Rattle.xm_reasons.specs.declared.rules.PriceRule.TheVariants.{NothingExecutable, NoLimit, MostVolume, LeastSurplus, HighestOfBuys, LowestOfSells, LastPriceBetween};
ghost use Rattle.xm_rules.specs.Examples.{buy, crossed_orders, four_candidates, four_orders, order, queued_orders, ranges_around, sell};
ghost use Rattle.xm_rules.specs.declared.orders.OrderKind.TheVariants.{Market};
ghost use Rattle.xm_rules.specs.declared.orders.Side.TheVariants.{Buy, Sell};
ghost use Rattle.xm_rules.specs.declared.phases.CallStage.TheVariants.{Ordinary, Interrupted, Extended};

/// The limits stand once each, the highest first, with the units of the buys and of the sells that accept them.
pub fn candidates_stand_the_highest_first()
    ensures order { descending (100 ∷ 102 ∷ 101 ∷ 102 ∷ 100 ∷ []) ≡ 102 ∷ 101 ∷ 100 ∷ [] }
    ensures four { rows_in_call four_orders ≡ row 102 30 50 ∷ row 101 70 50 ∷ row 100 70 20 ∷ [] }
    ensures of_both_sides { rows_in_call crossed_orders ≡ row 100 10 15 ∷ row 90 15 10 ∷ [] }
    ensures with_market_orders { rows_in_call queued_orders ≡ row 101 20 13 ∷ row 100 20 13 ∷ [] }
    ensures none { rows_in_call market_orders ≡ [] }
{}

/// The side that has more units at a price has a surplus.
pub fn surpluses_have_a_side()
    ensures of_buys { surplus_of (row 101 70 50) ≡ Some (Buy, 20) }
    ensures of_sells { surplus_of (row 102 30 50) ≡ Some (Sell, 20) }
    ensures none { surplus_of (row 102 30 30) ≡ None }
{}

/// One candidate has the most volume; or of two that have it, one has the least surplus.
pub fn volume_decides_before_surplus()
    ensures volume { rule_of four_orders 1000 ≡ MostVolume }
    ensures rows { rows_in_call two_surpluses ≡ row 102 30 20 ∷ row 101 40 20 ∷ row 100 40 20 ∷ [] }
    ensures surplus { rule_of two_surpluses 1000 ≡ LeastSurplus }
    ensures alone { rule_of (buy 1 100 5 ∷ sell 1 100 8 ∷ []) 1000 ≡ MostVolume }
{}

/// Of several with the same volume and surplus the highest is the price where all have a surplus of buys, and the lowest where all
/// have one of sells.
pub fn surpluses_of_one_side_decide()
    ensures of_buys { rule_of (buy 1 103 50 ∷ sell 1 100 30 ∷ []) 1000 ≡ HighestOfBuys }
    ensures of_sells { rule_of (buy 1 103 30 ∷ sell 1 100 50 ∷ []) 1000 ≡ LowestOfSells }
    ensures market_buys { rule_of queued_orders 1000 ≡ HighestOfBuys }
{}

/// Where surpluses of both sides are left, or none, the last price decides between two limits, whatever it is.
pub fn last_price_decides_between_two()
    ensures both { rule_of crossed_orders 95 ≡ LastPriceBetween 90 100 }
    ensures inner { rule_of four_candidates 95 ≡ LastPriceBetween 92 98 }
    ensures none { rule_of (buy 1 100 10 ∷ sell 1 90 10 ∷ []) 95 ≡ LastPriceBetween 90 100 }
    ensures above { price_by (rule_of crossed_orders 105) (rows_in_call crossed_orders) 105 ≡ Some 100 }
    ensures between { price_by (rule_of crossed_orders 95) (rows_in_call crossed_orders) 95 ≡ Some 95 }
{}

/// Where no order has a limit, the price is the last price; where nothing can be executed, there is none.
pub fn calls_without_limits_or_volume()
    ensures no_limit { rule_of market_orders 95 ≡ NoLimit }
    ensures one_side { rule_of (order 0 1 Buy Market 10 ∷ []) 95 ≡ NothingExecutable }
    ensures apart { rule_of (buy 1 90 10 ∷ sell 1 100 10 ∷ []) 95 ≡ NothingExecutable }
    ensures empty { rule_of [] 95 ≡ NothingExecutable }
{}

/// An ordinary call asks the dynamic and the static range, an interrupted one the wide range, an extended one none. The edges are
/// inside. Of a call without a price none is asked.
pub fn stages_ask_their_ranges()
    ensures kept { asked_ranges (ranges_around 1040 1000) Ordinary (Some (1050, 10)) ≡ range_of Dynamic 1040 999 1081 Kept ∷ range_of Static 1000 950 1050 Kept ∷ [] }
    ensures left { asked_ranges (ranges_around 1040 1000) Ordinary (Some (1051, 10)) ≡ range_of Dynamic 1040 999 1081 Kept ∷ range_of Static 1000 950 1050 Left ∷ [] }
    ensures interrupted { asked_ranges (ranges_around 1000 1200) Interrupted (Some (924, 10)) ≡ range_of Wide 1000 925 1075 Left ∷ [] }
    ensures extended { asked_ranges (ranges_around 1000 1200) Extended (Some (924, 10)) ≡ [] }
    ensures no_price { asked_ranges (ranges_around 1000 1200) Ordinary None ≡ [] }
{}
