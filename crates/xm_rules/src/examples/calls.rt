//! Who takes part in a call, its price, and who trades with whom.
#![tactic(auto, unfolding(crate::specs::Refusals::refusal_of, crate::specs::Step::step, crate::specs::Step::reply, crate::specs::Step::replay, crate::specs::Step::is_lawful, crate::specs::Opening::opening))]

ghost use Rattle.std.specs.Prelude.{◌≡◌, [], ◌∷◌, ◌++◌, Some, None, true, false};
ghost use Rattle.xm_rules.specs.Active.{is_active};
ghost use Rattle.xm_rules.specs.Allotment.{auction_trades, orders_after_call};
ghost use Rattle.xm_rules.specs.Auction.{auction_price};
ghost use Rattle.xm_rules.specs.Examples.{takes_part_in, crossed_orders, four_candidates, four_orders, moved_call, queued_orders, order, buy, ranges_around, references, sell, trade, uncrossing, widths};
ghost use Rattle.xm_rules.specs.Quote.{indicative};
ghost use Rattle.xm_rules.specs.Settings.{are_widths};
ghost use Rattle.xm_rules.specs.State.{inside_both, inside_wide};
ghost use Rattle.xm_rules.specs.Step.{stage_after, step};
ghost use Rattle.xm_rules.specs.declared.commands.Command.TheVariants.{Uncross};
ghost use Rattle.xm_rules.specs.declared.orders.OrderKind.TheVariants.{Market, Limit};
ghost use Rattle.xm_rules.specs.declared.orders.Restriction.TheVariants.{Free, OpeningOnly, AuctionsOnly, ClosingOnly};
ghost use Rattle.xm_rules.specs.declared.orders.Side.TheVariants.{Buy, Sell};
ghost use Rattle.xm_rules.specs.declared.orders.TradeKind.TheVariants as made;
ghost use Rattle.xm_rules.specs.declared.phases.Auction.TheVariants.{Opening, Intraday};
ghost use Rattle.xm_rules.specs.declared.phases.CallStage.TheVariants.{Ordinary, Interrupted, Extended};
ghost use Rattle.xm_rules.specs.declared.phases.Phase.TheVariants.{Call, Continuous};

/// In which phases an order takes part: before the day, the opening call, continuous trading, an intraday call, one after
/// an interruption, the closing call, post-trading, and after the day. The stage of a call doesn't matter.
pub fn restrictions_take_part_in_their_phases()
    ensures free { takes_part_in Free ≡ false ∷ true ∷ true ∷ true ∷ true ∷ true ∷ false ∷ false ∷ [] }
    ensures opening_only { takes_part_in OpeningOnly ≡ false ∷ true ∷ false ∷ false ∷ false ∷ false ∷ false ∷ false ∷ [] }
    ensures auctions_only { takes_part_in AuctionsOnly ≡ false ∷ true ∷ false ∷ true ∷ true ∷ true ∷ false ∷ false ∷ [] }
    ensures closing_only { takes_part_in ClosingOnly ≡ false ∷ false ∷ false ∷ false ∷ false ∷ true ∷ false ∷ false ∷ [] }
    ensures extended { is_active (Call Opening Extended) OpeningOnly ≡ true }
{}

/// Buys 102x30 and 101x40 meet sells 100x20 and 101x30 at 101, in 50 units and three trades.
pub fn three_trades_of_a_call()
    ensures price { auction_price (Call Opening Ordinary) four_orders 1000 ≡ Some (101, 50) }
    ensures trades { auction_trades 7 (uncrossing four_orders 101 50)
        ≡ trade (made.Auction Opening Ordinary) 7 20 101 (0, 1) (1, 1)
        ∷ trade (made.Auction Opening Ordinary) 7 10 101 (0, 1) (1, 2)
        ∷ trade (made.Auction Opening Ordinary) 7 20 101 (0, 2) (1, 2) ∷ [] }
    ensures left { orders_after_call (uncrossing four_orders 101 50) ≡ buy 2 101 20 ∷ [] }
{}

/// At the price market orders come first, and then the earlier of equal limits; one order is executed in part.
pub fn market_orders_come_first_in_a_call()
    ensures price { auction_price (Call Opening Ordinary) queued_orders 1000 ≡ Some (101, 13) }
    ensures trades { auction_trades 1 (uncrossing queued_orders 101 13)
        ≡ trade (made.Auction Opening Ordinary) 1 5 101 (0, 2) (1, 1)
        ∷ trade (made.Auction Opening Ordinary) 1 5 101 (0, 2) (1, 2)
        ∷ trade (made.Auction Opening Ordinary) 1 3 101 (0, 1) (1, 2) ∷ [] }
    ensures left { orders_after_call (uncrossing queued_orders 101 13) ≡ buy 1 101 7 ∷ [] }
{}

/// Where the highest volume stands at several limits and only one side has a surplus, the price is the highest
/// limit for a surplus of buys, and the lowest for one of sells.
pub fn surplus_decides_the_price()
    ensures of_buys { auction_price (Call Opening Ordinary) (buy 1 103 50 ∷ sell 1 100 30 ∷ []) 1000 ≡ Some (103, 30) }
    ensures of_sells { auction_price (Call Opening Ordinary) (buy 1 103 30 ∷ sell 1 100 50 ∷ []) 1000 ≡ Some (100, 30) }
{}

/// Where there is a surplus of buys at one limit and an equal one of sells at another, the price is the reference, kept
/// between the two; so it is where there is no surplus.
pub fn reference_decides_between_limits()
    ensures between { auction_price (Call Opening Ordinary) crossed_orders 95 ≡ Some (95, 10) }
    ensures above { auction_price (Call Opening Ordinary) crossed_orders 105 ≡ Some (100, 10) }
    ensures below { auction_price (Call Opening Ordinary) crossed_orders 80 ≡ Some (90, 10) }
    ensures no_surplus { auction_price (Call Opening Ordinary) (buy 1 100 10 ∷ sell 1 90 10 ∷ []) 95 ≡ Some (95, 10) }
{}

/// Where some of the limits of equal volume and surplus have a surplus of buys and the others one of sells, the last price
/// decides between the highest of the first and the lowest of the second.
pub fn last_price_decides_between_surpluses()
    ensures below { auction_price (Call Opening Ordinary) four_candidates 91 ≡ Some (92, 10) }
    ensures between { auction_price (Call Opening Ordinary) four_candidates 95 ≡ Some (95, 10) }
    ensures above { auction_price (Call Opening Ordinary) four_candidates 99 ≡ Some (98, 10) }
{}

/// Where the last price decides, it is that of the last trade, and not of the last auction trade: so it is shown while the
/// call goes on, and so the call ends. Outside a call nothing is shown.
pub fn last_trade_decides_the_price()
    ensures references { references moved_call ≡ (95, 92) }
    ensures shown { indicative moved_call ≡ Some (95, 10) }
    ensures outside { indicative (record moved_call { phase = Continuous }) ≡ None }
    ensures ended { (step moved_call Uncross).trades ≡ moved_call.trades ++ trade (made.Auction Intraday Ordinary) 3 10 95 (0, 1) (1, 1) ∷ [] }
{}

/// Each range has its own width and its own reference price; the edges are inside.
pub fn each_range_has_its_width()
    ensures dynamic_edge { inside_both (ranges_around 1000 1000) 1040 ≡ true }
    ensures dynamic_outside { inside_both (ranges_around 1000 1000) 1041 ≡ false }
    ensures static_edge { inside_both (ranges_around 1040 1000) 1050 ≡ true }
    ensures static_outside { inside_both (ranges_around 1040 1000) 1051 ≡ false }
    ensures wide_edge { inside_wide (ranges_around 1000 1200) 1075 ≡ true }
    ensures wide_outside { inside_wide (ranges_around 1000 1200) 1076 ≡ false }
    ensures wide_edge_below { inside_wide (ranges_around 1000 1200) 925 ≡ true }
    ensures wide_outside_below { inside_wide (ranges_around 1000 1200) 924 ≡ false }
    ensures interrupted_inside { stage_after (ranges_around 1000 1200) Interrupted 1075 ≡ None }
    ensures interrupted_outside { stage_after (ranges_around 1000 1200) Interrupted 1076 ≡ Some Extended }
{}

/// Each width is 1 to 999 thousandths, and the dynamic range is narrower than the wide one.
pub fn widths_at_their_limits()
    ensures narrowest { are_widths (widths 1 1 2) ≡ true }
    ensures widest { are_widths (widths 998 999 999) ≡ true }
    ensures no_dynamic { are_widths (widths 0 50 40) ≡ false }
    ensures no_static { are_widths (widths 20 0 40) ≡ false }
    ensures high_static { are_widths (widths 20 1000 40) ≡ false }
    ensures high_wide { are_widths (widths 20 50 1000) ≡ false }
    ensures dynamic_as_wide { are_widths (widths 40 50 40) ≡ false }
{}

/// Market orders alone are executed at the reference, and beside one limit at that limit: they set no limit themselves.
pub fn market_orders_set_no_limit()
    ensures alone { auction_price (Call Opening Ordinary) (order 0 1 Buy Market 10 ∷ order 1 1 Sell Market 4 ∷ []) 1000 ≡ Some (1000, 4) }
    ensures one_side { auction_price (Call Opening Ordinary) (order 0 1 Buy Market 10 ∷ []) 1000 ≡ None }
    ensures beside_a_limit { auction_price (Call Opening Ordinary) (order 0 1 Buy Market 10 ∷ sell 1 1005 3 ∷ []) 1000 ≡ Some (1005, 3) }
{}

/// Of limits of equal volume the one with the lesser surplus is the price, though one buys and one sells.
pub fn lesser_surplus_decides()
    ensures price { auction_price (Call Opening Ordinary) (buy 1 100 10 ∷ buy 2 90 3 ∷ sell 1 90 10 ∷ sell 2 100 5 ∷ []) 95 ≡ Some (90, 10) }
{}

/// Where the best buy is below the best sell there is no price.
pub fn no_price_where_nothing_crosses()
    ensures price { auction_price (Call Opening Ordinary) (buy 1 990 5 ∷ sell 1 1010 5 ∷ []) 1000 ≡ None }
    ensures empty { auction_price (Call Opening Ordinary) [] 1000 ≡ None }
{}
