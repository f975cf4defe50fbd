//! Sweeps of continuous trading, and the stops that they reach.
#![tactic(auto, unfolding(crate::specs::Refusals::refusal_of, crate::specs::Step::step, crate::specs::Step::reply, crate::specs::Step::replay, crate::specs::Step::is_lawful, crate::specs::Opening::opening))]

ghost use Rattle.std.specs.Prelude.{◌≡◌, [], ◌∷◌, ◌++◌, true, false};
ghost use Rattle.xm_rules.specs.Examples.{distant_book, distant_sell, distant_sells, falling_buys, resting_buys, resting_sells, references, order, stop, enter, buy, sell, trade, settings, journal, state_after, opened, answer, sweep, cascade_book, full_cascade_book, cut_cascade_book, falling_sell};
ghost use Rattle.xm_rules.specs.Step.{is_lawful};
ghost use Rattle.xm_rules.specs.Sweep.{sweep_trades, rest_after, is_interrupted, is_fillable, orders_after_sweep};
ghost use Rattle.xm_rules.specs.declared.commands.Command.TheVariants.{Enter, Uncross};
ghost use Rattle.xm_rules.specs.declared.commands.Condition.TheVariants.{Ioc, Fok};
ghost use Rattle.xm_rules.specs.declared.commands.Kind.TheVariants as kind;
ghost use Rattle.xm_rules.specs.declared.orders.OrderKind.TheVariants.{Market, Limit};
ghost use Rattle.xm_rules.specs.declared.orders.Restriction.TheVariants.{Free};
ghost use Rattle.xm_rules.specs.declared.orders.Side.TheVariants.{Buy, Sell};
ghost use Rattle.xm_rules.specs.declared.orders.TradeKind.TheVariants as made;
ghost use Rattle.xm_rules.specs.declared.orders.Validity.TheVariants.{Day};
ghost use Rattle.xm_rules.specs.declared.phases.Auction.TheVariants.{Interruption};
ghost use Rattle.xm_rules.specs.declared.phases.CallStage.TheVariants.{Interrupted};
ghost use Rattle.xm_rules.specs.declared.phases.Phase.TheVariants.{Call, Continuous};

/// A resting market buy beside a limit is met at the reference, or at the incoming limit above it, and comes first.
pub fn market_order_is_met()
    ensures at_reference { sweep_trades 3 (sweep resting_buys (order 1 1 Sell (Limit 990) 10))
        ≡ trade made.Continuous 3 10 1000 (0, 2) (1, 1) ∷ [] }
    ensures at_incoming_limit { sweep_trades 3 (sweep resting_buys (order 1 1 Sell (Limit 1010) 10))
        ≡ trade made.Continuous 3 10 1010 (0, 2) (1, 1) ∷ [] }
    ensures at_best_limit { sweep_trades 3 (sweep (buy 1 1015 5 ∷ order 0 2 Buy Market 10 ∷ []) (order 1 1 Sell (Limit 990) 12))
        ≡ trade made.Continuous 3 10 1015 (0, 2) (1, 1) ∷ trade made.Continuous 3 2 1015 (0, 1) (1, 1) ∷ [] }
    ensures left { orders_after_sweep (sweep resting_buys (order 1 1 Sell (Limit 990) 12)) ≡ buy 1 995 3 ∷ [] }
    ensures outside { sweep_trades 3 (sweep resting_buys (order 1 1 Sell (Limit 1030) 10)) ≡ [] }
    ensures interrupted { is_interrupted (sweep resting_buys (order 1 1 Sell (Limit 1030) 10)) ≡ true }
{}

/// The mirror of it: a resting market sell beside a limit is met at the reference, at the incoming limit below it, or at
/// the best limit of its side.
pub fn market_sell_is_met()
    ensures at_reference { sweep_trades 3 (sweep resting_sells (order 0 1 Buy (Limit 1010) 10))
        ≡ trade made.Continuous 3 10 1000 (0, 1) (1, 2) ∷ [] }
    ensures at_incoming_limit { sweep_trades 3 (sweep resting_sells (order 0 1 Buy (Limit 990) 10))
        ≡ trade made.Continuous 3 10 990 (0, 1) (1, 2) ∷ [] }
    ensures at_best_limit { sweep_trades 3 (sweep (sell 1 985 5 ∷ order 1 2 Sell Market 10 ∷ []) (order 0 1 Buy (Limit 1010) 12))
        ≡ trade made.Continuous 3 10 985 (0, 1) (1, 2) ∷ trade made.Continuous 3 2 985 (0, 1) (1, 1) ∷ [] }
{}

/// A sell against a resting market buy at a price outside the dynamic range interrupts trading; the auction that follows
/// is held to the wide range, and trades at the sell's limit.
pub fn interruption_after_a_market_sweep()
    ensures interrupted { state_after distant_sell ≡ record {
      settings = settings;
      accepted = 5;
      phase = Call Interruption Interrupted;
      orders = order 0 1 Buy (Limit 995) 5 ∷ order 0 2 Buy Market 10 ∷ order 1 1 Sell (Limit 1030) 10 ∷ [];
      stops = [];
      trades = [];
      sweeps = 3;
    } }
    ensures uncrossed { state_after (distant_sell ++ Uncross ∷ []) ≡ record {
      settings = settings;
      accepted = 6;
      phase = Continuous;
      orders = order 0 1 Buy (Limit 995) 5 ∷ [];
      stops = [];
      trades = trade (made.Auction Interruption Interrupted) 4 10 1030 (0, 2) (1, 1) ∷ [];
      sweeps = 4;
    } }
    ensures references { references (state_after (distant_sell ++ Uncross ∷ [])) ≡ (1030, 1030) }
    ensures reply { answer distant_sell Uncross
        ≡ record { version = 6; first_trade = 0; trades = 1; quantity = 10; money = 10300; phase = Continuous } }
{}

/// The reference stays through a sweep: sells at 1010 and 1030 give a fill-or-kill buy of 30 nothing, without an
/// interruption, and an immediate one the 10 inside the range, with one.
pub fn fok_then_ioc()
    ensures not_fillable { is_fillable (sweep distant_sells (buy 1 1030 30)) ≡ false }
    ensures fillable { is_fillable (sweep distant_sells (buy 1 1030 10)) ≡ true }
    ensures trades { sweep_trades 3 (sweep distant_sells (buy 1 1030 30)) ≡ trade made.Continuous 3 10 1010 (0, 1) (1, 1) ∷ [] }
    ensures rest { rest_after (sweep distant_sells (buy 1 1030 30)) ≡ 20 }
    ensures interrupted { is_interrupted (sweep distant_sells (buy 1 1030 30)) ≡ true }
    ensures killed { answer distant_book (Enter 0 1 Buy (kind.Limit 1030) 30 Day Free Fok)
        ≡ record { version = 5; first_trade = 0; trades = 0; quantity = 0; money = 0; phase = Continuous } }
    ensures filled { state_after (distant_book ++ Enter 0 1 Buy (kind.Limit 1030) 10 Day Free Fok ∷ []) ≡ record {
      settings = settings;
      accepted = 5;
      phase = Continuous;
      orders = order 1 2 Sell (Limit 1030) 30 ∷ [];
      stops = [];
      trades = trade made.Continuous 3 10 1010 (0, 1) (1, 1) ∷ [];
      sweeps = 3;
    } }
    ensures rest_deleted { state_after (distant_book ++ Enter 0 1 Buy (kind.Limit 1010) 15 Day Free Ioc ∷ []) ≡ state_after (distant_book ++ Enter 0 1 Buy (kind.Limit 1030) 10 Day Free Fok ∷ []) }
    ensures after_both { state_after (distant_book ++ Enter 0 1 Buy (kind.Limit 1030) 30 Day Free Fok
        ∷ Enter 0 1 Buy (kind.Limit 1030) 30 Day Free Ioc ∷ []) ≡ record {
          settings = settings;
          accepted = 6;
          phase = Call Interruption Interrupted;
          orders = order 1 2 Sell (Limit 1030) 30 ∷ [];
          stops = [];
          trades = trade made.Continuous 3 10 1010 (0, 1) (1, 1) ∷ [];
          sweeps = 3;
        } }
{}

/// An incoming order that is used up before the first one outside the range doesn't interrupt trading.
pub fn used_up_before_the_range_ends()
    ensures none_left { is_interrupted (sweep distant_sells (buy 1 1030 10)) ≡ false }
    ensures one_left { is_interrupted (sweep distant_sells (buy 1 1030 11)) ≡ true }
{}

/// Nothing is executed past the first order outside the range, also where the next one is inside it.
pub fn nothing_past_the_first_one_outside()
    ensures trades { sweep_trades 3 (sweep (buy 1 1030 5 ∷ buy 2 1010 5 ∷ []) (sell 1 1000 10)) ≡ [] }
    ensures rest { rest_after (sweep (buy 1 1030 5 ∷ buy 2 1010 5 ∷ []) (sell 1 1000 10)) ≡ 10 }
    ensures interrupted { is_interrupted (sweep (buy 1 1030 5 ∷ buy 2 1010 5 ∷ []) (sell 1 1000 10)) ≡ true }
{}

/// Of orders of one limit the earlier is executed first, whatever stands between them.
pub fn earlier_order_first()
    ensures trades { sweep_trades 3 (sweep (sell 1 1000 5 ∷ sell 2 999 1 ∷ sell 3 1000 5 ∷ []) (buy 1 1000 8))
        ≡ trade made.Continuous 3 1 999 (0, 1) (1, 2) ∷ trade made.Continuous 3 5 1000 (0, 1) (1, 1) ∷ trade made.Continuous 3 2 1000 (0, 1) (1, 3) ∷ [] }
    ensures left { orders_after_sweep (sweep (sell 1 1000 5 ∷ sell 2 999 1 ∷ sell 3 1000 5 ∷ []) (buy 1 1000 8)) ≡ sell 3 1000 3 ∷ [] }
{}

/// The static range is asked in a sweep too: at a last price of 1040 and a last auction price of 1000, 1055 is outside.
pub fn static_range_stops_a_sweep()
    ensures state { state_after (opened (enter 1 1 Sell (kind.Limit 1020) 1 ∷ enter 0 1 Buy (kind.Limit 1020) 1 ∷ enter 1 2 Sell (kind.Limit 1040) 1 ∷ enter 0 2 Buy (kind.Limit 1040) 1
        ∷ enter 1 3 Sell (kind.Limit 1055) 10 ∷ enter 0 3 Buy (kind.Limit 1055) 10 ∷ [])) ≡ record {
          settings = settings;
          accepted = 8;
          phase = Call Interruption Interrupted;
          orders = order 1 3 Sell (Limit 1055) 10 ∷ order 0 3 Buy (Limit 1055) 10 ∷ [];
          stops = [];
          trades = trade made.Continuous 2 1 1020 (0, 1) (1, 1) ∷ trade made.Continuous 4 1 1040 (0, 2) (1, 2) ∷ [];
          sweeps = 6;
        } }
{}

/// The sell that begins the cascade takes the two buys that it meets, the better one first.
pub fn first_sweep_of_the_cascade()
    ensures trades { sweep_trades 4 (sweep falling_buys (sell 3 990 30))
        ≡ trade made.Continuous 4 10 1000 (0, 1) (1, 3) ∷ trade made.Continuous 4 20 990 (0, 2) (1, 3) ∷ [] }
    ensures rest { rest_after (sweep falling_buys (sell 3 990 30)) ≡ 0 }
    ensures left { orders_after_sweep (sweep falling_buys (sell 3 990 30)) ≡ buy 3 985 30 ∷ [] }
    ensures not_interrupted { is_interrupted (sweep falling_buys (sell 3 990 30)) ≡ false }
{}

/// A sell at 990 is executed at 1000 and 990, and reaches two stops in turn: the first becomes a market order that is
/// executed at 985, and reaches the second.
pub fn cascade()
    ensures lawful { is_lawful (journal (cascade_book ++ falling_sell ∷ [])) ≡ true }
    ensures state { state_after (cascade_book ++ falling_sell ∷ []) ≡ record {
      settings = settings;
      accepted = 8;
      phase = Continuous;
      orders = order 1 2 Sell (Limit 985) 5 ∷ [];
      stops = [];
      trades =
          trade made.Continuous 4 10 1000 (0, 1) (1, 3) ∷ trade made.Continuous 4 20 990 (0, 2) (1, 3) ∷ trade made.Continuous 5 25 985 (0, 3) (1, 1)
          ∷ trade made.Continuous 6 5 985 (0, 3) (1, 2) ∷ [];
      sweeps = 6;
    } }
    ensures references { references (state_after (cascade_book ++ falling_sell ∷ [])) ≡ (985, 1000) }
    ensures reply { answer cascade_book falling_sell ≡ record { version = 8; first_trade = 0; trades = 4; quantity = 60; money = 59350; phase = Continuous } }
{}

/// Stops come in in the order in which they are reached: the one reached at 985 after the two reached at 990.
pub fn stops_come_in_as_they_are_reached()
    ensures trades { (state_after (full_cascade_book ++ falling_sell ∷ [])).trades
        ≡ trade made.Continuous 4 10 1000 (0, 1) (1, 3) ∷ trade made.Continuous 4 20 990 (0, 2) (1, 3) ∷ trade made.Continuous 5 25 985 (0, 3) (1, 1)
        ∷ trade made.Continuous 6 5 985 (0, 3) (1, 4) ∷ trade made.Continuous 7 10 985 (0, 3) (1, 2) ∷ [] }
    ensures orders { (state_after (full_cascade_book ++ falling_sell ∷ [])).orders ≡ [] }
{}

/// The market order of the first stop meets a buy at 960, outside the range, and interrupts trading: it rests, the stop
/// that was pending rests after it, and the one that isn't reached stays held till the auction at 960 reaches it.
pub fn cascade_cut_by_an_interruption()
    ensures lawful { is_lawful (journal (cut_cascade_book ++ falling_sell ∷ Uncross ∷ [])) ≡ true }
    ensures interrupted { state_after (cut_cascade_book ++ falling_sell ∷ []) ≡ record {
      settings = settings;
      accepted = 9;
      phase = Call Interruption Interrupted;
      orders = order 0 3 Buy (Limit 960) 30 ∷ order 1 1 Sell Market 25 ∷ order 1 4 Sell (Limit 985) 5 ∷ [];
      stops = stop 1 2 Sell 985 (Limit 985) 10 ∷ [];
      trades = trade made.Continuous 4 10 1000 (0, 1) (1, 3) ∷ trade made.Continuous 4 20 990 (0, 2) (1, 3) ∷ [];
      sweeps = 5;
    } }
    ensures reply { answer cut_cascade_book falling_sell
        ≡ record { version = 9; first_trade = 0; trades = 2; quantity = 30; money = 29800; phase = Call Interruption Interrupted } }
    ensures uncrossed { state_after (cut_cascade_book ++ falling_sell ∷ Uncross ∷ []) ≡ record {
      settings = settings;
      accepted = 10;
      phase = Continuous;
      orders = order 0 3 Buy (Limit 960) 5 ∷ order 1 4 Sell (Limit 985) 5 ∷ order 1 2 Sell (Limit 985) 10 ∷ [];
      stops = [];
      trades =
          trade made.Continuous 4 10 1000 (0, 1) (1, 3) ∷ trade made.Continuous 4 20 990 (0, 2) (1, 3)
          ∷ trade (made.Auction Interruption Interrupted) 6 25 960 (0, 3) (1, 1) ∷ [];
      sweeps = 7;
    } }
    ensures references { references (state_after (cut_cascade_book ++ falling_sell ∷ Uncross ∷ [])) ≡ (960, 960) }
    ensures last_reply { answer (cut_cascade_book ++ falling_sell ∷ []) Uncross
        ≡ record { version = 10; first_trade = 2; trades = 1; quantity = 25; money = 24000; phase = Continuous } }
{}

/// A trade at 1010 reaches two stops. The first one trades at 1005, below their triggers; the second comes in all the same.
pub fn pending_stop_comes_in_though_the_price_turned()
    ensures state { state_after (opened (enter 0 1 Buy (kind.Limit 1010) 5 ∷ enter 0 8 Buy (kind.StopMarket 1010) 3 ∷ enter 0 9 Buy (kind.StopMarket 1010) 4
        ∷ enter 1 1 Sell (kind.Limit 1005) 20 ∷ [])) ≡ record {
          settings = settings;
          accepted = 6;
          phase = Continuous;
          orders = order 1 1 Sell (Limit 1005) 8 ∷ [];
          stops = [];
          trades = trade made.Continuous 2 5 1010 (0, 1) (1, 1) ∷ trade made.Continuous 3 3 1005 (0, 8) (1, 1) ∷ trade made.Continuous 4 4 1005 (0, 9) (1, 1) ∷ [];
          sweeps = 4;
        } }
{}
