//! Changes, cancellations, validities and a journal's end.
#![tactic(auto, unfolding(crate::specs::Refusals::refusal_of, crate::specs::Step::step, crate::specs::Step::reply, crate::specs::Step::replay, crate::specs::Step::is_lawful, crate::specs::Opening::opening))]

ghost use Rattle.std.specs.Prelude.{◌≡◌, [], ◌∷◌, ◌++◌, true, Some, None, neg_ℤ, pos};
ghost use Rattle.xm_rules.specs.Quote.{quote};
ghost use Rattle.xm_rules.specs.Refusals.{refusal_of};
ghost use Rattle.xm_rules.specs.Examples.{cascade_book, falling_sell, held_stops, one_stop, references, order, stop, enter, trade, settings, journal, state_after, opened, answer, two_buys, two_market_buys, lasting_buy, three_changes, closing_day, eight_orders, one_trade, standing, stop_till};
ghost use Rattle.xm_rules.specs.Step.{step, replay, is_lawful};
ghost use Rattle.xm_rules.specs.Sums.{bought, cash, net, sold, paid, received, total_quantity, total_money};
ghost use Rattle.xm_rules.specs.declared.commands.Command.TheVariants.{Enter, Change, Cancel, CancelAll, StartOpening, StartClosing, Uncross, EndDay};
ghost use Rattle.xm_rules.specs.declared.commands.Condition.TheVariants.{Plain};
ghost use Rattle.xm_rules.specs.declared.commands.Kind.TheVariants as kind;
ghost use Rattle.xm_rules.specs.declared.orders.OrderKind.TheVariants.{Market, Limit};
ghost use Rattle.xm_rules.specs.declared.orders.Restriction.TheVariants.{Free, AuctionsOnly};
ghost use Rattle.xm_rules.specs.declared.orders.Side.TheVariants.{Buy, Sell};
ghost use Rattle.xm_rules.specs.declared.orders.TradeKind.TheVariants as made;
ghost use Rattle.xm_rules.specs.declared.orders.Validity.TheVariants.{Day, TillDate, TillCancelled};
ghost use Rattle.xm_rules.specs.declared.phases.Auction.TheVariants.{Opening, Closing};
ghost use Rattle.xm_rules.specs.declared.phases.CallStage.TheVariants.{Ordinary};
ghost use Rattle.xm_rules.specs.declared.phases.Phase.TheVariants.{PreTrading, Call, Continuous, PostTrading, Ended};
ghost use Rattle.xm_rules.specs.declared.replies.Refusal.TheVariants.{BadQuantity, DuplicateReference, UnknownOrder, DayEnded, JournalFull};

/// A change to a lower quantity keeps the place, one to the same quantity and limit changes nothing but the journal, and
/// one to a higher quantity takes the last place. A reference is taken while its order lives, and free after it.
pub fn change_keeps_or_loses_place()
    ensures lower { (state_after (two_buys ++ Change 0 1 6 None ∷ [])).orders ≡ order 0 1 Buy (Limit 1000) 6 ∷ order 1 1 Buy (Limit 1000) 10 ∷ [] }
    ensures same { state_after (two_buys ++ Change 0 1 6 None ∷ Change 0 1 6 (Some 1000) ∷ []) ≡ record (state_after (two_buys ++ Change 0 1 6 None ∷ [])) { accepted = 5 } }
    ensures higher { state_after three_changes ≡ record {
      settings = settings;
      accepted = 6;
      phase = Call Opening Ordinary;
      orders = order 1 1 Buy (Limit 1000) 10 ∷ order 0 1 Buy (Limit 1000) 9 ∷ [];
      stops = [];
      trades = [];
      sweeps = 0;
    } }
    ensures other_limit { (state_after (two_buys ++ Change 0 1 10 (Some 999) ∷ [])).orders ≡ order 1 1 Buy (Limit 1000) 10 ∷ order 0 1 Buy (Limit 999) 10 ∷ [] }
    ensures other_limit_lower { (state_after (two_buys ++ Change 0 1 6 (Some 999) ∷ [])).orders ≡ order 1 1 Buy (Limit 1000) 10 ∷ order 0 1 Buy (Limit 999) 6 ∷ [] }
    ensures better_limit_lower { (state_after (two_buys ++ Change 0 1 6 (Some 1001) ∷ [])).orders ≡ order 1 1 Buy (Limit 1000) 10 ∷ order 0 1 Buy (Limit 1001) 6 ∷ [] }
    ensures taken { refusal_of (state_after (two_buys ++ Change 0 1 9 None ∷ [])) (enter 0 1 Buy (kind.Limit 1000) 10) ≡ Some DuplicateReference }
    ensures cancelled { (state_after (two_buys ++ Cancel 1 1 ∷ [])).orders ≡ order 0 1 Buy (Limit 1000) 10 ∷ [] }
    ensures cancelled_again { refusal_of (state_after (two_buys ++ Cancel 1 1 ∷ [])) (Cancel 1 1) ≡ Some UnknownOrder }
    ensures free_again { refusal_of (state_after (two_buys ++ Cancel 1 1 ∷ [])) (enter 1 1 Buy (kind.Limit 1000) 10) ≡ None }
    ensures lawful { is_lawful (journal (three_changes ++ Cancel 1 1 ∷ enter 1 1 Buy (kind.Limit 1000) 10 ∷ [])) ≡ true }
    ensures state { state_after (three_changes ++ Cancel 1 1 ∷ enter 1 1 Buy (kind.Limit 1000) 10 ∷ []) ≡ record {
      settings = settings;
      accepted = 8;
      phase = Call Opening Ordinary;
      orders = order 0 1 Buy (Limit 1000) 9 ∷ order 1 1 Buy (Limit 1000) 10 ∷ [];
      stops = [];
      trades = [];
      sweeps = 0;
    } }
    ensures references { references (state_after (three_changes ++ Cancel 1 1 ∷ enter 1 1 Buy (kind.Limit 1000) 10 ∷ [])) ≡ (1000, 1000) }
    ensures reply { answer (three_changes ++ Cancel 1 1 ∷ []) (enter 1 1 Buy (kind.Limit 1000) 10)
        ≡ record { version = 8; first_trade = 0; trades = 0; quantity = 0; money = 0; phase = Call Opening Ordinary } }
{}

/// A changed market order keeps its place at a lower quantity or the same one, and loses it at a higher one.
pub fn changed_market_order()
    ensures lower { (state_after (two_market_buys ++ Change 0 1 6 None ∷ [])).orders ≡ order 0 1 Buy Market 6 ∷ order 1 1 Buy Market 10 ∷ [] }
    ensures same { (state_after (two_market_buys ++ Change 0 1 10 None ∷ [])).orders ≡ order 0 1 Buy Market 10 ∷ order 1 1 Buy Market 10 ∷ [] }
    ensures higher { (state_after (two_market_buys ++ Change 0 1 11 None ∷ [])).orders ≡ order 1 1 Buy Market 10 ∷ order 0 1 Buy Market 11 ∷ [] }
{}

/// A changed order keeps its validity and its restriction, whether it keeps its place or comes in again.
pub fn changed_order_keeps_its_terms()
    ensures lower { (state_after (lasting_buy ++ Change 0 1 6 None ∷ [])).orders
        ≡ record (order 0 1 Buy (Limit 1000) 6) { validity = TillCancelled; restriction = AuctionsOnly } ∷ order 1 1 Buy (Limit 1000) 10 ∷ [] }
    ensures higher { (state_after (lasting_buy ++ Change 0 1 11 None ∷ [])).orders
        ≡ order 1 1 Buy (Limit 1000) 10 ∷ record (order 0 1 Buy (Limit 1000) 11) { validity = TillCancelled; restriction = AuctionsOnly } ∷ [] }
    ensures other_limit { (state_after (lasting_buy ++ Change 0 1 10 (Some 999) ∷ [])).orders
        ≡ order 1 1 Buy (Limit 1000) 10 ∷ record (order 0 1 Buy (Limit 999) 10) { validity = TillCancelled; restriction = AuctionsOnly } ∷ [] }
    ensures swept { (state_after (opened (Enter 0 1 Buy (kind.Limit 990) 10 (TillDate 20260106) Free Plain ∷ enter 1 1 Sell (kind.Limit 1000) 4 ∷ Change 0 1 10 (Some 1000) ∷ []))).orders
        ≡ record (order 0 1 Buy (Limit 1000) 6) { validity = TillDate 20260106 } ∷ [] }
{}

/// In continuous trading an order that is given a limit that crosses is swept; one for auctions alone joins without a sweep.
pub fn changed_order_comes_in_again()
    ensures swept { state_after (opened (enter 0 1 Buy (kind.Limit 990) 10 ∷ enter 1 1 Sell (kind.Limit 1000) 4 ∷ Change 0 1 10 (Some 1000) ∷ [])) ≡ record {
      settings = settings;
      accepted = 5;
      phase = Continuous;
      orders = order 0 1 Buy (Limit 1000) 6 ∷ [];
      stops = [];
      trades = trade made.Continuous 3 4 1000 (0, 1) (1, 1) ∷ [];
      sweeps = 3;
    } }
    ensures joined { state_after (opened (Enter 0 1 Buy (kind.Limit 990) 10 Day AuctionsOnly Plain ∷ enter 1 1 Sell (kind.Limit 1000) 4 ∷ Change 0 1 10 (Some 1000) ∷ [])) ≡ record {
      settings = settings;
      accepted = 5;
      phase = Continuous;
      orders = order 1 1 Sell (Limit 1000) 4 ∷ record (order 0 1 Buy (Limit 1000) 10) { restriction = AuctionsOnly } ∷ [];
      stops = [];
      trades = [];
      sweeps = 1;
    } }
{}

/// A closing auction reaches a stop, whose order rests after trading; the end of the day leaves what is valid longer.
pub fn day_validities_end()
    ensures lawful { is_lawful (journal (closing_day ++ Enter 1 2 Buy (kind.Limit 900) 1 (TillDate 20260106) Free Plain ∷ EndDay ∷ [])) ≡ true }
    ensures reply { answer (opened (Enter 0 9 Sell (kind.StopMarket 990) 5 TillCancelled Free Plain ∷ StartClosing ∷ enter 0 1 Buy (kind.Limit 990) 10 ∷ enter 1 1 Sell (kind.Limit 990) 4 ∷ [])) Uncross
        ≡ record { version = 7; first_trade = 0; trades = 1; quantity = 4; money = 3960; phase = PostTrading } }
    ensures closed { state_after closing_day ≡ record {
      settings = settings;
      accepted = 7;
      phase = PostTrading;
      orders = order 0 1 Buy (Limit 990) 6 ∷ record (order 0 9 Sell Market 5) { validity = TillCancelled } ∷ [];
      stops = [];
      trades = trade (made.Auction Closing Ordinary) 1 4 990 (0, 1) (1, 1) ∷ [];
      sweeps = 1;
    } }
    ensures ended { state_after (closing_day ++ Enter 1 2 Buy (kind.Limit 900) 1 (TillDate 20260106) Free Plain ∷ EndDay ∷ []) ≡ record {
      settings = settings;
      accepted = 9;
      phase = Ended;
      orders = record (order 0 9 Sell Market 5) { validity = TillCancelled } ∷ record (order 1 2 Buy (Limit 900) 1) { validity = TillDate 20260106 } ∷ [];
      stops = [];
      trades = trade (made.Auction Closing Ordinary) 1 4 990 (0, 1) (1, 1) ∷ [];
      sweeps = 1;
    } }
    ensures references { references (state_after (closing_day ++ Enter 1 2 Buy (kind.Limit 900) 1 (TillDate 20260106) Free Plain ∷ EndDay ∷ [])) ≡ (990, 990) }
    ensures last_reply { answer (closing_day ++ Enter 1 2 Buy (kind.Limit 900) 1 (TillDate 20260106) Free Plain ∷ []) EndDay
        ≡ record { version = 9; first_trade = 1; trades = 0; quantity = 0; money = 0; phase = Ended } }
    ensures today_ends { (state_after (closing_day ++ Enter 1 2 Buy (kind.Limit 900) 1 (TillDate 20260105) Free Plain ∷ EndDay ∷ [])).orders
        ≡ record (order 0 9 Sell Market 5) { validity = TillCancelled } ∷ [] }
    ensures no_more { refusal_of (state_after (closing_day ++ EndDay ∷ [])) (enter 0 5 Buy (kind.Limit 990) 10) ≡ Some DayEnded }
{}

/// A stop that is still held at the end of the day stays if it is valid longer.
pub fn held_stops_at_the_end_of_the_day()
    ensures held { (state_after held_stops).stops ≡ stop 0 8 Sell 900 Market 5 ∷ record (stop 0 9 Sell 900 Market 5) { validity = TillCancelled } ∷ [] }
    ensures ended { state_after (held_stops ++ EndDay ∷ []) ≡ record {
      settings = settings;
      accepted = 7;
      phase = Ended;
      orders = [];
      stops = record (stop 0 9 Sell 900 Market 5) { validity = TillCancelled } ∷ [];
      trades = [];
      sweeps = 0;
    } }
{}

/// Of stops that are valid to a date, those till today end with the day, as orders do.
pub fn dated_stops_at_the_end_of_the_day()
    ensures tomorrow_stays { (step (standing PostTrading [] (stop_till 7 20260105 ∷ stop_till 8 20260106 ∷ [])) EndDay).stops ≡ stop_till 8 20260106 ∷ [] }
{}

/// A journal of eight commands takes eight orders and no ninth; commands of the phases are taken still.
pub fn full_journal()
    ensures lawful { is_lawful eight_orders ≡ true }
    ensures full { refusal_of (replay eight_orders) (enter 0 5 Buy (kind.Limit 990) 1) ≡ Some JournalFull }
    ensures quantity_first { refusal_of (replay eight_orders) (enter 0 5 Buy (kind.Limit 990) 0) ≡ Some BadQuantity }
    ensures opening_taken { refusal_of (replay eight_orders) StartOpening ≡ None }
    ensures opening { (step (replay eight_orders) StartOpening).accepted ≡ 9 }
    ensures uncross_taken { refusal_of (step (replay eight_orders) StartOpening) Uncross ≡ None }
    ensures uncross { (step (step (replay eight_orders) StartOpening) Uncross).accepted ≡ 10 }
{}

/// All of a member's orders and stops are cancelled at once; where there is none, the command is accepted and changes
/// nothing.
pub fn cancel_all_twice()
    ensures lawful { is_lawful (journal (one_stop ++ CancelAll 0 ∷ CancelAll 0 ∷ [])) ≡ true }
    ensures once { state_after (one_stop ++ CancelAll 0 ∷ []) ≡ record {
      settings = settings;
      accepted = 6;
      phase = Continuous;
      orders = order 1 1 Buy (Limit 985) 3 ∷ [];
      stops = [];
      trades = [];
      sweeps = 2;
    } }
    ensures twice { state_after (one_stop ++ CancelAll 0 ∷ CancelAll 0 ∷ []) ≡ record {
      settings = settings;
      accepted = 7;
      phase = Continuous;
      orders = order 1 1 Buy (Limit 985) 3 ∷ [];
      stops = [];
      trades = [];
      sweeps = 2;
    } }
{}

/// A cancellation deletes the order or the stop that it names, and no other.
pub fn cancel_one()
    ensures order { (state_after (one_stop ++ Cancel 0 1 ∷ [])).orders ≡ order 1 1 Buy (Limit 985) 3 ∷ [] }
    ensures stop_stays { (state_after (one_stop ++ Cancel 0 1 ∷ [])).stops ≡ stop 0 2 Sell 980 Market 5 ∷ [] }
    ensures stop { (state_after (one_stop ++ Cancel 0 2 ∷ [])).stops ≡ [] }
    ensures orders_stay { (state_after (one_stop ++ Cancel 0 2 ∷ [])).orders ≡ order 0 1 Buy (Limit 990) 10 ∷ order 1 1 Buy (Limit 985) 3 ∷ [] }
{}

/// What the members of the cascade bought, sold, paid and received.
pub fn sums_of_the_cascade()
    ensures bought { bought 0 (state_after (cascade_book ++ falling_sell ∷ [])).trades ≡ 60 }
    ensures sold { sold 1 (state_after (cascade_book ++ falling_sell ∷ [])).trades ≡ 60 }
    ensures not_sold { sold 0 (state_after (cascade_book ++ falling_sell ∷ [])).trades ≡ 0 }
    ensures paid { paid 0 (state_after (cascade_book ++ falling_sell ∷ [])).trades ≡ 59350 }
    ensures received { received 1 (state_after (cascade_book ++ falling_sell ∷ [])).trades ≡ 59350 }
    ensures not_paid { paid 1 (state_after (cascade_book ++ falling_sell ∷ [])).trades ≡ 0 }
    ensures quantity { total_quantity (state_after (cascade_book ++ falling_sell ∷ [])).trades ≡ 60 }
    ensures money { total_money (state_after (cascade_book ++ falling_sell ∷ [])).trades ≡ 59350 }
{}

/// A net position is what was bought less what was sold; cash is what was received less what was paid.
pub fn positions_of_a_trade()
    ensures bought { net 0 one_trade ≡ pos 4 }
    ensures sold { net 1 one_trade ≡ neg_ℤ (pos 4) }
    ensures paid { cash 0 one_trade ≡ neg_ℤ (pos 3960) }
    ensures received { cash 1 one_trade ≡ pos 3960 }
{}

/// A quote after one buy in continuous trading, one after the cascade, and one before the day, when no order is active.
pub fn quotes_of_states()
    ensures before_the_day { quote (state_after (enter 0 1 Buy (kind.Limit 990) 5 ∷ []))
        ≡ record { version = 1; phase = PreTrading; best_buy = None; best_sell = None; ref1 = 1000; ref2 = 1000; quantity = 0 } }
    ensures after_the_cascade { quote (state_after (cascade_book ++ falling_sell ∷ []))
        ≡ record { version = 8; phase = Continuous; best_buy = None; best_sell = Some 985; ref1 = 985; ref2 = 1000; quantity = 60 } }
    ensures one_buy { quote (state_after (opened (enter 0 1 Buy (kind.Limit 990) 5 ∷ [])))
        ≡ record { version = 3; phase = Continuous; best_buy = Some 990; best_sell = None; ref1 = 1000; ref2 = 1000; quantity = 0 } }
{}
