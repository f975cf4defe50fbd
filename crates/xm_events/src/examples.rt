//! Worked examples of what happens by a command.
#![tactic(auto, unfolding(xm_rules::specs::Opening::opening, xm_rules::specs::Refusals::refusal_of, xm_rules::specs::Step::is_lawful, xm_rules::specs::Step::replay, xm_rules::specs::Step::step, crate::specs::Story::story))]

ghost use Rattle.std.specs.Prelude.{◌≡◌, [], ◌∷◌, ◌++◌, None, Some, true};
ghost use Rattle.xm_events.specs.Examples.{buy_on, closed_day, crossed_call, drifted_book, fill_of, stop_book, told, two_sells};
ghost use Rattle.xm_events.specs.declared.events.Deletion.TheVariants.{ImmediateOrCancel, FillOrKill, EndOfDay};
ghost use Rattle.xm_events.specs.declared.events.Entry.TheVariants as entry;
ghost use Rattle.xm_events.specs.declared.events.Event.TheVariants.{Accepted, Changed, Triggered, Cancelled, Deleted, Interrupted, Began};
ghost use Rattle.xm_events.specs.declared.events.PriceRange.TheVariants as range;
ghost use Rattle.xm_rules.specs.Examples.{buy, cascade_book, cut_cascade_book, distant_book, distant_call, enter, falling_sell, full_cascade_book, journal, one_stop, opened, order, sell, stop};
ghost use Rattle.xm_rules.specs.Step.{is_lawful};
ghost use Rattle.xm_rules.specs.declared.commands.Command.TheVariants.{Cancel, CancelAll, Change, EndDay, Enter, StartClosing, StartIntraday, StartOpening, Uncross};
ghost use Rattle.xm_rules.specs.declared.commands.Condition.TheVariants.{Plain, Ioc, Fok, Boc};
ghost use Rattle.xm_rules.specs.declared.commands.Kind.TheVariants as kind;
ghost use Rattle.xm_rules.specs.declared.orders.OrderKind.TheVariants.{Market, Limit};
ghost use Rattle.xm_rules.specs.declared.orders.Restriction.TheVariants.{AuctionsOnly};
ghost use Rattle.xm_rules.specs.declared.orders.Side.TheVariants.{Buy, Sell};
ghost use Rattle.xm_rules.specs.declared.orders.TradeKind.TheVariants as made;
ghost use Rattle.xm_rules.specs.declared.orders.Validity.TheVariants.{Day};
ghost use Rattle.xm_rules.specs.declared.phases.Auction.TheVariants.{Opening, Intraday, Closing, Interruption};
ghost use Rattle.xm_rules.specs.declared.phases.CallStage.TheVariants as stage;
ghost use Rattle.xm_rules.specs.declared.phases.Phase.TheVariants.{Call, Continuous, PostTrading, Ended};

/// A buy takes the better sell whole, though it came later, and then the other one. Each trade is told of both its orders, the buyer's
/// first; what is left of the buy falls with each, and joins the book.
pub fn a_sweep_with_two_fills()
    ensures lawful { is_lawful (journal (two_sells ++ enter 0 1 Buy (kind.Limit 1010) 25 ∷ [])) ≡ true }
    ensures rest { told two_sells (enter 0 1 Buy (kind.Limit 1010) 25)
        ≡ Accepted (entry.Order (buy 1 1010 25))
        ∷ fill_of made.Continuous Buy 10 1000 (0, 1) 15 ∷ fill_of made.Continuous Sell 10 1000 (1, 2) 0
        ∷ fill_of made.Continuous Buy 8 1010 (0, 1) 7 ∷ fill_of made.Continuous Sell 8 1010 (1, 1) 0
        ∷ [] }
    ensures filled_whole { told two_sells (enter 0 1 Buy (kind.Limit 1010) 15)
        ≡ Accepted (entry.Order (buy 1 1010 15))
        ∷ fill_of made.Continuous Buy 10 1000 (0, 1) 5 ∷ fill_of made.Continuous Sell 10 1000 (1, 2) 0
        ∷ fill_of made.Continuous Buy 5 1010 (0, 1) 0 ∷ fill_of made.Continuous Sell 5 1010 (1, 1) 3
        ∷ [] }
    ensures unfilled { told two_sells (enter 0 1 Buy (kind.Limit 999) 15) ≡ Accepted (entry.Order (buy 1 999 15)) ∷ [] }
{}

/// What is left of an immediate-or-cancel order is deleted, behind its fills; nothing is, where it is filled whole.
pub fn an_immediate_order_and_its_rest()
    ensures rest { told two_sells (buy_on Ioc 1000 15)
        ≡ Accepted (entry.Order (buy 1 1000 15)) ∷ fill_of made.Continuous Buy 10 1000 (0, 1) 5 ∷ fill_of made.Continuous Sell 10 1000 (1, 2) 0
        ∷ Deleted (entry.Order (buy 1 1000 5)) ImmediateOrCancel ∷ [] }
    ensures whole { told two_sells (buy_on Ioc 1000 6)
        ≡ Accepted (entry.Order (buy 1 1000 6)) ∷ fill_of made.Continuous Buy 6 1000 (0, 1) 0 ∷ fill_of made.Continuous Sell 6 1000 (1, 2) 4 ∷ [] }
    ensures unfilled { told two_sells (buy_on Ioc 999 6) ≡ Accepted (entry.Order (buy 1 999 6)) ∷ Deleted (entry.Order (buy 1 999 6)) ImmediateOrCancel ∷ [] }
{}

/// A fill-or-kill order that can't be filled whole is deleted whole, without a fill.
pub fn a_fill_or_kill_order()
    ensures killed_events { told two_sells (buy_on Fok 1010 19) ≡ Accepted (entry.Order (buy 1 1010 19)) ∷ Deleted (entry.Order (buy 1 1010 19)) FillOrKill ∷ [] }
    ensures filled { told two_sells (buy_on Fok 1010 18)
        ≡ Accepted (entry.Order (buy 1 1010 18))
        ∷ fill_of made.Continuous Buy 10 1000 (0, 1) 8 ∷ fill_of made.Continuous Sell 10 1000 (1, 2) 0
        ∷ fill_of made.Continuous Buy 8 1010 (0, 1) 0 ∷ fill_of made.Continuous Sell 8 1010 (1, 1) 0
        ∷ [] }
{}

/// An order that would trade at 1030, outside the dynamic range around 1000, interrupts trading behind its fills.
pub fn an_interruption_by_the_dynamic_range()
    ensures plain { told distant_book (enter 0 1 Buy (kind.Limit 1030) 30)
        ≡ Accepted (entry.Order (buy 1 1030 30)) ∷ fill_of made.Continuous Buy 10 1010 (0, 1) 20 ∷ fill_of made.Continuous Sell 10 1010 (1, 1) 0
        ∷ Interrupted 1030 range.Dynamic ∷ Began (Call Interruption stage.Interrupted) ∷ [] }
    ensures immediate { told distant_book (buy_on Ioc 1030 30)
        ≡ Accepted (entry.Order (buy 1 1030 30)) ∷ fill_of made.Continuous Buy 10 1010 (0, 1) 20 ∷ fill_of made.Continuous Sell 10 1010 (1, 1) 0
        ∷ Interrupted 1030 range.Dynamic ∷ Began (Call Interruption stage.Interrupted) ∷ Deleted (entry.Order (buy 1 1030 20)) ImmediateOrCancel ∷ [] }
    ensures used_up { told distant_book (enter 0 1 Buy (kind.Limit 1030) 10)
        ≡ Accepted (entry.Order (buy 1 1030 10)) ∷ fill_of made.Continuous Buy 10 1010 (0, 1) 0 ∷ fill_of made.Continuous Sell 10 1010 (1, 1) 0 ∷ [] }
{}

/// At a last price of 1040 and an opening reference of 1000, 1055 is inside the dynamic range and outside the static one.
pub fn an_interruption_by_the_static_range()
    ensures { told drifted_book (enter 0 3 Buy (kind.Limit 1055) 10)
        ≡ Accepted (entry.Order (buy 3 1055 10)) ∷ Interrupted 1055 range.Static ∷ Began (Call Interruption stage.Interrupted) ∷ [] }
{}

/// A call makes three trades of two buys and two sells at 1001, all marked with it, and trading begins behind them. The orders
/// that come in during the call are only accepted.
pub fn a_call_with_three_trades()
    ensures lawful { is_lawful (journal (crossed_call ++ Uncross ∷ [])) ≡ true }
    ensures in_call { told (StartOpening ∷ []) (enter 0 1 Buy (kind.Limit 1002) 30) ≡ Accepted (entry.Order (buy 1 1002 30)) ∷ [] }
    ensures trades { told crossed_call Uncross
        ≡ fill_of (made.Auction Opening stage.Ordinary) Buy 20 1001 (0, 1) 10 ∷ fill_of (made.Auction Opening stage.Ordinary) Sell 20 1001 (1, 1) 0
        ∷ fill_of (made.Auction Opening stage.Ordinary) Buy 10 1001 (0, 1) 0 ∷ fill_of (made.Auction Opening stage.Ordinary) Sell 10 1001 (1, 2) 20
        ∷ fill_of (made.Auction Opening stage.Ordinary) Buy 20 1001 (0, 2) 20 ∷ fill_of (made.Auction Opening stage.Ordinary) Sell 20 1001 (1, 2) 0
        ∷ Began Continuous ∷ [] }
    ensures without_a_price { told (StartOpening ∷ enter 0 1 Buy (kind.Limit 1002) 30 ∷ []) Uncross ≡ Began Continuous ∷ [] }
{}

/// A call at 1100 is interrupted by the dynamic range around 1000, then extended by the wide range, and then trades.
pub fn a_call_that_leaves_the_wide_range()
    ensures interrupted { told distant_call Uncross ≡ Interrupted 1100 range.Dynamic ∷ Began (Call Opening stage.Interrupted) ∷ [] }
    ensures extended { told (distant_call ++ Uncross ∷ []) Uncross ≡ Interrupted 1100 range.Wide ∷ Began (Call Opening stage.Extended) ∷ [] }
    ensures traded { told (distant_call ++ Uncross ∷ Uncross ∷ []) Uncross
        ≡ fill_of (made.Auction Opening stage.Extended) Buy 10 1100 (0, 1) 0 ∷ fill_of (made.Auction Opening stage.Extended) Sell 10 1100 (1, 1) 0 ∷ Began Continuous ∷ [] }
{}

/// A sell at 995 reaches a stop, which comes in as a market order: its fills follow, and the buy that both meet tells what is left
/// of it behind each.
pub fn a_stop_that_is_triggered()
    ensures held { told (StartOpening ∷ Uncross ∷ []) (enter 1 1 Sell (kind.StopMarket 995) 12) ≡ Accepted (entry.Stop (stop 1 1 Sell 995 Market 12)) ∷ [] }
    ensures filled { told stop_book (enter 1 2 Sell (kind.Limit 990) 8)
        ≡ Accepted (entry.Order (sell 2 990 8))
        ∷ fill_of made.Continuous Buy 5 995 (0, 1) 0 ∷ fill_of made.Continuous Sell 5 995 (1, 2) 3
        ∷ fill_of made.Continuous Buy 3 990 (0, 2) 17 ∷ fill_of made.Continuous Sell 3 990 (1, 2) 0
        ∷ Triggered (stop 1 1 Sell 995 Market 12)
        ∷ fill_of made.Continuous Buy 12 990 (0, 2) 5 ∷ fill_of made.Continuous Sell 12 990 (1, 1) 0
        ∷ [] }
    ensures not_reached { told stop_book (enter 1 2 Sell (kind.Limit 1000) 8) ≡ Accepted (entry.Order (sell 2 1000 8)) ∷ [] }
{}

/// A sell reaches two stops in turn: the first becomes a market order, and its fill reaches the second, of which a rest is left. A stop
/// that was reached at 990 comes in before one that is reached at 985.
pub fn a_cascade_of_stops()
    ensures two { told cascade_book falling_sell
        ≡ Accepted (entry.Order (sell 3 990 30))
        ∷ fill_of made.Continuous Buy 10 1000 (0, 1) 0 ∷ fill_of made.Continuous Sell 10 1000 (1, 3) 20
        ∷ fill_of made.Continuous Buy 20 990 (0, 2) 0 ∷ fill_of made.Continuous Sell 20 990 (1, 3) 0
        ∷ Triggered (stop 1 1 Sell 990 Market 25)
        ∷ fill_of made.Continuous Buy 25 985 (0, 3) 5 ∷ fill_of made.Continuous Sell 25 985 (1, 1) 0
        ∷ Triggered (stop 1 2 Sell 985 (Limit 985) 10)
        ∷ fill_of made.Continuous Buy 5 985 (0, 3) 0 ∷ fill_of made.Continuous Sell 5 985 (1, 2) 5
        ∷ [] }
    ensures in_turn { told full_cascade_book falling_sell
        ≡ Accepted (entry.Order (sell 3 990 30))
        ∷ fill_of made.Continuous Buy 10 1000 (0, 1) 0 ∷ fill_of made.Continuous Sell 10 1000 (1, 3) 20
        ∷ fill_of made.Continuous Buy 20 990 (0, 2) 0 ∷ fill_of made.Continuous Sell 20 990 (1, 3) 0
        ∷ Triggered (stop 1 1 Sell 990 Market 25)
        ∷ fill_of made.Continuous Buy 25 985 (0, 3) 15 ∷ fill_of made.Continuous Sell 25 985 (1, 1) 0
        ∷ Triggered (stop 1 4 Sell 990 (Limit 985) 5)
        ∷ fill_of made.Continuous Buy 5 985 (0, 3) 10 ∷ fill_of made.Continuous Sell 5 985 (1, 4) 0
        ∷ Triggered (stop 1 2 Sell 985 (Limit 985) 10)
        ∷ fill_of made.Continuous Buy 10 985 (0, 3) 0 ∷ fill_of made.Continuous Sell 10 985 (1, 2) 0
        ∷ [] }
{}

/// The order of the first of two stops would trade at 960, outside the dynamic range around 990, and interrupts trading; the second one
/// comes in behind that, and only joins. The price of the call that follows reaches a third stop, which comes in behind the call.
pub fn an_interruption_between_stops()
    ensures interrupted { told cut_cascade_book falling_sell
        ≡ Accepted (entry.Order (sell 3 990 30))
        ∷ fill_of made.Continuous Buy 10 1000 (0, 1) 0 ∷ fill_of made.Continuous Sell 10 1000 (1, 3) 20
        ∷ fill_of made.Continuous Buy 20 990 (0, 2) 0 ∷ fill_of made.Continuous Sell 20 990 (1, 3) 0
        ∷ Triggered (stop 1 1 Sell 990 Market 25)
        ∷ Interrupted 960 range.Dynamic ∷ Began (Call Interruption stage.Interrupted)
        ∷ Triggered (stop 1 4 Sell 990 (Limit 985) 5)
        ∷ [] }
    ensures uncrossed { told (cut_cascade_book ++ falling_sell ∷ []) Uncross
        ≡ fill_of (made.Auction Interruption stage.Interrupted) Buy 25 960 (0, 3) 5 ∷ fill_of (made.Auction Interruption stage.Interrupted) Sell 25 960 (1, 1) 0
        ∷ Began Continuous
        ∷ Triggered (stop 1 2 Sell 985 (Limit 985) 10)
        ∷ [] }
{}

/// Each command of the phases tells the phase that it begins; a closing call without a price leads to post-trading.
pub fn phases_begin()
    ensures opening { told [] StartOpening ≡ Began (Call Opening stage.Ordinary) ∷ [] }
    ensures intraday { told (opened []) StartIntraday ≡ Began (Call Intraday stage.Ordinary) ∷ [] }
    ensures closing { told (opened []) StartClosing ≡ Began (Call Closing stage.Ordinary) ∷ [] }
    ensures post_trading { told (opened (StartClosing ∷ [])) Uncross ≡ Began PostTrading ∷ [] }
{}

/// An order for auctions alone comes in without a fill in continuous trading, though it would meet an order; so does a book-or-cancel
/// order, which meets none.
pub fn orders_that_only_come_in()
    ensures for_auctions { told two_sells (Enter 0 1 Buy (kind.Limit 1010) 5 Day AuctionsOnly Plain) ≡ Accepted (entry.Order (record (buy 1 1010 5) { restriction = AuctionsOnly })) ∷ [] }
    ensures book_or_cancel { told two_sells (buy_on Boc 999 5) ≡ Accepted (entry.Order (buy 1 999 5)) ∷ [] }
{}

/// A member that trades with itself is told both its orders, which have two references.
pub fn a_member_that_trades_with_itself()
    ensures { told (opened (enter 0 7 Sell (kind.Limit 1000) 8 ∷ [])) (enter 0 1 Buy (kind.Limit 1000) 5)
        ≡ Accepted (entry.Order (buy 1 1000 5)) ∷ fill_of made.Continuous Buy 5 1000 (0, 1) 0 ∷ fill_of made.Continuous Sell 5 1000 (0, 7) 3 ∷ [] }
{}

/// A change that keeps the priority of an order is told alone; one that takes it comes in again, and trades as any order does.
pub fn changes()
    ensures reduced { told two_sells (Change 1 1 3 None) ≡ Changed (sell 1 1010 3) ∷ [] }
    ensures again { told (two_sells ++ enter 0 1 Buy (kind.Limit 990) 25 ∷ []) (Change 0 1 12 (Some 1000))
        ≡ Changed (buy 1 1000 12) ∷ fill_of made.Continuous Buy 10 1000 (0, 1) 2 ∷ fill_of made.Continuous Sell 10 1000 (1, 2) 0 ∷ [] }
{}

/// A member's orders are cancelled first, each in its turn, and then its stops; those of others stay.
pub fn cancellations()
    ensures all { told one_stop (CancelAll 0) ≡ Cancelled (entry.Order (buy 1 990 10)) ∷ Cancelled (entry.Stop (stop 0 2 Sell 980 Market 5)) ∷ [] }
    ensures one { told one_stop (Cancel 1 1) ≡ Cancelled (entry.Order (order 1 1 Buy (Limit 985) 3)) ∷ [] }
    ensures a_stop { told one_stop (Cancel 0 2) ≡ Cancelled (entry.Stop (stop 0 2 Sell 980 Market 5)) ∷ [] }
    ensures partly_filled { told (two_sells ++ enter 0 1 Buy (kind.Limit 1000) 4 ∷ []) (Cancel 1 2) ≡ Cancelled (entry.Order (sell 2 1000 6)) ∷ [] }
{}

/// At the end of the day the orders and stops for the day are deleted; what stays till cancelled isn't told.
pub fn the_end_of_the_day()
    ensures lawful { is_lawful (journal (closed_day ++ EndDay ∷ [])) ≡ true }
    ensures deleted { told closed_day EndDay
        ≡ Deleted (entry.Order (order 1 1 Buy (Limit 985) 5)) EndOfDay ∷ Deleted (entry.Stop (stop 0 9 Sell 905 (Limit 903) 3)) EndOfDay ∷ Began Ended ∷ [] }
{}
