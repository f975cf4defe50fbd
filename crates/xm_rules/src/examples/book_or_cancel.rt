//! Book-or-cancel orders.
#![tactic(auto, unfolding(crate::specs::Refusals::refusal_of, crate::specs::Step::step, crate::specs::Step::reply, crate::specs::Step::replay, crate::specs::Step::is_lawful, crate::specs::Opening::opening))]

ghost use Rattle.std.specs.Prelude.{◌≡◌, [], ◌∷◌, Some, None};
ghost use Rattle.xm_rules.specs.Examples.{answer, boc, buy, enter, in_call, opened, order, refusal_beside, sell, settings, standing, state_after, stop, trade};
ghost use Rattle.xm_rules.specs.Refusals.{refusal_of};
ghost use Rattle.xm_rules.specs.declared.commands.Command.TheVariants.{Change, Enter};
ghost use Rattle.xm_rules.specs.declared.commands.Condition.TheVariants.{Boc};
ghost use Rattle.xm_rules.specs.declared.commands.Kind.TheVariants as kind;
ghost use Rattle.xm_rules.specs.declared.orders.OrderKind.TheVariants.{Market, Limit};
ghost use Rattle.xm_rules.specs.declared.orders.Restriction.TheVariants.{Free, OpeningOnly, AuctionsOnly, ClosingOnly};
ghost use Rattle.xm_rules.specs.declared.orders.Side.TheVariants.{Buy, Sell};
ghost use Rattle.xm_rules.specs.declared.orders.TradeKind.TheVariants as made;
ghost use Rattle.xm_rules.specs.declared.orders.Validity.TheVariants.{Day, TillDate};
ghost use Rattle.xm_rules.specs.declared.phases.Phase.TheVariants.{PreTrading, Continuous, PostTrading};
ghost use Rattle.xm_rules.specs.declared.replies.Refusal.TheVariants.{BadPrice, BadValidity, BadCombination, WrongPhase, DuplicateReference, JournalFull, WouldExecute};

/// It is a free limit order of continuous trading, and is refused in this order of the checks.
pub fn checks_of_a_book_or_cancel_order()
    ensures market { refusal_beside [] (Enter 0 9 Buy kind.Market 10 Day Free Boc) ≡ Some BadCombination }
    ensures stop_market { refusal_beside [] (Enter 0 9 Buy (kind.StopMarket 1010) 10 Day Free Boc) ≡ Some BadCombination }
    ensures stop_limit { refusal_beside [] (Enter 0 9 Buy (kind.StopLimit 1010 1010) 10 Day Free Boc) ≡ Some BadCombination }
    ensures opening_only { refusal_beside [] (Enter 0 9 Buy (kind.Limit 1000) 10 Day OpeningOnly Boc) ≡ Some BadCombination }
    ensures auctions_only { refusal_beside [] (Enter 0 9 Buy (kind.Limit 1000) 10 Day AuctionsOnly Boc) ≡ Some BadCombination }
    ensures closing_only { refusal_beside [] (Enter 0 9 Buy (kind.Limit 1000) 10 Day ClosingOnly Boc) ≡ Some BadCombination }
    ensures before_trading { refusal_of (standing PreTrading [] []) (boc 9 Buy 1000 10) ≡ Some WrongPhase }
    ensures in_a_call { refusal_of in_call (boc 9 Buy 1000 10) ≡ Some WrongPhase }
    ensures after_trading { refusal_of (standing PostTrading [] []) (boc 9 Buy 1000 10) ≡ Some WrongPhase }
    ensures in_trading { refusal_beside [] (boc 9 Buy 1000 10) ≡ None }
    ensures validity_before_combination { refusal_beside [] (Enter 0 9 Buy kind.Market 10 (TillDate 20260104) Free Boc) ≡ Some BadValidity }
    ensures price_before_trade { refusal_beside (sell 1 1010 10 ∷ []) (boc 9 Buy 1000001 5) ≡ Some BadPrice }
    ensures combination_before_phase { refusal_of in_call (Enter 0 9 Buy kind.Market 10 Day Free Boc) ≡ Some BadCombination }
    ensures combination_before_trade { refusal_beside (sell 1 1010 10 ∷ []) (Enter 0 9 Buy kind.Market 5 Day Free Boc) ≡ Some BadCombination }
    ensures phase_before_reference { refusal_of in_call (boc 1 Buy 1000 10) ≡ Some WrongPhase }
    ensures phase_before_trade { refusal_of in_call (boc 9 Sell 980 10) ≡ Some WrongPhase }
    ensures reference_before_trade { refusal_beside (buy 1 990 5 ∷ sell 1 1010 10 ∷ []) (boc 1 Buy 1010 5) ≡ Some DuplicateReference }
    ensures trade_before_journal { refusal_of (record (standing Continuous (sell 1 1010 10 ∷ []) []) { accepted = 1000 }) (boc 9 Buy 1010 5) ≡ Some WouldExecute }
    ensures journal { refusal_of (record (standing Continuous (sell 1 1010 10 ∷ []) []) { accepted = 1000 }) (boc 9 Buy 1009 5) ≡ Some JournalFull }
{}

/// It is refused where an active order of the other side meets it, also one of its own member, and also at a price outside a
/// range.
pub fn what_a_book_or_cancel_order_meets()
    ensures at_its_limit { refusal_beside (sell 1 1010 10 ∷ []) (boc 9 Buy 1010 5) ≡ Some WouldExecute }
    ensures better { refusal_beside (sell 1 1010 10 ∷ []) (boc 9 Buy 1011 5) ≡ Some WouldExecute }
    ensures worse { refusal_beside (sell 1 1010 10 ∷ []) (boc 9 Buy 1009 5) ≡ None }
    ensures sell_at_its_limit { refusal_beside (buy 1 990 10 ∷ []) (boc 9 Sell 990 5) ≡ Some WouldExecute }
    ensures worse_sell { refusal_beside (buy 1 990 10 ∷ []) (boc 9 Sell 991 5) ≡ None }
    ensures second_of_the_side { refusal_beside (sell 1 1020 10 ∷ sell 2 1010 10 ∷ []) (boc 9 Buy 1010 5) ≡ Some WouldExecute }
    ensures market_order { refusal_beside (order 1 1 Sell Market 10 ∷ []) (boc 9 Buy 1 5) ≡ Some WouldExecute }
    ensures outside_the_range { refusal_beside (sell 1 1030 10 ∷ []) (boc 9 Buy 1030 5) ≡ Some WouldExecute }
    ensures of_its_own_member { refusal_beside (order 0 1 Sell (Limit 1010) 10 ∷ []) (boc 9 Buy 1010 5) ≡ Some WouldExecute }
    ensures one_unit_of_many { refusal_beside (sell 1 1010 1 ∷ []) (boc 9 Buy 1010 1000000) ≡ Some WouldExecute }
    ensures of_its_own_side { refusal_beside (buy 1 1010 10 ∷ []) (boc 9 Buy 1010 5) ≡ None }
    ensures for_auctions_alone { refusal_beside (record (sell 1 990 10) { restriction = AuctionsOnly } ∷ []) (boc 9 Buy 990 5) ≡ None }
    ensures held_stop { refusal_of (standing Continuous [] (stop 1 1 Sell 990 (Limit 980) 10 ∷ [])) (boc 9 Buy 1000 5) ≡ None }
{}

/// Where it meets none it joins last, after a sweep without trades.
pub fn book_or_cancel_order_that_joins()
    ensures state { state_after (opened (enter 1 1 Sell (kind.Limit 1010) 10 ∷ enter 1 2 Buy (kind.Limit 1000) 3 ∷ boc 1 Buy 1000 5 ∷ [])) ≡ record (standing Continuous (sell 1 1010 10 ∷ order 1 2 Buy (Limit 1000) 3 ∷ buy 1 1000 5 ∷ []) []) {
      accepted = 5;
      sweeps = 3;
    } }
    ensures reply { answer (opened (enter 1 1 Sell (kind.Limit 1010) 10 ∷ [])) (boc 1 Buy 1000 5)
        ≡ record { version = 4; first_trade = 0; trades = 0; quantity = 0; money = 0; phase = Continuous } }
{}

/// The condition isn't kept: an order that is changed afterwards may trade.
pub fn book_or_cancel_order_that_is_changed()
    ensures { state_after (opened (enter 1 1 Sell (kind.Limit 1010) 10 ∷ boc 1 Buy 1000 5 ∷ Change 0 1 5 (Some 1010) ∷ [])) ≡ record (standing Continuous (sell 1 1010 5 ∷ []) []) {
      accepted = 5;
      trades = trade made.Continuous 3 5 1010 (0, 1) (1, 1) ∷ [];
      sweeps = 3;
    } }
{}
