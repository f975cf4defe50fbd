//! Whole replays with auctions.
#![tactic(auto, unfolding(crate::specs::Refusals::refusal_of, crate::specs::Step::step, crate::specs::Step::reply, crate::specs::Step::replay, crate::specs::Step::is_lawful, crate::specs::Opening::opening))]

ghost use Rattle.std.specs.Prelude.{◌≡◌, [], ◌∷◌, ◌++◌, true, Some};
ghost use Rattle.xm_rules.specs.Examples.{open_spread, references, order, enter, trade, settings, journal, state_after, answer, distant_call, drifted_call, waiting_order, call_price, after_empty};
ghost use Rattle.xm_rules.specs.Step.{is_lawful};
ghost use Rattle.xm_rules.specs.declared.commands.Command.TheVariants.{Cancel, StartOpening, StartIntraday, StartClosing, Uncross};
ghost use Rattle.xm_rules.specs.declared.commands.Kind.TheVariants as kind;
ghost use Rattle.xm_rules.specs.declared.orders.OrderKind.TheVariants.{Limit};
ghost use Rattle.xm_rules.specs.declared.orders.Restriction.TheVariants.{AuctionsOnly};
ghost use Rattle.xm_rules.specs.declared.orders.Side.TheVariants.{Buy, Sell};
ghost use Rattle.xm_rules.specs.declared.orders.TradeKind.TheVariants as made;
ghost use Rattle.xm_rules.specs.declared.phases.Auction.TheVariants.{Opening, Intraday, Closing, Interruption};
ghost use Rattle.xm_rules.specs.declared.phases.CallStage.TheVariants.{Ordinary, Interrupted, Extended};
ghost use Rattle.xm_rules.specs.declared.phases.Phase.TheVariants.{Call, Continuous, PostTrading};

/// An opening auction without a price leads to continuous trading all the same, and takes no sweep number; so does a
/// closing one to post-trading.
pub fn auction_without_a_price()
    ensures state { state_after (open_spread ++ Uncross ∷ []) ≡ record {
      settings = settings;
      accepted = 4;
      phase = Continuous;
      orders = order 0 1 Buy (Limit 990) 5 ∷ order 1 1 Sell (Limit 1010) 5 ∷ [];
      stops = [];
      trades = [];
      sweeps = 0;
    } }
    ensures reply { answer open_spread Uncross
        ≡ record { version = 4; first_trade = 0; trades = 0; quantity = 0; money = 0; phase = Continuous } }
    ensures empty { answer (StartOpening ∷ []) Uncross ≡ record { version = 2; first_trade = 0; trades = 0; quantity = 0; money = 0; phase = Continuous } }
    ensures closing { answer (StartOpening ∷ Uncross ∷ StartClosing ∷ []) Uncross ≡ record { version = 4; first_trade = 0; trades = 0; quantity = 0; money = 0; phase = PostTrading } }
{}

/// A potential price outside the dynamic range interrupts the call, one outside the wide range extends it, and then it is
/// traded at.
pub fn extended_auction()
    ensures lawful { is_lawful (journal (distant_call ++ Uncross ∷ Uncross ∷ Uncross ∷ [])) ≡ true }
    ensures first { answer distant_call Uncross ≡ record { version = 4; first_trade = 0; trades = 0; quantity = 0; money = 0; phase = Call Opening Interrupted } }
    ensures second { answer (distant_call ++ Uncross ∷ []) Uncross
        ≡ record { version = 5; first_trade = 0; trades = 0; quantity = 0; money = 0; phase = Call Opening Extended } }
    ensures third { answer (distant_call ++ Uncross ∷ Uncross ∷ []) Uncross
        ≡ record { version = 6; first_trade = 0; trades = 1; quantity = 10; money = 11000; phase = Continuous } }
    ensures state { state_after (distant_call ++ Uncross ∷ Uncross ∷ Uncross ∷ []) ≡ record {
      settings = settings;
      accepted = 6;
      phase = Continuous;
      orders = [];
      stops = [];
      trades = trade (made.Auction Opening Extended) 1 10 1100 (0, 1) (1, 1) ∷ [];
      sweeps = 1;
    } }
    ensures references { references (state_after (distant_call ++ Uncross ∷ Uncross ∷ Uncross ∷ [])) ≡ (1100, 1100) }
{}

/// What a call would trade at doesn't depend on its stage.
pub fn price_in_each_stage()
    ensures ordinary { call_price (state_after distant_call) ≡ Some (1100, 10) }
    ensures interrupted { call_price (state_after (distant_call ++ Uncross ∷ [])) ≡ Some (1100, 10) }
    ensures extended { call_price (state_after (distant_call ++ Uncross ∷ Uncross ∷ [])) ≡ Some (1100, 10) }
{}

/// An interrupted or an extended call without a price ends without a trade, as an ordinary one does.
pub fn later_stages_without_a_price()
    ensures interrupted { state_after (distant_call ++ Uncross ∷ Cancel 1 1 ∷ Uncross ∷ []) ≡ record {
      settings = settings;
      accepted = 6;
      phase = Continuous;
      orders = order 0 1 Buy (Limit 1100) 10 ∷ [];
      stops = [];
      trades = [];
      sweeps = 0;
    } }
    ensures extended { state_after (distant_call ++ Uncross ∷ Uncross ∷ Cancel 1 1 ∷ Uncross ∷ []) ≡ record {
      settings = settings;
      accepted = 7;
      phase = Continuous;
      orders = order 0 1 Buy (Limit 1100) 10 ∷ [];
      stops = [];
      trades = [];
      sweeps = 0;
    } }
    ensures intraday { after_empty (Call Intraday Interrupted) ≡ Continuous }
    ensures intraday_extended { after_empty (Call Intraday Extended) ≡ Continuous }
    ensures interruption { after_empty (Call Interruption Interrupted) ≡ Continuous }
    ensures interruption_extended { after_empty (Call Interruption Extended) ≡ Continuous }
    ensures closing { after_empty (Call Closing Interrupted) ≡ PostTrading }
    ensures closing_extended { after_empty (Call Closing Extended) ≡ PostTrading }
{}

/// A potential price inside the dynamic range and outside the static one interrupts the call; an interrupted call asks the
/// wide range alone.
pub fn static_range_interrupts_a_call()
    ensures lawful { is_lawful (journal (drifted_call ++ Uncross ∷ Uncross ∷ [])) ≡ true }
    ensures first { answer drifted_call Uncross ≡ record { version = 10; first_trade = 2; trades = 0; quantity = 0; money = 0; phase = Call Intraday Interrupted } }
    ensures second { answer (drifted_call ++ Uncross ∷ []) Uncross
        ≡ record { version = 11; first_trade = 2; trades = 1; quantity = 10; money = 10550; phase = Continuous } }
    ensures references_before { references (state_after drifted_call) ≡ (1040, 1000) }
    ensures state { state_after (drifted_call ++ Uncross ∷ Uncross ∷ []) ≡ record {
      settings = settings;
      accepted = 11;
      phase = Continuous;
      orders = [];
      stops = [];
      trades =
          trade made.Continuous 2 1 1020 (0, 1) (1, 1) ∷ trade made.Continuous 4 1 1040 (0, 2) (1, 2)
          ∷ trade (made.Auction Intraday Interrupted) 5 10 1055 (0, 3) (1, 3) ∷ [];
      sweeps = 5;
    } }
    ensures references { references (state_after (drifted_call ++ Uncross ∷ Uncross ∷ [])) ≡ (1055, 1055) }
{}

/// A sell for auctions alone isn't met in continuous trading, and is in the next auction.
pub fn auction_order_waits()
    ensures waits { state_after waiting_order ≡ record {
      settings = settings;
      accepted = 4;
      phase = Continuous;
      orders = record (order 0 7 Sell (Limit 990) 10) { restriction = AuctionsOnly } ∷ order 1 7 Buy (Limit 1000) 10 ∷ [];
      stops = [];
      trades = [];
      sweeps = 1;
    } }
    ensures traded { state_after (waiting_order ++ StartIntraday ∷ Uncross ∷ []) ≡ record {
      settings = settings;
      accepted = 6;
      phase = Continuous;
      orders = [];
      stops = [];
      trades = trade (made.Auction Intraday Ordinary) 2 10 1000 (1, 7) (0, 7) ∷ [];
      sweeps = 2;
    } }
    ensures reply { answer (waiting_order ++ StartIntraday ∷ []) Uncross
        ≡ record { version = 6; first_trade = 0; trades = 1; quantity = 10; money = 10000; phase = Continuous } }
{}
