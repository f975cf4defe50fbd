//! A day that begins with what earlier days left.
#![tactic(auto, unfolding(crate::specs::Refusals::refusal_of, crate::specs::Step::step, crate::specs::Step::reply, crate::specs::Step::replay, crate::specs::Step::is_lawful, crate::specs::Opening::opening))]

ghost use Rattle.std.specs.Prelude.{◌≡◌, [], ◌∷◌, false, true, Some};
ghost use Rattle.xm_rules.specs.Examples.{buy, carrying, enter, lasting, lasting_stop, left_over, order, sell, stop_at, takes, till, trade};
ghost use Rattle.xm_rules.specs.Opening.{opening};
ghost use Rattle.xm_rules.specs.Refusals.{refusal_of};
ghost use Rattle.xm_rules.specs.Step.{is_lawful, replay, reply, step};
ghost use Rattle.xm_rules.specs.declared.commands.Command.TheVariants.{EndDay, StartClosing, StartOpening, Uncross};
ghost use Rattle.xm_rules.specs.declared.commands.Kind.TheVariants as kind;
ghost use Rattle.xm_rules.specs.declared.orders.OrderKind.TheVariants.{Limit, Market};
ghost use Rattle.xm_rules.specs.declared.orders.Side.TheVariants.{Buy, Sell};
ghost use Rattle.xm_rules.specs.declared.orders.TradeKind.TheVariants as made;
ghost use Rattle.xm_rules.specs.declared.orders.Validity.TheVariants.{Day, TillCancelled, TillDate};
ghost use Rattle.xm_rules.specs.declared.phases.Auction.TheVariants.{Opening};
ghost use Rattle.xm_rules.specs.declared.phases.CallStage.TheVariants.{Ordinary};
ghost use Rattle.xm_rules.specs.declared.phases.Phase.TheVariants.{PreTrading};
ghost use Rattle.xm_rules.specs.declared.replies.Refusal.TheVariants.{DuplicateReference};

/// The day opens with the orders that are still valid today, in their order; what ended yesterday is gone. Behind them stand the
/// orders of the stops that the reference has reached, in order of entry; the other stop is held. Nothing is counted yet.
pub fn day_opens_with_what_is_still_valid()
    ensures { opening left_over ≡ record {
      settings = left_over;
      accepted = 0;
      phase = PreTrading;
      orders = till TillCancelled (buy 1 990 5) ∷ till (TillDate 20260105) (sell 1 1010 3) ∷ till (TillDate 20260106) (sell 2 1020 4)
          ∷ till TillCancelled (order 0 3 Sell Market 5) ∷ till (TillDate 20260105) (order 1 6 Sell Market 5) ∷ [];
      stops = stop_at 1 4 900 TillCancelled ∷ [];
      trades = [];
      sweeps = 0;
    } }
{}

/// Its orders trade in the opening call as those of the day do, and its names are taken. What was valid until today is gone at the
/// day's end.
pub fn day_of_carried_orders()
    ensures traded { (replay (record { settings = left_over; commands = StartOpening ∷ Uncross ∷ [] })).trades
        ≡ trade (made.Auction Opening Ordinary) 1 5 990 (0, 1) (0, 3) ∷ [] }
    ensures left { (replay (record { settings = left_over; commands = StartOpening ∷ Uncross ∷ StartClosing ∷ Uncross ∷ EndDay ∷ [] })).orders
        ≡ till (TillDate 20260106) (sell 2 1020 4) ∷ [] }
    ensures left_held { (replay (record { settings = left_over; commands = StartOpening ∷ Uncross ∷ StartClosing ∷ Uncross ∷ EndDay ∷ [] })).stops
        ≡ stop_at 1 4 900 TillCancelled ∷ [] }
    ensures lawful { is_lawful (record { settings = left_over; commands = StartOpening ∷ Uncross ∷ StartClosing ∷ Uncross ∷ EndDay ∷ [] }) ≡ true }
    ensures taken { refusal_of (opening left_over) (enter 0 1 Buy (kind.Limit 990) 1) ≡ Some DuplicateReference }
    ensures held { refusal_of (opening left_over) (enter 1 4 Buy (kind.Limit 990) 1) ≡ Some DuplicateReference }
    ensures first { reply (opening left_over) (step (opening left_over) (enter 0 9 Buy (kind.Limit 990) 1))
        ≡ record { version = 1; first_trade = 0; trades = 0; quantity = 0; money = 0; phase = PreTrading } }
{}

/// A security takes no two entries of one name, none of a member that it doesn't know, none of the day alone, and none whose units,
/// trigger or limit are out of range. An entry that has ended is asked like any other.
pub fn entries_that_a_security_takes()
    ensures none { takes [] [] ≡ true }
    ensures some { takes (lasting (buy 1 990 5) ∷ lasting (sell 1 1010 5) ∷ []) (lasting_stop ∷ []) ≡ true }
    ensures names { takes (lasting (buy 1 990 5) ∷ lasting (buy 1 980 5) ∷ []) [] ≡ false }
    ensures names_of_stops { takes [] (lasting_stop ∷ lasting_stop ∷ []) ≡ false }
    ensures names_of_both { takes (lasting (buy 3 990 5) ∷ []) (lasting_stop ∷ []) ≡ false }
    ensures names_of_ended { takes (lasting (buy 1 990 5) ∷ till (TillDate 20260101) (buy 1 980 5) ∷ []) [] ≡ false }
    ensures member { takes (lasting (order 5 1 Buy (Limit 990) 5) ∷ []) [] ≡ false }
    ensures member_of_stop { takes [] (stop_at 2 1 900 TillCancelled ∷ []) ≡ false }
    ensures day { takes (buy 1 990 5 ∷ []) [] ≡ false }
    ensures day_of_stop { takes [] (stop_at 0 1 900 Day ∷ []) ≡ false }
    ensures no_units { takes (lasting (buy 1 990 0) ∷ []) [] ≡ false }
    ensures many_units { takes (lasting (buy 1 990 1000001) ∷ []) [] ≡ false }
    ensures no_trigger { takes [] (stop_at 0 1 0 TillCancelled ∷ []) ≡ false }
    ensures high_trigger { takes [] (stop_at 0 1 1000001 TillCancelled ∷ []) ≡ false }
    ensures no_limit { takes (lasting (buy 1 0 5) ∷ []) [] ≡ false }
    ensures unlawful { is_lawful (record { settings = carrying (buy 1 990 5 ∷ []) []; commands = [] }) ≡ false }
{}
