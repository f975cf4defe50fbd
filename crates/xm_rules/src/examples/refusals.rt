//! Each refusal, and which comes first where two checks fail.
#![tactic(auto, unfolding(crate::specs::Refusals::refusal_of, crate::specs::Step::step, crate::specs::Step::reply, crate::specs::Step::replay, crate::specs::Step::is_lawful, crate::specs::Opening::opening))]

ghost use Rattle.std.specs.Prelude.{◌≡◌, [], ◌∷◌, Some, None};
ghost use Rattle.xm_rules.specs.Refusals.{refusal_of};
ghost use Rattle.xm_rules.specs.Examples.{enter, standing, in_call, ended, with_accepted, refusals_in, wrong};
ghost use Rattle.xm_rules.specs.declared.commands.Command.TheVariants.{Enter, Change, Cancel, CancelAll, StartOpening, StartIntraday, StartClosing, Uncross, EndDay};
ghost use Rattle.xm_rules.specs.declared.commands.Condition.TheVariants.{Plain, Ioc, Fok};
ghost use Rattle.xm_rules.specs.declared.commands.Kind.TheVariants as kind;
ghost use Rattle.xm_rules.specs.declared.orders.Restriction.TheVariants.{Free, OpeningOnly, AuctionsOnly, ClosingOnly};
ghost use Rattle.xm_rules.specs.declared.orders.Side.TheVariants.{Buy, Sell};
ghost use Rattle.xm_rules.specs.declared.orders.Validity.TheVariants.{Day, TillDate, TillCancelled};
ghost use Rattle.xm_rules.specs.declared.phases.Auction.TheVariants.{Opening, Intraday, Closing, Interruption};
ghost use Rattle.xm_rules.specs.declared.phases.CallStage.TheVariants.{Ordinary, Interrupted, Extended};
ghost use Rattle.xm_rules.specs.declared.phases.Phase.TheVariants.{PreTrading, Call, Continuous, PostTrading, Ended};
ghost use Rattle.xm_rules.specs.declared.replies.Refusal.TheVariants.{UnknownMember, DayEnded, BadQuantity, BadPrice, BadValidity, BadCombination, WrongPhase, DuplicateReference, UnknownOrder, NotChangeable, TriggerReached, JournalFull};

/// The refusals of an order or a stop that is entered in an opening call.
pub fn refusals_of_an_entry()
    ensures taken { refusal_of in_call (enter 0 9 Buy (kind.Limit 1000) 10) ≡ None }
    ensures unknown_member { refusal_of in_call (enter 2 9 Buy (kind.Limit 1000) 10) ≡ Some UnknownMember }
    ensures day_ended { refusal_of ended (enter 0 9 Buy (kind.Limit 1000) 10) ≡ Some DayEnded }
    ensures no_quantity { refusal_of in_call (enter 0 9 Buy (kind.Limit 1000) 0) ≡ Some BadQuantity }
    ensures high_quantity { refusal_of in_call (enter 0 9 Buy (kind.Limit 1000) 1000001) ≡ Some BadQuantity }
    ensures highest_quantity { refusal_of in_call (enter 0 9 Buy (kind.Limit 1000) 1000000) ≡ None }
    ensures no_limit { refusal_of in_call (enter 0 9 Buy (kind.Limit 0) 10) ≡ Some BadPrice }
    ensures high_limit { refusal_of in_call (enter 0 9 Buy (kind.Limit 1000001) 10) ≡ Some BadPrice }
    ensures highest_limit { refusal_of in_call (enter 0 9 Buy (kind.Limit 1000000) 10) ≡ None }
    ensures no_trigger { refusal_of in_call (enter 0 9 Sell (kind.StopMarket 0) 10) ≡ Some BadPrice }
    ensures high_trigger { refusal_of in_call (enter 0 9 Buy (kind.StopLimit 1000001 1000) 10) ≡ Some BadPrice }
    ensures high_stop_limit { refusal_of in_call (enter 0 9 Sell (kind.StopLimit 990 1000001) 10) ≡ Some BadPrice }
    ensures yesterday { refusal_of in_call (Enter 0 9 Buy (kind.Limit 1000) 10 (TillDate 20260104) Free Plain) ≡ Some BadValidity }
    ensures today { refusal_of in_call (Enter 0 9 Buy (kind.Limit 1000) 10 (TillDate 20260105) Free Plain) ≡ None }
    ensures immediate_restricted { refusal_of (standing Continuous [] []) (Enter 0 9 Buy (kind.Limit 1000) 10 Day OpeningOnly Ioc) ≡ Some BadCombination }
    ensures immediate_stop { refusal_of (standing Continuous [] []) (Enter 0 9 Buy (kind.StopMarket 1010) 10 Day Free Fok) ≡ Some BadCombination }
    ensures restricted_stop { refusal_of in_call (Enter 0 9 Buy (kind.StopMarket 1010) 10 Day AuctionsOnly Plain) ≡ Some BadCombination }
    ensures ioc_in_a_call { refusal_of in_call (Enter 0 9 Buy (kind.Limit 1000) 10 Day Free Ioc) ≡ Some WrongPhase }
    ensures fok_in_a_call { refusal_of in_call (Enter 0 9 Buy (kind.Limit 1000) 10 Day Free Fok) ≡ Some WrongPhase }
    ensures ioc_taken { refusal_of (standing Continuous [] []) (Enter 0 9 Buy (kind.Limit 1000) 10 Day Free Ioc) ≡ None }
    ensures reference_of_an_order { refusal_of in_call (enter 0 1 Buy (kind.Limit 1000) 10) ≡ Some DuplicateReference }
    ensures reference_of_a_stop { refusal_of in_call (enter 0 3 Buy (kind.Limit 1000) 10) ≡ Some DuplicateReference }
    ensures reference_of_another_member { refusal_of in_call (enter 1 1 Buy (kind.Limit 1000) 10) ≡ None }
    ensures reached_by_a_sell { refusal_of in_call (enter 0 9 Sell (kind.StopMarket 1000) 10) ≡ Some TriggerReached }
    ensures reached_by_a_buy { refusal_of in_call (enter 0 9 Buy (kind.StopLimit 1000 990) 10) ≡ Some TriggerReached }
    ensures not_reached { refusal_of in_call (enter 0 9 Sell (kind.StopMarket 999) 10) ≡ None }
    ensures journal_full { refusal_of (with_accepted 1000) (enter 0 9 Buy (kind.Limit 1000) 10) ≡ Some JournalFull }
    ensures last_of_the_journal { refusal_of (with_accepted 999) (enter 0 9 Buy (kind.Limit 1000) 10) ≡ None }
{}

/// A limit and a trigger are 1 to 1,000,000 ticks, also the limit of a stop's order and one that a change gives.
pub fn prices_at_their_limits()
    ensures lowest { refusal_of in_call (enter 0 9 Buy (kind.Limit 1) 10) ≡ None }
    ensures lowest_trigger { refusal_of in_call (enter 0 9 Sell (kind.StopLimit 1 1000000) 10) ≡ None }
    ensures highest_trigger { refusal_of in_call (enter 0 9 Buy (kind.StopLimit 1000000 1) 10) ≡ None }
    ensures no_stop_limit { refusal_of in_call (enter 0 9 Sell (kind.StopLimit 990 0) 10) ≡ Some BadPrice }
    ensures no_stop_limit_trigger { refusal_of in_call (enter 0 9 Sell (kind.StopLimit 0 990) 10) ≡ Some BadPrice }
    ensures high_stop_trigger { refusal_of in_call (enter 0 9 Buy (kind.StopMarket 1000001) 10) ≡ Some BadPrice }
    ensures lowest_given { refusal_of in_call (Change 0 1 5 (Some 1)) ≡ None }
    ensures highest_given { refusal_of in_call (Change 0 1 5 (Some 1000000)) ≡ None }
    ensures high_given { refusal_of in_call (Change 0 1 5 (Some 1000001)) ≡ Some BadPrice }
{}

/// The refusals of a change and of cancellations.
pub fn refusals_of_changes_and_cancellations()
    ensures changed { refusal_of in_call (Change 0 1 5 (Some 1000)) ≡ None }
    ensures market_changed { refusal_of in_call (Change 0 2 4 None) ≡ None }
    ensures change_of_unknown_member { refusal_of in_call (Change 2 1 5 None) ≡ Some UnknownMember }
    ensures change_after_the_day { refusal_of ended (Change 0 1 5 None) ≡ Some DayEnded }
    ensures change_of_unknown_order { refusal_of in_call (Change 0 9 5 None) ≡ Some UnknownOrder }
    ensures change_of_a_stop { refusal_of in_call (Change 0 3 5 None) ≡ Some NotChangeable }
    ensures limit_for_a_market_order { refusal_of in_call (Change 0 2 5 (Some 1000)) ≡ Some NotChangeable }
    ensures change_to_nothing { refusal_of in_call (Change 0 1 0 None) ≡ Some BadQuantity }
    ensures change_to_no_price { refusal_of in_call (Change 0 1 5 (Some 0)) ≡ Some BadPrice }
    ensures change_at_the_journals_end { refusal_of (with_accepted 1000) (Change 0 1 5 None) ≡ Some JournalFull }
    ensures order_cancelled { refusal_of in_call (Cancel 0 1) ≡ None }
    ensures stop_cancelled { refusal_of in_call (Cancel 0 3) ≡ None }
    ensures cancel_of_unknown_member { refusal_of in_call (Cancel 2 1) ≡ Some UnknownMember }
    ensures cancel_after_the_day { refusal_of ended (Cancel 0 1) ≡ Some DayEnded }
    ensures cancel_of_unknown_order { refusal_of in_call (Cancel 1 1) ≡ Some UnknownOrder }
    ensures cancel_at_the_journals_end { refusal_of (with_accepted 1000) (Cancel 0 1) ≡ Some JournalFull }
    ensures all_cancelled { refusal_of in_call (CancelAll 1) ≡ None }
    ensures cancel_all_of_unknown_member { refusal_of in_call (CancelAll 2) ≡ Some UnknownMember }
    ensures cancel_all_after_the_day { refusal_of ended (CancelAll 0) ≡ Some DayEnded }
    ensures cancel_all_at_the_journals_end { refusal_of (with_accepted 1000) (CancelAll 0) ≡ Some JournalFull }
{}

/// Which commands of the phases are refused in which phase: a call, of whatever auction and stage, only ends.
pub fn phase_commands_in_each_phase()
    ensures pre_trading { refusals_in PreTrading ≡ None ∷ wrong ∷ wrong ∷ wrong ∷ wrong ∷ [] }
    ensures opening { refusals_in (Call Opening Ordinary) ≡ wrong ∷ wrong ∷ wrong ∷ None ∷ wrong ∷ [] }
    ensures opening_interrupted { refusals_in (Call Opening Interrupted) ≡ wrong ∷ wrong ∷ wrong ∷ None ∷ wrong ∷ [] }
    ensures opening_extended { refusals_in (Call Opening Extended) ≡ wrong ∷ wrong ∷ wrong ∷ None ∷ wrong ∷ [] }
    ensures continuous { refusals_in Continuous ≡ wrong ∷ None ∷ None ∷ wrong ∷ wrong ∷ [] }
    ensures intraday { refusals_in (Call Intraday Ordinary) ≡ wrong ∷ wrong ∷ wrong ∷ None ∷ wrong ∷ [] }
    ensures intraday_interrupted { refusals_in (Call Intraday Interrupted) ≡ wrong ∷ wrong ∷ wrong ∷ None ∷ wrong ∷ [] }
    ensures intraday_extended { refusals_in (Call Intraday Extended) ≡ wrong ∷ wrong ∷ wrong ∷ None ∷ wrong ∷ [] }
    ensures interruption { refusals_in (Call Interruption Ordinary) ≡ wrong ∷ wrong ∷ wrong ∷ None ∷ wrong ∷ [] }
    ensures interruption_interrupted { refusals_in (Call Interruption Interrupted) ≡ wrong ∷ wrong ∷ wrong ∷ None ∷ wrong ∷ [] }
    ensures interruption_extended { refusals_in (Call Interruption Extended) ≡ wrong ∷ wrong ∷ wrong ∷ None ∷ wrong ∷ [] }
    ensures closing { refusals_in (Call Closing Ordinary) ≡ wrong ∷ wrong ∷ wrong ∷ None ∷ wrong ∷ [] }
    ensures closing_interrupted { refusals_in (Call Closing Interrupted) ≡ wrong ∷ wrong ∷ wrong ∷ None ∷ wrong ∷ [] }
    ensures closing_extended { refusals_in (Call Closing Extended) ≡ wrong ∷ wrong ∷ wrong ∷ None ∷ wrong ∷ [] }
    ensures post_trading { refusals_in PostTrading ≡ wrong ∷ wrong ∷ wrong ∷ wrong ∷ None ∷ [] }
    ensures ended { refusals_in Ended ≡ Some DayEnded ∷ Some DayEnded ∷ Some DayEnded ∷ Some DayEnded ∷ Some DayEnded ∷ [] }
{}

/// A command of the phases has 64 entries more in the journal, and none is taken after the day.
pub fn phase_commands_at_the_journals_end()
    ensures past_the_end { refusal_of (with_accepted 1063) Uncross ≡ None }
    ensures at_the_last_end { refusal_of (with_accepted 1064) Uncross ≡ Some JournalFull }
{}

/// Where two checks fail, the refusal is the one of the earlier. An entry's checks stand in the order of the refusals; a
/// change looks its order up before its quantity and its limit.
pub fn refusals_in_order()
    ensures member_before_day { refusal_of ended (enter 2 9 Buy (kind.Limit 1000) 10) ≡ Some UnknownMember }
    ensures day_before_quantity { refusal_of ended (enter 0 9 Buy (kind.Limit 1000) 0) ≡ Some DayEnded }
    ensures quantity_before_price { refusal_of in_call (enter 0 9 Buy (kind.Limit 0) 0) ≡ Some BadQuantity }
    ensures price_before_validity { refusal_of in_call (Enter 0 9 Buy (kind.Limit 0) 10 (TillDate 20260104) Free Plain) ≡ Some BadPrice }
    ensures validity_before_combination { refusal_of in_call (Enter 0 9 Buy (kind.Limit 1000) 10 (TillDate 20260104) OpeningOnly Ioc) ≡ Some BadValidity }
    ensures combination_before_phase { refusal_of in_call (Enter 0 9 Buy (kind.Limit 1000) 10 Day OpeningOnly Ioc) ≡ Some BadCombination }
    ensures phase_before_reference { refusal_of in_call (Enter 0 1 Buy (kind.Limit 1000) 10 Day Free Ioc) ≡ Some WrongPhase }
    ensures reference_before_trigger { refusal_of in_call (enter 0 1 Sell (kind.StopMarket 1000) 10) ≡ Some DuplicateReference }
    ensures trigger_before_journal { refusal_of (with_accepted 1000) (enter 0 9 Sell (kind.StopMarket 1000) 10) ≡ Some TriggerReached }
    ensures change_member_before_day { refusal_of ended (Change 2 1 5 None) ≡ Some UnknownMember }
    ensures change_day_before_order { refusal_of ended (Change 0 9 5 None) ≡ Some DayEnded }
    ensures change_order_before_quantity { refusal_of in_call (Change 0 9 0 None) ≡ Some UnknownOrder }
    ensures change_stop_before_quantity { refusal_of in_call (Change 0 3 0 None) ≡ Some NotChangeable }
    ensures change_market_before_price { refusal_of in_call (Change 0 2 5 (Some 0)) ≡ Some NotChangeable }
    ensures change_quantity_before_price { refusal_of in_call (Change 0 1 0 (Some 0)) ≡ Some BadQuantity }
    ensures change_price_before_journal { refusal_of (with_accepted 1000) (Change 0 1 5 (Some 0)) ≡ Some BadPrice }
    ensures cancel_member_before_day { refusal_of ended (Cancel 2 1) ≡ Some UnknownMember }
    ensures cancel_day_before_order { refusal_of ended (Cancel 0 9) ≡ Some DayEnded }
    ensures cancel_order_before_journal { refusal_of (with_accepted 1000) (Cancel 0 9) ≡ Some UnknownOrder }
    ensures cancel_all_member_before_day { refusal_of ended (CancelAll 2) ≡ Some UnknownMember }
    ensures cancel_all_day_before_journal { refusal_of (record ended { accepted = 1000 }) (CancelAll 0) ≡ Some DayEnded }
    ensures phase_command_day_before_phase { refusal_of ended StartOpening ≡ Some DayEnded }
    ensures phase_command_phase_before_journal { refusal_of (with_accepted 1064) StartOpening ≡ Some WrongPhase }
{}
