//! Worked examples of stories that are put together from what is seen after a command.
#![tactic(auto, unfolding(xm_rules::specs::Opening::opening, xm_rules::specs::Refusals::refusal_of, xm_rules::specs::Step::replay, xm_rules::specs::Step::step, crate::specs::Story::story, crate::specs::Seen::seen_of, crate::specs::SeenStory::seen_story))]

ghost use Rattle.std.specs.Prelude.{◌≡◌, [], ◌∷◌, ◌++◌, Some};
ghost use Rattle.xm_events.specs.Examples.{buy_on, crossed_call, drifted_book, retold, stop_in_call, told, two_sells};
ghost use Rattle.xm_rules.specs.Examples.{cascade_book, cut_cascade_book, distant_book, distant_call, enter, falling_sell};
ghost use Rattle.xm_rules.specs.declared.commands.Command.TheVariants.{Change, Uncross};
ghost use Rattle.xm_rules.specs.declared.commands.Condition.TheVariants.{Ioc, Fok};
ghost use Rattle.xm_rules.specs.declared.commands.Kind.TheVariants as kind;
ghost use Rattle.xm_rules.specs.declared.orders.Side.TheVariants.{Buy};

/// Cascades of stops, each of which comes in with the next number.
pub fn a_cascade_is_retold()
    ensures { retold cascade_book falling_sell ≡ told cascade_book falling_sell }
{}

/// A stop's order interrupts trading, and the stop behind it takes no number.
pub fn an_interruption_between_stops_is_retold()
    ensures { retold cut_cascade_book falling_sell ≡ told cut_cascade_book falling_sell }
{}

/// A call trades, and its price triggers a stop, which comes in behind it with the next number.
pub fn a_call_that_triggers_a_stop_is_retold()
    ensures { retold stop_in_call Uncross ≡ told stop_in_call Uncross }
{}

/// Orders on conditions, interruptions by both ranges, and a change.
pub fn orders_are_retold()
    ensures rest { retold two_sells (buy_on Ioc 1000 15) ≡ told two_sells (buy_on Ioc 1000 15) }
    ensures killed { retold two_sells (buy_on Fok 1010 19) ≡ told two_sells (buy_on Fok 1010 19) }
    ensures filled { retold two_sells (buy_on Fok 1010 18) ≡ told two_sells (buy_on Fok 1010 18) }
    ensures dynamic { retold distant_book (buy_on Ioc 1030 30) ≡ told distant_book (buy_on Ioc 1030 30) }
    ensures fixed { retold drifted_book (enter 0 3 Buy (kind.Limit 1055) 10) ≡ told drifted_book (enter 0 3 Buy (kind.Limit 1055) 10) }
    ensures changed { let book = two_sells ++ enter 0 1 Buy (kind.Limit 990) 25 ∷ [] in retold book (Change 0 1 12 (Some 1000)) ≡ told book (Change 0 1 12 (Some 1000)) }
{}

/// Calls that trade, and that are interrupted and extended.
pub fn calls_are_retold()
    ensures traded { retold crossed_call Uncross ≡ told crossed_call Uncross }
    ensures interrupted { retold distant_call Uncross ≡ told distant_call Uncross }
    ensures extended { retold (distant_call ++ Uncross ∷ []) Uncross ≡ told (distant_call ++ Uncross ∷ []) Uncross }
{}
