//! Laws of what happens, over all inputs. Each function promises one by its contract.
ghost use Rattle.std.specs.Prelude.{◌≡◌, ◌≤◌, ◌+◌, ◌++◌, ◌∷◌, ℕ, List, None, false, map, sum_by, true};
ghost use Rattle.std.specs.List.{filter_map, flat_map, list_any};
ghost use Rattle.xm_events.specs.Life.{bare, bare_in, both_sides, entered_units, given, is_change_of, stories, taken, units_named, with_rests};
ghost use Rattle.xm_events.specs.Seen.{seen_of};
ghost use Rattle.xm_events.specs.Story.{story};
ghost use Rattle.xm_events.specs.SeenStory.{seen_story};
ghost use Rattle.xm_events.specs.declared.events.Event.{Event};
ghost use Rattle.xm_events.specs.declared.events.Event.TheVariants.{Filled};
ghost use Rattle.xm_events.specs.declared.events.Fill.{Fill};
ghost use Rattle.xm_rules.specs.Opening.{opening};
ghost use Rattle.xm_rules.specs.Refusals.{refusal_of};
ghost use Rattle.xm_rules.specs.State.{State};
ghost use Rattle.xm_rules.specs.Step.{Journal, is_lawful, new_trades, replay, step};
ghost use Rattle.xm_rules.specs.declared.commands.Command.{Command};
ghost use Rattle.xm_ticks.specs.declared.numbers.TheConstants.{MAX_QUANTITY};

/// Each trade of a command is told twice, as that of its buyer and as that of its seller, in the order of the trades. Nothing else is told
/// as a fill.
pub fn each_trade_has_two_fills()
    ensures { (s : State) (c : Command) → filter_map bare_in (story s c) ≡ flat_map both_sides (new_trades s (step s c)) }
{}

/// Nothing is lost: what an order, or a stop, has to begin with is what the events of a command take of it, and what is left behind the
/// command. So it is for each name of a member, where a lawful journal takes the command.
pub fn what_is_given_is_taken_or_left()
    ensures { (j : Journal) (c : Command) (member reference : ℕ) → let s = replay j in is_lawful j ≡ true → refusal_of s c ≡ None
        → sum_by (taken member reference) (story s c) + units_named (step s c) member reference ≡ given s c member reference }
{}

/// What a fill says is left of its order is what the events behind it take of the order, and what is left behind the command. So
/// behind the last of them it is what the statement has.
pub fn a_fill_tells_what_is_left()
    ensures { (j : Journal) (c : Command) (before behind : List Event) (f : Fill) → let s = replay j in is_lawful j ≡ true → refusal_of s c ≡ None
        → story s c ≡ before ++ Filled f ∷ behind
        → f.rest ≡ sum_by (taken f.member f.reference) behind + units_named (step s c) f.member f.reference }
{}

/// So it is over whole journals: what a day opens with under a name, and what its commands enter under it, is what the events of the
/// day take of it, and what is left. A change gives an order other units: the name is one that no command of the journal changes.
pub fn journals_lose_no_units()
    ensures { (j : Journal) (member reference : ℕ) → is_lawful j ≡ true → list_any (is_change_of member reference) j.commands ≡ false
        → sum_by (entered_units member reference) j.commands + units_named (opening j.settings) member reference
        ≡ sum_by (taken member reference) (stories (opening j.settings) j.commands) + units_named (replay j) member reference }
{}

/// The fills of the events of a journal are both sides of each trade of its day, in the order of the trades.
pub fn journals_tell_each_trade_twice()
    ensures { (j : Journal) → filter_map bare_in (stories (opening j.settings) j.commands) ≡ flat_map both_sides (replay j).trades }
{}

/// A story can be told from what is seen after a command: the trades that it added, each with the number of its sweep, the stops that it
/// triggered in their order, the price of an interruption, and the state after it. Of the state before it that takes the phase, the
/// number of sweeps, the reference prices, the settings, and the orders and stops that the command names. From these come the events
/// with bare fills, and from the state after it what each fill leaves of its order, so where a lawful journal takes the command nothing
/// else is needed.
pub fn stories_are_told_from_what_is_seen()
    ensures bare_events { (j : Journal) (c : Command) → let s = replay j in let t = step s c in is_lawful j ≡ true → refusal_of s c ≡ None
        → map bare (story s c) ≡ seen_story s c (seen_of s c) (new_trades s t) t }
    ensures rests { (j : Journal) (c : Command) → let s = replay j in let t = step s c in is_lawful j ≡ true → refusal_of s c ≡ None
        → story s c ≡ with_rests (units_named t) (map bare (story s c)) }
    ensures whole { (j : Journal) (c : Command) → let s = replay j in let t = step s c in is_lawful j ≡ true → refusal_of s c ≡ None
        → story s c ≡ with_rests (units_named t) (seen_story s c (seen_of s c) (new_trades s t) t) }
{}

/// No name has more units than the greatest quantity: neither what it has to begin with, nor what the events of its story that is put
/// together from what is seen take of it, with what is left in the end. So sums by names fit 32 bits.
pub fn no_name_has_more_than_the_greatest_quantity()
    ensures given { (j : Journal) (c : Command) (member reference : ℕ) → let s = replay j in is_lawful j ≡ true → refusal_of s c ≡ None
        → given s c member reference ≤ MAX_QUANTITY }
    ensures seen { (j : Journal) (c : Command) (member reference : ℕ) → let s = replay j in let t = step s c in is_lawful j ≡ true → refusal_of s c ≡ None
        → sum_by (taken member reference) (seen_story s c (seen_of s c) (new_trades s t) t) + units_named t member reference ≤ MAX_QUANTITY }
{}
