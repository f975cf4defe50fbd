//! Laws of what can be told. Each function promises one by its contract.
ghost use Rattle.std.specs.Prelude.{◌≡◌, None, true};
ghost use Rattle.xm_events.specs.Life.{units_named};
ghost use Rattle.xm_events.specs.Seen.{seen_of};
ghost use Rattle.xm_events.specs.SeenStory.{seen_story};
ghost use Rattle.xm_rules.specs.Refusals.{refusal_of};
ghost use Rattle.xm_rules.specs.State.{State};
ghost use Rattle.xm_rules.specs.Step.{Journal, is_lawful, new_trades, replay, step};
ghost use Rattle.xm_rules.specs.declared.commands.Command.{Command};
ghost use Rattle.xm_stories.specs.Around.{GivesPricesInRange};
ghost use Rattle.xm_stories.specs.TakenUnits.{UnitsFit};

/// What `tell` requires holds of each command that a lawful journal takes: its prices are in range, and the units that its story takes
/// under each name, with those that are left, fit 32 bits.
pub fn lawful_stories_can_be_told()
    ensures prices { (s : State) (c : Command) → refusal_of s c ≡ None → GivesPricesInRange c }
    ensures units { (j : Journal) (c : Command) → let s = replay j in let t = step s c in is_lawful j ≡ true → refusal_of s c ≡ None
        → UnitsFit (units_named t) (seen_story s c (seen_of s c) (new_trades s t) t) }
{}
