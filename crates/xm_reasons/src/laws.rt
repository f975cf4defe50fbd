//! Laws of the reasons of a call, over all inputs. Each function promises one by its contract.
ghost use Rattle.std.specs.Prelude.{◌≡◌, ◌≤◌, ◌&&◌, ℕ, List, Contains, Some, false, find, is_none, nat_le, not, option_map, true};
ghost use Rattle.std.specs.List.{list_all};
ghost use Rattle.xm_reasons.specs.AskedRanges.{highest_inside, is_kept, lowest_inside, ranges_at_stage};
ghost use Rattle.xm_reasons.specs.Candidates.{candidate_rows, descending, is_falling};
ghost use Rattle.xm_events.specs.Story.{range_left_at};
ghost use Rattle.xm_reasons.specs.declared.ranges.AskedRange.{AskedRange};
ghost use Rattle.xm_reasons.specs.Rules.{decided_by, price_by};
ghost use Rattle.xm_rules.specs.Auction.{auction_price};
ghost use Rattle.xm_rules.specs.State.{Ranges, State};
ghost use Rattle.xm_rules.specs.Step.{stage_after};
ghost use Rattle.xm_rules.specs.declared.phases.CallStage.{CallStage};
ghost use Rattle.xm_ticks.specs.Ranges.{inside};
ghost use Rattle.xm_ticks.specs.declared.numbers.TheConstants.{MAX_PRICE};

/// The price of a call is the one that the rule gives of the rows of its candidates and the last price; where there is none, nothing
/// can be executed.
pub fn the_rule_gives_the_price()
    ensures { (s : State) (last : ℕ)
        → option_map (λ (priced : ℕ × ℕ). priced.0) (auction_price s.phase s.orders last) ≡ price_by (decided_by s.phase s.orders last) (candidate_rows s) last }
{}

/// A price is inside a range exactly where it is no lower than the lowest price that is told as inside, and no higher than the highest.
pub fn ranges_reach_from_the_lowest_price_to_the_highest()
    ensures { (price around width : ℕ) → price ≤ MAX_PRICE
        → inside price around width ≡ (nat_le (lowest_inside around width) price && nat_le price (highest_inside around width)) }
{}

/// The candidates of a call stand once each, the highest first: each price is below the one before it, and the prices are those of a list.
pub fn candidates_stand_once_each()
    ensures falling { (prices : List ℕ) → is_falling (descending prices) ≡ true }
    ensures all { (prices : List ℕ) (price : ℕ) → Contains prices price → Contains (descending prices) price }
    ensures only { (prices : List ℕ) (price : ℕ) → Contains (descending prices) price → Contains prices price }
{}

/// Where the price of a call leaves a range, the first one that it leaves is the one that the event of the call tells.
pub fn the_first_range_left_is_the_one_told()
    ensures { (r : Ranges) (stage : CallStage) (price : ℕ) → is_none (stage_after r stage price) ≡ false
        → option_map (λ (asked : AskedRange). asked.range) (find (λ (asked : AskedRange). not (is_kept asked)) (ranges_at_stage r stage price)) ≡ Some (range_left_at stage r price) }
{}

/// A call with a price ends exactly where that keeps all ranges that its stage asks.
pub fn calls_end_where_all_ranges_are_kept()
    ensures { (r : Ranges) (stage : CallStage) (price : ℕ) → is_none (stage_after r stage price) ≡ list_all is_kept (ranges_at_stage r stage price) }
{}
