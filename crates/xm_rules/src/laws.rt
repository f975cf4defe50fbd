//! Laws of the definitions, over all inputs. Each function promises one by its contract.
ghost use Rattle.std.specs.Prelude.{◌≡◌, ◌≢◌, ◌≤◌, ◌<◌, ◌+◌, ◌*◌, ◌&&◌, ◌||◌, ◌⊎◌, ◌++◌, ◌∷◌, [], ℕ, List, Option, Some, None, All, Contains, count_by, filter, length, map, not, sum_by, true, false};
ghost use Rattle.xm_rules.specs.Active.{Positioned, active};
ghost use Rattle.xm_rules.specs.Allotment.{Uncrossing, side_queue, allotted, auction_trades};
ghost use Rattle.xm_rules.specs.Auction.{auction_price, volume};
ghost use Rattle.xm_rules.specs.Crossing.{NoneMeet};
ghost use Rattle.xm_rules.specs.Moments.{earlier, ranges_at};
ghost use Rattle.xm_rules.specs.Opening.{carried_over, opening};
ghost use Rattle.xm_rules.specs.Orders.{is_named, is_stop_named};
ghost use Rattle.xm_rules.specs.Priority.{is_ahead};
ghost use Rattle.xm_rules.specs.Quote.{best_limit};
ghost use Rattle.xm_rules.specs.Refusals.{refusal_of};
ghost use Rattle.xm_rules.specs.Settling.{is_reached, order_of_stop, settle, settle_in};
ghost use Rattle.xm_rules.specs.State.{State, ranges, ref1, inside_both, inside_wide};
ghost use Rattle.xm_rules.specs.Step.{Journal, come_under, entered_order, replay, is_lawful, step, uncrossed, new_trades};
ghost use Rattle.xm_rules.specs.Sums.{AreWithinLimits, IsBetweenMembers, bought, over_members, paid, received, sold, total_money, total_quantity};
ghost use Rattle.xm_rules.specs.Sweep.{Sweep, filled, rest_after, sweep_trades, orders_after_sweep};
ghost use Rattle.xm_rules.specs.declared.commands.Command.{Command};
ghost use Rattle.xm_rules.specs.declared.commands.Command.TheVariants.{Enter};
ghost use Rattle.xm_rules.specs.declared.commands.Condition.{Condition};
ghost use Rattle.xm_rules.specs.declared.commands.Condition.TheVariants.{Boc};
ghost use Rattle.xm_rules.specs.declared.commands.Kind.{Kind};
ghost use Rattle.xm_rules.specs.declared.orders.Order.{Order};
ghost use Rattle.xm_rules.specs.declared.orders.Restriction.{Restriction};
ghost use Rattle.xm_rules.specs.declared.orders.Side.{Side};
ghost use Rattle.xm_rules.specs.declared.orders.Side.TheVariants.{Buy, Sell};
ghost use Rattle.xm_rules.specs.declared.orders.Stop.{Stop};
ghost use Rattle.xm_rules.specs.declared.orders.Trade.{Trade};
ghost use Rattle.xm_rules.specs.declared.orders.TradeKind.TheVariants as made;
ghost use Rattle.xm_rules.specs.declared.orders.Validity.{Validity};
ghost use Rattle.xm_rules.specs.declared.phases.Auction.{Auction};
ghost use Rattle.xm_rules.specs.declared.phases.Auction.TheVariants.{Interruption};
ghost use Rattle.xm_rules.specs.declared.phases.CallStage.{CallStage};
ghost use Rattle.xm_rules.specs.declared.phases.CallStage.TheVariants.{Ordinary, Interrupted};
ghost use Rattle.xm_rules.specs.declared.phases.Phase.{Phase};
ghost use Rattle.xm_rules.specs.declared.phases.Phase.TheVariants.{Call, Continuous};
ghost use Rattle.xm_rules.specs.declared.replies.Refusal.{Refusal};
ghost use Rattle.xm_rules.specs.declared.settings.DeskSettings.{DeskSettings};
ghost use Rattle.xm_ticks.specs.declared.numbers.TheConstants.{MAX_JOURNAL_LIMIT, MAX_PRICE, MAX_QUANTITY};

/// Priority is a strict order of the active orders of a side: two are never ahead of each other, of two different ones one
/// is ahead, and what is ahead of one that is ahead is ahead.
pub fn priority_orders_the_active_orders()
    ensures not_both { (side : Side) (i j : Positioned) → (is_ahead side i j && is_ahead side j i) ≡ false }
    ensures one { (phase : Phase) (side : Side) (orders : List Order) (i j : Positioned)
        → Contains (active phase side orders) i → Contains (active phase side orders) j → i ≢ j
        → (is_ahead side i j || is_ahead side j i) ≡ true }
    ensures in_turn { (side : Side) (i j k : Positioned) → is_ahead side i j ≡ true → is_ahead side j k ≡ true → is_ahead side i k ≡ true }
{}

/// No price has more volume than the auction price, between the limits or at one; and where there is no auction price,
/// nothing can be executed at any.
pub fn auction_price_has_the_greatest_volume()
    ensures volume { (phase : Phase) (orders : List Order) (reference price traded : ℕ) → auction_price phase orders reference ≡ Some (price, traded)
        → volume phase orders price ≡ traded }
    ensures greatest { (phase : Phase) (orders : List Order) (reference price traded : ℕ) → auction_price phase orders reference ≡ Some (price, traded)
        → (x : ℕ) → volume phase orders x ≤ traded }
    ensures none { (phase : Phase) (orders : List Order) (reference : ℕ) → auction_price phase orders reference ≡ None → (x : ℕ) → volume phase orders x ≡ 0 }
{}

/// The fills of a sweep sum to the incoming quantity less its rest, and so do the quantities of its trades and what the
/// resting orders lose.
pub fn fills_sum_to_the_quantity_less_its_rest()
    ensures within { (w : Sweep) → filled w ≤ w.incoming.rest }
    ensures rest { (w : Sweep) → filled w + rest_after w ≡ w.incoming.rest }
    ensures trades { (number : ℕ) (w : Sweep) → total_quantity (sweep_trades number w) ≡ filled w }
    ensures resting { (w : Sweep) → sum_by (λ (o : Order). o.rest) (orders_after_sweep w) + filled w ≡ sum_by (λ (o : Order). o.rest) w.orders }
{}

/// The trades of an allotment sum to its volume, where its price and volume are those of the call, and so does what the
/// orders of each side are allotted.
pub fn allotted_trades_sum_to_the_volume()
    ensures trades { (number reference : ℕ) (u : Uncrossing) → auction_price (Call u.auction u.stage) u.orders reference ≡ Some (u.price, u.volume)
        → total_quantity (auction_trades number u) ≡ u.volume }
    ensures orders { (reference : ℕ) (u : Uncrossing) (side : Side) → auction_price (Call u.auction u.stage) u.orders reference ≡ Some (u.price, u.volume)
        → sum_by (allotted u) (side_queue u side) ≡ u.volume }
{}

/// The trades that the end of a call adds are all at the auction price and are marked with the call. At the end of an ordinary
/// call they are inside the dynamic and the static range of the moment before it, at that of an interrupted one inside the wide
/// range. A call without an auction price adds none.
pub fn auction_trades_are_inside_the_ranges_of_their_stage()
    ensures appended { (s : State) (auction : Auction) (stage : CallStage) → let t = uncrossed s (Call auction stage) in t.trades ≡ s.trades ++ new_trades s t }
    ensures ordinary { (s : State) (auction : Auction)
        → All (λ (t : Trade). inside_both (ranges s) t.price ≡ true) (new_trades s (uncrossed s (Call auction Ordinary))) }
    ensures interrupted { (s : State) (auction : Auction)
        → All (λ (t : Trade). inside_wide (ranges s) t.price ≡ true) (new_trades s (uncrossed s (Call auction Interrupted))) }
    ensures kind { (s : State) (auction : Auction) (stage : CallStage)
        → All (λ (t : Trade). t.kind ≡ made.Auction auction stage) (new_trades s (uncrossed s (Call auction stage))) }
    ensures price { (s : State) (auction : Auction) (stage : CallStage) (price traded : ℕ)
        → auction_price (Call auction stage) s.orders (ref1 s) ≡ Some (price, traded)
        → All (λ (t : Trade). t.price ≡ price) (new_trades s (uncrossed s (Call auction stage))) }
    ensures none { (s : State) (auction : Auction) (stage : CallStage) → auction_price (Call auction stage) s.orders (ref1 s) ≡ None
        → new_trades s (uncrossed s (Call auction stage)) ≡ [] }
{}

/// Where a call leads to continuous trading, no two active orders meet then, whether it had a price or none: their limits don't
/// cross, and no market order rests beside an active order of the other side. So the best buy limit is below the best sell limit.
/// Premise: each order of the time list before has a unit at least.
pub fn no_orders_meet_after_a_call()
    ensures orders { (s : State) (auction : Auction) (stage : CallStage) → let t = uncrossed s (Call auction stage) in
        All (λ (o : Order). 1 ≤ o.rest) s.orders → t.phase ≡ Continuous → NoneMeet t.orders }
    ensures limits { (s : State) (auction : Auction) (stage : CallStage) (buy sell : ℕ) → let t = uncrossed s (Call auction stage) in
        All (λ (o : Order). 1 ≤ o.rest) s.orders → t.phase ≡ Continuous
        → best_limit t Buy ≡ Some buy → best_limit t Sell ≡ Some sell → buy < sell }
{}

/// Where no two active orders meet before an order comes in, on any condition, none meet afterwards, unless it interrupted trading:
/// then the phase is the interrupted call of the interruption auction. So while trading goes on, the best buy limit is below the
/// best sell limit.
pub fn no_orders_meet_in_continuous_trading()
    ensures orders { (condition : Condition) (s : State) (o : Order) → let t = come_under condition s o in
        NoneMeet s.orders → t.phase ≡ Continuous → NoneMeet t.orders }
    ensures limits { (condition : Condition) (s : State) (o : Order) (buy sell : ℕ) → let t = come_under condition s o in
        NoneMeet s.orders → t.phase ≡ Continuous → best_limit t Buy ≡ Some buy → best_limit t Sell ≡ Some sell → buy < sell }
    ensures phase { (condition : Condition) (s : State) (o : Order) → let t = come_under condition s o in
        s.phase ≡ Continuous → (t.phase ≡ Continuous) ⊎ (t.phase ≡ Call Interruption Interrupted) }
{}

/// The trades that an order adds when it comes in, on any condition, are inside the dynamic and the static range of the moment
/// before it, are marked as trades of continuous trading, and bear the number of its sweep, which is the next.
pub fn continuous_trades_are_inside_both_ranges()
    ensures appended { (condition : Condition) (s : State) (o : Order) → let t = come_under condition s o in t.trades ≡ s.trades ++ new_trades s t }
    ensures inside { (condition : Condition) (s : State) (o : Order)
        → All (λ (t : Trade). inside_both (ranges s) t.price ≡ true) (new_trades s (come_under condition s o)) }
    ensures kind { (condition : Condition) (s : State) (o : Order) → All (λ (t : Trade). t.kind ≡ made.Continuous) (new_trades s (come_under condition s o)) }
    ensures number { (condition : Condition) (s : State) (o : Order) → All (λ (t : Trade). t.sweep ≡ s.sweeps + 1) (new_trades s (come_under condition s o)) }
{}

/// Over all members bought equals sold, in units, and paid equals received, in ticks times units: each is what was traded.
/// Premise: the trades are between these members.
pub fn every_purchase_is_a_sale()
    ensures quantity { (members : ℕ) (trades : List Trade) → All (IsBetweenMembers members) trades
        → over_members members (λ m. bought m trades) ≡ over_members members (λ m. sold m trades) }
    ensures money { (members : ℕ) (trades : List Trade) → All (IsBetweenMembers members) trades
        → over_members members (λ m. paid m trades) ≡ over_members members (λ m. received m trades) }
    ensures total_quantity { (members : ℕ) (trades : List Trade) → All (IsBetweenMembers members) trades
        → over_members members (λ m. bought m trades) ≡ total_quantity trades }
    ensures total_money { (members : ℕ) (trades : List Trade) → All (IsBetweenMembers members) trades
        → over_members members (λ m. paid m trades) ≡ total_money trades }
{}

/// A command that is refused where it stands is in no lawful journal.
pub fn lawful_journals_hold_no_refused_command()
    ensures refused { (settings : DeskSettings) (commands more : List Command) (c : Command) (r : Refusal)
        → refusal_of (replay (record { settings = settings; commands = commands })) c ≡ Some r
        → is_lawful (record { settings = settings; commands = commands ++ c ∷ more }) ≡ false }
    ensures lawful { (settings : DeskSettings) (commands more : List Command) (c : Command)
        → is_lawful (record { settings = settings; commands = commands ++ c ∷ more }) ≡ true
        → refusal_of (replay (record { settings = settings; commands = commands })) c ≡ None }
{}

/// A lawful journal trades no more than a million units for each order or stop that earlier days left and for each command of members
/// that it takes, since none brings in more. Its opening reference is in range, as that of each desk is, and so are the limits that its checks let in: so no trade is
/// above the highest price. Where its limit is one that a journal may have, its trades are within the limits of a day.
pub fn lawful_journals_stay_within_the_limits_of_a_day()
    ensures quantity { (j : Journal) → is_lawful j ≡ true → total_quantity (replay j).trades
        ≤ MAX_QUANTITY * (length j.settings.carried.orders + length j.settings.carried.stops + j.settings.limit) }
    ensures prices { (j : Journal) → is_lawful j ≡ true → j.settings.reference ≤ MAX_PRICE → All (λ (t : Trade). t.price ≤ MAX_PRICE) (replay j).trades }
    ensures limits { (j : Journal) → is_lawful j ≡ true → j.settings.limit ≤ MAX_JOURNAL_LIMIT → j.settings.reference ≤ MAX_PRICE
        → AreWithinLimits (replay j).trades }
{}

/// Each live order and each held stop of a lawful journal is of a member that the desk knows, and each trade is between two of
/// them, or of one with itself.
pub fn lawful_journals_know_their_members()
    ensures orders { (j : Journal) → is_lawful j ≡ true → All (λ (o : Order). o.member < j.settings.members) (replay j).orders }
    ensures stops { (j : Journal) → is_lawful j ≡ true → All (λ (stop : Stop). stop.member < j.settings.members) (replay j).stops }
    ensures trades { (j : Journal) → is_lawful j ≡ true → All (IsBetweenMembers j.settings.members) (replay j).trades }
{}

/// Over all members of a desk bought equals sold, in units, and paid equals received, in ticks times units, in every lawful
/// journal: each is what was traded.
pub fn every_purchase_of_a_lawful_journal_is_a_sale()
    ensures quantity { (j : Journal) → is_lawful j ≡ true → let trades = (replay j).trades in
        over_members j.settings.members (λ m. bought m trades) ≡ over_members j.settings.members (λ m. sold m trades) }
    ensures money { (j : Journal) → is_lawful j ≡ true → let trades = (replay j).trades in
        over_members j.settings.members (λ m. paid m trades) ≡ over_members j.settings.members (λ m. received m trades) }
    ensures total_quantity { (j : Journal) → is_lawful j ≡ true → let trades = (replay j).trades in
        over_members j.settings.members (λ m. bought m trades) ≡ total_quantity trades }
    ensures total_money { (j : Journal) → is_lawful j ≡ true → let trades = (replay j).trades in
        over_members j.settings.members (λ m. paid m trades) ≡ total_money trades }
{}

// ---- Six laws of the replay of every lawful journal, through calls, cascades of stops and interruptions.
// Those that don't ask that it is lawful hold of any journal.

/// In continuous trading no two active orders of a lawful journal meet, also right after a call, a cascade of stops or an
/// interruption: their limits don't cross, and no market order rests beside an active order of the other side. So the best buy limit
/// is below the best sell limit. Each live order has a unit at least.
pub fn lawful_journals_leave_no_orders_that_meet()
    ensures orders { (j : Journal) → is_lawful j ≡ true → (replay j).phase ≡ Continuous → NoneMeet (replay j).orders }
    ensures limits { (j : Journal) (buy sell : ℕ) → is_lawful j ≡ true → (replay j).phase ≡ Continuous
        → best_limit (replay j) Buy ≡ Some buy → best_limit (replay j) Sell ≡ Some sell → buy < sell }
    ensures units { (j : Journal) → is_lawful j ≡ true → All (λ (o : Order). 1 ≤ o.rest) (replay j).orders }
{}

/// Each trade of continuous trading in a journal was inside the dynamic and the static range of its moment, which are around the last
/// price and the last auction price of the trades before its sweep. These are the trades with a smaller number: those with which the
/// list begins.
pub fn journals_trade_inside_both_ranges()
    ensures inside { (j : Journal) → All (λ (t : Trade). t.kind ≡ made.Continuous → inside_both (ranges_at (replay j) t) t.price ≡ true) (replay j).trades }
    ensures before { (j : Journal) (number : ℕ) → let trades = (replay j).trades in (rest : List Trade) × (trades ≡ earlier number trades ++ rest) }
{}

/// Each trade of an ordinary call in a journal was inside both ranges of its moment, each of an interrupted call inside the wide
/// range, which is around the last price. An extended call asks none.
pub fn journals_end_calls_inside_the_ranges_of_their_stage()
    ensures ordinary { (j : Journal) (auction : Auction)
        → All (λ (t : Trade). t.kind ≡ made.Auction auction Ordinary → inside_both (ranges_at (replay j) t) t.price ≡ true) (replay j).trades }
    ensures interrupted { (j : Journal) (auction : Auction)
        → All (λ (t : Trade). t.kind ≡ made.Auction auction Interrupted → inside_wide (ranges_at (replay j) t) t.price ≡ true) (replay j).trades }
{}

/// In the state of a journal no held stop is reached by the last price. None is left pending either: settling takes as many turns as
/// there are stops, held and pending, and with more turns it would end in the same state.
pub fn journals_hold_no_reached_stop()
    ensures held { (j : Journal) → All (λ (stop : Stop). is_reached (ref1 (replay j)) stop ≡ false) (replay j).stops }
    ensures pending { (s : State) (pending : List Stop) (more : ℕ) → settle_in (length s.stops + length pending + more) s pending ≡ settle s pending }
{}

/// A book-or-cancel order that a lawful journal takes adds no trade, also by no stop: it joins the live orders last, with all its
/// units, and has the number of a sweep.
pub fn book_or_cancel_orders_join_last()
    ensures { (j : Journal) (member reference quantity : ℕ) (side : Side) (kind : Kind) (validity : Validity) (restriction : Restriction)
        → let s = replay j in let c = Enter member reference side kind quantity validity restriction Boc in
        is_lawful j ≡ true → refusal_of s c ≡ None
        → step s c ≡ record s {
          accepted = s.accepted + 1;
          orders = s.orders ++ entered_order member reference side kind quantity validity restriction ∷ [];
          sweeps = s.sweeps + 1;
        } }
{}

/// In the state of a lawful journal no two live orders or held stops have one name.
pub fn lawful_journals_use_each_name_once()
    ensures { (j : Journal) (member reference : ℕ) → is_lawful j ≡ true
        → count_by (is_named member reference) (replay j).orders + count_by (is_stop_named member reference) (replay j).stops ≤ 1 }
{}

/// A day opens with the orders that earlier days left and that are still valid, in their order. Behind them stand the orders of the
/// stops that the opening reference has reached, in order of entry; the other stops are held. No trade was made, no sweep has a number,
/// and no command is counted.
pub fn days_open_with_what_is_still_valid()
    ensures { (settings : DeskSettings) → let before = carried_over settings in
        opening settings ≡ record before {
          orders = before.orders ++ map order_of_stop (filter (is_reached settings.reference) before.stops);
          stops = filter (λ (stop : Stop). not (is_reached settings.reference stop)) before.stops;
        } }
{}
