//! What the definitions give on worked examples. Each function promises one by its contract.
#![tactic(auto, unfolding(xm_rules::specs::Opening::opening, xm_rules::specs::Refusals::refusal_of, xm_rules::specs::Step::step))]

ghost use Rattle.std.specs.Prelude.{◌≡◌, ◌+◌, codes, is_some, length, map, negsuc, pos, false, true, ℕ, List, Err, None, Ok, Some, [], ◌∷◌, ◌++◌};
ghost use Rattle.std.specs.List.{list_any};
ghost use Rattle.xm_day.specs.Checks.{check_line};
ghost use Rattle.xm_config.specs.Day.{day, opening_day};
ghost use Rattle.xm_config.specs.Opening.{segment_fault};
ghost use Rattle.xm_day.specs.Examples.{broad_security, cascade_answers, cascade_depth, cascade_rows, cascade_state, cascade_text, cascade_trades, crowded_state, every_phase, every_phase_word, every_refusal, every_refusal_word, every_restriction, every_restriction_word, every_trade_kind, every_trade_word, every_validity, every_validity_text, example_config, example_names, lasting_state, lasting_text, no_trades, open_row, penny_state, restricted_state, second_told, sized_config, stop_record};
ghost use Rattle.xm_texts.specs.Carry.{left_text};
ghost use Rattle.xm_texts.specs.MarketDepth.{depth_text, market_depth, same_depth, same_level, same_side_depth, told_change};
ghost use Rattle.xm_texts.specs.RowAnswers.{answer_line, answers_header, answers_of, market_fields, priced_fields, quoted_field, refusal_word, rest_named};
ghost use Rattle.xm_texts.specs.RowTrades.{trade_lines, trades_by, trades_header, trades_of};
ghost use Rattle.xm_texts.specs.Statement.{day_line, limit_text, member_line, phase_word, restriction_word, side_word, statement, stop_line, total_cash, trade_word, validity_text};
ghost use Rattle.xm_segment.specs.Reports.{report_of};
ghost use Rattle.xm_workers.specs.Workers.{rows_of};
ghost use Rattle.xm_config.specs.declared.opening.OpenFault.TheVariants.{BadWidths, NoSecurity, TooMany};
ghost use Rattle.xm_files.specs.Carry.{with_carry_record};
ghost use Rattle.xm_files.specs.Examples.{left_order, left_record, record_names, record_settings, round_rows, row_of, says};
ghost use Rattle.xm_files.specs.declared.file_faults.FileCause.TheVariants.{TooManyRows};
ghost use Rattle.xm_rules.specs.Entries.{is_same_name, names, none_left, order_name};
ghost use Rattle.xm_rules.specs.Examples.{enter, stop, stop_at, takes, trade};
ghost use Rattle.xm_rules.specs.Opening.{can_be_left};
ghost use Rattle.xm_rules.specs.declared.carried.TheConstants.{MAX_CARRIED};
ghost use Rattle.xm_rules.specs.declared.commands.Command.TheVariants.{Cancel, CancelAll, Change, StartClosing, StartOpening, Uncross};
ghost use Rattle.xm_rules.specs.declared.commands.Kind.TheVariants as kind;
ghost use Rattle.xm_rules.specs.declared.orders.OrderKind.TheVariants.{Limit, Market};
ghost use Rattle.xm_rules.specs.declared.orders.TradeKind.TheVariants as made;
ghost use Rattle.xm_rules.specs.declared.phases.Auction.TheVariants.{Closing, Opening};
ghost use Rattle.xm_rules.specs.declared.phases.CallStage.TheVariants.{Ordinary};
ghost use Rattle.xm_rules.specs.declared.phases.Phase.TheVariants.{Call, Continuous};
ghost use Rattle.xm_rules.specs.declared.replies.Refusal.TheVariants as refused;
ghost use Rattle.xm_rules.specs.declared.orders.Side.TheVariants.{Buy, Sell};
ghost use Rattle.xm_rules.specs.declared.orders.Stop.{Stop as HeldStop};
ghost use Rattle.xm_rules.specs.declared.orders.Validity.TheVariants.{TillCancelled};

/// The rows of `examples/cascade.orders.csv` lead to this state, of which eleven are accepted.
pub fn cascade_day()
    ensures { day example_config cascade_rows ≡ record { states = cascade_state ∷ []; accepted = 11; refused = 1 } }
{}

/// The statement of that day is `examples/cascade.statement`.
pub fn cascade_statement()
    ensures { statement example_names (cascade_state ∷ []) 11 1 ≡ cascade_text }
{}

/// The answers to the rows of that day are `examples/cascade.answers.csv`.
pub fn cascade_answers()
    ensures { answers_header ++ answers_of example_names (λ line. []) (opening_day example_config) cascade_rows ≡ cascade_answers }
{}

/// Its trades, which one row set off, are `examples/cascade.trades.csv`.
pub fn cascade_trades()
    ensures { trades_header ++ trades_of example_names (λ line. []) (opening_day example_config) cascade_rows ≡ cascade_trades }
{}

/// The levels behind the rows of that day are `examples/cascade.depth.csv`.
pub fn cascade_depth()
    ensures { depth_text example_names example_config cascade_rows ≡ cascade_depth }
{}

/// The levels of a side are its five best, each with all that rests there; those of restricted orders are told in the phases in
/// which they are active, and market orders by themselves.
pub fn depths()
    ensures five { (market_depth crowded_state).buy ≡ record { market = 7; levels = Some (986, 8) ∷ Some (985, 5) ∷ Some (984, 4) ∷ Some (983, 3) ∷ Some (982, 8) ∷ [] } }
    ensures none { (market_depth crowded_state).sell ≡ record { market = 0; levels = None ∷ None ∷ None ∷ None ∷ None ∷ [] } }
    ensures continuous { (market_depth (restricted_state Continuous)).sell.levels ≡ Some (985, 5) ∷ None ∷ None ∷ None ∷ None ∷ [] }
    ensures inactive { (market_depth (restricted_state Continuous)).buy.market ≡ 0 }
    ensures closing { (market_depth (restricted_state (Call Closing Ordinary))).sell.levels ≡ Some (985, 12) ∷ None ∷ None ∷ None ∷ None ∷ [] }
    ensures active { (market_depth (restricted_state (Call Closing Ordinary))).buy.market ≡ 3 }
{}

/// The levels behind a row aren't told again where they are the same, and are where one limit, one quantity or the market orders
/// are others.
pub fn changes_of_depth()
    ensures same { same_depth (market_depth crowded_state) (market_depth crowded_state) ≡ true }
    ensures other { same_depth (market_depth crowded_state) (market_depth cascade_state) ≡ false }
    ensures quantity { same_level (986, 8) (986, 7) ≡ false }
    ensures limit { same_level (986, 8) (985, 8) ≡ false }
    ensures market { same_side_depth (record { market = 7; levels = [] }) (record { market = 6; levels = [] }) ≡ false }
    ensures level { same_side_depth (record { market = 7; levels = None ∷ [] }) (record { market = 7; levels = Some (986, 8) ∷ [] }) ≡ false }
    ensures unknown { told_change example_names (open_row 7) None (Some crowded_state) ≡ [] }
{}

/// The answer to a row of an unknown security, and to one that a call takes.
pub fn answers_to_rows()
    ensures unknown { answers_of example_names (λ line. []) (opening_day example_config) (open_row 7 ∷ []) ≡ codes "2,,unknown-security,,,,,,,,,,,,,,,,\n" }
    ensures with_text { answer_line example_names (open_row 7) (codes "at 9, sharp") (Err refused.UnknownSecurity) None ≡ codes "2,,unknown-security,,,,,,,,,,,,,,,,\"at 9, sharp\"\n" }
    ensures words { map refusal_word every_refusal ≡ every_refusal_word }
    ensures priced { priced_fields 50 (Some (201, 7)) ≡ codes "1.0050,7" }
    ensures unpriced { priced_fields 50 None ≡ codes "," }
{}

/// The trades of a row are those that its reply counts: neither those before it, nor those of later rows. Each has the text of the row.
pub fn trades_of_rows()
    ensures between { trades_by (Ok (record no_trades { first_trade = 1; trades = 2 })) cascade_state.trades ≡ trade made.Continuous 4 20 990 (0, 2) (1, 3) ∷ trade made.Continuous 5 25 985 (0, 3) (1, 1) ∷ [] }
    ensures none { trades_by (Ok (record no_trades { first_trade = 4 })) cascade_state.trades ≡ [] }
    ensures refused { trades_by (Err refused.UnknownOrder) cascade_state.trades ≡ [] }
    ensures unknown { trade_lines example_names (open_row 7) [] (Err refused.UnknownSecurity) None ≡ [] }
    ensures with_text { trade_lines example_names (open_row 0) (codes "at 9, sharp") (Ok (record no_trades { first_trade = 3; trades = 1 })) (Some cascade_state) ≡ codes "2,XYZ,6,continuous,9.8500,5,AAA,3,BBB,2,\"at 9, sharp\"\n" }
{}

/// The free text of a record is told as it stood, and in quotation marks where CSV would read it in another way.
pub fn free_texts()
    ensures plain { quoted_field (codes "09:00:00.25 'x'") ≡ codes "09:00:00.25 'x'" }
    ensures empty { quoted_field [] ≡ [] }
    ensures comma { quoted_field (codes "a,b") ≡ codes "\"a,b\"" }
    ensures quote { quoted_field (codes "a\"b") ≡ codes "\"a\"\"b\"" }
    ensures line_feed { quoted_field (codes "a\nb") ≡ codes "\"a\nb\"" }
    ensures carriage_return { quoted_field (codes "\r") ≡ codes "\"\r\"" }
    ensures bytes { quoted_field (255 ∷ 0 ∷ []) ≡ 255 ∷ 0 ∷ [] }
{}

/// The market that is told of a state: a level has the rests of active orders alone, and a call its price.
pub fn markets()
    ensures continuous { market_fields (restricted_state Continuous) ≡ codes ",,9.8500,5,9.8500,10.0000,," }
    ensures opening { market_fields (restricted_state (Call Opening Ordinary)) ≡ codes ",,9.8500,12,9.8500,10.0000,," }
    ensures closing { market_fields (restricted_state (Call Closing Ordinary)) ≡ codes ",,9.8500,12,9.8500,10.0000,9.8500,3" }
{}

/// The line of a held stop.
pub fn stop_lines()
    ensures limited { stop_line example_names 100 (stop 1 2 Sell 990 (Limit 985) 10) ≡ codes "STOP BBB 2 sell 9.9000 9.8500 10 day\n" }
    ensures market { stop_line example_names 1 (stop 0 7 Buy 12345 Market 3) ≡ codes "STOP AAA 7 buy 1.2345 market 3 day\n" }
{}

/// The words of all phases, of all kinds of trades, of all restrictions, and of both sides.
pub fn words()
    ensures phases { map phase_word every_phase ≡ every_phase_word }
    ensures trades { map trade_word every_trade_kind ≡ every_trade_word }
    ensures restrictions { map restriction_word every_restriction ≡ every_restriction_word }
    ensures sides { map side_word (Buy ∷ Sell ∷ []) ≡ codes "buy" ∷ codes "sell" ∷ [] }
{}

/// The texts of validities and of both kinds of orders. A date has eight digits at least.
pub fn texts()
    ensures validities { map validity_text every_validity ≡ every_validity_text }
    ensures kinds { map (limit_text 50) (Market ∷ Limit 201 ∷ []) ≡ codes "market" ∷ codes "1.0050" ∷ [] }
    ensures day { day_line 9991231 ≡ codes "DAY 09991231\n" }
{}

/// What members received less what they paid in two securities, whose ticks differ.
pub fn cash_of_two_securities()
    ensures buyer { total_cash (cascade_state ∷ penny_state ∷ []) 0 ≡ negsuc 5934899 }
    ensures seller { total_cash (cascade_state ∷ penny_state ∷ []) 1 ≡ pos 5934900 }
    ensures line { member_line example_names (cascade_state ∷ penny_state ∷ []) 0 ≡ codes "MEMBER AAA -593.4900\n" }
{}

/// The line of a check, which counts the securities and the members of the segment.
pub fn check_lines()
    ensures small { check_line example_config ≡ codes "OK 1 securities 2 members\n" }
    ensures largest { check_line (sized_config 8 1000) ≡ codes "OK 8 securities 1000 members\n" }
{}

/// A row of an unknown security, before one that is accepted: it is counted as refused, and changes nothing.
pub fn unknown_security()
    ensures counted { (day example_config (open_row 1 ∷ open_row 0 ∷ [])).refused ≡ 1 }
    ensures further { (day example_config (open_row 1 ∷ open_row 0 ∷ [])).accepted ≡ 1 }
    ensures alone { day example_config (open_row 7 ∷ []) ≡ record (opening_day example_config) { refused = 1 } }
{}

/// The rows that workers take of two rounds, in the order of the file: those of their members, and the first worker those of the
/// phases.
pub fn rows_of_workers()
    ensures first { rows_of 0 2 round_rows ≡ row_of 0 StartOpening ∷ row_of 1 (Cancel 2 1) ∷ row_of 0 Uncross ∷ row_of 0 StartClosing ∷ [] }
    ensures second { rows_of 1 2 round_rows ≡ row_of 0 (Cancel 1 1) ∷ row_of 0 (CancelAll 1) ∷ [] }
    ensures alone { rows_of 0 1 round_rows ≡ round_rows }
{}

/// A segment has one to eight securities and up to a thousand members. The first limit that it doesn't keep is told.
pub fn limits_of_a_segment()
    ensures most { segment_fault (sized_config 8 1000) ≡ None }
    ensures fewest { segment_fault (sized_config 1 0) ≡ None }
    ensures no_security { segment_fault (sized_config 0 1001) ≡ Some NoSecurity }
    ensures nine_securities { segment_fault (sized_config 9 1000) ≡ Some TooMany }
    ensures more_members { segment_fault (sized_config 8 1001) ≡ Some TooMany }
    ensures widths { segment_fault (record example_config { securities = broad_security ∷ [] }) ≡ Some BadWidths }
    ensures too_many_before_widths { segment_fault (record example_config { members = 1001; securities = broad_security ∷ [] }) ≡ Some TooMany }
{}

/// What a security leaves to the next day: its orders before its stops, each with its restriction, and nothing that ends today.
pub fn entries_left()
    ensures all { left_text example_names 0 lasting_state ≡ lasting_text }
    ensures nothing { left_text example_names 0 cascade_state ≡ codes "XYZ,BBB,2,sell,limit,9.8500,,5,gtc,free\n" }
{}

/// Stops are asked for their units as orders are, where a security takes them and where a carry file lists them.
pub fn units_of_carried_stops()
    ensures none { takes [] (record (stop_at 0 1 900 TillCancelled) { quantity = 0 } ∷ []) ≡ false }
    ensures fewest { takes [] (record (stop_at 0 1 900 TillCancelled) { quantity = 1 } ∷ []) ≡ true }
    ensures too_many { takes [] (record (stop_at 0 1 900 TillCancelled) { quantity = 1000001 } ∷ []) ≡ false }
    ensures listed_none { says (stop_record (codes "0")) ≡ None }
    ensures listed_fewest { is_some (says (stop_record (codes "1"))) ≡ true }
    ensures listed_too_many { says (stop_record (codes "1000001")) ≡ None }
{}

/// A security takes 100,000 entries, and a stop is one of them.
pub fn stops_among_the_entries()
    ensures taken { (members : ℕ) (stops : List HeldStop) → length stops ≡ MAX_CARRIED + 1 → can_be_left members (record { orders = []; stops = stops }) ≡ false }
    ensures listed { (stops : List HeldStop) → length stops ≡ MAX_CARRIED → list_any (is_same_name (order_name left_order)) (names (record { orders = []; stops = stops })) ≡ false
        → with_carry_record record_names record_settings.securities 4 (record { orders = []; stops = stops } ∷ none_left ∷ []) left_record ≡ Err (record { line = 4; cause = TooManyRows }) }
{}

/// The answer to a command that names an order or a stop has what is left of it, also behind a change and a cancellation.
pub fn rests_in_answers()
    ensures entered { rest_named cascade_state (enter 1 2 Sell (kind.Limit 985) 10) ≡ Some 5 }
    ensures changed { rest_named cascade_state (Change 1 2 5 None) ≡ Some 5 }
    ensures cancelled { rest_named cascade_state (Cancel 1 2) ≡ Some 5 }
    ensures gone { rest_named cascade_state (Cancel 1 9) ≡ Some 0 }
    ensures all { rest_named cascade_state (CancelAll 1) ≡ None }
    ensures phase { rest_named cascade_state Uncross ≡ None }
{}

/// An answer has the text of its own record.
pub fn text_of_its_record()
    ensures { answers_of example_names second_told (opening_day example_config) (open_row 7 ∷ record (open_row 7) { line = 3 } ∷ [])
        ≡ codes "2,,unknown-security,,,,,,,,,,,,,,,,second\n" ++ codes "3,,unknown-security,,,,,,,,,,,,,,,,another\n" }
{}

/// A worker's report counts want of memory at the fourteenth place, and a book-or-cancel order that would execute at the fifteenth.
pub fn refusals_in_reports()
    ensures wanting { (report_of (Ok no_trades ∷ Err (refused.OutOfMemory tt) ∷ [])).refused ≡ 0 ∷ 0 ∷ 0 ∷ 0 ∷ 0 ∷ 0 ∷ 0 ∷ 0 ∷ 0 ∷ 0 ∷ 0 ∷ 0 ∷ 0 ∷ 1 ∷ 0 ∷ [] }
    ensures last { (report_of (Err refused.WouldExecute ∷ Err refused.UnknownSecurity ∷ [])).refused ≡ 1 ∷ 0 ∷ 0 ∷ 0 ∷ 0 ∷ 0 ∷ 0 ∷ 0 ∷ 0 ∷ 0 ∷ 0 ∷ 0 ∷ 0 ∷ 0 ∷ 1 ∷ [] }
    ensures ended { (report_of (Ok no_trades ∷ Err (refused.OutOfMemory tt) ∷ [])).wanting ≡ Some tt }
{}
