//! What the definitions give on worked examples. Each function promises one by its contract.
ghost use Rattle.std.specs.Prelude.{◌≡◌, codes, map, [], ◌∷◌, Some, None, Ok, Err, true, false};
ghost use Rattle.std.specs.List.{range_with_len};
ghost use Rattle.xm_files.specs.Examples.{carry_record, carry_titles, change_record, entered_row, every_title, left_order, left_record, left_stop, left_stop_record, order_listed, order_record, phase_record, record_names, record_settings, round_rows, row_of, says, second_titles, record_with_text, with_ticks};
ghost use Rattle.xm_files.specs.Carry.{empty_lists, lists_in, with_carry_record, with_lists, with_one_more};
ghost use Rattle.xm_files.specs.FileFaults.{own_fault};
ghost use Rattle.xm_files.specs.OrderFiles.{after_file, behind_cut};
ghost use Rattle.xm_files.specs.Orders.{format_of, later_orders, later_row, rows_of_records, with_record};
ghost use Rattle.xm_files.specs.RecordTexts.{record_at, text_in};
ghost use Rattle.xm_files.specs.Rows.{by_column, columns_of, condition_in, field, is_header, kind_in, name_index, names_members_command, restriction_of, rows_of_record, side_named, title_of, validity_of, whole_of};
ghost use Rattle.xm_files.specs.Segment.{are_distinct_texts, is_name};
ghost use Rattle.xm_files.specs.Timetable.{ends_round, is_one_round, rounds_of, share_of};
ghost use Rattle.xm_files.specs.declared.file_faults.FileCause.TheVariants.{BadField, BadHeader, DuplicateName, Syntax, TooLong};
ghost use Rattle.xm_files.specs.declared.columns.Column.TheVariants as column;
ghost use Rattle.xm_files.specs.declared.entries.Word.TheVariants as word;
ghost use Rattle.xm_files.specs.declared.order_format.OrderFormat.TheVariants.{First, Second, Carry};
ghost use Rattle.xm_files.specs.declared.listed.CarriedEntry.TheVariants as entry;
ghost use Rattle.xm_rules.specs.declared.commands.Command.TheVariants.{Cancel, CancelAll, Change, EndDay, StartClosing, StartIntraday, StartOpening, Uncross};
ghost use Rattle.xm_rules.specs.declared.commands.Condition.TheVariants.{Fok, Ioc, Plain};
ghost use Rattle.xm_rules.specs.declared.commands.Kind.TheVariants.{Limit, Market, StopLimit, StopMarket};
ghost use Rattle.xm_rules.specs.Entries.{none_left};
ghost use Rattle.xm_rules.specs.declared.orders.OrderKind.TheVariants as kind;
ghost use Rattle.xm_rules.specs.declared.orders.Restriction.TheVariants.{AuctionsOnly, ClosingOnly, Free, OpeningOnly};
ghost use Rattle.xm_rules.specs.declared.orders.Side.TheVariants.{Buy, Sell};
ghost use Rattle.xm_rules.specs.declared.orders.Validity.TheVariants.{Day, TillCancelled, TillDate};

/// The titles of the columns, and the header that they make.
pub fn titles()
    ensures titles { map title_of (columns_of First) ≡ every_title }
    ensures second { map title_of (columns_of Second) ≡ second_titles }
    ensures header { is_header First every_title ≡ true }
    ensures short { is_header First (codes "command" ∷ []) ≡ false }
    ensures long { is_header First (codes "command" ∷ every_title) ≡ false }
{}

/// The format of a file is that of its header. Another record is none.
pub fn formats()
    ensures first { format_of every_title ≡ Some First }
    ensures second { format_of second_titles ≡ Some Second }
    ensures short { format_of (codes "command" ∷ []) ≡ None }
    ensures other { format_of (record_with_text every_title (codes "note")) ≡ None }
    ensures long { format_of (record_with_text second_titles (codes "text")) ≡ None }
{}

/// Fields are found by the columns of their format, in whichever order they stand. A column that isn't one of them has an empty field.
pub fn fields_by_column()
    ensures first { by_column (columns_of First) every_title ≡ record_with_text every_title [] }
    ensures second { by_column (columns_of Second) second_titles ≡ second_titles }
    ensures turned { field column.Command (by_column (column.Member ∷ column.Command ∷ []) (codes "AAA" ∷ codes "open" ∷ [])) ≡ codes "open" }
    ensures other { field column.Member (by_column (column.Member ∷ column.Command ∷ []) (codes "AAA" ∷ codes "open" ∷ [])) ≡ codes "AAA" }
    ensures absent { field column.Security (by_column (column.Member ∷ column.Command ∷ []) (codes "AAA" ∷ codes "open" ∷ [])) ≡ [] }
{}

/// The command words of a format. Another word names no kind of command.
pub fn command_words()
    ensures members { map (kind_in First) (codes "enter" ∷ codes "change" ∷ codes "cancel" ∷ codes "cancel-all" ∷ []) ≡ Some word.Enter ∷ Some word.Change ∷ Some word.Cancel ∷ Some word.CancelAll ∷ [] }
    ensures phases { map (kind_in First) (codes "open" ∷ codes "intraday" ∷ codes "close" ∷ codes "uncross" ∷ codes "end" ∷ []) ≡ Some word.Open ∷ Some word.Intraday ∷ Some word.Close ∷ Some word.Uncross ∷ Some word.End ∷ [] }
    ensures second { map (kind_in Second) (codes "enter" ∷ codes "end" ∷ []) ≡ Some word.Enter ∷ Some word.End ∷ [] }
    ensures none { map (kind_in First) (codes "" ∷ codes "Enter" ∷ codes "quote" ∷ []) ≡ None ∷ None ∷ None ∷ [] }
{}

/// The words of sides, restrictions and conditions. An empty field is the plain case, and another word is none.
pub fn words()
    ensures sides { map side_named (codes "buy" ∷ codes "sell" ∷ codes "Buy" ∷ codes "" ∷ []) ≡ Some Buy ∷ Some Sell ∷ None ∷ None ∷ [] }
    ensures restrictions { map restriction_of (codes "" ∷ codes "free" ∷ codes "opening" ∷ codes "auctions" ∷ codes "closing" ∷ codes "open" ∷ [])
        ≡ Some Free ∷ Some Free ∷ Some OpeningOnly ∷ Some AuctionsOnly ∷ Some ClosingOnly ∷ None ∷ [] }
    ensures conditions { map (condition_in First) (codes "" ∷ codes "plain" ∷ codes "ioc" ∷ codes "fok" ∷ codes "gtc" ∷ []) ≡ Some Plain ∷ Some Plain ∷ Some Ioc ∷ Some Fok ∷ None ∷ [] }
    ensures second { map (condition_in Second) (codes "" ∷ codes "plain" ∷ codes "ioc" ∷ codes "fok" ∷ codes "gtc" ∷ []) ≡ Some Plain ∷ Some Plain ∷ Some Ioc ∷ Some Fok ∷ None ∷ [] }
{}

/// Validities: a date has eight digits.
pub fn validities()
    ensures words { map validity_of (codes "" ∷ codes "day" ∷ codes "gtc" ∷ []) ≡ Some Day ∷ Some Day ∷ Some TillCancelled ∷ [] }
    ensures eight { validity_of (codes "20260131") ≡ Some (TillDate 20260131) }
    ensures seven { validity_of (codes "2026131") ≡ None }
    ensures nine { validity_of (codes "020260131") ≡ None }
    ensures letter { validity_of (codes "2026013l") ≡ None }
{}

/// Numbers of 32 bits, in at most ten digits.
pub fn numbers()
    ensures most { whole_of (codes "4294967295") ≡ Some 4294967295 }
    ensures above { whole_of (codes "4294967296") ≡ None }
    ensures leading_zeros { whole_of (codes "0000000012") ≡ Some 12 }
    ensures eleven { whole_of (codes "00000000012") ≡ None }
    ensures empty { whole_of (codes "") ≡ None }
{}

/// Names have 1 to 12 characters `A` to `Z` and `0` to `9`. What is no name of a list has their number as its index.
pub fn names()
    ensures one { is_name (codes "A") ≡ true }
    ensures twelve { is_name (codes "AZ0123456789") ≡ true }
    ensures thirteen { is_name (codes "AZ01234567890") ≡ false }
    ensures empty { is_name (codes "") ≡ false }
    ensures small { is_name (codes "Az") ≡ false }
    ensures distinct { are_distinct_texts (codes "A" ∷ codes "B" ∷ codes "AB" ∷ []) ≡ true }
    ensures again { are_distinct_texts (codes "A" ∷ codes "B" ∷ codes "A" ∷ []) ≡ false }
    ensures index { map (name_index record_names.members) (codes "AAA" ∷ codes "BBB" ∷ codes "CCC" ∷ codes "" ∷ []) ≡ Some 0 ∷ Some 1 ∷ Some 2 ∷ None ∷ [] }
{}

/// The rows of records that enter an order or a stop, at ticks of 50 in the first security.
pub fn orders_entered()
    ensures limit { rows_of_record First record_names record_settings 2 (order_record (codes "XYZ") (codes "limit") (codes "1.005") (codes "")) ≡ Some (entered_row 0 (Limit 201) ∷ []) }
    ensures market { rows_of_record First record_names record_settings 2 (order_record (codes "UVW") (codes "market") (codes "") (codes "")) ≡ Some (entered_row 1 Market ∷ []) }
    ensures stop_market { rows_of_record First record_names record_settings 2 (order_record (codes "XYZ") (codes "stop-market") (codes "") (codes "1")) ≡ Some (entered_row 0 (StopMarket 200) ∷ []) }
    ensures stop_limit { rows_of_record First record_names record_settings 2 (order_record (codes "XYZ") (codes "stop-limit") (codes "1.005") (codes "1")) ≡ Some (entered_row 0 (StopLimit 200 201) ∷ []) }
    ensures off_tick { rows_of_record First record_names record_settings 2 (order_record (codes "XYZ") (codes "limit") (codes "1.001") (codes "")) ≡ Some (entered_row 0 (Limit 0) ∷ []) }
    ensures unknown_security { rows_of_record First record_names record_settings 2 (order_record (codes "ABC") (codes "limit") (codes "1.001") (codes "")) ≡ Some (entered_row 2 (Limit 10010) ∷ []) }
    ensures no_number { rows_of_record First record_names record_settings 2 (order_record (codes "XYZ") (codes "limit") (codes "a") (codes "")) ≡ None }
    ensures no_limit { rows_of_record First record_names record_settings 2 (order_record (codes "XYZ") (codes "limit") (codes "") (codes "")) ≡ None }
    ensures trigger { rows_of_record First record_names record_settings 2 (order_record (codes "XYZ") (codes "limit") (codes "1") (codes "1")) ≡ None }
    ensures market_limit { rows_of_record First record_names record_settings 2 (order_record (codes "XYZ") (codes "market") (codes "1") (codes "")) ≡ None }
    ensures kind { rows_of_record First record_names record_settings 2 (order_record (codes "XYZ") (codes "stop") (codes "") (codes "1")) ≡ None }
{}

/// The rows of records that change or cancel.
pub fn changes_and_cancellations()
    ensures limited { rows_of_record First record_names record_settings 2 (change_record (codes "change") (codes "7") (codes "1") (codes "20")) ≡ Some (row_of 0 (Change 1 7 20 (Some 200)) ∷ []) }
    ensures unlimited { rows_of_record First record_names record_settings 2 (change_record (codes "change") (codes "7") (codes "") (codes "20")) ≡ Some (row_of 0 (Change 1 7 20 None) ∷ []) }
    ensures no_quantity { rows_of_record First record_names record_settings 2 (change_record (codes "change") (codes "7") (codes "1") (codes "")) ≡ None }
    ensures cancelled { rows_of_record First record_names record_settings 2 (change_record (codes "cancel") (codes "7") (codes "") (codes "")) ≡ Some (row_of 0 (Cancel 1 7) ∷ []) }
    ensures too_much { rows_of_record First record_names record_settings 2 (change_record (codes "cancel") (codes "7") (codes "") (codes "20")) ≡ None }
    ensures all { rows_of_record First record_names record_settings 2 (change_record (codes "cancel-all") (codes "") (codes "") (codes "")) ≡ Some (row_of 0 (CancelAll 1) ∷ []) }
    ensures one_of_all { rows_of_record First record_names record_settings 2 (change_record (codes "cancel-all") (codes "7") (codes "") (codes "")) ≡ None }
{}

/// The rows of the phases: in one security, or one for each in index order.
pub fn phases()
    ensures open { rows_of_record First record_names record_settings 2 (phase_record (codes "open") (codes "*")) ≡ Some (row_of 0 StartOpening ∷ row_of 1 StartOpening ∷ []) }
    ensures intraday { rows_of_record First record_names record_settings 2 (phase_record (codes "intraday") (codes "UVW")) ≡ Some (row_of 1 StartIntraday ∷ []) }
    ensures close { rows_of_record First record_names record_settings 2 (phase_record (codes "close") (codes "XYZ")) ≡ Some (row_of 0 StartClosing ∷ []) }
    ensures uncross { rows_of_record First record_names record_settings 2 (phase_record (codes "uncross") (codes "XYZ")) ≡ Some (row_of 0 Uncross ∷ []) }
    ensures end { rows_of_record First record_names record_settings 2 (phase_record (codes "end") (codes "ABC")) ≡ Some (row_of 2 EndDay ∷ []) }
    ensures nowhere { rows_of_record First record_names record_settings 2 (phase_record (codes "end") (codes "")) ≡ None }
    ensures word { rows_of_record First record_names record_settings 2 (phase_record (codes "begin") (codes "*")) ≡ None }
{}

/// A record of the second format says what it says without its text, which has at most 64 bytes, of whatever kind.
pub fn texts()
    ensures none { rows_of_record Second record_names record_settings 2 (record_with_text (phase_record (codes "close") (codes "XYZ")) []) ≡ Some (row_of 0 StartClosing ∷ []) }
    ensures some { rows_of_record Second record_names record_settings 2 (record_with_text (change_record (codes "cancel") (codes "7") (codes "") (codes "")) (codes "a, b")) ≡ Some (row_of 0 (Cancel 1 7) ∷ []) }
    ensures most { rows_of_record Second record_names record_settings 2 (record_with_text (phase_record (codes "close") (codes "XYZ")) (range_with_len 190 64)) ≡ Some (row_of 0 StartClosing ∷ []) }
    ensures more { rows_of_record Second record_names record_settings 2 (record_with_text (phase_record (codes "close") (codes "XYZ")) (range_with_len 190 65)) ≡ None }
{}

/// A record has as many fields as its format has columns; a fault has the number of its record.
pub fn numbers_of_records()
    ensures more { with_record record_names record_settings First 3 (row_of 0 Uncross ∷ []) (phase_record (codes "close") (codes "XYZ")) ≡ Ok (row_of 0 Uncross ∷ record (row_of 0 StartClosing) { line = 3 } ∷ []) }
    ensures short { with_record record_names record_settings First 3 [] (codes "open" ∷ []) ≡ Err (record { line = 3; cause = Syntax }) }
    ensures bad { with_record record_names record_settings First 4 [] (phase_record (codes "begin") (codes "*")) ≡ Err (record { line = 4; cause = BadField }) }
    ensures long { with_record record_names record_settings First 3 [] (record_with_text (phase_record (codes "open") (codes "*")) []) ≡ Err (record { line = 3; cause = Syntax }) }
    ensures no_text { with_record record_names record_settings Second 3 [] (phase_record (codes "open") (codes "*")) ≡ Err (record { line = 3; cause = Syntax }) }
{}

/// The first record of a file is the header of a format, and the others are of that format.
pub fn headers()
    ensures none { rows_of_records record_names record_settings 1 [] [] ≡ Err (record { line = 1; cause = BadHeader }) }
    ensures no_header { rows_of_records record_names record_settings 1 [] (phase_record (codes "open") (codes "*") ∷ []) ≡ Err (record { line = 1; cause = BadHeader }) }
    ensures header { rows_of_records record_names record_settings 1 [] (every_title ∷ []) ≡ Ok [] }
    ensures first { rows_of_records record_names record_settings 1 [] (every_title ∷ phase_record (codes "close") (codes "XYZ") ∷ []) ≡ Ok (row_of 0 StartClosing ∷ []) }
    ensures second { rows_of_records record_names record_settings 1 [] (second_titles ∷ record_with_text (phase_record (codes "close") (codes "XYZ")) [] ∷ []) ≡ Ok (row_of 0 StartClosing ∷ []) }
{}

/// The numbers of a file whose header is the fifth record of all count on from there, and a fault has one of them. Its own number is that
/// of the file alone, and a fault that no record has stays at line 0.
pub fn later_files()
    ensures rows { rows_of_records record_names record_settings 5 [] (every_title ∷ phase_record (codes "close") (codes "XYZ") ∷ phase_record (codes "uncross") (codes "UVW") ∷ []) ≡ Ok (record (row_of 0 StartClosing) { line = 6 } ∷ record (row_of 1 Uncross) { line = 7 } ∷ []) }
    ensures no_header { rows_of_records record_names record_settings 5 [] (phase_record (codes "open") (codes "*") ∷ []) ≡ Err (record { line = 5; cause = BadHeader }) }
    ensures none { rows_of_records record_names record_settings 5 [] [] ≡ Err (record { line = 5; cause = BadHeader }) }
    ensures bad { rows_of_records record_names record_settings 5 [] (every_title ∷ phase_record (codes "begin") (codes "*") ∷ []) ≡ Err (record { line = 6; cause = BadField }) }
    ensures own_header { own_fault 4 (record { line = 5; cause = BadHeader }) ≡ record { line = 1; cause = BadHeader } }
    ensures own_record { own_fault 4 (record { line = 6; cause = BadField }) ≡ record { line = 2; cause = BadField } }
    ensures own_none { own_fault 4 (record { line = 0; cause = TooLong }) ≡ record { line = 0; cause = TooLong } }
    ensures later { later_orders 4 (Ok (row_of 0 StartClosing ∷ [])) ≡ Ok (record (row_of 0 StartClosing) { line = 6 } ∷ []) }
    ensures later_fault { later_orders 4 (Err (record { line = 1; cause = BadHeader })) ≡ Err (record { line = 5; cause = BadHeader }) }
    ensures later_none { later_orders 4 (Err (record { line = 0; cause = TooLong })) ≡ Err (record { line = 0; cause = TooLong }) }
{}

/// The record with a number, of a file whose header is the fifth record of all: the header, the record behind it, and none below the
/// header or behind the last record.
pub fn records_of_later_files()
    ensures header { record_at 5 (second_titles ∷ record_with_text (phase_record (codes "close") (codes "XYZ")) (codes "note") ∷ []) 5 ≡ second_titles }
    ensures behind { record_at 5 (second_titles ∷ record_with_text (phase_record (codes "close") (codes "XYZ")) (codes "note") ∷ []) 6 ≡ record_with_text (phase_record (codes "close") (codes "XYZ")) (codes "note") }
    ensures below { record_at 5 (second_titles ∷ record_with_text (phase_record (codes "close") (codes "XYZ")) (codes "note") ∷ []) 4 ≡ [] }
    ensures above { record_at 5 (second_titles ∷ record_with_text (phase_record (codes "close") (codes "XYZ")) (codes "note") ∷ []) 7 ≡ [] }
    ensures text { text_in (record_with_text (phase_record (codes "close") (codes "XYZ")) (codes "note")) ≡ codes "note" }
    ensures no_text { text_in [] ≡ [] }
{}

/// A fault of the second of a day's order files, and where a row of a file stands, in its second record, that is cut behind that or
/// behind its header.
pub fn files_of_a_day()
    ensures fault { after_file 2 (Err (record { line = 3; cause = BadField })) (λ own. Ok own) ≡ Err (record { file = 2; fault = record { line = 3; cause = BadField } }) }
    ensures before_the_cut { behind_cut 2 (row_of 0 Uncross) ≡ record { line = 2; security = 0; command = Uncross } }
    ensures behind_the_cut { behind_cut 1 (row_of 0 Uncross) ≡ record { line = 3; security = 0; command = Uncross } }
    ensures of_two_files { later_row 5 (row_of 1 Uncross) ≡ record { line = 7; security = 1; command = Uncross } }
{}

/// Rounds of members' rows and the phase rows after them, and what each of two workers works of them.
pub fn rounds_and_shares()
    ensures rounds { rounds_of round_rows ≡ record { first = 0; phase = 0; end = 1 } ∷ record { first = 1; phase = 3; end = 5 } ∷ record { first = 5; phase = 6; end = 6 } ∷ [] }
    ensures even { share_of 0 2 round_rows ≡ row_of 1 (Cancel 2 1) ∷ [] }
    ensures odd { share_of 1 2 round_rows ≡ row_of 0 (Cancel 1 1) ∷ row_of 0 (CancelAll 1) ∷ [] }
{}

/// Which rows make one round, and where a round ends: between a phase row and a member's row, or at the last row.
pub fn ends_of_rounds()
    ensures one { is_one_round (row_of 0 (Cancel 1 1) ∷ row_of 0 Uncross ∷ row_of 0 StartClosing ∷ []) ≡ true }
    ensures phases { is_one_round (row_of 0 Uncross ∷ row_of 0 StartClosing ∷ []) ≡ true }
    ensures more { is_one_round round_rows ≡ false }
    ensures phase_before_member { ends_round (row_of 0 (Cancel 1 1) ∷ row_of 0 Uncross ∷ []) (row_of 0 (CancelAll 1) ∷ []) ≡ true }
    ensures phase_before_phase { ends_round (row_of 0 (Cancel 1 1) ∷ row_of 0 Uncross ∷ []) (row_of 0 StartClosing ∷ []) ≡ false }
    ensures member_before_member { ends_round (row_of 0 (Cancel 1 1) ∷ []) (row_of 0 (CancelAll 1) ∷ []) ≡ false }
    ensures last { ends_round (row_of 0 (Cancel 1 1) ∷ []) [] ≡ true }
{}

/// The words of commands that members give.
pub fn words_of_members()
    ensures members { map names_members_command (codes "enter" ∷ codes "change" ∷ codes "cancel" ∷ codes "cancel-all" ∷ []) ≡ true ∷ true ∷ true ∷ true ∷ [] }
    ensures phases { map names_members_command (codes "open" ∷ codes "intraday" ∷ codes "close" ∷ codes "uncross" ∷ codes "end" ∷ []) ≡ false ∷ false ∷ false ∷ false ∷ false ∷ [] }
    ensures none { map names_members_command (codes "" ∷ codes "Enter" ∷ codes "quote" ∷ []) ≡ false ∷ false ∷ false ∷ [] }
{}

/// The header of a carry file, which is none of an order file.
pub fn titles_of_a_carry_file()
    ensures titles { map title_of (columns_of Carry) ≡ carry_titles }
    ensures header { is_header Carry carry_titles ≡ true }
    ensures no_orders { format_of carry_titles ≡ None }
    ensures orders { is_header Carry every_title ≡ false }
    ensures fields { field column.Quantity (by_column (columns_of Carry) left_record) ≡ codes "30" }
    ensures absent { field column.Condition (by_column (columns_of Carry) left_record) ≡ [] }
{}

/// What records of a carry file say, at ticks of 50 in the first security and of 100 in the second.
pub fn entries_listed()
    ensures limit { says left_record ≡ Some (record { security = 0; entry = entry.Order left_order }) }
    ensures stop { says left_stop_record ≡ Some (record { security = 0; entry = entry.Stop left_stop }) }
    ensures market { says (carry_record (codes "UVW") (codes "market") (codes "") (codes "") (codes "1000000") (codes "00000000") (codes "free"))
        ≡ Some (record { security = 1; entry = entry.Order (record left_order { kind = kind.Market; rest = 1000000; validity = TillDate 0; restriction = Free }) }) }
    ensures stop_market { says (carry_record (codes "XYZ") (codes "stop-market") (codes "") (codes "1") (codes "30") (codes "20260105") (codes "free"))
        ≡ Some (record { security = 0; entry = entry.Stop (record left_stop { becomes = kind.Market }) }) }
{}

/// Records of a carry file with a bad field: a name of no security, each fault of a price, a quantity out of range, a validity
/// that ends with the day, and a restriction that is wanting or a stop's.
pub fn entries_of_bad_fields()
    ensures unknown { says (carry_record (codes "ABC") (codes "limit") (codes "1") (codes "") (codes "30") (codes "gtc") (codes "free")) ≡ None }
    ensures star { says (carry_record (codes "*") (codes "limit") (codes "1") (codes "") (codes "30") (codes "gtc") (codes "free")) ≡ None }
    ensures no_number { says (carry_record (codes "XYZ") (codes "limit") (codes "a") (codes "") (codes "30") (codes "gtc") (codes "free")) ≡ None }
    ensures decimals { says (carry_record (codes "XYZ") (codes "limit") (codes "1.00000") (codes "") (codes "30") (codes "gtc") (codes "free")) ≡ None }
    ensures off_tick { says (carry_record (codes "XYZ") (codes "limit") (codes "1.001") (codes "") (codes "30") (codes "gtc") (codes "free")) ≡ None }
    ensures zero_price { says (carry_record (codes "XYZ") (codes "limit") (codes "0") (codes "") (codes "30") (codes "gtc") (codes "free")) ≡ None }
    ensures off_trigger { says (carry_record (codes "XYZ") (codes "stop-market") (codes "") (codes "1.001") (codes "30") (codes "gtc") (codes "free")) ≡ None }
    ensures no_trigger { says (carry_record (codes "XYZ") (codes "stop-limit") (codes "1") (codes "") (codes "30") (codes "gtc") (codes "free")) ≡ None }
    ensures no_units { says (carry_record (codes "XYZ") (codes "limit") (codes "1") (codes "") (codes "0") (codes "gtc") (codes "free")) ≡ None }
    ensures many_units { says (carry_record (codes "XYZ") (codes "limit") (codes "1") (codes "") (codes "1000001") (codes "gtc") (codes "free")) ≡ None }
    ensures day { says (carry_record (codes "XYZ") (codes "limit") (codes "1") (codes "") (codes "30") (codes "day") (codes "free")) ≡ None }
    ensures no_validity { says (carry_record (codes "XYZ") (codes "limit") (codes "1") (codes "") (codes "30") (codes "") (codes "free")) ≡ None }
    ensures no_restriction { says (carry_record (codes "XYZ") (codes "limit") (codes "1") (codes "") (codes "30") (codes "gtc") (codes "")) ≡ None }
    ensures stop { says (carry_record (codes "XYZ") (codes "stop-market") (codes "") (codes "1") (codes "30") (codes "gtc") (codes "opening")) ≡ None }
    ensures no_restriction_of_a_stop { says (carry_record (codes "XYZ") (codes "stop-market") (codes "") (codes "1") (codes "30") (codes "gtc") (codes "")) ≡ None }
{}

/// What a carry file lists: for each security its orders and its stops, of which no two have one name.
pub fn entries_of_carry_files()
    ensures header { lists_in record_names record_settings.securities (carry_titles ∷ []) ≡ Ok (none_left ∷ none_left ∷ []) }
    ensures none { lists_in record_names record_settings.securities [] ≡ Err (record { line = 1; cause = BadHeader }) }
    ensures orders { lists_in record_names record_settings.securities (every_title ∷ []) ≡ Err (record { line = 1; cause = BadHeader }) }
    ensures one { lists_in record_names record_settings.securities (carry_titles ∷ left_record ∷ []) ≡ Ok order_listed }
    ensures used { lists_in record_names record_settings.securities (carry_titles ∷ left_record ∷ left_stop_record ∷ []) ≡ Err (record { line = 3; cause = DuplicateName }) }
    ensures short { with_carry_record record_names record_settings.securities 4 order_listed (codes "XYZ" ∷ []) ≡ Err (record { line = 4; cause = Syntax }) }
    ensures bad { with_carry_record record_names record_settings.securities 4 order_listed carry_titles ≡ Err (record { line = 4; cause = BadField }) }
    ensures other_security { with_carry_record record_names record_settings.securities 4 (none_left ∷ order_listed) left_stop_record ≡ Ok (record { orders = []; stops = left_stop ∷ [] } ∷ order_listed) }
    ensures last { with_one_more 4 (record { orders = left_order ∷ []; stops = left_stop ∷ [] }) (entry.Order (record left_order { member = 0 })) ≡ Ok (record { orders = left_order ∷ record left_order { member = 0 } ∷ []; stops = left_stop ∷ [] }) }
    ensures filled { with_lists record_settings.securities order_listed ≡ record (with_ticks 50) { carried = record { orders = left_order ∷ []; stops = [] } } ∷ with_ticks 100 ∷ [] }
    ensures emptied { with_lists (with_lists record_settings.securities order_listed) (empty_lists record_settings.securities) ≡ record_settings.securities }
{}
