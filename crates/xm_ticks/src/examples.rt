//! What the definitions give on worked examples. Each function promises one by its contract.
ghost use Rattle.std.specs.Prelude.{◌≡◌, Some, None, Ok, Err, codes, pos, negsuc, true, false};
ghost use Rattle.xm_ticks.specs.Ranges.{inside};
ghost use Rattle.xm_ticks.specs.Reading.{number_of, price_of};
ghost use Rattle.xm_ticks.specs.Writing.{money_text, price_text};
ghost use Rattle.xm_ticks.specs.declared.reading.PriceFault.TheVariants.{NotANumber, TooManyDecimals, OffTick, OutOfRange};

/// A number is digits and nothing else.
pub fn numbers_of_texts()
    ensures zero { number_of (codes "0") ≡ Some 0 }
    ensures leading_zeros { number_of (codes "0012") ≡ Some 12 }
    ensures longest { number_of (codes "9999999999999999") ≡ Some 9999999999999999 }
    ensures empty { number_of (codes "") ≡ None }
    ensures space { number_of (codes "1 ") ≡ None }
    ensures minus { number_of (codes "-1") ≡ None }
    ensures letter { number_of (codes "1a") ≡ None }
{}

/// The prices of texts in euros, at a tick of 0.005 euros.
pub fn prices_of_texts()
    ensures price { price_of (codes "12.345") 50 ≡ Ok 2469 }
    ensures trailing_zero { price_of (codes "12.3450") 50 ≡ Ok 2469 }
    ensures leading_zeros { price_of (codes "00000000000005.0") 50 ≡ Ok 1000 }
    ensures highest { price_of (codes "5000") 50 ≡ Ok 1000000 }
    ensures nothing { price_of (codes "0") 50 ≡ Err OutOfRange }
    ensures above_the_highest { price_of (codes "5000.005") 50 ≡ Err OutOfRange }
    ensures far_above { price_of (codes "9999999999999999") 50 ≡ Err OutOfRange }
    ensures off_tick { price_of (codes "12.3460") 50 ≡ Err OffTick }
    ensures five_decimals { price_of (codes "12.34500") 50 ≡ Err TooManyDecimals }
    ensures sixteen_bytes { price_of (codes "0.00000000000001") 50 ≡ Err TooManyDecimals }
    ensures seventeen_bytes { price_of (codes "000000000000005.0") 50 ≡ Err NotANumber }
    ensures plus { price_of (codes "+1") 50 ≡ Err NotANumber }
    ensures nothing_before { price_of (codes ".5") 50 ≡ Err NotANumber }
    ensures nothing_after { price_of (codes "5.") 50 ≡ Err NotANumber }
    ensures two_points { price_of (codes "1.2.3") 50 ≡ Err NotANumber }
    ensures comma { price_of (codes "1,5") 50 ≡ Err NotANumber }
    ensures empty { price_of (codes "") 50 ≡ Err NotANumber }
{}

/// Prices are written in euros with four decimals.
pub fn texts_of_prices()
    ensures price { price_text 2469 50 ≡ codes "12.3450" }
    ensures lowest { price_text 1 1 ≡ codes "0.0001" }
    ensures highest { price_text 1000000 10000 ≡ codes "1000000.0000" }
    ensures whole { price_text 1000 100 ≡ codes "10.0000" }
{}

/// So is money, with a minus sign where it is negative.
pub fn texts_of_money()
    ensures nothing { money_text (pos 0) ≡ codes "0.0000" }
    ensures positive { money_text (pos 5935000) ≡ codes "593.5000" }
    ensures negative { money_text (negsuc 1234499) ≡ codes "-123.4500" }
    ensures below_a_cent { money_text (negsuc 4) ≡ codes "-0.0005" }
    ensures highest { money_text (pos 170141183460469231731687303715884105727) ≡ codes "17014118346046923173168730371588410.5727" }
    ensures lowest { money_text (negsuc 170141183460469231731687303715884105727) ≡ codes "-17014118346046923173168730371588410.5728" }
{}

/// The edges of a range are inside it; where they lie between two prices, the inner one is.
pub fn edges_of_ranges()
    ensures upper { inside 1020 1000 20 ≡ true }
    ensures above { inside 1021 1000 20 ≡ false }
    ensures upper_between { inside 1018 999 20 ≡ true }
    ensures above_between { inside 1019 999 20 ≡ false }
    ensures lower_between { inside 980 999 20 ≡ true }
    ensures below_between { inside 979 999 20 ≡ false }
    ensures lowest_reference { inside 1 1 999 ≡ true }
    ensures above_the_lowest { inside 2 1 999 ≡ false }
    ensures no_width { inside 1000000 1000000 0 ≡ true }
    ensures widest { inside 1 1000000 999 ≡ false }
{}
