//! Calls of a desk that no file makes, each once after a short day, and refusals of commands that no order file gives.
use super::day::{Day, Made, Step, are_alike};
use super::settings;
use std::alloc::Global;
use std::process::Abort;
use xm_rules::{
    Auction, CallStage, Command, Condition, Kind, Phase, Refusal, Restriction, Side, Totals,
    Validity,
};

const CLOSING: Phase = Phase::Call(Auction::Closing, CallStage::Ordinary);

/// An auction that trades, a stop that is held, and a closing call that has a price.
const COMMANDS: [Command; 9] = [
    buy!(0, 1, 1000, 10),
    Command::StartOpening,
    sell!(1, 1, 1000, 4),
    Command::Uncross,
    stop!(Sell, 1, 2, Kind::StopMarket(990), 5),
    sell!(1, 3, 1010, 7),
    Command::StartClosing,
    buy!(0, 2, 1010, 2),
    enter!(Sell, 1, 4, Kind::Market, 1, Plain),
];

const MADE: [Made; 1] = [(1, 1000, 4, (0, 1), (1, 1))];

fn shows_its_state(rt: &impl Abort, day: &Day<Global>) {
    assert!(rt; are_alike(day.settings(), &settings(rt, 100)));
    assert!(rt; day.phase() == CLOSING);
    assert!(rt; day.journal() == COMMANDS.as_slice());
    day.has_made(rt, &MADE);
    day.has_left(
        rt,
        &[
            (Side::Buy, 0, 1, 1000, 6),
            (Side::Sell, 1, 3, 1010, 7),
            (Side::Buy, 0, 2, 1010, 2),
            (Side::Sell, 1, 4, 0, 1),
        ],
        &[(1, 2, 990, 5)],
    );
}

fn shows_prices(rt: &impl Abort, day: &Day<Global>) {
    assert!(rt; day.reference_prices() == (1000, 1000));
    assert!(rt; day.indicative() == Some((1010, 2)));
    assert!(rt; day.best_limits() == (Some(1010), Some(1010)));
    assert!(rt; day.level_after(Side::Buy, None) == Some((1010, 2)));
    assert!(rt; day.level_after(Side::Buy, Some(1010)) == Some((1000, 6)));
    assert!(rt; day.level_after(Side::Sell, Some(1010)) == None);
    assert!(rt; day.market_sum(Side::Sell) == 1);
    assert!(rt; day.units_left(1, 2) == 5);
}

/// A third member isn't there.
fn shows_sums(rt: &impl Abort, day: &Day<Global>) {
    assert!(rt; day.position(0) == (Some(4), Some(-4000), true));
    assert!(rt; day.position(1) == (Some(-4), Some(4000), true));
    assert!(rt; day.position(2) == (None, None, false));
    let totals = Totals {
        quantity: 4,
        money: 4000,
    };
    assert!(rt; day.totals() == totals);
    day.has_quoted(rt, (9, CLOSING, Some(1010), Some(1010), 1000, 1000, 4));
}

#[test]
fn readers_after_a_short_day(rt: HostRuntime) {
    let mut day = Day::open(&rt, rt.alloc(), 100);
    assert!(rt; day.reserve(COMMANDS.len()).is_ok());
    day.accept(&rt, &COMMANDS);
    shows_its_state(&rt, &day);
    shows_prices(&rt, &day);
    shows_sums(&rt, &day);
}

/// A sell stop of member 0 with a limit.
macro_rules! limit_stop {
    ($trigger:expr, $limit:expr) => {
        stop!(
            Sell,
            0,
            9,
            Kind::StopLimit {
                trigger: $trigger,
                limit: $limit
            },
            1
        )
    };
}

/// An order file gives an unknown member the number of members, and a price that is out of range the price 0.
const UNWRITTEN: [Step; 9] = [
    (buy!(0, 1, 1_000_000, 1), Ok(1)),
    (buy!(3, 1, 1000, 1), Err(Refusal::UnknownMember)),
    (cancel!(u32::MAX, 1), Err(Refusal::UnknownMember)),
    (buy!(0, 9, 1_000_001, 1), Err(Refusal::BadPrice)),
    (buy!(0, 9, u32::MAX, 1), Err(Refusal::BadPrice)),
    (
        stop!(Sell, 0, 9, Kind::StopMarket(1_000_001), 1),
        Err(Refusal::BadPrice),
    ),
    (limit_stop!(1_000_001, 1000), Err(Refusal::BadPrice)),
    (limit_stop!(999, 1_000_001), Err(Refusal::BadPrice)),
    (change!(0, 1, 1, Some(1_000_001)), Err(Refusal::BadPrice)),
];

#[test]
fn refusals_of_what_no_file_gives(rt: HostRuntime) {
    let mut day = Day::open(&rt, rt.alloc(), 100);
    day.give_all(&rt, &UNWRITTEN);
}
