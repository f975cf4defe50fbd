//! What is answered through the locks of a segment, and what is left behind them.
use super::running::{Case, Given, Left, run};
use xm_rules::{
    Auction, CallStage, Command, Condition, Kind, Phase, Refusal, Restriction, Side, Validity,
};

const OPENING: Phase = Phase::Call(Auction::Opening, CallStage::Ordinary);

const OPENING_INTERRUPTED: Phase = Phase::Call(Auction::Opening, CallStage::Interrupted);

const OPENING_EXTENDED: Phase = Phase::Call(Auction::Opening, CallStage::Extended);

const INTRADAY: Phase = Phase::Call(Auction::Intraday, CallStage::Ordinary);

const INTRADAY_INTERRUPTED: Phase = Phase::Call(Auction::Intraday, CallStage::Interrupted);

const CLOSING: Phase = Phase::Call(Auction::Closing, CallStage::Ordinary);

const INTERRUPTED: Phase = Phase::Call(Auction::Interruption, CallStage::Interrupted);

/// A command of a worker on the first security that is accepted: its version, the number of its trades with their units and
/// money, and the phase after it.
macro_rules! accepted {
    ($worker:expr, $command:expr, $version:expr, $trades:expr, $quantity:expr, $money:expr, $phase:expr) => {
        (
            $worker,
            0,
            $command,
            Ok(($version, $trades, $quantity, $money, $phase)),
        )
    };
}

/// One that trades nothing in continuous trading.
macro_rules! rested {
    ($worker:expr, $command:expr, $version:expr) => {
        accepted!($worker, $command, $version, 0, 0, 0, Phase::Continuous)
    };
}

/// One that is refused.
macro_rules! refused {
    ($security:expr, $command:expr, $refusal:ident) => {
        (0, $security, $command, Err(Refusal::$refusal))
    };
}

/// A sell stop of member 1 that becomes a limit order.
macro_rules! limit_stop {
    ($reference:expr, $trigger:expr, $limit:expr, $quantity:expr) => {
        stop!(
            Sell,
            1,
            $reference,
            Kind::StopLimit {
                trigger: $trigger,
                limit: $limit
            },
            $quantity
        )
    };
}

/// Two members, each with a worker of its own: a sell reaches a stop, and what that trades reaches another one.
const CASCADE: [Given; 8] = [
    accepted!(0, Command::StartOpening, 1, 0, 0, 0, OPENING),
    rested!(0, Command::Uncross, 2),
    rested!(0, buy!(0, 1, 1000, 10), 3),
    rested!(0, buy!(0, 2, 990, 20), 4),
    rested!(0, buy!(0, 3, 985, 30), 5),
    rested!(1, stop!(Sell, 1, 1, Kind::StopMarket(990), 25), 6),
    rested!(1, limit_stop!(2, 985, 985, 10), 7),
    accepted!(1, sell!(1, 3, 990, 30), 8, 4, 60, 59_350, Phase::Continuous),
];

/// The same with a lower bid, which interrupts trading while a stop is pending.
const CUT: [Given; 10] = [
    accepted!(0, Command::StartOpening, 1, 0, 0, 0, OPENING),
    rested!(0, Command::Uncross, 2),
    rested!(0, buy!(0, 1, 1000, 10), 3),
    rested!(0, buy!(0, 2, 990, 20), 4),
    rested!(0, buy!(0, 3, 960, 30), 5),
    rested!(1, stop!(Sell, 1, 1, Kind::StopMarket(990), 25), 6),
    rested!(1, limit_stop!(2, 985, 985, 10), 7),
    rested!(1, limit_stop!(4, 990, 985, 5), 8),
    accepted!(1, sell!(1, 3, 990, 30), 9, 2, 30, 29_800, INTERRUPTED),
    accepted!(0, Command::Uncross, 10, 1, 25, 24_000, Phase::Continuous),
];

/// Two trades lead the last price away from that of the auction; the next call's price is outside the static range alone.
const STATIC_RANGE: [Given; 11] = [
    accepted!(0, Command::StartOpening, 1, 0, 0, 0, OPENING),
    rested!(0, Command::Uncross, 2),
    rested!(1, sell!(1, 1, 1020, 1), 3),
    accepted!(0, buy!(0, 1, 1020, 1), 4, 1, 1, 1020, Phase::Continuous),
    rested!(1, sell!(1, 2, 1040, 1), 5),
    accepted!(0, buy!(0, 2, 1040, 1), 6, 1, 1, 1040, Phase::Continuous),
    accepted!(0, Command::StartIntraday, 7, 0, 0, 0, INTRADAY),
    accepted!(0, buy!(0, 3, 1055, 10), 8, 0, 0, 0, INTRADAY),
    accepted!(1, sell!(1, 3, 1055, 10), 9, 0, 0, 0, INTRADAY),
    accepted!(0, Command::Uncross, 10, 0, 0, 0, INTRADAY_INTERRUPTED),
    accepted!(0, Command::Uncross, 11, 1, 10, 10_550, Phase::Continuous),
];

/// The price of the opening call is outside the dynamic range and then outside the wide one; an extended call asks none.
const EXTENDED: [Given; 6] = [
    accepted!(0, Command::StartOpening, 1, 0, 0, 0, OPENING),
    accepted!(0, buy!(0, 1, 1100, 10), 2, 0, 0, 0, OPENING),
    accepted!(1, sell!(1, 1, 1100, 15), 3, 0, 0, 0, OPENING),
    accepted!(0, Command::Uncross, 4, 0, 0, 0, OPENING_INTERRUPTED),
    accepted!(0, Command::Uncross, 5, 0, 0, 0, OPENING_EXTENDED),
    accepted!(0, Command::Uncross, 6, 1, 10, 11_000, Phase::Continuous),
];

/// What a security leaves that was given nothing.
const FRESH: Left = (0, 0, 1000, 1000, 0, 0);

#[test]
fn cascades_through_locks(rt: HostRuntime) {
    let whole = Case {
        workers: 2,
        limit: 100,
        shown: (8, Phase::Continuous, None, Some(985), 985, 1000, 60),
        left: &[(60, 59_350, 985, 1000, 1, 0)],
    };
    run(&rt, &whole, &CASCADE);
    let cut = Case {
        shown: (10, Phase::Continuous, Some(960), Some(985), 960, 960, 55),
        left: &[(55, 53_800, 960, 960, 3, 0)],
        ..whole
    };
    run(&rt, &cut, &CUT);
}

#[test]
fn calls_out_of_range_through_locks(rt: HostRuntime) {
    let interrupted = Case {
        workers: 2,
        limit: 100,
        shown: (11, Phase::Continuous, None, None, 1055, 1055, 12),
        left: &[(12, 12_610, 1055, 1055, 0, 0)],
    };
    run(&rt, &interrupted, &STATIC_RANGE);
    let extended = Case {
        shown: (6, Phase::Continuous, None, Some(1100), 1100, 1100, 10),
        left: &[(10, 11_000, 1100, 1100, 1, 0)],
        ..interrupted
    };
    run(&rt, &extended, &EXTENDED);
}

/// One seat and a watcher; the last of eight securities has trades of its own.
const EIGHT: [Given; 8] = [
    accepted!(0, Command::StartOpening, 1, 0, 0, 0, OPENING),
    rested!(0, Command::Uncross, 2),
    rested!(0, buy!(0, 1, 990, 5), 3),
    (
        0,
        7,
        buy!(0, 1, 1000, 4),
        Ok((1, 0, 0, 0, Phase::PreTrading)),
    ),
    (
        0,
        7,
        sell!(1, 1, 1000, 3),
        Ok((2, 0, 0, 0, Phase::PreTrading)),
    ),
    (0, 7, Command::StartOpening, Ok((3, 0, 0, 0, OPENING))),
    (
        0,
        7,
        Command::Uncross,
        Ok((4, 1, 3, 3000, Phase::Continuous)),
    ),
    refused!(8, Command::Uncross, UnknownSecurity),
];

#[test]
fn one_seat_one_quote(rt: HostRuntime) {
    let case = Case {
        workers: 1,
        limit: 8,
        shown: (3, Phase::Continuous, Some(990), None, 1000, 1000, 0),
        left: &[
            (0, 0, 1000, 1000, 1, 0),
            FRESH,
            FRESH,
            FRESH,
            FRESH,
            FRESH,
            FRESH,
            (3, 3000, 1000, 1000, 1, 0),
        ],
    };
    run(&rt, &case, &EIGHT);
}

/// An entry of member 0 with what the later checks ask.
macro_rules! entry {
    ($kind:expr, $quantity:expr, $validity:expr, $restriction:ident, $condition:ident) => {
        Command::Enter {
            member: 0,
            reference: 9,
            side: Side::Sell,
            kind: $kind,
            quantity: $quantity,
            validity: $validity,
            restriction: Restriction::$restriction,
            condition: Condition::$condition,
        }
    };
}

/// Each refusal, in a call whose journal takes four commands of members, and those of book-or-cancel orders in trading after it.
const REFUSALS: [Given; 25] = [
    accepted!(0, Command::StartOpening, 1, 0, 0, 0, OPENING),
    accepted!(0, buy!(0, 1, 990, 10), 2, 0, 0, 0, OPENING),
    accepted!(
        0,
        enter!(Buy, 0, 2, Kind::Market, 10, Plain),
        3,
        0,
        0,
        0,
        OPENING
    ),
    accepted!(
        0,
        stop!(Sell, 0, 3, Kind::StopMarket(900), 10),
        4,
        0,
        0,
        0,
        OPENING
    ),
    refused!(9, buy!(5, 1, 0, 0), UnknownSecurity),
    refused!(0, buy!(5, 1, 0, 0), UnknownMember),
    refused!(0, buy!(0, 1, 0, 0), BadQuantity),
    refused!(0, buy!(0, 1, 1_000_001, 1), BadPrice),
    refused!(
        0,
        entry!(
            Kind::Limit(1000),
            5,
            Validity::TillDate(20260104),
            Free,
            Ioc
        ),
        BadValidity
    ),
    refused!(
        0,
        entry!(Kind::Limit(1000), 5, Validity::Day, OpeningOnly, Ioc),
        BadCombination
    ),
    refused!(
        0,
        entry!(Kind::Limit(1000), 5, Validity::Day, Free, Ioc),
        WrongPhase
    ),
    refused!(
        0,
        entry!(Kind::Market, 5, Validity::TillDate(20260104), Free, Boc),
        BadValidity
    ),
    refused!(
        0,
        entry!(Kind::Market, 5, Validity::Day, Free, Boc),
        BadCombination
    ),
    refused!(0, boc!(Sell, 0, 1, 990, 5), WrongPhase),
    refused!(0, Command::StartClosing, WrongPhase),
    refused!(0, buy!(0, 3, 1000, 1), DuplicateReference),
    refused!(0, change!(0, 7, 0, None), UnknownOrder),
    refused!(0, change!(0, 3, 1, None), NotChangeable),
    refused!(0, change!(0, 2, 1, Some(1000)), NotChangeable),
    refused!(
        0,
        stop!(Sell, 0, 9, Kind::StopMarket(1000), 5),
        TriggerReached
    ),
    refused!(0, buy!(0, 9, 990, 1), JournalFull),
    accepted!(0, Command::Uncross, 5, 0, 0, 0, Phase::Continuous),
    refused!(0, boc!(Sell, 0, 1, 990, 5), DuplicateReference),
    refused!(0, boc!(Sell, 0, 3, 990, 5), DuplicateReference),
    refused!(0, boc!(Sell, 0, 9, 990, 5), WouldExecute),
];

/// One that rests before the opening.
macro_rules! early {
    ($command:expr, $version:expr) => {
        accepted!(0, $command, $version, 0, 0, 0, Phase::PreTrading)
    };
}

/// A journal that takes eight commands of members is full before the opening, and phase commands are accepted.
const FULL: [Given; 14] = [
    early!(buy!(0, 1, 990, 1), 1),
    early!(buy!(0, 2, 990, 1), 2),
    early!(buy!(0, 3, 990, 1), 3),
    early!(buy!(0, 4, 990, 1), 4),
    early!(buy!(0, 5, 990, 1), 5),
    early!(buy!(0, 6, 990, 1), 6),
    early!(buy!(0, 7, 990, 1), 7),
    early!(buy!(0, 8, 990, 1), 8),
    refused!(0, buy!(0, 9, 990, 1), JournalFull),
    refused!(0, buy!(0, 9, 990, 0), BadQuantity),
    accepted!(0, Command::StartOpening, 9, 0, 0, 0, OPENING),
    rested!(0, Command::Uncross, 10),
    refused!(0, boc!(Sell, 0, 9, 990, 1), WouldExecute),
    refused!(0, boc!(Sell, 0, 9, 991, 1), JournalFull),
];

/// A day through each phase, in which book-or-cancel orders come in continuous trading alone: one is refused, and one is changed
/// and trades then.
const EACH_PHASE: [Given; 27] = [
    refused!(0, boc!(Buy, 0, 1, 990, 5), WrongPhase),
    accepted!(0, Command::StartOpening, 1, 0, 0, 0, OPENING),
    refused!(0, boc!(Buy, 0, 1, 990, 5), WrongPhase),
    rested!(0, Command::Uncross, 2),
    rested!(0, sell!(1, 1, 1010, 10), 3),
    refused!(0, boc!(Buy, 0, 1, 1010, 5), WouldExecute),
    rested!(0, boc!(Buy, 0, 1, 1000, 5), 4),
    accepted!(
        0,
        change!(0, 1, 5, Some(1010)),
        5,
        1,
        5,
        5050,
        Phase::Continuous
    ),
    accepted!(0, Command::StartIntraday, 6, 0, 0, 0, INTRADAY),
    refused!(0, boc!(Buy, 0, 2, 990, 5), WrongPhase),
    rested!(0, Command::Uncross, 7),
    rested!(0, sell!(1, 2, 1040, 5), 8),
    accepted!(0, buy!(0, 2, 1040, 10), 9, 1, 5, 5050, INTERRUPTED),
    refused!(0, boc!(Buy, 0, 3, 990, 5), WrongPhase),
    accepted!(0, Command::Uncross, 10, 1, 5, 5200, Phase::Continuous),
    rested!(0, boc!(Buy, 0, 3, 1040, 5), 11),
    rested!(0, boc!(Sell, 1, 3, 1041, 5), 12),
    refused!(0, boc!(Sell, 1, 4, 1040, 5), WouldExecute),
    rested!(0, cancel!(0, 3), 13),
    rested!(0, boc!(Sell, 1, 4, 1040, 5), 14),
    accepted!(0, Command::StartClosing, 15, 0, 0, 0, CLOSING),
    refused!(0, boc!(Buy, 0, 4, 990, 5), WrongPhase),
    accepted!(0, Command::Uncross, 16, 0, 0, 0, Phase::PostTrading),
    refused!(0, boc!(Buy, 0, 4, 990, 5), WrongPhase),
    accepted!(0, Command::EndDay, 17, 0, 0, 0, Phase::Ended),
    refused!(0, boc!(Buy, 0, 4, 990, 5), DayEnded),
    refused!(0, buy!(0, 1, 0, 0), DayEnded),
];

#[test]
fn refusals_through_locks(rt: HostRuntime) {
    let case = Case {
        workers: 1,
        limit: 4,
        shown: (5, Phase::Continuous, Some(990), None, 1000, 1000, 0),
        left: &[(0, 0, 1000, 1000, 2, 1)],
    };
    run(&rt, &case, &REFUSALS);
    let full = Case {
        limit: 8,
        shown: (10, Phase::Continuous, Some(990), None, 1000, 1000, 0),
        left: &[(0, 0, 1000, 1000, 8, 0)],
        ..case
    };
    run(&rt, &full, &FULL);
    let ended = Case {
        limit: 100,
        shown: (17, Phase::Ended, None, None, 1040, 1040, 15),
        left: &[(15, 15_300, 1040, 1040, 0, 0)],
        ..case
    };
    run(&rt, &ended, &EACH_PHASE);
}
