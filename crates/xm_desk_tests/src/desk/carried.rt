//! Desks that open with what earlier days left.
use super::day::Day;
use super::settings;
use std::alloc::Global;
use std::process::Abort;
use xm_config::OpenFault;
use xm_rules::{
    Carried, Command, Condition, DeskSettings, Kind, Order, OrderKind, Phase, Restriction, Side,
    Stop, Validity,
};
use xm_ticks::Price;

/// An order of an earlier day: side, member, reference, limit, rest and validity.
type Left = (Side, u32, u32, u32, u32, Validity);

/// A sell stop of an earlier day, which becomes a market order of five units: member, reference, trigger and validity.
type Held = (u32, u32, u32, Validity);

/// The end of yesterday, of today and of tomorrow.
const YESTERDAY: Validity = Validity::TillDate(20260104);

const TODAY: Validity = Validity::TillDate(20260105);

const TOMORROW: Validity = Validity::TillDate(20260106);

fn order(rt: &impl Abort, (side, member, reference, limit, rest, validity): Left) -> Order {
    Order {
        member,
        reference,
        side,
        kind: OrderKind::Limit(Price::new(limit).expect(rt, "a limit")),
        rest,
        validity,
        restriction: Restriction::Free,
    }
}

fn stop((member, reference, trigger, validity): Held) -> Stop {
    Stop {
        member,
        reference,
        side: Side::Sell,
        trigger,
        becomes: OrderKind::Market,
        quantity: 5,
        validity,
    }
}

/// The settings of a desk that carry these orders and stops.
pub(crate) fn carrying(
    rt: &(impl Abort + AllocGlobal),
    left: &[Left],
    held: &[Held],
) -> DeskSettings {
    let mut orders = Vec::new(rt.alloc());
    for entry in left {
        orders.push(order(rt, *entry)).ok().expect(rt, "memory");
    }
    let mut stops = Vec::new(rt.alloc());
    for entry in held {
        stops.push(stop(*entry)).ok().expect(rt, "memory");
    }
    DeskSettings {
        carried: Carried::of(rt.alloc(), orders, stops).expect(rt, "memory"),
        ..settings(rt, 100)
    }
}

/// Orders of which one ended yesterday.
pub(crate) const LEFT: [Left; 4] = [
    (Side::Buy, 0, 1, 990, 5, Validity::TillCancelled),
    (Side::Buy, 0, 2, 980, 5, YESTERDAY),
    (Side::Sell, 1, 1, 1010, 3, TODAY),
    (Side::Sell, 1, 2, 1020, 4, TOMORROW),
];

/// Stops of which the reference has reached the first and the last, and one ended yesterday.
pub(crate) const HELD: [Held; 4] = [
    (0, 3, 1000, Validity::TillCancelled),
    (1, 4, 900, Validity::TillCancelled),
    (1, 5, 1000, YESTERDAY),
    (1, 6, 1001, TODAY),
];

/// Compares the members and references of the orders and of the stops.
fn has_left(rt: &impl Abort, day: &Day<Global>, orders: &[(u32, u32)], stops: &[(u32, u32)]) {
    let left = day.orders().expect(rt, "memory");
    assert!(rt; left.len() == orders.len());
    for (order, name) in left.iter().zip(orders) {
        assert!(rt; (order.member, order.reference) == *name);
    }
    let held = day.stops().expect(rt, "memory");
    assert!(rt; held.len() == stops.len());
    for (stop, name) in held.iter().zip(stops) {
        assert!(rt; (stop.member, stop.reference) == *name);
    }
}

const WHOLE_DAY: [Command; 5] = [
    Command::StartOpening,
    Command::Uncross,
    Command::StartClosing,
    Command::Uncross,
    Command::EndDay,
];

#[test]
fn day_opens_with_what_is_still_valid(rt: HostRuntime) {
    let settings = carrying(&rt, &LEFT, &HELD);
    let opened = Day::opened(rt.alloc(), settings);
    let mut day = opened.ok().expect(&rt, "a desk");
    assert!(&rt; day.phase() == Phase::PreTrading);
    assert!(&rt; day.trades().is_empty());
    has_left(
        &rt,
        &day,
        &[(0, 1), (1, 1), (1, 2), (0, 3), (1, 6)],
        &[(1, 4)],
    );
    day.accept(&rt, &WHOLE_DAY);
    day.has_made(&rt, &[(1, 990, 5, (0, 1), (0, 3))]);
    has_left(&rt, &day, &[(1, 2)], &[(1, 4)]);
}

/// What earlier days can't have left, with the dynamic width of the desk and its fault.
type Refused<'a> = (&'a [Left], &'a [Held], u32, OpenFault);

const GTC: Validity = Validity::TillCancelled;

const REFUSED: [Refused<'static>; 12] = [
    (
        &[
            (Side::Buy, 0, 1, 990, 5, GTC),
            (Side::Buy, 0, 1, 980, 5, GTC),
        ],
        &[],
        20,
        OpenFault::BadCarried,
    ),
    (
        &[
            (Side::Buy, 0, 1, 990, 5, GTC),
            (Side::Buy, 0, 1, 980, 5, YESTERDAY),
        ],
        &[],
        20,
        OpenFault::BadCarried,
    ),
    (
        &[(Side::Buy, 0, 1, 990, 5, GTC)],
        &[(0, 1, 900, GTC)],
        20,
        OpenFault::BadCarried,
    ),
    (
        &[],
        &[(0, 1, 900, GTC), (0, 1, 800, GTC)],
        20,
        OpenFault::BadCarried,
    ),
    (
        &[(Side::Buy, 5, 1, 990, 5, GTC)],
        &[],
        20,
        OpenFault::BadCarried,
    ),
    (&[], &[(2, 1, 900, GTC)], 20, OpenFault::BadCarried),
    (
        &[(Side::Buy, 0, 1, 990, 5, Validity::Day)],
        &[],
        20,
        OpenFault::BadCarried,
    ),
    (
        &[],
        &[(0, 1, 900, Validity::Day)],
        20,
        OpenFault::BadCarried,
    ),
    (
        &[(Side::Buy, 0, 1, 990, 0, GTC)],
        &[],
        20,
        OpenFault::BadCarried,
    ),
    (
        &[(Side::Buy, 0, 1, 990, 1_000_001, GTC)],
        &[],
        20,
        OpenFault::BadCarried,
    ),
    (&[], &[(0, 1, 1_000_001, GTC)], 20, OpenFault::BadCarried),
    (
        &[(Side::Buy, 0, 1, 990, 5, Validity::Day)],
        &[],
        0,
        OpenFault::BadWidths,
    ),
];

#[test]
fn what_no_day_can_have_left(rt: HostRuntime) {
    for (left, held, dynamic, fault) in &REFUSED {
        let mut settings = carrying(&rt, left, held);
        settings.widths.dynamic = *dynamic;
        let answer = Day::opened(rt.alloc(), settings).err();
        assert!(&rt; answer == Some(*fault), "of {left:?} and {held:?}");
    }
}
