//! The places of orders in time: an order that joins stands behind those that are there, and one that is changed in place
//! keeps its own.
use super::entries::Entries;
use super::{CLOSING, compare_walk, enter, found, limit, order};
use std::alloc::Allocator;
use std::process::Abort;
use xm_rules::{Order, OrderKind, Phase, Restriction, Side, Validity};

const TODAY: u32 = 20260105;

/// What a book is asked, of orders of the first member by their references.
#[derive(Clone, Copy)]
enum Step {
    Enter(u32),
    EnterTill(u32, Validity),
    /// An order of a known name, in its place.
    Replace(u32),
    /// So many units are left of it.
    Reduce(u32, u32),
    Cancel(u32),
    ReserveTwice(u32),
    EndDay,
}

/// What is done with a book of two buys at one price, the first of reference 1 and the second of reference 2: each step,
/// whether the book does it, and the references of all orders after it, which stand in time order and in that of priority.
const CASES: [&[(Step, bool, &[u32])]; 7] = [
    &[(Step::Enter(2), false, &[1, 2])],
    &[(Step::Reduce(1, 4), true, &[1, 2])],
    &[
        (Step::Cancel(1), true, &[2]),
        (Step::Enter(1), true, &[2, 1]),
    ],
    &[
        (Step::Cancel(1), true, &[2]),
        (Step::Cancel(1), false, &[2]),
        (Step::Reduce(1, 1), false, &[2]),
        (Step::Enter(3), true, &[2, 3]),
        (Step::Enter(1), true, &[2, 3, 1]),
    ],
    &[
        (Step::Replace(1), true, &[2, 1]),
        (Step::Replace(3), false, &[2, 1]),
    ],
    &[
        (Step::ReserveTwice(1), true, &[1, 2]),
        (Step::ReserveTwice(3), true, &[1, 2]),
        (Step::Enter(3), true, &[1, 2, 3]),
    ],
    &[
        (
            Step::EnterTill(3, Validity::TillCancelled),
            true,
            &[1, 2, 3],
        ),
        (
            Step::EnterTill(4, Validity::TillDate(TODAY)),
            true,
            &[1, 2, 3, 4],
        ),
        (
            Step::EnterTill(5, Validity::TillDate(TODAY + 1)),
            true,
            &[1, 2, 3, 4, 5],
        ),
        (Step::EndDay, true, &[3, 5]),
    ],
];

fn buy(rt: &impl Abort, reference: u32) -> Order {
    order(Side::Buy, reference, limit(rt, 100))
}

/// Does a step, and answers whether the book did it.
fn does<A: Allocator + Copy>(rt: &impl Abort, book: &mut Entries<A>, step: Step) -> bool {
    match step {
        Step::Enter(reference) => book.enter(buy(rt, reference)) == Ok(true),
        Step::EnterTill(reference, validity) => {
            let till = Order {
                validity,
                ..buy(rt, reference)
            };
            book.enter(till) == Ok(true)
        }
        Step::Replace(reference) => book.replace(buy(rt, reference)) == Ok(true),
        Step::Reduce(reference, rest) => {
            let reduced = Order {
                rest,
                ..buy(rt, reference)
            };
            book.reduce(0, reference, rest) && book.find(0, reference) == Some(reduced)
        }
        Step::Cancel(reference) => book.remove(0, reference).is_some(),
        Step::ReserveTwice(reference) => book.reserve_twice(buy(rt, reference)).is_ok(),
        Step::EndDay => {
            book.remove_expired(TODAY);
            true
        }
    }
}

/// A book of two buys at one price, the first of reference 1 and the second of reference 2.
fn two_buys<A: Allocator + Copy>(rt: &impl Abort, alloc: A) -> Entries<A> {
    let mut book = Entries::new(alloc);
    enter(rt, &mut book, buy(rt, 1));
    enter(rt, &mut book, buy(rt, 2));
    book
}

/// Whether orders have these references.
fn are_named(orders: &[Order], references: &[u32]) -> bool {
    orders.len() == references.len()
        && orders
            .iter()
            .zip(references)
            .all(|(order, reference)| order.reference == *reference)
}

/// Does the steps of a case, and compares the references of all orders after each.
fn run<A: Allocator + Copy>(rt: &impl Abort, alloc: A, steps: &[(Step, bool, &[u32])]) {
    let mut book = two_buys(rt, alloc);
    for (step, is_done, references) in steps {
        assert!(rt; does(rt, &mut book, *step) == *is_done);
        let stored = book.of_member(0).expect(rt, "memory");
        assert!(rt; are_named(stored.as_slice(), references));
        compare_walk(rt, &book, Side::Buy, Phase::Continuous, references);
    }
}

#[test]
fn orders_stand_in_time_order(rt: HostRuntime) {
    for steps in &CASES {
        run(&rt, rt.alloc(), steps);
    }
}

#[test]
fn place_on_the_other_side(rt: HostRuntime) {
    let mut book = two_buys(&rt, rt.alloc());
    let sell = Order {
        side: Side::Sell,
        kind: OrderKind::Market,
        rest: 1,
        ..buy(&rt, 1)
    };
    assert!(rt; matches!(book.replace(sell), Ok(true)));
    found(&rt, book.find(0, 1), sell);
    found(&rt, book.best(Side::Sell, Phase::Continuous), sell);
    compare_walk(&rt, &book, Side::Buy, Phase::Continuous, &[2]);
}

fn restricted(rt: &impl Abort) -> Order {
    Order {
        restriction: Restriction::ClosingOnly,
        ..buy(rt, 1)
    }
}

#[test]
fn inactive_order(rt: HostRuntime) {
    let mut book = Entries::new(rt.alloc());
    enter(&rt, &mut book, restricted(&rt));
    assert!(rt; book.best(Side::Buy, Phase::Continuous).is_none());
    found(&rt, book.best(Side::Buy, CLOSING), restricted(&rt));
    let stored = book.orders().expect(&rt, "memory");
    assert!(rt; stored.len() == 1);
    found(&rt, stored.first().copied(), restricted(&rt));
}
