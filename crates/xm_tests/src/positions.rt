//! The positions of members on worked trades.
use std::alloc::{Allocator, Global};
use std::process::Abort;
use std::test::Fail;
use xm_positions::Positions;
use xm_rules::{MAX_TRADED_MONEY, MAX_TRADED_QUANTITY, Totals, Trade, TradeKind};
use xm_ticks::Price;

/// How many members there are.
const MEMBERS: u32 = 3;

/// A trade by its price, its quantity, its buyer and its seller, and what there is after it: the net position and the cash
/// of each member, whether it has traded, and the totals.
struct Row {
    price: u32,
    quantity: u32,
    buyer: u32,
    seller: u32,
    members: [(i64, i64, bool); MEMBERS as usize],
    totals: (u64, u64),
}

const ROWS: [Row; 5] = [
    Row {
        price: 1000,
        quantity: 10,
        buyer: 0,
        seller: 1,
        members: [(10, -10_000, true), (-10, 10_000, true), (0, 0, false)],
        totals: (10, 10_000),
    },
    // The same back: no position is left of members that have traded.
    Row {
        price: 1000,
        quantity: 10,
        buyer: 1,
        seller: 0,
        members: [(0, 0, true), (0, 0, true), (0, 0, false)],
        totals: (20, 20_000),
    },
    Row {
        price: 990,
        quantity: 20,
        buyer: 1,
        seller: 2,
        members: [(0, 0, true), (20, -19_800, true), (-20, 19_800, true)],
        totals: (40, 39_800),
    },
    // A member with itself counts once in the totals.
    Row {
        price: 985,
        quantity: 25,
        buyer: 0,
        seller: 0,
        members: [(0, 0, true), (20, -19_800, true), (-20, 19_800, true)],
        totals: (65, 64_425),
    },
    // The highest price and the highest quantity of an order.
    Row {
        price: 1_000_000,
        quantity: 1_000_000,
        buyer: 2,
        seller: 1,
        members: [
            (0, 0, true),
            (-999_980, 999_999_980_200, true),
            (999_980, -999_999_980_200, true),
        ],
        totals: (1_000_065, 1_000_000_064_425),
    },
];

/// In which call trades are recorded.
#[derive(Clone, Copy)]
enum Call {
    Record,
    RecordAll,
}

fn trade(rt: &impl Abort, row: &Row) -> Trade {
    Trade {
        sweep: 1,
        kind: TradeKind::Continuous,
        price: Price::new(row.price).expect(rt, "a price in range"),
        quantity: row.quantity,
        buyer: row.buyer,
        buy_ref: 1,
        seller: row.seller,
        sell_ref: 1,
    }
}

/// Records a trade, whose members and limits are asked first.
fn record<A: Allocator>(rt: &impl Abort, positions: &mut Positions<A>, trade: &Trade, call: Call) {
    assert!(rt; positions.net(trade.buyer).is_some());
    assert!(rt; positions.net(trade.seller).is_some());
    let totals = positions.totals();
    let quantity = u64::from(trade.quantity);
    let money = u64::from(trade.price.get()) * quantity;
    assert!(rt; totals.quantity + quantity <= MAX_TRADED_QUANTITY);
    assert!(rt; totals.money + money <= MAX_TRADED_MONEY);
    match call {
        Call::Record => positions.record(trade),
        Call::RecordAll => positions.record_all(&[*trade]),
    }
}

fn compare<A: Allocator>(rt: &impl Abort, positions: &Positions<A>, row: &Row) {
    for (member, (net, cash, has_traded)) in (0..).zip(row.members.iter().copied()) {
        assert!(rt; positions.net(member) == Some(net) && positions.cash(member) == Some(cash));
        assert!(rt; positions.has_traded(member) == has_traded);
    }
    let (quantity, money) = row.totals;
    assert!(rt; positions.totals() == Totals { quantity, money });
}

/// Whether a member isn't there.
fn is_unknown<A: Allocator>(positions: &Positions<A>, member: u32) -> bool {
    positions.net(member).is_none()
        && positions.cash(member).is_none()
        && !positions.has_traded(member)
}

fn run(rt: &impl Abort, alloc: Global, call: Call) {
    let mut positions = Positions::new(alloc, MEMBERS).expect(rt, "memory");
    for row in &ROWS {
        record(rt, &mut positions, &trade(rt, row), call);
        compare(rt, &positions, row);
    }
    assert!(rt; is_unknown(&positions, MEMBERS));
    assert!(rt; is_unknown(&positions, u32::MAX));
}

#[test]
fn each_trade_counts_for_its_buyer_and_its_seller(rt: HostRuntime) {
    run(&rt, rt.alloc(), Call::Record);
}

#[test]
fn trades_are_recorded_together(rt: HostRuntime) {
    run(&rt, rt.alloc(), Call::RecordAll);
}

#[test]
fn positions_without_members(rt: HostRuntime) -> Result<(), Fail> {
    let positions = Positions::new(rt.alloc(), 0)?;
    assert!(rt; is_unknown(&positions, 0));
    assert!(rt;
        positions.totals()
            == Totals {
                quantity: 0,
                money: 0
            }
    );
    Ok(())
}
