//! A board on which one thread publishes commands whose quotes are known by their versions, while others read it.
ghost use Rattle.std.specs.Prelude.{◌≡◌, ◌+◌, ◌<◌};
ghost use Rattle.xm_tests.specs.Script.{Stands, best_buy_in, best_sell_in, scripted_command, scripted_entry, call_limit, phase_in, quote_before, script_settings, traded_at};
ghost use Rattle.xm_board.specs.Journals.{opening_of};
ghost use Rattle.xm_tests.specs.declared.board.script.TheConstants.{CYCLES};

use super::quote_in;
use std::alloc::{Allocator, Global};
use std::marker::Brand;
use std::sync::Wait;
use std::sync::atomic::{AtomicU64, Ordering};
use std::thread::{self, Threads};
use xm_board::{Board, BoardNaming, OpenedBoard, Pen, Watch};
use xm_memory::OutOfMemory;
use xm_rules::{
    Auction, CallStage, Carried, Command, Condition, DeskSettings, Kind, Phase, Quote, Restriction,
    Side, Validity, Widths,
};
use xm_ticks::{JournalLimit, Price, TickSize};

/// How many cycles of eight commands are published, after the two that open the day.
const CYCLES: u32 = 2_500;

/// The version of the last quote: two commands open the day, and each cycle has eight.
const LAST: u64 = 20_002;

/// How many watches read.
const READERS: u32 = 4;

/// How often a watch reads at most, and the pen looks whether the others are there.
const LOOKS: u32 = 5_000_000;

/// The settings of the security.
fn script_settings() -> DeskSettings
    ensures { result ≡ script_settings }
{
    DeskSettings {
        today: 20260105,
        members: 2,
        tick: TickSize::new(100).unwrap(),
        reference: Price::new(1000).unwrap(),
        widths: Widths {
            dynamic: 20,
            statics: 50,
            wide: 40,
        },
        limit: JournalLimit::new(30_000).unwrap(),
        carried: Carried::none(),
    }
}

/// The limit of the orders of a turn's call.
fn call_limit(turn: u32) -> Price
    ensures { result ≡ call_limit turn }
{
    let limit = if turn / 4 == 0 { 1001 } else { 1000 };
    Price::new(limit).unwrap()
}

/// The price of the trade before a turn.
fn traded_at(turn: u32) -> Price
    ensures { result ≡ traded_at turn }
{
    let price = if turn / 4 == 1 { 1001 } else { 1000 };
    Price::new(price).unwrap()
}

/// The entry of five units of one of the two members, for the day.
fn scripted_entry(member: u32, side: Side, limit: Price) -> Command
    ensures { result ≡ scripted_entry member side limit }
{
    Command::Enter {
        member,
        reference: 1,
        side,
        kind: Kind::Limit(limit.get()),
        quantity: 5,
        validity: Validity::Day,
        restriction: Restriction::Free,
        condition: Condition::Plain,
    }
}

/// The command of a turn: a call begins, a buy and a sell come in, and it ends.
fn scripted_command(turn: u32) -> Command
    ensures { result ≡ scripted_command turn }
{
    match turn % 4 {
        0 => Command::StartIntraday,
        1 => scripted_entry(0, Side::Buy, call_limit(turn)),
        2 => scripted_entry(1, Side::Sell, call_limit(turn)),
        _ => Command::Uncross,
    }
}

/// The phase before a turn.
fn phase_in(turn: u32) -> Phase
    ensures { result ≡ phase_in turn }
{
    if turn % 4 == 0 {
        Phase::Continuous
    } else {
        Phase::Call(Auction::Intraday, CallStage::Ordinary)
    }
}

/// The best buy limit before a turn.
fn best_buy_in(turn: u32) -> Option<Price>
    ensures { result ≡ best_buy_in turn }
{
    match turn % 4 {
        2 | 3 => Some(call_limit(turn)),
        _ => None,
    }
}

/// The best sell limit before a turn.
fn best_sell_in(turn: u32) -> Option<Price>
    ensures { result ≡ best_sell_in turn }
{
    match turn % 4 {
        3 => Some(call_limit(turn)),
        _ => None,
    }
}

/// The quote before a turn of a cycle. The ninth turn is the first of the next cycle.
fn quote_before(cycle: u32, turn: u32) -> Quote
    ensures { result ≡ quote_before cycle turn }
{
    Quote {
        version: 8 * u64::from(cycle) + u64::from(turn) + 2,
        phase: phase_in(turn),
        best_buy: best_buy_in(turn),
        best_sell: best_sell_in(turn),
        ref1: traded_at(turn),
        ref2: traded_at(turn),
        quantity: 10 * u64::from(cycle) + 5 * u64::from(turn / 4),
    }
}

/// Opens the day, with a call in which nothing trades.
fn open_day<N: BoardNaming, A: Allocator>(board: &Board<N, A>, pen: &mut Pen<N>)
    requires { pen.old ≡ opening_of script_settings }
    ensures { Stands 0 0 pen.new }
{
    let call = Phase::Call(Auction::Opening, CallStage::Ordinary);
    let first = quote_in(&script_settings(), 1, call);
    board.publish(pen, 0, &Command::StartOpening, &first);
    board.publish(pen, 0, &Command::Uncross, &quote_before(0, 0));
}

/// Publishes the command of a turn, of 0 to 7.
fn publish_turn<N: BoardNaming, A: Allocator>(
    board: &Board<N, A>,
    pen: &mut Pen<N>,
    cycle: u32,
    turn: u32,
)
    requires turn { turn < 8 }
    requires cycle { cycle < CYCLES }
    requires stands { Stands cycle turn pen.old }
    ensures { Stands cycle (turn + 1) pen.new }
{
    board.publish(
        pen,
        0,
        &scripted_command(turn),
        &quote_before(cycle, turn + 1),
    );
}

/// Publishes the commands of a cycle.
fn publish_cycle<N: BoardNaming, A: Allocator>(board: &Board<N, A>, pen: &mut Pen<N>, cycle: u32)
    requires cycle { cycle < CYCLES }
    requires stands { Stands cycle 0 pen.old }
    ensures { Stands (cycle + 1) 0 pen.new }
{
    for turn in 0..8 {
        publish_turn(board, pen, cycle, turn);
    }
}

/// Publishes all commands, from the opening of the day on.
fn publish_all<N: BoardNaming, A: Allocator>(board: &Board<N, A>, mut pen: Pen<N>)
    requires { pen ≡ opening_of script_settings }
{
    open_day(board, &mut pen);
    for cycle in 0..CYCLES {
        publish_cycle(board, &mut pen, cycle);
    }
}

/// Whether this quote is published at its version.
fn is_published(quote: &Quote) -> bool {
    if quote.version == 0 {
        return *quote == quote_in(&script_settings(), 0, Phase::PreTrading);
    }
    if quote.version == 1 {
        let call = Phase::Call(Auction::Opening, CallStage::Ordinary);
        return *quote == quote_in(&script_settings(), 1, call);
    }
    let (cycle, turn) = ((quote.version - 2) / 8, (quote.version - 2) % 8);
    match u32::try_from(cycle) {
        Ok(cycle) => *quote == quote_before(cycle, turn as u32),
        Err(_) => false,
    }
}

/// Whether the versions of what a watch reads never fall, and each quote is the one that is published at its version.
fn follows<N: BoardNaming, A: Allocator>(board: &Board<N, A>, mut watch: Watch<N>) -> bool {
    let mut version = 0;
    for _ in 0..LOOKS {
        let quote = watch.read(board);
        if quote.version < version || !is_published(&quote) {
            return false;
        }
        version = quote.version;
        if version == LAST {
            break;
        }
    }
    true
}

/// Waits a while for all readers.
fn wait_for(ready: &AtomicU64) {
    for _ in 0..LOOKS {
        if ready.load(Ordering::SeqCst) >= u64::from(READERS) {
            break;
        }
    }
}

/// Publishes on a thread of its own, and reads on others, each watch on one: what it answers is whether it read what was
/// published, as it was published.
fn publish_beside<N: BoardNaming + Send + Sync, R: Threads + Sync>(
    rt: &R,
    board: &Board<N, Global>,
    pen: Pen<N>,
    row: Vec<Watch<N>>,
) -> Result<Vec<bool>, OutOfMemory>
    requires { pen ≡ opening_of script_settings }
{
    let count = AtomicU64::new(0);
    let ready = &count;
    let (_, read) = thread::join(
        rt,
        move || -> ()
            requires { pen ≡ opening_of script_settings }
        {
            wait_for(ready);
            publish_all(board, pen)
        },
        || thread::map_vec(
            rt,
            row,
            &|watch| {
                ready.fetch_add(1, Ordering::SeqCst);
                follows(board, watch)
            },
        ),
    );
    Ok(read?)
}

/// The same on a board that a type names.
fn read_beside<N: BoardNaming + Send + Sync, R: AllocGlobal + Threads + Wait + Sync>(
    rt: &R,
    opened: OpenedBoard<Global>,
) -> Result<Vec<bool>, OutOfMemory>
    requires named { opened.table ≡ N.table }
    requires settings { opened.settings ≡ script_settings }
{
    let (board, pen, row) = Board::<N, Global>::open(rt.alloc(), opened, READERS)?;
    publish_beside(rt, &board, pen, row)
}

/// Publishes beside four watches on a board of its own. Of each watch it answers whether it read what was published.
pub(super) fn read_published<R: AllocGlobal + Threads + Wait + Sync>(
    rt: &R,
) -> Result<Vec<bool>, OutOfMemory> {
    let settings = script_settings();
    let first = quote_in(&settings, 0, Phase::PreTrading);
    let opened = OpenedBoard::new(rt.alloc(), &settings, &first)?;
    read_beside::<Brand, R>(rt, opened)
}
