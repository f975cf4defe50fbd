//! A board whose quotes are read: what is published is seen.
ghost use Rattle.std.specs.Prelude.{◌≡◌, None};
ghost use Rattle.xm_board.specs.Journals.{IsLawful, entry_of, grown, opening_of, quote_of};
ghost use Rattle.xm_rules.specs.Entries.{none_left};
ghost use Rattle.xm_rules.specs.declared.commands.Command.TheVariants.{StartOpening};

mod script;

use std::alloc::Allocator;
use std::marker::Brand;
use std::process::Abort;
use xm_board::{Board, BoardNaming, OpenedBoard};
use xm_memory::OutOfMemory;
use xm_rules::{Auction, CallStage, Carried, Command, DeskSettings, Phase, Quote, Widths};
use xm_ticks::{JournalLimit, Price, TickSize};

/// What two watches read: both before the opening call was published, one after, and the other when it was told.
#[derive(Clone, Copy, PartialEq, Eq)]
pub struct Seen {
    before: [Quote; 2],
    after: Quote,
    told: Quote,
}

/// The quote of a security without orders, after so many commands.
fn quote_in(settings: &DeskSettings, version: u64, phase: Phase) -> Quote
    ensures { result ≡ record {
      version = version;
      phase = phase;
      best_buy = None;
      best_sell = None;
      ref1 = settings.now.reference;
      ref2 = settings.now.reference;
      quantity = 0;
    } }
{
    Quote {
        version,
        phase,
        best_buy: None,
        best_sell: None,
        ref1: settings.reference,
        ref2: settings.reference,
        quantity: 0,
    }
}

/// Publishes the opening call on a board, and reads before and after.
fn read_on<N: BoardNaming, A: Allocator + Copy>(
    alloc: A,
    opened: OpenedBoard<A>,
    first: &Quote,
) -> Result<Option<Seen>, OutOfMemory>
    requires named { opened.table ≡ N.table }
    requires lawful { IsLawful (grown (opening_of opened.settings) (entry_of 0 StartOpening)) }
    requires quote { first.now ≡ quote_of (grown (opening_of opened.settings) (entry_of 0 StartOpening)) }
{
    let (board, mut pen, mut row) = Board::<N, A>::open(alloc, opened, 2)?;
    let (Some(mut second), Some(mut one)) = (row.pop(), row.pop()) else {
        return Ok(None);
    };
    let before = [one.read(&board), second.read(&board)];
    board.publish(&mut pen, 0, &Command::StartOpening, first);
    let after = one.read(&board);
    board.tell(&mut pen, &mut second, false);
    let told = second.read(&board);
    Ok(Some(Seen {
        before,
        after,
        told,
    }))
}

/// Opens a board for two watches, for settings that carry nothing, and reads on it.
pub fn read<A: Allocator + Copy>(
    alloc: A,
    settings: &DeskSettings,
) -> Result<Option<Seen>, OutOfMemory>
    requires { settings.now.carried ≡ none_left }
{
    let quote = quote_in(settings, 0, Phase::PreTrading);
    let opened = OpenedBoard::new(alloc, settings, &quote)?;
    let first = quote_in(
        settings,
        1,
        Phase::Call(Auction::Opening, CallStage::Ordinary),
    );
    read_on::<Brand, A>(alloc, opened, &first)
}

/// The settings of a security.
pub fn settings(rt: &impl Abort) -> DeskSettings
    ensures { result.carried ≡ none_left }
{
    DeskSettings {
        today: 20260105,
        members: 2,
        tick: TickSize::new(100).expect(rt, "a tick size"),
        reference: Price::new(1000).expect(rt, "a price"),
        widths: Widths {
            dynamic: 20,
            statics: 50,
            wide: 40,
        },
        limit: JournalLimit::new(100).expect(rt, "a limit"),
        carried: Carried::none(),
    }
}

#[test]
fn what_is_published_is_seen(rt: HostRuntime) {
    let settings = settings(&rt);
    let read = read(rt.alloc(), &settings).expect(&rt, "memory");
    let read = read.expect(&rt, "two watches");
    let [one, second] = read.before;
    assert!(rt; one.version == 0 && one.phase == Phase::PreTrading && second == one);
    let call = Phase::Call(Auction::Opening, CallStage::Ordinary);
    assert!(rt; read.after.version == 1 && read.after.phase == call);
    assert!(rt; read.told == read.after);
}

#[test]
fn quotes_beside_a_pen_that_publishes(rt: HostRuntime) {
    let read = script::read_published(&rt).expect(&rt, "memory");
    assert!(rt; read.len() == 4);
    for each in read {
        assert!(rt; each);
    }
}
