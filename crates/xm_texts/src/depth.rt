//! The levels behind rows, where these changed them.
ghost use Rattle.std.specs.Prelude.{◌≡◌, ◌++◌, true, IfOk, OnErr, OnOk, map, option_map};
ghost use Rattle.xm_texts.specs.MarketDepth.{change_lines, depth_header, level_line, limit_field, limit_line, limit_lines, market_depth, row_fields, same_depth, same_side_depth, side_depth, side_lines, worse_level};
ghost use Rattle.xm_texts.specs.RowAnswers.{where_asked};
ghost use Rattle.xm_rules.specs.Step.{replay};

use crate::fields::{
    push_comma, push_line_feed, push_number, push_price, push_text, security_name,
};
use crate::lines::begun;
use crate::words::side_word;
use std::alloc::{Allocator, Global};
use std::marker::Model;
use xm_config::Row;
use xm_desk::Desk;
use xm_files::SegmentNames;
use xm_memory::OutOfMemory;
use xm_rules::Side;
use xm_ticks::{Price, TickSize};

/// The names of the fields.
const HEADER: &str = "record,security,side,rank,limit,quantity\n";

/// What is shown of a side: the units of its active market orders, and its five best levels, the best one first.
#[derive(Clone, Copy)]
pub(crate) struct SideDepth {
    market: u64,
    levels: [Option<(Price, u64)>; 5],
}

/// What is shown of a security.
#[derive(Clone, Copy)]
pub struct MarketDepth {
    buy: SideDepth,
    sell: SideDepth,
}

impl SideDepth {
    /// What is shown of a side of a desk.
    fn of<A: Allocator + Copy>(desk: &Desk<A>, side: Side) -> SideDepth
        ensures { result ≡ side_depth (replay desk.now) side }
    {
        let first = desk.level_after(side, None);
        let second = worse_level(desk, side, &first);
        let third = worse_level(desk, side, &second);
        let fourth = worse_level(desk, side, &third);
        let fifth = worse_level(desk, side, &fourth);
        SideDepth {
            market: desk.market_sum(side),
            levels: [first, second, third, fourth, fifth],
        }
    }

    /// Whether nothing else is shown.
    fn is_same(&self, other: &SideDepth) -> bool
        ensures { result ≡ same_side_depth self.now other.now }
    {
        self.market == other.market && self.levels == other.levels
    }
}

impl MarketDepth {
    /// What is shown of a desk.
    pub fn of<A: Allocator + Copy>(desk: &Desk<A>) -> MarketDepth
        ensures { result ≡ market_depth (replay desk.now) }
    {
        MarketDepth {
            buy: SideDepth::of(desk, Side::Buy),
            sell: SideDepth::of(desk, Side::Sell),
        }
    }

    /// Whether nothing else is shown.
    fn is_same(&self, other: &MarketDepth) -> bool
        ensures { result ≡ same_depth self.now other.now }
    {
        self.buy.is_same(&other.buy) && self.sell.is_same(&other.sell)
    }
}

/// The best level that is worse than this one.
fn worse_level<A: Allocator + Copy>(
    desk: &Desk<A>,
    side: Side,
    level: &Option<(Price, u64)>,
) -> Option<(Price, u64)>
    ensures { result ≡ worse_level (replay desk.now) side level.now }
{
    match level {
        None => None,
        Some((limit, _)) => desk.level_after(side, Some(*limit)),
    }
}

/// The text so far, and what it showed last of each security.
#[derive(Drop)]
struct Shown {
    text: Vec<u8>,
    depths: Vec<MarketDepth>,
}

impl Model for Shown {
    ghost use Rattle.xm_texts.specs.Feeds.{Feed};

    ghost Value = { Feed };

    ghost view = { λ s. record { text = s.text.items; shown = s.depths.items } };
}

impl Shown {
    ghost use Rattle.std.specs.Prelude.{◌≡◌, map, slice_get, OnOk};
    ghost use Rattle.xm_texts.specs.Feeds.{next_feed};
    ghost use Rattle.xm_rules.specs.Step.{replay};

    /// Adds the levels of a security behind a row that the desks have taken, if it showed others last.
    #[inline(never)]
    fn tell<A: Allocator + Copy>(
        &mut self,
        names: &SegmentNames,
        desks: &[Desk<A>],
        row: &Row,
    ) -> Result<(), OutOfMemory>
        ensures { OnOk result (self.new ≡ next_feed names.now row.now (slice_get (map replay desks.now) row.now.security) self.old) }
    {
        let index = row.security as usize;
        if index >= desks.len() {
            return Ok(());
        }
        if index >= self.depths.len() {
            return Ok(());
        }
        let desk = &desks[index];
        let before = self.depths[index];
        let after = MarketDepth::of(desk);
        push_change(
            &mut self.text,
            names,
            row,
            desk.settings().tick,
            &before,
            &after,
        )?;
        self.depths[index] = after;
        Ok(())
    }
}

/// A feed of levels, where it is asked for.
#[derive(Drop)]
pub struct Depths {
    shown: Option<Shown>,
}

impl Model for Depths {
    ghost use Rattle.std.specs.Prelude.{Option};
    ghost use Rattle.xm_texts.specs.Feeds.{Feed};

    ghost Value = { Option Feed };

    ghost view = { λ d. d.shown };
}

impl Depths {
    ghost use Rattle.std.specs.Prelude.{◌≡◌, ◌≢◌, [], is_some, map, option_map, slice_get, unwrap_or, None, true, IfOk, OnErr, OnOk};
    ghost use Rattle.xm_texts.specs.Feeds.{next_feed};
    ghost use Rattle.xm_texts.specs.MarketDepth.{depth_header, market_depth};
    ghost use Rattle.xm_texts.specs.RowAnswers.{where_asked};
    ghost use Rattle.xm_rules.specs.Step.{replay};

    /// None is asked for.
    pub(crate) fn unasked() -> Depths
        ensures { result ≡ None }
    {
        Depths { shown: None }
    }

    /// Whether they are asked for.
    pub(crate) fn are_asked(&self) -> bool
        ensures { result ≡ is_some self.now }
    {
        self.shown.is_some()
    }

    /// The feed before any row of these desks: the header, if it is asked for.
    pub(crate) fn of<A: Allocator + Copy>(
        alloc: Global,
        desks: &[Desk<A>],
        asked: bool,
    ) -> Result<Depths, OutOfMemory>
        ensures begun { IfOk result (λ d. d ≡ where_asked asked (record { text = depth_header; shown = map market_depth (map replay desks.now) })) }
        ensures asked { OnErr result (asked ≡ true) }
    {
        if !asked {
            return Ok(Depths::unasked());
        }
        let mut text = Vec::new(alloc);
        push_text(&mut text, HEADER)?;
        let depths = depths_of(alloc, desks)?;
        Ok(Depths {
            shown: Some(Shown { text, depths }),
        })
    }

    /// The feed of this text, where there is one, behind rows that these desks have taken.
    pub fn behind<A: Allocator + Copy>(
        alloc: Global,
        desks: &[Desk<A>],
        text: Option<Vec<u8>>,
    ) -> Result<Depths, OutOfMemory>
        ensures { IfOk result (λ d. d ≡ option_map (λ told. record { text = told.items; shown = map market_depth (map replay desks.now) }) text) }
    {
        match text {
            None => Ok(Depths::unasked()),
            Some(text) => {
                let depths = depths_of(alloc, desks)?;
                Ok(Depths {
                    shown: Some(Shown { text, depths }),
                })
            }
        }
    }

    /// Adds the levels of the security behind a row that the desks have taken, if it showed others last.
    #[inline(always)]
    pub(crate) fn tell<A: Allocator + Copy>(
        &mut self,
        names: &SegmentNames,
        desks: &[Desk<A>],
        row: &Row,
    ) -> Result<(), OutOfMemory>
        ensures told { OnOk result (self.new ≡ option_map (next_feed names.now row.now (slice_get (map replay desks.now) row.now.security)) self.old) }
        ensures asked { OnErr result (self.old ≢ None) }
    {
        let Some(shown) = &mut self.shown else {
            return Ok(());
        };
        shown.tell(names, desks, row)?;
        Ok(())
    }

    /// The text, which is empty where none was asked for.
    pub fn into_text(self, alloc: Global) -> Vec<u8>
        ensures { result.items ≡ unwrap_or (option_map (λ feed. feed.text) self) [] }
    {
        match self.shown {
            None => Vec::new(alloc),
            Some(shown) => shown.text,
        }
    }
}

/// The levels behind no row: the header, if they are asked for.
pub fn begun_levels(alloc: Global, asked: bool) -> Result<Option<Vec<u8>>, OutOfMemory>
    ensures begun { IfOk result (λ text. option_map (λ told. told.items) text ≡ where_asked asked depth_header) }
    ensures asked { OnErr result (asked ≡ true) }
{
    begun(alloc, asked, HEADER)
}

/// What is shown of each desk.
fn depths_of<A: Allocator + Copy>(
    alloc: Global,
    desks: &[Desk<A>],
) -> Result<Vec<MarketDepth>, OutOfMemory>
    ensures { IfOk result (λ depths. depths.items ≡ map market_depth (map replay desks.now)) }
{
    let mut depths = Vec::new(alloc);
    for desk in desks {
        depths.push(MarketDepth::of(desk))?;
    }
    Ok(depths)
}

/// The levels behind a row, if they aren't those before it.
pub fn push_change<A: Allocator>(
    text: &mut Vec<u8, A>,
    names: &SegmentNames,
    row: &Row,
    tick: TickSize,
    before: &MarketDepth,
    after: &MarketDepth,
) -> Result<(), OutOfMemory>
    ensures { OnOk result (text.new.items ≡ text.old.items ++ change_lines names.now row.now tick before.now after.now) }
{
    if before.is_same(after) {
        return Ok(());
    }
    push_side(text, names, row, tick, Side::Buy, &after.buy)?;
    push_side(text, names, row, tick, Side::Sell, &after.sell)
}

/// The levels of a side, and its market orders before them.
fn push_side<A: Allocator>(
    text: &mut Vec<u8, A>,
    names: &SegmentNames,
    row: &Row,
    tick: TickSize,
    side: Side,
    depth: &SideDepth,
) -> Result<(), OutOfMemory>
    ensures { OnOk result (text.new.items ≡ text.old.items ++ side_lines (row_fields names.now row.now) tick side depth.now) }
{
    push_level(text, names, row, tick, side, 0, None, depth.market)?;
    push_limits(text, names, row, tick, side, depth.levels.as_slice())
}

/// The lines of levels with limits, by their ranks from 1 on.
fn push_limits<A: Allocator>(
    text: &mut Vec<u8, A>,
    names: &SegmentNames,
    row: &Row,
    tick: TickSize,
    side: Side,
    levels: &[Option<(Price, u64)>],
) -> Result<(), OutOfMemory>
    ensures { OnOk result (text.new.items ≡ text.old.items ++ limit_lines (row_fields names.now row.now) tick side 1 levels.now) }
{
    let mut rank = 1;
    for level in levels {
        push_limit(text, names, row, tick, side, rank, *level)?;
        rank += 1;
    }
    Ok(())
}

/// The line of a level with a limit, where there is one.
fn push_limit<A: Allocator>(
    text: &mut Vec<u8, A>,
    names: &SegmentNames,
    row: &Row,
    tick: TickSize,
    side: Side,
    rank: u64,
    level: Option<(Price, u64)>,
) -> Result<(), OutOfMemory>
    ensures { OnOk result (text.new.items ≡ text.old.items ++ limit_line (row_fields names.now row.now) tick side rank level) }
{
    match level {
        None => Ok(()),
        Some((limit, units)) => {
            push_level(text, names, row, tick, side, rank, Some(limit), units)
        }
    }
}

/// The line of a level.
fn push_level<A: Allocator>(
    text: &mut Vec<u8, A>,
    names: &SegmentNames,
    row: &Row,
    tick: TickSize,
    side: Side,
    rank: u64,
    limit: Option<Price>,
    units: u64,
) -> Result<(), OutOfMemory>
    ensures { OnOk result (text.new.items ≡ text.old.items ++ level_line (row_fields names.now row.now) tick side rank limit units) }
{
    push_row(text, names, row)?;
    push_text(text, side_word(side))?;
    push_comma(text)?;
    push_number(text, rank)?;
    push_comma(text)?;
    push_price_of(text, tick, limit)?;
    push_comma(text)?;
    push_number(text, units)?;
    push_line_feed(text)
}

/// With what each line of a row begins.
fn push_row<A: Allocator>(
    text: &mut Vec<u8, A>,
    names: &SegmentNames,
    row: &Row,
) -> Result<(), OutOfMemory>
    ensures { OnOk result (text.new.items ≡ text.old.items ++ row_fields names.now row.now) }
{
    push_number(text, u64::from(row.line))?;
    push_comma(text)?;
    push_text(text, security_name(names, row.security))?;
    push_comma(text)
}

/// The field of a limit, which is empty where there is none.
fn push_price_of<A: Allocator>(
    text: &mut Vec<u8, A>,
    tick: TickSize,
    limit: Option<Price>,
) -> Result<(), OutOfMemory>
    ensures { OnOk result (text.new.items ≡ text.old.items ++ limit_field tick limit) }
{
    match limit {
        None => Ok(()),
        Some(limit) => push_price(text, limit, tick),
    }
}
