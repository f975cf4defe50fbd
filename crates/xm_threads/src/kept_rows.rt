//! What is kept of rows until it is told.
ghost use Rattle.std.specs.Prelude.{◌≡◌, ◌≤◌, ◌++◌, ◌∷◌, [], OnOk, Some, length, map};
ghost use Rattle.xm_threads.specs.Lanes.{if_asked};
ghost use Rattle.xm_texts.specs.MarketDepth.{change_lines};
ghost use Rattle.xm_texts.specs.RowAnswers.{security_fields};
ghost use Rattle.xm_texts.specs.RowTrades.{row_trades, trade_fields};
ghost use Rattle.xm_rules.specs.Step.{replay};

use crate::kept_lines::{KeptLines, Span};
use crate::row_texts::RowTexts;
use std::alloc::Global;
use std::marker::Model;
use xm_config::Row;
use xm_desk::Desk;
use xm_files::{RecordTexts, SegmentNames};
use xm_memory::OutOfMemory;
use xm_rules::{Refusal, Reply, Trade};
use xm_texts::{AskedTexts, MarketDepth, push_change, push_known, push_trade, trades_by};

/// Rows one after another. A clause sees those that aren't told yet.
#[derive(Drop)]
pub(crate) struct KeptRows {
    lines: KeptLines,
    // The lines of each row: its answer, its levels, its events, and each of its trades.
    rows: Vec<Span>,
    // How many rows were told.
    told: usize,
    // The line that is being made.
    line: Vec<u8>,
}

impl Model for KeptRows {
    ghost use Rattle.std.specs.Prelude.{◌≤◌, All, List, drop, length, map};
    ghost use Rattle.xm_threads.specs.KeptRows.{IsPartOf, KeptRow, part_at, row_of_lines};
    ghost use Rattle.xm_threads.specs.declared.kept_lines.Span.{Span};

    ghost Value = { List KeptRow };

    ghost view = { λ k. map (λ (s : Span). row_of_lines (part_at k.lines s)) (drop k.told k.rows.items) };

    ghost invariant = { λ k. record {
      parts : All (IsPartOf 3 k.lines) k.rows.items;
      told : k.told ≤ length k.rows.items;
    } };
}

impl KeptRows {
    ghost use Rattle.std.specs.Prelude.{◌≡◌, ◌++◌, ◌∷◌, [], OnOk};
    ghost use Rattle.xm_threads.specs.KeptRows.{behind_first};
    ghost use Rattle.xm_threads.specs.Lanes.{kept_row, with_first};
    ghost use Rattle.xm_texts.specs.MarketDepth.{change_lines};
    ghost use Rattle.xm_files.specs.RecordTexts.{texts_in};
    ghost use Rattle.xm_rules.specs.Step.{replay};

    /// No row.
    pub(crate) fn new(alloc: Global) -> KeptRows
        ensures { result ≡ [] }
    {
        KeptRows {
            lines: KeptLines::new(alloc),
            rows: Vec::new(alloc),
            told: 0,
            line: Vec::new(alloc),
        }
    }

    /// Keeps what is asked for of a row that a desk has taken and answered so, between these levels and with these events. It stands by
    /// itself, since a day without texts doesn't call it.
    #[inline(never)]
    pub(crate) fn push(
        &mut self,
        asked: AskedTexts,
        names: &SegmentNames,
        desk: &Desk<Global>,
        row: &Row,
        answer: &Result<Reply, Refusal>,
        before: &MarketDepth,
        after: &MarketDepth,
        events: &[u8],
    ) -> Result<(), OutOfMemory>
        ensures { OnOk result (self.new ≡ self.old ++ kept_row asked names.now row.now answer.now (replay desk.now) (change_lines names.now row.now (replay desk.now).settings.tick before.now after.now) events.now ∷ []) }
    {
        let begin = self.lines.len();
        let lines = &mut self.lines;
        let line = &mut self.line;
        keep_answer(lines, line, asked.answers, names, desk, row, answer)?;
        keep_levels(lines, line, asked.depth, names, desk, row, before, after)?;
        keep_events(lines, asked.events, events)?;
        keep_trades(lines, line, asked.trades, names, desk, row, answer)?;
        let end = self.lines.len();
        self.rows.push(Span { begin, end })?;
        Ok(())
    }

    /// Tells the first row, and drops it. Nothing is told where there is none. The texts are those of its file.
    pub(crate) fn tell(
        &mut self,
        told: &mut RowTexts,
        texts: &mut RecordTexts<'_>,
        row: &Row,
    ) -> Result<(), OutOfMemory>
        ensures told { OnOk result (told.new ≡ with_first row.now (texts_in texts.old row.now.line) self.old told.old) }
        ensures left { OnOk result (self.new ≡ behind_first self.old) }
        ensures texts { texts_in texts.new ≡ texts_in texts.old }
    {
        if self.told == self.rows.len() {
            return Ok(());
        }
        let place = self.rows[self.told];
        told.add_answer(texts, row, self.lines.line(place.begin))?;
        told.add_levels(self.lines.line(place.begin + 1))?;
        told.add_events(self.lines.line(place.begin + 2))?;
        told.add_trades(texts, row, &self.lines, place.begin + 3, place.end)?;
        self.told += 1;
        if self.told == self.rows.len() {
            self.clear();
        }
        Ok(())
    }

    /// Drops all rows. Their room stays.
    fn clear(&mut self)
        ensures { self.new ≡ [] }
    {
        self.lines.clear();
        self.rows.clear();
        self.told = 0;
    }
}

/// Adds the fields of an answer, from the security on, or nothing as a line where it isn't asked for.
fn keep_answer(
    lines: &mut KeptLines,
    line: &mut Vec<u8>,
    asked: bool,
    names: &SegmentNames,
    desk: &Desk<Global>,
    row: &Row,
    answer: &Result<Reply, Refusal>,
) -> Result<(), OutOfMemory>
    ensures kept { OnOk result (lines.new ≡ lines.old ++ if_asked asked (security_fields names.now row.now answer.now (Some (replay desk.now))) ∷ []) }
    ensures more { length lines.old ≤ length lines.new }
{
    if !asked {
        return lines.push(&[]);
    }
    line.clear();
    push_known(line, names, desk, row, answer)?;
    lines.push(line.as_slice())
}

/// Adds the lines of levels, if they changed, as one, or nothing as a line where they aren't asked for.
fn keep_levels(
    lines: &mut KeptLines,
    line: &mut Vec<u8>,
    asked: bool,
    names: &SegmentNames,
    desk: &Desk<Global>,
    row: &Row,
    before: &MarketDepth,
    after: &MarketDepth,
) -> Result<(), OutOfMemory>
    ensures kept { OnOk result (lines.new ≡ lines.old ++ if_asked asked (change_lines names.now row.now (replay desk.now).settings.tick before.now after.now) ∷ []) }
    ensures more { length lines.old ≤ length lines.new }
{
    if !asked {
        return lines.push(&[]);
    }
    line.clear();
    push_change(line, names, row, desk.settings().tick, before, after)?;
    lines.push(line.as_slice())
}

/// Adds the lines of events as one, or nothing as a line where they aren't asked for.
fn keep_events(lines: &mut KeptLines, asked: bool, events: &[u8]) -> Result<(), OutOfMemory>
    ensures kept { OnOk result (lines.new ≡ lines.old ++ if_asked asked events.now ∷ []) }
    ensures more { length lines.old ≤ length lines.new }
{
    lines.push(if asked { events } else { &[] })
}

/// Adds the fields of each trade of a row that a desk answered so, where they are asked for.
fn keep_trades(
    lines: &mut KeptLines,
    line: &mut Vec<u8>,
    asked: bool,
    names: &SegmentNames,
    desk: &Desk<Global>,
    row: &Row,
    answer: &Result<Reply, Refusal>,
) -> Result<(), OutOfMemory>
    ensures kept { OnOk result (lines.new ≡ lines.old ++ if_asked asked (row_trades names.now row.now answer.now (Some (replay desk.now)))) }
    ensures more { length lines.old ≤ length lines.new }
{
    if !asked {
        return Ok(());
    }
    let trades = trades_by(desk.trades(), answer);
    push_trades(lines, line, names, desk, row, trades)
}

/// Adds the fields of each of these trades of a row that a desk has taken.
fn push_trades(
    lines: &mut KeptLines,
    line: &mut Vec<u8>,
    names: &SegmentNames,
    desk: &Desk<Global>,
    row: &Row,
    trades: &[Trade],
) -> Result<(), OutOfMemory>
    ensures kept { OnOk result (lines.new ≡ lines.old ++ map (trade_fields names.now row.now (replay desk.now).settings.tick) trades.now) }
    ensures more { length lines.old ≤ length lines.new }
{
    for trade in trades {
        line.clear();
        push_trade(line, names, row, desk.settings().tick, trade)?;
        lines.push(line.as_slice())?;
    }
    Ok(())
}
