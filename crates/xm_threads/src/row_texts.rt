//! The texts that are told of the rows of a segment.
ghost use Rattle.std.specs.Prelude.{◌≡◌, ◌≤◌, ◌++◌, OnOk, length, slice_range};
ghost use Rattle.std.specs.List.{flat_map};
ghost use Rattle.xm_texts.specs.RowAnswers.{record_line};

use crate::kept_lines::KeptLines;
use std::alloc::Global;
use std::marker::Model;
use xm_config::Row;
use xm_desk::Desk;
use xm_files::{RecordTexts, SegmentNames};
use xm_memory::OutOfMemory;
use xm_rules::Refusal;
use xm_texts::fields::{push_comma, push_line_feed, push_number};
use xm_texts::{
    AskedTexts, Depths, Lines, Told, begun_answers, begun_events, begun_levels, begun_trades,
    push_field, push_refused, push_unknown,
};

/// The texts so far, as far as they are asked for.
#[derive(Drop)]
pub(crate) struct RowTexts {
    answers: Option<Vec<u8>>,
    trades: Option<Vec<u8>>,
    levels: Option<Vec<u8>>,
    events: Option<Vec<u8>>,
}

impl Model for RowTexts {
    ghost use Rattle.std.specs.Prelude.{option_map};
    ghost use Rattle.xm_threads.specs.Lanes.{TextsView};

    ghost Value = { TextsView };

    ghost view = { λ t. record { answers = option_map (λ text. text.items) t.answers; trades = option_map (λ text. text.items) t.trades; levels = option_map (λ text. text.items) t.levels; events = option_map (λ text. text.items) t.events } };
}

impl RowTexts {
    ghost use Rattle.std.specs.Prelude.{◌≡◌, ◌≤◌, List, ℕ, Err, IfOk, None, OnOk, false, length, map, option_map, slice_range};
    ghost use Rattle.std.specs.List.{flat_map};
    ghost use Rattle.xm_threads.specs.Lanes.{tells_any, texts_where, unknown_row, with_kept};
    ghost use Rattle.xm_texts.specs.MarketDepth.{depth_header, market_depth};
    ghost use Rattle.xm_texts.specs.RowAnswers.{answers_header, record_line, with_text};
    ghost use Rattle.xm_texts.specs.RowEvents.{events_header, row_events};
    ghost use Rattle.xm_texts.specs.RowTrades.{trades_header};
    ghost use Rattle.xm_rules.specs.declared.replies.Refusal.TheVariants.{UnknownSecurity};
    ghost use Rattle.xm_files.specs.RecordTexts.{texts_in};
    ghost use Rattle.xm_rules.specs.Step.{replay};

    /// None is asked for.
    pub(crate) fn unasked() -> RowTexts
        ensures { tells_any result ≡ false }
    {
        RowTexts {
            answers: None,
            trades: None,
            levels: None,
            events: None,
        }
    }

    /// Those of no row: the headers.
    pub(crate) fn begun(alloc: Global, asked: AskedTexts) -> Result<RowTexts, OutOfMemory>
        ensures { IfOk result (λ told. told ≡ texts_where asked answers_header trades_header depth_header events_header) }
    {
        Ok(RowTexts {
            answers: begun_answers(alloc, asked.answers)?,
            trades: begun_trades(alloc, asked.trades)?,
            levels: begun_levels(alloc, asked.depth)?,
            events: begun_events(alloc, asked.events)?,
        })
    }

    /// Whether any is asked for.
    pub(crate) fn tells_any(&self) -> bool
        ensures { result ≡ tells_any self.now }
    {
        self.answers.is_some()
            || self.trades.is_some()
            || self.levels.is_some()
            || self.events.is_some()
    }

    /// Adds the answer of a row, whose fields from the security on are these. The texts are those of its file.
    pub(crate) fn add_answer(
        &mut self,
        texts: &mut RecordTexts<'_>,
        row: &Row,
        fields: &[u8],
    ) -> Result<(), OutOfMemory>
        ensures added { OnOk result (self.new ≡ record self.old { answers = with_text (record_line row.now (texts_in texts.old row.now.line) fields.now) self.old.answers }) }
        ensures texts { texts_in texts.new ≡ texts_in texts.old }
    {
        let Some(text) = &mut self.answers else {
            return Ok(());
        };
        texts.read(row.line)?;
        push_line(text, row, texts.text(), fields)
    }

    /// Adds the trades of a row, whose fields are these of some lines. The texts are those of its file.
    pub(crate) fn add_trades(
        &mut self,
        texts: &mut RecordTexts<'_>,
        row: &Row,
        lines: &KeptLines,
        begin: usize,
        end: usize,
    ) -> Result<(), OutOfMemory>
        requires { end ≤ length lines.now }
        ensures added { OnOk result (self.new ≡ record self.old { trades = with_text (flat_map (record_line row.now (texts_in texts.old row.now.line)) (slice_range lines.now begin end)) self.old.trades }) }
        ensures texts { texts_in texts.new ≡ texts_in texts.old }
    {
        let Some(text) = &mut self.trades else {
            return Ok(());
        };
        if end <= begin {
            return Ok(());
        }
        texts.read(row.line)?;
        push_lines(text, row, texts.text(), lines, begin, end)
    }

    /// Adds the lines of levels.
    pub(crate) fn add_levels(&mut self, levels: &[u8]) -> Result<(), OutOfMemory>
        ensures { OnOk result (self.new ≡ record self.old { levels = with_text levels.now self.old.levels }) }
    {
        let Some(text) = &mut self.levels else {
            return Ok(());
        };
        text.extend_from_slice(levels)?;
        Ok(())
    }

    /// Adds the lines of events.
    pub(crate) fn add_events(&mut self, events: &[u8]) -> Result<(), OutOfMemory>
        ensures { OnOk result (self.new ≡ record self.old { events = with_text events.now self.old.events }) }
    {
        let Some(text) = &mut self.events else {
            return Ok(());
        };
        text.extend_from_slice(events)?;
        Ok(())
    }

    /// Adds that a row of an unknown security was refused.
    fn add_refused(&mut self, names: &SegmentNames, row: &Row) -> Result<(), OutOfMemory>
        ensures { OnOk result (self.new ≡ record self.old { events = with_text (row_events names.now row.now (Err UnknownSecurity) None) self.old.events }) }
    {
        let Some(text) = &mut self.events else {
            return Ok(());
        };
        push_refused(text, names, row, Refusal::UnknownSecurity)
    }

    /// Adds what is told of a row of an unknown security. The texts are those of its file.
    pub(crate) fn add_unknown(
        &mut self,
        names: &SegmentNames,
        texts: &mut RecordTexts<'_>,
        row: &Row,
    ) -> Result<(), OutOfMemory>
        ensures added { OnOk result (self.new ≡ with_kept row.now (texts_in texts.old row.now.line) (unknown_row names.now row.now) self.old) }
        ensures texts { texts_in texts.new ≡ texts_in texts.old }
    {
        self.add_refused(names, row)?;
        let Some(text) = &self.answers else {
            return Ok(());
        };
        let mut fields = Vec::new(*text.allocator());
        push_unknown(&mut fields, &Err(Refusal::UnknownSecurity))?;
        self.add_answer(texts, row, fields.as_slice())
    }

    /// What was told of rows that these desks have taken.
    pub(crate) fn told(self, alloc: Global, desks: &[Desk<Global>]) -> Result<Told, OutOfMemory>
        ensures answers { IfOk result (λ told. told.answers ≡ self.answers) }
        ensures trades { IfOk result (λ told. told.trades ≡ self.trades) }
        ensures events { IfOk result (λ told. told.events ≡ self.events) }
        ensures depth { IfOk result (λ told. told.depth ≡ option_map (λ (text : List ℕ). record { text = text; shown = map market_depth (map replay desks.now) }) self.levels) }
    {
        let RowTexts {
            answers,
            trades,
            levels,
            events,
        } = self;
        let depth = Depths::behind(alloc, desks, levels)?;
        Ok(Told {
            answers: Lines::behind(answers),
            trades: Lines::behind(trades),
            events: Lines::behind(events),
            depth,
        })
    }
}

/// Adds the line of a row with these fields, whose record has this free text.
fn push_line(text: &mut Vec<u8>, row: &Row, own: &[u8], fields: &[u8]) -> Result<(), OutOfMemory>
    ensures { OnOk result (text.new.items ≡ text.old.items ++ record_line row.now own.now fields.now) }
{
    push_number(text, u64::from(row.line))?;
    push_comma(text)?;
    text.extend_from_slice(fields)?;
    push_comma(text)?;
    push_field(text, own)?;
    push_line_feed(text)
}

/// The same with the fields of each of these lines.
fn push_lines(
    text: &mut Vec<u8>,
    row: &Row,
    own: &[u8],
    lines: &KeptLines,
    begin: usize,
    end: usize,
) -> Result<(), OutOfMemory>
    requires order { begin ≤ end }
    requires within { end ≤ length lines.now }
    ensures { OnOk result (text.new.items ≡ text.old.items ++ flat_map (record_line row.now own.now) (slice_range lines.now begin end)) }
{
    for index in begin..end {
        push_line(text, row, own, lines.line(index))?;
    }
    Ok(())
}
