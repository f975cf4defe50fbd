//! What is told of rows beside the statement of their day.
ghost use Rattle.std.specs.Prelude.{◌≡◌, map, option_map, slice_get, IfOk, OnErr, OnOk};
ghost use Rattle.xm_texts.specs.Asked.{AsksNothing, TellsNothing, is_telling};
ghost use Rattle.xm_texts.specs.Feeds.{next_feed};
ghost use Rattle.xm_texts.specs.MarketDepth.{depth_header, market_depth};
ghost use Rattle.xm_texts.specs.RowAnswers.{answer_line, answers_header, where_asked, with_text};
ghost use Rattle.xm_texts.specs.RowEvents.{events_header};
ghost use Rattle.xm_texts.specs.RowTrades.{trade_lines, trades_header};
ghost use Rattle.xm_rules.specs.Step.{replay};
ghost use Rattle.xm_files.specs.RecordTexts.{texts_in};

use crate::answers::{self, tell_answer};
use crate::asked::AskedTexts;
use crate::depth::Depths;
use crate::events;
use crate::lines::Lines;
use crate::trades::{self, tell_trades};
use std::alloc::{Allocator, Global};
use xm_config::Row;
use xm_desk::Desk;
use xm_files::{RecordTexts, SegmentNames};
use xm_memory::OutOfMemory;
use xm_rules::{Refusal, Reply};

/// The texts so far that are told beside a statement, as far as they are asked for.
#[derive(Drop)]
pub struct Told {
    pub answers: Lines,
    pub trades: Lines,
    pub events: Lines,
    pub depth: Depths,
}

impl Told {
    /// The statement alone is asked for.
    pub fn nothing() -> Told
        ensures { TellsNothing result }
    {
        Told {
            answers: Lines::unasked(),
            trades: Lines::unasked(),
            events: Lines::unasked(),
            depth: Depths::unasked(),
        }
    }

    /// What is told before any row of these desks.
    pub fn of<A: Allocator + Copy>(
        alloc: Global,
        desks: &[Desk<A>],
        asked: AskedTexts,
    ) -> Result<Told, OutOfMemory>
        ensures answers { IfOk result (λ told. told.answers ≡ where_asked asked.answers answers_header) }
        ensures trades { IfOk result (λ told. told.trades ≡ where_asked asked.trades trades_header) }
        ensures events { IfOk result (λ told. told.events ≡ where_asked asked.events events_header) }
        ensures depth { IfOk result (λ told. told.depth ≡ where_asked asked.depth (record { text = depth_header; shown = map market_depth (map replay desks.now) })) }
        ensures asked { OnErr result (AsksNothing asked → ⊥) }
    {
        let answers = Lines::of(alloc, asked.answers, answers::HEADER)?;
        let trades = Lines::of(alloc, asked.trades, trades::HEADER)?;
        let events = Lines::of(alloc, asked.events, events::HEADER)?;
        let depth = Depths::of(alloc, desks, asked.depth)?;
        Ok(Told {
            answers,
            trades,
            events,
            depth,
        })
    }

    /// Whether any text is asked for.
    pub fn is_telling(&self) -> bool
        ensures { result ≡ is_telling self.now }
    {
        self.answers.are_asked()
            || self.trades.are_asked()
            || self.events.are_asked()
            || self.depth.are_asked()
    }

    /// Adds what is told of a row that was answered so by the desks, which have taken it. Its events are told where they take it, by
    /// `take_row`. The texts are those of its file.
    #[inline(always)]
    pub fn tell<A: Allocator + Copy>(
        &mut self,
        names: &SegmentNames,
        texts: &mut RecordTexts<'_>,
        desks: &[Desk<A>],
        row: &Row,
        answer: &Result<Reply, Refusal>,
    ) -> Result<(), OutOfMemory>
        ensures answers { OnOk result (self.new.answers ≡ with_text (answer_line names.now row.now (texts_in texts.old row.now.line) answer.now (slice_get (map replay desks.now) row.now.security)) self.old.answers) }
        ensures trades { OnOk result (self.new.trades ≡ with_text (trade_lines names.now row.now (texts_in texts.old row.now.line) answer.now (slice_get (map replay desks.now) row.now.security)) self.old.trades) }
        ensures events { self.new.events ≡ self.old.events }
        ensures depth { OnOk result (self.new.depth ≡ option_map (next_feed names.now row.now (slice_get (map replay desks.now) row.now.security)) self.old.depth) }
        ensures texts { texts_in texts.new ≡ texts_in texts.old }
        ensures asked { OnErr result (TellsNothing self.old → ⊥) }
    {
        tell_answer(&mut self.answers, names, texts, desks, row, answer)?;
        tell_trades(&mut self.trades, names, texts, desks, row, answer)?;
        self.depth.tell(names, desks, row)?;
        Ok(())
    }
}
