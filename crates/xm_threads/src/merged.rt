//! What the securities of a segment tell of their rows, in the order of the rows.
ghost use Rattle.std.specs.Prelude.{◌≡◌, OnOk};
ghost use Rattle.xm_threads.specs.Lanes.{IsAdded, told_row};
ghost use Rattle.xm_files.specs.RecordTexts.{texts_in};

use crate::lanes::DeskLane;
use crate::row_texts::RowTexts;
use std::alloc::Global;
use std::marker::Model;
use xm_config::Row;
use xm_desk::Desk;
use xm_files::{RecordTexts, SegmentNames};
use xm_memory::OutOfMemory;
use xm_texts::{AskedTexts, Told};

/// The texts so far that are told of the rows of a segment, and the want of memory that they met. From then on nothing is added to
/// them.
#[derive(Drop)]
pub(crate) struct Merged {
    told: RowTexts,
    wanting: Option<OutOfMemory>,
}

impl Model for Merged {
    ghost use Rattle.std.specs.Prelude.{is_some};
    ghost use Rattle.xm_threads.specs.Lanes.{MergedView};

    ghost Value = { MergedView };

    ghost view = { λ m. record { texts = m.told; lacks_memory = is_some m.wanting } };
}

impl Merged {
    ghost use Rattle.std.specs.Prelude.{◌≡◌, IfOk, OnOk, List, ℕ, false, map, option_map};
    ghost use Rattle.xm_threads.specs.Lanes.{IsAdded, texts_where};
    ghost use Rattle.xm_texts.specs.MarketDepth.{depth_header, market_depth};
    ghost use Rattle.xm_texts.specs.RowAnswers.{answers_header};
    ghost use Rattle.xm_texts.specs.RowEvents.{events_header};
    ghost use Rattle.xm_texts.specs.RowTrades.{trades_header};
    ghost use Rattle.xm_files.specs.RecordTexts.{texts_in};
    ghost use Rattle.xm_rules.specs.Step.{replay};

    /// What is told of no row: the headers of the texts that are asked for.
    pub(crate) fn of(alloc: Global, asked: AskedTexts) -> Merged
        ensures { result.lacks_memory ≡ false → result.texts ≡ texts_where asked answers_header trades_header depth_header events_header }
    {
        match RowTexts::begun(alloc, asked) {
            Ok(told) => Merged {
                told,
                wanting: None,
            },
            Err(wanting) => Merged {
                told: RowTexts::unasked(),
                wanting: Some(wanting),
            },
        }
    }

    /// Adds what securities are to tell of rows that they have taken. The texts are those of the file of the rows.
    pub(crate) fn add(
        &mut self,
        names: &SegmentNames,
        texts: &mut RecordTexts<'_>,
        rows: &[Row],
        lanes: &mut [DeskLane],
    )
        ensures added { self.new.lacks_memory ≡ false → (self.old.lacks_memory ≡ false) × IsAdded names.now (texts_in texts.old) rows.now lanes.old self.old.texts lanes.new self.new.texts }
        ensures texts { texts_in texts.new ≡ texts_in texts.old }
    {
        if self.wanting.is_none() {
            self.wanting = tell_rows(&mut self.told, names, texts, rows, lanes).err();
        }
    }

    /// What was told, of rows that these desks have taken, or the want of memory that it met.
    pub(crate) fn told(self, alloc: Global, desks: &[Desk<Global>]) -> Result<Told, OutOfMemory>
        ensures had_memory { OnOk result (self.lacks_memory ≡ false) }
        ensures answers { IfOk result (λ told. told.answers ≡ self.texts.answers) }
        ensures trades { IfOk result (λ told. told.trades ≡ self.texts.trades) }
        ensures events { IfOk result (λ told. told.events ≡ self.texts.events) }
        ensures depth { IfOk result (λ told. told.depth ≡ option_map (λ (text : List ℕ). record { text = text; shown = map market_depth (map replay desks.now) }) self.texts.levels) }
    {
        let Merged { told, wanting } = self;
        if let Some(wanting) = wanting {
            return Err(wanting);
        }
        told.told(alloc, desks)
    }
}

/// Adds what securities keep of these rows, if any text is asked for. The other texts are those of the file of the rows.
fn tell_rows(
    told: &mut RowTexts,
    names: &SegmentNames,
    texts: &mut RecordTexts<'_>,
    rows: &[Row],
    lanes: &mut [DeskLane],
) -> Result<(), OutOfMemory>
    ensures added { OnOk result (IsAdded names.now (texts_in texts.old) rows.now lanes.old told.old lanes.new told.new) }
    ensures texts { texts_in texts.new ≡ texts_in texts.old }
{
    if !told.tells_any() {
        return Ok(());
    }
    for row in rows {
        tell_row(told, names, texts, row, lanes)?;
    }
    Ok(())
}

/// Adds what the security of a row keeps next, if it is known.
fn tell_row(
    told: &mut RowTexts,
    names: &SegmentNames,
    texts: &mut RecordTexts<'_>,
    row: &Row,
    lanes: &mut [DeskLane],
) -> Result<(), OutOfMemory>
    ensures added { OnOk result (record { lanes = lanes.new; texts = told.new } ≡ told_row names.now (texts_in texts.old) (record { lanes = lanes.old; texts = told.old }) row.now) }
    ensures texts { texts_in texts.new ≡ texts_in texts.old }
{
    let index = row.security as usize;
    if index < lanes.len() {
        lanes[index].tell(told, texts, row)
    } else {
        told.add_unknown(names, texts, row)
    }
}
