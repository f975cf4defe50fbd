//! Records that a run takes, in which one field after the other is judged.
use crate::columns::{Column, Format};
use crate::run::{Record, Run};
use std::alloc::Global;
use xm_memory::OutOfMemory;
use xm_mistakes::{joined, plain};

/// Records of an order file of version 2: one of each kind of order, and of each command that has other fields. Those of version 1 have
/// no last field.
const ORDER_TEMPLATES: [[&str; 13]; 8] = [
    [
        "enter", "M", "1", "S", "buy", "market", "", "", "1", "", "", "", "",
    ],
    [
        "enter", "M", "1", "S", "buy", "limit", "1", "", "1", "", "", "", "",
    ],
    [
        "enter",
        "M",
        "1",
        "S",
        "buy",
        "stop-market",
        "",
        "1",
        "1",
        "",
        "",
        "",
        "",
    ],
    [
        "enter",
        "M",
        "1",
        "S",
        "buy",
        "stop-limit",
        "1",
        "1",
        "1",
        "",
        "",
        "",
        "",
    ],
    ["change", "M", "1", "S", "", "", "", "", "1", "", "", "", ""],
    ["cancel", "M", "1", "S", "", "", "", "", "", "", "", "", ""],
    [
        "cancel-all",
        "M",
        "",
        "S",
        "",
        "",
        "",
        "",
        "",
        "",
        "",
        "",
        "",
    ],
    ["open", "", "", "S", "", "", "", "", "", "", "", "", ""],
];

/// The kinds of a carry file's records, and whether each has a limit and a trigger.
const CARRY_KINDS: [(&str, bool, bool); 4] = [
    ("market", false, false),
    ("limit", true, false),
    ("stop-market", false, true),
    ("stop-limit", true, true),
];

/// Records that a run takes, and of which each may still be what a record was meant to be.
#[derive(Drop)]
pub(crate) struct Templates {
    alloc: Global,
    format: Format,
    records: Vec<Record>,
}

impl Templates {
    /// Those of a format; of a carry file those for the security with a name.
    pub(crate) fn of(run: &Run, format: Format, security: &[u8]) -> Result<Templates, OutOfMemory> {
        let mut templates = Templates {
            alloc: run.alloc,
            format,
            records: Vec::new(run.alloc),
        };
        match format {
            Format::First | Format::Second => templates.add_orders()?,
            Format::Carry => templates.add_carried(run, security)?,
        }
        Ok(templates)
    }

    /// Adds a record with these fields.
    fn add(&mut self, fields: &[&str]) -> Result<(), OutOfMemory> {
        self.records.push(Record::of(self.alloc, fields)?)?;
        Ok(())
    }

    /// Adds those of an order file.
    fn add_orders(&mut self) -> Result<(), OutOfMemory> {
        let columns = self.format.columns().len();
        for fields in &ORDER_TEMPLATES {
            self.add(fields.get(..columns).unwrap_or(fields))?;
        }
        Ok(())
    }

    /// Adds those of a carry file.
    fn add_carried(&mut self, run: &Run, security: &[u8]) -> Result<(), OutOfMemory> {
        let index = run.security_with(security);
        let name = run.names.security(index).unwrap_or("");
        let member = run.names.member(0).unwrap_or("");
        let price = run.price_text(index)?;
        for (kind, has_limit, has_trigger) in &CARRY_KINDS {
            self.add_kind(
                name,
                member,
                *kind,
                price.as_str(),
                *has_limit,
                *has_trigger,
            )?;
        }
        Ok(())
    }

    /// Adds the one of a carry file for a kind of orders or stops, which may have a limit and a trigger.
    fn add_kind<'t>(
        &mut self,
        security: &'t str,
        member: &'t str,
        kind: &'t str,
        price: &'t str,
        has_limit: bool,
        has_trigger: bool,
    ) -> Result<(), OutOfMemory> {
        let limit = if has_limit { price } else { "" };
        let trigger = if has_trigger { price } else { "" };
        self.add(&[
            security, member, "1", "buy", kind, limit, trigger, "1", "gtc", "free",
        ])
    }

    /// Whether a text may stand at a place of one of them.
    pub(crate) fn accept(&self, run: &Run, place: usize, text: &[u8]) -> Result<bool, OutOfMemory> {
        for record in &self.records {
            if run.accepts_with(self.format, record, place, place.saturating_add(1), &[text])? {
                return Ok(true);
            }
        }
        Ok(false)
    }

    /// Keeps those in which a text may stand at a place, with it, where there are any. The column there is to be one that says what the
    /// other fields are.
    pub(crate) fn narrow(
        &mut self,
        run: &Run,
        place: usize,
        column: Column,
        text: &[u8],
    ) -> Result<(), OutOfMemory> {
        match column {
            Column::Command | Column::Kind => {}
            _ => return Ok(()),
        }
        let kept = self.with(run, place, text)?;
        if !kept.is_empty() {
            self.records = kept;
        }
        Ok(())
    }

    /// Those in which a text may stand at a place, with it.
    fn with(&self, run: &Run, place: usize, text: &[u8]) -> Result<Vec<Record>, OutOfMemory> {
        let mut kept = Vec::new(self.alloc);
        for record in &self.records {
            let record = record.with(place, place.saturating_add(1), &[text])?;
            if run.accepts(self.format, &record)? {
                kept.push(record)?;
            }
        }
        Ok(kept)
    }

    /// Whether none of them has anything in a column, whatever it be.
    pub(crate) fn leave_empty(&self, run: &Run, place: usize) -> Result<bool, OutOfMemory> {
        if self
            .records
            .iter()
            .any(|record| !record.field(place).is_empty())
        {
            return Ok(false);
        }
        Ok(!self.accept(run, place, self.format.sample_at(place))?)
    }

    /// What a record is that they are the templates of.
    pub(crate) fn subject(&self, alloc: Global) -> Result<String, OutOfMemory> {
        let kind = self.one_word(Column::Kind);
        if !kind.is_empty() {
            return joined(alloc, &["an order of the kind ", plain(kind)]);
        }
        let command = self.one_word(Column::Command);
        if command.is_empty() {
            joined(alloc, &["such an order"])
        } else {
            joined(alloc, &["the command ", plain(command)])
        }
    }

    /// What all of them have in a column, and nothing where they differ.
    fn one_word(&self, column: Column) -> &[u8] {
        let place = self.format.place_of(column).unwrap_or(usize::MAX);
        let word = match self.records.first() {
            Some(record) => record.field(place),
            None => &[],
        };
        if self
            .records
            .iter()
            .all(|record| record.field(place) == word)
        {
            word
        } else {
            &[]
        }
    }
}
