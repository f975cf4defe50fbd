//! The run's own readers, asked about small texts.
use crate::columns::Format;
use crate::faults::{carry_fault, orders_fault};
use csv::ByteRecord;
use std::alloc::Global;
use xm_config::{SecurityConfig, SegmentConfig};
use xm_files::{FileFault, SegmentNames};
use xm_memory::OutOfMemory;
use xm_mistakes::amount_text;
use xm_name_index::Storage;
use xm_ticks::TickSize;

/// Which file a run reads.
#[derive(Clone, Copy)]
pub(crate) enum Reading {
    Orders,
    Carry(Storage<Global>),
}

/// A run of a segment, as far as it reads a file.
#[derive(Clone, Copy)]
pub(crate) struct Run<'n, 'c> {
    pub(crate) alloc: Global,
    pub(crate) reading: Reading,
    pub(crate) names: &'n SegmentNames,
    pub(crate) config: &'c SegmentConfig,
}

impl Run<'_, '_> {
    /// The first fault that a text has as such a file.
    pub(crate) fn fault(&self, text: &[u8]) -> Result<Option<FileFault>, OutOfMemory> {
        match &self.reading {
            Reading::Orders => orders_fault(self.alloc, text, self.names, self.config),
            Reading::Carry(storage) => carried_fault(*storage, text, self.names, self.config),
        }
    }

    /// Whether a file of this one record has no fault.
    pub(crate) fn accepts(&self, format: Format, record: &Record) -> Result<bool, OutOfMemory> {
        let text = record.text_under(format)?;
        match self.fault(text.as_slice()) {
            Ok(fault) => Ok(fault.is_none()),
            Err(wanting) => Err(wanting),
        }
    }

    /// Whether a file has no fault of this one record, with others in place of its fields from one place up to another.
    pub(crate) fn accepts_with(
        &self,
        format: Format,
        record: &Record,
        from: usize,
        to: usize,
        fields: &[&[u8]],
    ) -> Result<bool, OutOfMemory> {
        let record = record.with(from, to, fields)?;
        self.accepts(format, &record)
    }

    /// The index of the security with a name, and of the first one where none has it.
    pub(crate) fn security_with(&self, name: &[u8]) -> u32 {
        for index in 0..self.names.securities() {
            if self.names.security(index).unwrap_or("").as_bytes() == name {
                return index;
            }
        }
        0
    }

    /// The settings of a security.
    fn settings(&self, index: u32) -> Option<&SecurityConfig> {
        self.config.securities.as_slice().get(index as usize)
    }

    /// The tick of the security with a name, and of the first one where none has it.
    pub(crate) fn tick_of(&self, name: &[u8]) -> Option<TickSize> {
        match self.settings(self.security_with(name)) {
            Some(settings) => Some(settings.tick),
            None => None,
        }
    }

    /// The text of the opening reference of a security, which is one of its prices.
    pub(crate) fn price_text(&self, index: u32) -> Result<String, OutOfMemory> {
        match self.settings(index) {
            Some(settings) => amount_text(self.alloc, amount_of(settings)),
            None => Ok(String::new(self.alloc)),
        }
    }

    /// Whether the file is a carry file.
    pub(crate) fn is_carry(&self) -> bool {
        match &self.reading {
            Reading::Orders => false,
            Reading::Carry(_) => true,
        }
    }
}

/// The opening reference of a security, in ten-thousandths of a euro.
fn amount_of(settings: &SecurityConfig) -> u64 {
    let ticks = u64::from(settings.reference.get());
    ticks.saturating_mul(u64::from(settings.tick.get()))
}

/// The first fault of a carry file, for a segment whose names are those of its settings.
fn carried_fault(
    storage: Storage<Global>,
    text: &[u8],
    names: &SegmentNames,
    config: &SegmentConfig,
) -> Result<Option<FileFault>, OutOfMemory> {
    let securities = config.securities.as_slice().len();
    if names.securities() as usize == securities && names.members() == config.members {
        carry_fault(storage, text, names, config)
    } else {
        Ok(None)
    }
}

/// The fields of a record.
#[derive(Drop)]
pub(crate) struct Record {
    alloc: Global,
    fields: Vec<Vec<u8>>,
}

impl Record {
    /// A record without a field.
    fn new(alloc: Global) -> Record {
        Record {
            alloc,
            fields: Vec::new(alloc),
        }
    }

    /// The record that CSV read.
    pub(crate) fn of_row(alloc: Global, row: &ByteRecord) -> Result<Record, OutOfMemory> {
        let mut record = Record::new(alloc);
        for place in 0..row.len() {
            record.push(row.get(place).unwrap_or(&[]))?;
        }
        Ok(record)
    }

    /// The record with these fields.
    pub(crate) fn of(alloc: Global, fields: &[&str]) -> Result<Record, OutOfMemory> {
        let mut record = Record::new(alloc);
        for field in fields {
            record.push(field.as_bytes())?;
        }
        Ok(record)
    }

    /// How many fields it has.
    pub(crate) fn len(&self) -> usize {
        self.fields.len()
    }

    /// The field at a place, which is empty behind the last one.
    pub(crate) fn field(&self, place: usize) -> &[u8] {
        match self.fields.get(place) {
            Some(field) => field.as_slice(),
            None => &[],
        }
    }

    /// Adds a field at the end.
    fn push(&mut self, field: &[u8]) -> Result<(), OutOfMemory> {
        self.fields.push(Vec::from_slice(self.alloc, field)?)?;
        Ok(())
    }

    /// Adds the fields of another record, from one place up to another.
    fn push_part(&mut self, other: &Record, from: usize, to: usize) -> Result<(), OutOfMemory> {
        for place in from..to {
            self.push(other.field(place))?;
        }
        Ok(())
    }

    /// The same record with others in place of its fields from one place up to another.
    pub(crate) fn with(
        &self,
        from: usize,
        to: usize,
        fields: &[&[u8]],
    ) -> Result<Record, OutOfMemory> {
        let mut record = Record::new(self.alloc);
        record.push_part(self, 0, from)?;
        for field in fields {
            record.push(*field)?;
        }
        record.push_part(self, to, self.len())?;
        Ok(record)
    }

    /// The text of a file that has this one record: the header of a format, and a line of its fields, each in quotation marks.
    fn text_under(&self, format: Format) -> Result<Vec<u8>, OutOfMemory> {
        let mut text = Vec::from_slice(self.alloc, format.header().as_bytes())?;
        let mut mark = b'\n';
        for field in &self.fields {
            text.push(mark)?;
            write_quoted(&mut text, field.as_slice())?;
            mark = b',';
        }
        text.push(b'\n')?;
        Ok(text)
    }
}

/// Writes a field in quotation marks.
fn write_quoted(out: &mut Vec<u8>, field: &[u8]) -> Result<(), OutOfMemory> {
    out.push(b'"')?;
    for byte in field {
        if *byte == b'"' {
            out.push(b'"')?;
        }
        out.push(*byte)?;
    }
    out.push(b'"')?;
    Ok(())
}
