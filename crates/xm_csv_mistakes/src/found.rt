//! Records of order files, found by their numbers in a day.
ghost use Rattle.std.specs.Prelude.{◌≡◌, ◌≤◌, ◌-◌, All, length, IfOk};

use crate::columns::{Column, Format};
use crate::records::Records;
use csv::ByteRecord;
use std::alloc::Global;
use xm_memory::OutOfMemory;
use xm_mistakes::shown;

/// Where a record of a day's order files stands, and whose it is. Of a record that isn't there all texts are empty.
#[derive(Drop)]
pub struct FoundRecord {
    /// The index of its file, and 0 of a record that isn't there.
    pub file: usize,
    /// Its line and its number in that file, as in `line 9 (record 7)`.
    pub place: String,
    /// The field of its member, as words show a text that was found.
    pub member: String,
    /// The field of its security, as words show a text that was found.
    pub security: String,
}

/// The records with these numbers in the order files of a day, of which each is read once at most.
///
/// The numbers ascend. They count on over the files: the header of the first file is 1, and that of a later one has the number behind
/// that of the last record before it.
pub fn find_records(
    alloc: Global,
    files: &[&[u8]],
    numbers: &[u32],
) -> Result<Vec<FoundRecord>, OutOfMemory>
    ensures each { IfOk result (λ found. length found.items ≡ length numbers.now) }
    ensures files { IfOk result (λ found. All (λ place. place.file ≤ length files.now - 1) found.items) }
{
    let mut found = Vec::new(alloc);
    let mut search = Search {
        alloc,
        before: 0,
        file: 0,
        records: Records::of(alloc, text_of(files, 0)),
    };
    for number in numbers {
        found.push(search.find(files, *number)?)?;
    }
    Ok(found)
}

/// How far the files of a day were read.
#[derive(Drop)]
struct Search<'f> {
    alloc: Global,
    /// How many records come before the file that is read.
    before: u32,
    /// The index of that file.
    file: usize,
    records: Records<'f>,
}

impl<'f> Search<'f> {
    /// Reads on to the record with a number.
    fn find(&mut self, files: &[&'f [u8]], number: u32) -> Result<FoundRecord, OutOfMemory>
        ensures { IfOk result (λ found. found.file ≤ length files.now - 1) }
    {
        for file in self.file..files.len() {
            if self.before < number && self.records.go_to(number - self.before)? {
                return told(self.alloc, file, &self.records);
            }
            let count = self.records.place().number;
            self.before = self.before.saturating_add(count);
            self.file = file + 1;
            self.records = Records::of(self.alloc, text_of(files, self.file));
        }
        Ok(FoundRecord {
            file: 0,
            place: String::new(self.alloc),
            member: String::new(self.alloc),
            security: String::new(self.alloc),
        })
    }
}

/// The text of the file with an index, and nothing where there is none.
fn text_of<'f>(files: &[&'f [u8]], index: usize) -> &'f [u8] {
    match files.get(index) {
        Some(text) => *text,
        None => &[],
    }
}

/// The record of a file that was read last.
fn told(alloc: Global, file: usize, records: &Records) -> Result<FoundRecord, OutOfMemory>
    ensures { IfOk result (λ found. found.file ≡ file) }
{
    Ok(FoundRecord {
        file,
        place: records.location(alloc)?,
        member: shown_field(alloc, records.row(), Column::Member)?,
        security: shown_field(alloc, records.row(), Column::Security)?,
    })
}

/// The field of a column, which stands in the same place in all order files, as words show it.
fn shown_field(alloc: Global, row: &ByteRecord, column: Column) -> Result<String, OutOfMemory> {
    let field = match Format::First.place_of(column) {
        Some(place) => row.get(place).unwrap_or(&[]),
        None => &[],
    };
    shown(alloc, field)
}
