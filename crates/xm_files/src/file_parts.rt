//! The parts of an order file that threads read side by side.
//!
//! Where a part begins, and the number of its first record, are guesses: nothing is kept of a part that doesn't begin where those before
//! it ended.
ghost use Rattle.std.specs.Prelude.{◌≡◌, ℕ, ◌+◌, ◌<◌, ◌≤◌, [], IfOk, IfSome, true, length, slice_index_or};
ghost use Rattle.xm_files.specs.Batches.{rows_so_far};
ghost use Rattle.xm_files.specs.InParts.{PartGives, LinesGive, last_bytes};

use crate::batch::Batch;
use crate::names::SegmentNames;
use crate::order_format::OrderFormat;
use crate::orders::{MAX_LINES, MAX_ROWS, add_record, behind_line_feed};
use crate::records::Fields;
use std::alloc::Global;
use std::simd::prelude::*;
use std::thread;
use std::thread::Threads;
use xm_config::SegmentConfig;
use xm_memory::OutOfMemory;

/// How many bytes of a file are read at once by all threads together, where it has so many left.
const AT_ONCE: usize = 2_097_152;

/// How many rows all threads together have of it, but for the last lines: a line of a phase gives each security one.
const ROWS_AT_ONCE: usize = 131_072;

/// Where fewer bytes of a file are left, threads aren't worth their start.
pub(crate) const LEAST_BESIDE: usize = 65_536;

/// The least bytes of a part.
const LEAST: usize = 16_384;

/// A part ends no nearer to the end of a file, unless a line does that is longer: the last lines are read alone.
const TAIL: usize = 1_024;

/// How many bytes are looked at together for line feeds.
const BLOCK: usize = 64;

/// A part of an order file: the lines from one place to another.
#[derive(Drop)]
pub(crate) struct FilePart {
    // How many bytes of the file are left where it begins, with the line feed before its first record, and where it ends: once it is
    // read, where it was left.
    from: usize,
    to: usize,
    // The number of its first record, and of the first one behind it, once it is read.
    first: u32,
    next: u32,
    // Its rows, once it is read.
    batch: Batch,
    // Whether it was read.
    is_whole: bool,
}

/// Room for the rows of as many parts of an order file as are read side by side.
pub struct FileParts {
    parts: Vec<FilePart>,
    // How many bytes a part has at most.
    size: usize,
}

// In a function of its own, so that whoever drops them proves one call.
impl Drop for FileParts {
    fn drop(self) {
        let FileParts {
            parts: _parts,
            size: _,
        } = self;
    }
}

/// What is left of a file behind the parts that were read.
#[derive(Drop)]
pub(crate) struct PartsLeft<'a> {
    pub(crate) text: &'a [u8],
    // The number of its first record.
    pub(crate) line: u32,
}

impl FileParts {
    /// Room for as many parts as there are threads.
    pub fn new(alloc: Global, threads: u32) -> Result<FileParts, OutOfMemory> {
        let mut parts = Vec::new(alloc);
        for _thread in 0..threads {
            parts.push(FilePart {
                from: 0,
                to: 0,
                first: 0,
                next: 0,
                batch: Batch::new(alloc),
                is_whole: false,
            })?;
        }
        Ok(FileParts {
            parts,
            size: AT_ONCE,
        })
    }

    /// Adds the rows of the lines behind the line feed that a text begins with, of which the first has this number, as far as parts were
    /// read whole that follow one another. Answers what is left.
    pub(crate) fn read<'a, T: Threads + Sync>(
        &mut self,
        rt: &T,
        batch: &mut Batch,
        text: &'a [u8],
        format: OrderFormat,
        first: u32,
        names: &SegmentNames,
        config: &SegmentConfig,
    ) -> Result<PartsLeft<'a>, OutOfMemory>
        requires short { first + length text.now ≤ MAX_LINES }
        requires empty { batch.old.rows ≡ [] }
        ensures lines { IfOk result (λ left. LinesGive names.now config.now format text.now first left.text.now left.line batch.new.rows) }
        ensures earlier { IfOk result (λ _. batch.new.earlier ≡ batch.old.earlier) }
    {
        self.cut(text, first);
        let most = ROWS_AT_ONCE / self.parts.len().max(1);
        read_apart(
            rt,
            self.parts.as_mut_slice(),
            most,
            text,
            format,
            names,
            config,
        );
        self.size = next_size(self.size, self.parts.as_slice(), most);
        let mut left = text.len();
        let mut line = first;
        for part in self.parts.iter() {
            if !part.follows(left, line, batch) {
                break;
            }
            batch.add_rows(part.batch.rows())?;
            left = part.to;
            line = part.next;
        }
        Ok(PartsLeft {
            text: last_bytes(text, left),
            line,
        })
    }

    /// Guesses where the parts of a text begin and end.
    fn cut(&mut self, text: &[u8], first: u32) {
        let count = self.parts.len().max(1);
        let size = (text.len().min(AT_ONCE) / count).min(self.size).max(LEAST);
        let mut from = text.len();
        let mut line = first;
        let mut is_end = false;
        for part in self.parts.iter_mut() {
            part.from = from;
            part.first = line;
            part.to = if is_end {
                from
            } else {
                end_of_part(text, from, size)
            };
            is_end = part.to == from;
            line = line.wrapping_add(line_feeds(between(text, from, part.to)));
            from = part.to;
        }
    }
}

impl FilePart {
    /// Reads the part of a text, up to the line with which it has so many rows, or not.
    fn read(
        &mut self,
        most: usize,
        text: &[u8],
        format: OrderFormat,
        names: &SegmentNames,
        config: &SegmentConfig,
    )
        ensures { PartGives names.now config.now format text.now self.new }
    {
        self.is_whole = false;
        self.batch.forget();
        if self.from <= self.to {
            return;
        }
        let own = last_bytes(text, self.from);
        if let Some((next, left)) = add_lines_to(
            self.to,
            most,
            &mut self.batch,
            own,
            format,
            self.first,
            names,
            config,
        ) {
            self.next = next;
            self.to = left;
            self.is_whole = true;
        }
    }

    /// Whether the part was read, it begins where so many bytes are left, with this number, and a batch may have its rows.
    fn follows(&self, left: usize, line: u32, batch: &Batch) -> bool
        ensures whole { result ≡ true → self.now.is_whole ≡ true }
        ensures begins { result ≡ true → (self.now.from ≡ left) × (self.now.first ≡ line) }
        ensures fits { result ≡ true → length (rows_so_far batch.now) + length self.now.batch.rows ≤ MAX_ROWS }
    {
        self.is_whole
            && self.from == left
            && self.first == line
            && self.batch.len() <= MAX_ROWS - batch.total()
    }
}

/// How many bytes the next parts have at most, where these had so many: fewer where the first one has as many rows as a part may have, and
/// more where it has few.
fn next_size(size: usize, parts: &[FilePart], most: usize) -> usize {
    let [part, ..] = parts else {
        return size;
    };
    let rows = part.batch.len();
    if rows >= most {
        part.from.saturating_sub(part.to) / 2
    } else if rows < most / 4 {
        size.saturating_mul(2).min(AT_ONCE)
    } else {
        size
    }
}

/// Reads each part of a text in a thread of its own, where one can be started.
fn read_apart<T: Threads + Sync>(
    rt: &T,
    parts: &mut [FilePart],
    most: usize,
    text: &[u8],
    format: OrderFormat,
    names: &SegmentNames,
    config: &SegmentConfig,
)
    ensures { (k : ℕ) (d : FilePart) → k < length parts.old → PartGives names.now config.now format text.now (slice_index_or parts.new k d) }
{
    let threads = parts.len().max(1);
    thread::for_each_mut(
        rt,
        parts,
        threads,
        &|_place, part| part.read(most, text, format, names, config),
    );
}

/// Adds the rows of the lines behind the line feed that a text begins with, of which the first has this number, up to the first line feed
/// with which no more than so many bytes are left, or there are so many rows. Answers the number of the next record, and how many bytes are
/// left. It is `None` where a line has a quote, a carriage return, another number of fields than the format has columns, or a fault, and
/// where memory is wanting.
fn add_lines_to(
    end: usize,
    most: usize,
    batch: &mut Batch,
    text: &[u8],
    format: OrderFormat,
    first: u32,
    names: &SegmentNames,
    config: &SegmentConfig,
) -> Option<(u32, usize)>
    requires { batch.old.rows ≡ [] }
    ensures gives { IfSome result (λ read. LinesGive names.now config.now format text.now first (last_bytes read.1 text.now) read.0 batch.new.rows) }
    ensures within { IfSome result (λ read. read.1 ≤ length text.now) }
{
    if first as usize + text.len() > MAX_LINES as usize {
        return None;
    }
    let mut marks = behind_line_feed(text)?;
    let mut line = first;
    let mut fields = Fields::empty(format);
    loop {
        fields.read_line(&mut marks)?;
        match add_record(batch, line, &fields, names, config) {
            Ok(()) => {}
            Err(_fault) => return None,
        }
        line += 1;
        let left = marks.left().len();
        if left <= end || batch.len() >= most {
            return Some((line, left));
        }
    }
}

/// The last bytes of a text, so many.
fn last_bytes(text: &[u8], count: usize) -> &[u8]
    ensures { result.now ≡ last_bytes count text.now }
{
    &text[text.len().saturating_sub(count)..]
}

/// The bytes of a text from the place where so many are left to the one where so many are.
fn between(text: &[u8], from: usize, to: usize) -> &[u8] {
    let begin = last_bytes(text, from);
    &begin[..from.saturating_sub(to).min(begin.len())]
}

/// How many bytes are left where a part may end that begins where so many are left, and is to have at most so many bytes: from the last
/// line feed among them on, or, where a line has more, from its end. It is where the part begins, where the end of the text is too near.
fn end_of_part(text: &[u8], from: usize, size: usize) -> usize {
    let begin = text.len().saturating_sub(from);
    let aim = begin
        .saturating_add(size)
        .min(text.len().saturating_sub(TAIL));
    if aim <= begin {
        return from;
    }
    for place in (begin + 1..aim).rev() {
        if text[place] == b'\n' {
            return text.len() - place;
        }
    }
    for place in aim..text.len() {
        if text[place] == b'\n' {
            return text.len() - place;
        }
    }
    from
}

/// How many line feeds a text has.
fn line_feeds(text: &[u8]) -> u32 {
    let mut count = 0u32;
    let mut at = 0;
    while text.len() - at >= BLOCK {
        let block = u8x64::from_slice(&text[at..at + BLOCK]);
        let is_line_feed = block.simd_eq(u8x64::splat(b'\n')).to_bitmask();
        count = count.wrapping_add(is_line_feed.count_ones());
        at += BLOCK;
    }
    let more = text[at..].iter().filter(|byte| **byte == b'\n').count();
    count.wrapping_add(more as u32)
}
