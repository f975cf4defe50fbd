//! Lines that are kept one after another.
use std::alloc::Global;
use std::marker::Model;
use xm_memory::OutOfMemory;

/// Where something begins in a list, and where it ends.
#[derive(Clone, Copy)]
pub(crate) struct Span {
    pub(crate) begin: usize,
    pub(crate) end: usize,
}

/// The lines so far, in one text.
#[derive(Drop)]
pub(crate) struct KeptLines {
    text: Vec<u8>,
    spans: Vec<Span>,
}

impl Model for KeptLines {
    ghost use Rattle.std.specs.Prelude.{ℕ, All, List, map};
    ghost use Rattle.xm_threads.specs.KeptRows.{IsPartOf, part_at};

    ghost Value = { List (List ℕ) };

    ghost view = { λ l. map (part_at l.text.items) l.spans.items };

    ghost invariant = { λ l. All (IsPartOf 0 l.text.items) l.spans.items };
}

impl KeptLines {
    ghost use Rattle.std.specs.Prelude.{◌≡◌, ◌<◌, ◌++◌, ◌∷◌, [], OnErr, OnOk, length, slice_index_or};

    /// No line.
    pub(crate) fn new(alloc: Global) -> KeptLines
        ensures { result ≡ [] }
    {
        KeptLines {
            text: Vec::new(alloc),
            spans: Vec::new(alloc),
        }
    }

    /// How many there are.
    pub(crate) fn len(&self) -> usize
        ensures { result ≡ length self.now }
    {
        self.spans.len()
    }

    /// The line with this index.
    pub(crate) fn line(&self, index: usize) -> &[u8]
        requires { index < length self.now }
        ensures { result.now ≡ slice_index_or self.now index [] }
    {
        let span = self.spans[index];
        &self.text[span.begin..span.end]
    }

    /// Adds a line. `OutOfMemory` changes nothing.
    pub(crate) fn push(&mut self, line: &[u8]) -> Result<(), OutOfMemory>
        ensures pushed { OnOk result (self.new ≡ self.old ++ line.now ∷ []) }
        ensures kept { OnErr result (self.new ≡ self.old) }
    {
        let begin = self.text.len();
        self.text.extend_from_slice(line)?;
        let end = self.text.len();
        self.spans.push(Span { begin, end })?;
        Ok(())
    }

    /// Drops all lines. Their room stays.
    pub(crate) fn clear(&mut self)
        ensures { self.new ≡ [] }
    {
        self.text.clear();
        self.spans.clear();
    }
}
