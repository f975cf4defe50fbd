//! The rows of an order file, a batch at a time.
ghost use Rattle.std.specs.Prelude.{◌≡◌, ◌+◌, ◌<◌, ◌≤◌, ◌∷◌, ◌++◌, [], OnOk, length};
ghost use Rattle.xm_files.specs.Batches.{rows_so_far};
ghost use Rattle.xm_files.specs.Timetable.{ends_with_phase};

use crate::orders::MAX_ROWS;
use crate::timetable::is_of_member;
use std::alloc::Global;
use std::marker::Model;
use std::mem;
use std::snapshot::Snapshot;
use xm_config::Row;
use xm_memory::OutOfMemory;

/// The batches before one. A snapshot has no bytes.
#[derive(Drop)]
enum Earlier {
    Nothing,
    Batch(Snapshot<Vec<Row>>, Snapshot<Earlier>),
}

/// The rows that were read last of an order file. How many were read before them is kept; which they were, a clause alone
/// sees.
pub struct Batch {
    rows: Vec<Row>,
    earlier: Earlier,
    // How many rows the batches before have.
    count: usize,
}

// In a function of its own, so that whoever drops one proves one call.
impl Drop for Batch {
    fn drop(self) {
        let Batch {
            rows: _rows,
            earlier: _earlier,
            count: _,
        } = self;
    }
}

impl Model for Batch {
    ghost use Rattle.std.specs.Prelude.{◌≡◌, ◌+◌, ◌≤◌, length};
    ghost use Rattle.xm_files.specs.Batches.{RowsRead, earlier_rows};
    ghost use Rattle.xm_files.specs.Orders.{max_rows};

    ghost Value = { RowsRead };

    ghost view = { λ b. record { earlier = earlier_rows b.earlier; rows = b.rows.items } };

    ghost invariant = { λ b. record {
      counted : b.count ≡ length (earlier_rows b.earlier);
      few : b.count + length b.rows.items ≤ max_rows;
    } };
}

impl Batch {
    /// No rows.
    pub fn new(alloc: Global) -> Batch
        ensures { result ≡ record { earlier = []; rows = [] } }
    {
        Batch {
            rows: Vec::new(alloc),
            earlier: Earlier::Nothing,
            count: 0,
        }
    }

    /// The rows of the batch.
    pub fn rows(&self) -> &[Row]
        ensures { result.now ≡ self.now.rows }
    {
        self.rows.as_slice()
    }

    /// How many rows the batch has.
    pub(crate) fn len(&self) -> usize
        ensures { result ≡ length self.now.rows }
    {
        self.rows.len()
    }

    /// How many rows were read, those of the batches before among them.
    pub fn total(&self) -> usize
        ensures total { result ≡ length (rows_so_far self.now) }
        ensures few { result ≤ MAX_ROWS }
    {
        self.count + self.rows.len()
    }

    /// Whether the last row of the batch is one of the phases.
    pub(crate) fn ends_with_phase(&self) -> bool
        ensures { result ≡ ends_with_phase self.now.rows }
    {
        let count = self.rows.len();
        count > 0 && !is_of_member(&self.rows[count - 1])
    }

    /// Begins another batch. The room of this one stays.
    pub(crate) fn begin(&mut self)
        ensures { self.new ≡ record { earlier = rows_so_far self.old; rows = [] } }
    {
        let earlier = mem::replace(&mut self.earlier, Earlier::Nothing);
        self.earlier = Earlier::Batch(Snapshot::of(&self.rows), Snapshot::of(&earlier));
        self.count += self.rows.len();
        self.rows.clear();
    }

    /// Becomes an empty batch behind another one. The room of this one stays.
    pub fn follow(&mut self, before: &Batch)
        ensures { self.new ≡ record { earlier = rows_so_far before.now; rows = [] } }
    {
        let total = before.total();
        self.earlier = Earlier::Batch(Snapshot::of(&before.rows), Snapshot::of(&before.earlier));
        self.count = total;
        self.rows.clear();
    }

    /// Forgets all rows. The room stays.
    pub(crate) fn forget(&mut self)
        ensures { self.new ≡ record { earlier = []; rows = [] } }
    {
        self.earlier = Earlier::Nothing;
        self.count = 0;
        self.rows.clear();
    }

    /// Adds a row.
    #[inline(always)]
    pub(crate) fn push(&mut self, row: Row) -> Result<(), OutOfMemory>
        requires { length (rows_so_far self.old) < MAX_ROWS }
        ensures { OnOk result (self.new ≡ record self.old { rows = self.old.rows ++ row ∷ [] }) }
    {
        self.rows.reserve(1)?;
        self.rows.push_reserved(row);
        Ok(())
    }

    /// Adds these rows.
    pub(crate) fn add_rows(&mut self, rows: &[Row]) -> Result<(), OutOfMemory>
        requires { length (rows_so_far self.old) + length rows.now ≤ MAX_ROWS }
        ensures { OnOk result (self.new ≡ record self.old { rows = self.old.rows ++ rows.now }) }
    {
        self.rows.extend_from_slice(rows)?;
        Ok(())
    }

    /// The rows of the batch, kept.
    pub(crate) fn into_rows(self) -> Vec<Row>
        ensures rows { result.items ≡ self.rows }
        ensures few { length result.items ≤ MAX_ROWS }
    {
        let Batch {
            rows,
            earlier: _,
            count: _,
        } = self;
        rows
    }
}
