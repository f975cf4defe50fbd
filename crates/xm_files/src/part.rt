//! How far an order file is read on.
ghost use Rattle.std.specs.Prelude.{◌≡◌};
ghost use Rattle.xm_files.specs.Parts.{ends_before, is_whole_part};
ghost use Rattle.xm_files.specs.Rows.{field, texts_of};
ghost use Rattle.xm_files.specs.declared.columns.Column.TheVariants as column;

use crate::batch::Batch;
use crate::columns::Column;
use crate::entries::names_members_command;
use crate::records::Fields;

/// How far an order file is read on at once.
#[derive(Clone, Copy, PartialEq, Eq, Debug)]
pub enum Part {
    /// Until there are so many rows.
    Rows(usize),
    /// The next round: as many members' rows as follow one another, and as many phase rows after them.
    Round,
}

impl Part {
    /// Whether so many rows are a whole part, whatever comes after them.
    #[inline(always)]
    pub(crate) fn is_whole_part(self, count: usize) -> bool
        ensures { result ≡ is_whole_part self count }
    {
        match self {
            Part::Rows(most) => most <= count,
            Part::Round => false,
        }
    }

    /// Whether a part whose rows are those of a batch ends before a record.
    #[inline(always)]
    pub(crate) fn ends_before(self, batch: &Batch, fields: &Fields) -> bool
        ensures { result ≡ ends_before self batch.now.rows (field column.Command (texts_of fields.now)) }
    {
        match self {
            Part::Rows(_) => false,
            Part::Round => {
                batch.ends_with_phase() && names_members_command(fields.text(Column::Command))
            }
        }
    }
}
