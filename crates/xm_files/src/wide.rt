//! Records with too many fields, as the first of them show. CSV would read such a record to its end, which may be that of the file.
ghost use Rattle.std.specs.Prelude.{IfSome};
ghost use Rattle.xm_files.specs.Plain.{BeginsWide, rest_of};

use crate::marks::Marks;
use crate::order_format::MOST_COLUMNS;

/// Reads the first fields of a record that has more than any format has columns: each of as many as these ends with a comma.
pub(crate) fn begin_wide(marks: &mut Marks) -> Option<()>
    ensures { IfSome result (λ _. BeginsWide (rest_of marks.old)) }
{
    marks.field(b',')?;
    for _place in 1..MOST_COLUMNS {
        marks.field(b',')?;
    }
    Some(())
}
