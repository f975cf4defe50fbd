//! The header of an order file, which says the format of its records, and that of a carry file.
ghost use Rattle.std.specs.Prelude.{◌≡◌, ◌≢◌, ℕ, ◌+◌, ◌≤◌, length, None, IfOk, IfErr, IfSome, IsSome};
ghost use Rattle.std.specs.Bool.{OnTrue};
ghost use Rattle.csv.specs.Reading.{strip_bom};
ghost use Rattle.csv.specs.Records.{fields_of};
ghost use Rattle.xm_files.specs.Carry.{NoCarryHeader};
ghost use Rattle.xm_files.specs.FileFaults.{is_from_outside};
ghost use Rattle.xm_files.specs.Orders.{IsHeaded, IsUnder, NoHeader, format_of, records_in};
ghost use Rattle.xm_files.specs.Plain.{rest_of};
ghost use Rattle.xm_files.specs.Rows.{is_header};
ghost use Rattle.xm_files.specs.Unread.{csv_left, with_ahead};

use crate::csv_records::CsvRecords;
use crate::file_faults::{FileCause, FileFault};
use crate::marks::Marks;
use crate::order_format::OrderFormat;
use crate::orders::MAX_LINES;
use crate::records::Fields;
use crate::wide::begin_wide;
use csv::ByteRecord;
use std::alloc::Global;

/// The first byte of a byte order mark.
const BYTE_ORDER_MARK: u8 = 0xEF;

/// The format of a text that begins with the line of its header, and what is left of the text from the line feed on that ends the
/// line. It is `None` where the text begins otherwise, which CSV may still read a header from.
pub(crate) fn header_line(text: &[u8]) -> Option<(OrderFormat, &[u8])>
    ensures headed { IfSome result (λ p. IsHeaded (records_in text.now) p.0 (records_in p.1.now)) }
    ensures shorter { IfSome result (λ p. length p.1.now ≤ length text.now) }
{
    match behind_header(text, OrderFormat::First) {
        Some(left) => Some((OrderFormat::First, left)),
        None => Some((
            OrderFormat::Second,
            behind_header(text, OrderFormat::Second)?,
        )),
    }
}

/// What is left of a text from the line feed on that ends the header of a format, where the text begins with its line and has
/// nothing before it.
pub(crate) fn behind_header(text: &[u8], format: OrderFormat) -> Option<&[u8]>
    ensures headed { IfSome result (λ left. IsUnder (records_in text.now) format (records_in left.now)) }
    ensures shorter { IfSome result (λ left. length left.now ≤ length text.now) }
{
    let mut marks = unmarked(text)?;
    let mut fields = Fields::empty(format);
    fields.read_line(&mut marks)?;
    if fields.is_header() {
        Some(marks.left())
    } else {
        None
    }
}

/// A text of which nothing is read yet, where it begins with no byte order mark.
fn unmarked(text: &[u8]) -> Option<Marks<'_>>
    ensures whole { IfSome result (λ marks. rest_of marks ≡ text.now) }
    ensures unmarked { IfSome result (λ _. strip_bom text.now ≡ text.now) }
{
    let marks = Marks::of(text)?;
    let first = *text.first()?;
    if first == BYTE_ORDER_MARK {
        None
    } else {
        Some(marks)
    }
}

/// Sees that a text begins with a record that has more fields than any header.
fn wide_header(text: &[u8]) -> Option<()>
    ensures orders { IfSome result (λ _. (first : ℕ) → NoHeader first (records_in text.now) (record { line = first; cause = FileCause.BadHeader })) }
    ensures carry { IfSome result (λ _. NoCarryHeader (records_in text.now) (record { line = 1; cause = FileCause.BadHeader })) }
{
    begin_wide(&mut unmarked(text)?)?;
    Some(())
}

/// Reads the first record of a text, which has this number, by CSV, where it then waits, unless it is seen to have more fields than any
/// header.
fn csv_first_record<'a>(
    alloc: Global,
    text: &'a [u8],
    first: u32,
) -> Result<CsvRecords<'a>, FileFault>
    requires counted { 1 ≤ first }
    requires short { first + length text.now ≤ MAX_LINES }
    ensures records { IfOk result (λ csv. with_ahead csv.ahead csv.behind ≡ records_in text.now) }
    ensures waits { IfOk result (λ csv. IsSome csv.ahead) }
    ensures line { IfOk result (λ csv. csv.line ≡ first) }
    ensures orders { IfErr result (λ fault. fault.cause ≢ FileCause.OutOfMemory tt → NoHeader first (records_in text.now) fault) }
    ensures carry { first ≡ 1 → IfErr result (λ fault. fault.cause ≢ FileCause.OutOfMemory tt → NoCarryHeader (records_in text.now) fault) }
    ensures memory { IfErr result (λ fault. OnTrue (is_from_outside fault.cause) (fault.line ≡ 0)) }
{
    if wide_header(text).is_some() {
        return Err(no_header(first));
    }
    let mut csv = CsvRecords::of(alloc, text, first);
    match csv.look_ahead() {
        Ok(true) => Ok(csv),
        Ok(false) => Err(no_header(first)),
        Err(wanting) => Err(FileFault::from(wanting)),
    }
}

/// Reads the header of a text, which has this number, by CSV, unless it is seen to have too many fields: its format, and the records
/// behind it.
#[inline(never)]
pub(crate) fn csv_behind_header<'a>(
    alloc: Global,
    text: &'a [u8],
    first: u32,
) -> Result<(OrderFormat, CsvRecords<'a>), FileFault>
    requires counted { 1 ≤ first }
    requires short { first + length text.now ≤ MAX_LINES }
    ensures headed { IfOk result (λ p. IsHeaded (records_in text.now) p.0 (csv_left None p.1).records) }
    ensures line { IfOk result (λ p. (p.1.line ≡ first + 1) × (p.1.line ≤ MAX_LINES)) }
    ensures err { IfErr result (λ fault. fault.cause ≢ FileCause.OutOfMemory tt → NoHeader first (records_in text.now) fault) }
    ensures memory { IfErr result (λ fault. OnTrue (is_from_outside fault.cause) (fault.line ≡ 0)) }
{
    let mut csv = csv_first_record(alloc, text, first)?;
    match format_of(csv.row()) {
        Some(format) => {
            csv.take();
            Ok((format, csv))
        }
        None => Err(no_header(first)),
    }
}

/// Reads the header of a carry file by CSV, unless it is seen to have too many fields: the records behind it.
#[inline(never)]
pub(crate) fn csv_behind_carry_header<'a>(
    alloc: Global,
    text: &'a [u8],
) -> Result<CsvRecords<'a>, FileFault>
    requires { 1 + length text.now ≤ MAX_LINES }
    ensures headed { IfOk result (λ csv. IsUnder (records_in text.now) OrderFormat.Carry (with_ahead csv.ahead csv.behind)) }
    ensures line { IfOk result (λ csv. csv.line ≡ 2) }
    ensures err { IfErr result (λ fault. fault.cause ≢ FileCause.OutOfMemory tt → NoCarryHeader (records_in text.now) fault) }
    ensures memory { IfErr result (λ fault. OnTrue (is_from_outside fault.cause) (fault.line ≡ 0)) }
{
    let mut csv = csv_first_record(alloc, text, 1)?;
    if is_header(OrderFormat::Carry, csv.row()) {
        csv.take();
        Ok(csv)
    } else {
        Err(no_header(1))
    }
}

/// The fault of a file whose first record, which has this number, is no header.
fn no_header(first: u32) -> FileFault
    ensures { result ≡ record { line = first; cause = FileCause.BadHeader } }
{
    FileFault {
        line: first,
        cause: FileCause::BadHeader,
    }
}

/// The format whose header a record is that CSV read.
fn format_of(row: &ByteRecord) -> Option<OrderFormat>
    ensures { result ≡ format_of (fields_of row.now) }
{
    if is_header(OrderFormat::First, row) {
        Some(OrderFormat::First)
    } else if is_header(OrderFormat::Second, row) {
        Some(OrderFormat::Second)
    } else {
        None
    }
}

/// Whether a record that CSV read is the header of a format.
pub(crate) fn is_header(format: OrderFormat, row: &ByteRecord) -> bool
    ensures { result ≡ is_header format (fields_of row.now) }
{
    match Fields::of(format, row) {
        Some(fields) => fields.is_header(),
        None => false,
    }
}
