//! The records of an order file or a carry file.
ghost use Rattle.std.specs.Prelude.{◌≡◌, ◌≤◌, ◌∷◌, [], drop, ℕ, List, Some, None, length, if◌then◌else◌, ◌==◌, option_map, get_or, IfSome};
ghost use Rattle.std.specs.List.{list_all};
ghost use Rattle.std.specs.Str.{bytes_eq};
ghost use Rattle.csv.specs.Records.{fields_of};
ghost use Rattle.xm_files.specs.Plain.{IsBehind, ReadsLine, rest_of};
ghost use Rattle.xm_files.specs.Rows.{are_empty, columns_of, field, is_header, texts_of, title_of};

use crate::columns::Column;
use crate::marks::Marks;
use crate::order_format::{MOST_COLUMNS, OrderFormat};
use csv::ByteRecord;
use std::marker::Model;

/// The fields of a record of a format. A clause sees them in the order of the format's columns.
#[derive(Drop)]
pub(crate) struct Fields<'a> {
    format: OrderFormat,
    // By column, whatever the format, so that none is looked for. Those of columns that the format doesn't have are empty.
    texts: [&'a [u8]; MOST_COLUMNS],
}

impl<'a> Model for Fields<'a> {
    ghost use Rattle.std.specs.Prelude.{map};
    ghost use Rattle.xm_files.specs.Rows.{HasNoOthers, RecordFields, columns_of, field};

    ghost Value = { RecordFields };

    ghost view = { λ f. record { format = f.format; in_order = map (λ column. field column (map (λ text. text.now) f.texts)) (columns_of f.format) } };

    ghost invariant = { λ f. HasNoOthers (columns_of f.format) (map (λ text. text.now) f.texts) };
}

impl<'a> Fields<'a> {
    /// The record that CSV read, if it has a field for each column.
    pub(crate) fn of(format: OrderFormat, row: &'a ByteRecord) -> Option<Fields<'a>>
        ensures fields { option_map (λ fields. fields.in_order) result ≡ (if length (fields_of row.now) == length (columns_of format) then Some (fields_of row.now) else None) }
        ensures format { IfSome result (λ fields. fields.format ≡ format) }
    {
        let columns = format.columns();
        if row.len() != columns.len() {
            return None;
        }
        let mut texts: [&[u8]; MOST_COLUMNS] = [&[]; MOST_COLUMNS];
        for place in 0..columns.len() {
            texts[columns[place].index()] = text_at(row, place);
        }
        Some(Fields { format, texts })
    }

    /// A record of empty fields.
    pub(crate) fn empty(format: OrderFormat) -> Fields<'a>
        ensures { result.format ≡ format }
    {
        Fields {
            format,
            texts: [&[]; MOST_COLUMNS],
        }
    }

    /// The fields become those of the next line, which is read with the line feed that ends it. It is `None` where the
    /// line has another number of fields than columns, a quote or a carriage return, or no line feed at its end, and in the
    /// last bytes of a text.
    #[inline(always)]
    pub(crate) fn read_line(&mut self, line: &mut Marks<'a>) -> Option<()>
        ensures text { line.new.text ≡ line.old.text }
        ensures format { self.new.format ≡ self.old.format }
        ensures line { IfSome result (λ _. ReadsLine (rest_of line.old) self.new.in_order (rest_of line.new)) }
        ensures count { IfSome result (λ _. length self.new.in_order ≡ length (columns_of self.old.format)) }
        ensures behind { IfSome result (λ _. IsBehind 10 line.new) }
    {
        match self.format {
            OrderFormat::First => self.read_fields(OrderFormat::First, line),
            OrderFormat::Second => self.read_fields(OrderFormat::Second, line),
            OrderFormat::Carry => self.read_fields(OrderFormat::Carry, line),
        }
    }

    /// The same where the format is known, for which it is written out, so that no field asks for it.
    #[inline(always)]
    fn read_fields(&mut self, format: OrderFormat, line: &mut Marks<'a>) -> Option<()>
        requires { self.old.format ≡ format }
        ensures text { line.new.text ≡ line.old.text }
        ensures format { self.new.format ≡ format }
        ensures line { IfSome result (λ _. ReadsLine (rest_of line.old) self.new.in_order (rest_of line.new)) }
        ensures count { IfSome result (λ _. length self.new.in_order ≡ length (columns_of format)) }
        ensures behind { IfSome result (λ _. IsBehind 10 line.new) }
    {
        let columns = format.columns();
        let last = columns.len() - 1;
        self.texts[columns[0].index()] = line.field(b',')?;
        for place in 1..last {
            self.texts[columns[place].index()] = line.field(b',')?;
        }
        self.texts[columns[last].index()] = line.field(b'\n')?;
        Some(())
    }

    /// The format of the record.
    #[inline(always)]
    pub(crate) fn format(&self) -> OrderFormat
        ensures { result ≡ self.now.format }
    {
        self.format
    }

    /// The field in a column.
    #[inline(always)]
    pub(crate) fn text(&self, column: Column) -> &'a [u8]
        ensures { result.now ≡ field column (texts_of self.now) }
    {
        self.texts[column.index()]
    }

    /// Whether the fields in these columns are empty.
    #[inline(always)]
    pub(crate) fn are_empty(&self, columns: &[Column]) -> bool
        ensures { result ≡ are_empty columns.now (texts_of self.now) }
    {
        columns.iter().all(|column| self.text(*column).is_empty())
    }

    /// Whether it is the header: the field of each column is the column's title.
    pub(crate) fn is_header(&self) -> bool
        ensures { result ≡ is_header self.now.format self.now.in_order }
    {
        has_titles(self, self.format.columns())
    }
}

/// Whether the field of each of these columns is the column's title.
fn has_titles(fields: &Fields, columns: &[Column]) -> bool
    ensures { result ≡ list_all (λ column. bytes_eq (field column (texts_of fields.now)) (title_of column)) columns.now }
{
    columns
        .iter()
        .all(|column| fields.text(*column) == column.title().as_bytes())
}

/// The field of a record of CSV at a place, which it has.
pub(crate) fn text_at(row: &ByteRecord, place: usize) -> &[u8]
    ensures { result.now ≡ get_or (fields_of row.now) place [] }
{
    match row.get(place) {
        Some(text) => text,
        None => &[],
    }
}
