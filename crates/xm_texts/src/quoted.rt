//! Fields of CSV that stand in quotation marks where they must.
ghost use Rattle.std.specs.Prelude.{◌≡◌, ◌++◌, OnOk};
ghost use Rattle.std.specs.List.{flat_map, list_any};
ghost use Rattle.xm_texts.specs.RowAnswers.{byte_in_quotes, quoted_field};
ghost use Rattle.xm_files.specs.Plain.{is_mark};

use std::alloc::Allocator;
use xm_memory::OutOfMemory;

/// The quotation mark of CSV.
const QUOTE: u8 = b'"';

/// A field as CSV writes it.
pub fn push_field<A: Allocator>(text: &mut Vec<u8, A>, field: &[u8]) -> Result<(), OutOfMemory>
    ensures { OnOk result (text.new.items ≡ text.old.items ++ quoted_field field.now) }
{
    if !has_mark(field) {
        text.extend_from_slice(field)?;
        return Ok(());
    }
    text.push(QUOTE)?;
    push_in_quotes(text, field)?;
    text.push(QUOTE)?;
    Ok(())
}

/// Whether a field has a byte for which it stands in quotation marks.
fn has_mark(field: &[u8]) -> bool
    ensures { result ≡ list_any is_mark field.now }
{
    field.iter().any(|byte| is_mark(*byte))
}

/// Whether a field with this byte stands in quotation marks.
fn is_mark(byte: u8) -> bool
    ensures { result ≡ is_mark byte }
{
    byte == b'\n' || byte == b'\r' || byte == QUOTE || byte == b','
}

/// The bytes of a field between its quotation marks.
fn push_in_quotes<A: Allocator>(text: &mut Vec<u8, A>, field: &[u8]) -> Result<(), OutOfMemory>
    ensures { OnOk result (text.new.items ≡ text.old.items ++ flat_map byte_in_quotes field.now) }
{
    for byte in field {
        push_byte_in_quotes(text, *byte)?;
    }
    Ok(())
}

/// A byte of a field between its quotation marks.
fn push_byte_in_quotes<A: Allocator>(text: &mut Vec<u8, A>, byte: u8) -> Result<(), OutOfMemory>
    ensures { OnOk result (text.new.items ≡ text.old.items ++ byte_in_quotes byte) }
{
    if byte != QUOTE {
        text.push(byte)?;
        return Ok(());
    }
    text.push(QUOTE)?;
    text.push(QUOTE)?;
    Ok(())
}
