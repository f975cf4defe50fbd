//! Columns, whose fields stand at their right edge.
ghost use Rattle.std.specs.Prelude.{◌≡◌, ◌++◌, OnOk};
ghost use Rattle.xm_reason_texts.specs.Blocks.{aligned, aligned_number, aligned_price};

use std::alloc::Allocator;
use xm_memory::OutOfMemory;
use xm_texts::fields::{push_number, push_price, push_space};
use xm_ticks::{Price, TickSize};

/// A field at the right edge of a column of so many characters. One that is longer stands as it is.
pub(crate) fn push_aligned<A: Allocator>(
    text: &mut Vec<u8, A>,
    width: usize,
    field: &[u8],
) -> Result<(), OutOfMemory>
    ensures { OnOk result (text.new.items ≡ text.old.items ++ aligned width field.now) }
{
    for _blank in 0..width.saturating_sub(field.len()) {
        push_space(text)?;
    }
    text.extend_from_slice(field)?;
    Ok(())
}

/// A number in a column.
pub(crate) fn push_aligned_number<A: Allocator + Copy>(
    alloc: A,
    text: &mut Vec<u8, A>,
    width: usize,
    number: u64,
) -> Result<(), OutOfMemory>
    ensures { OnOk result (text.new.items ≡ text.old.items ++ aligned_number width number) }
{
    let mut field = Vec::new(alloc);
    push_number(&mut field, number)?;
    push_aligned(text, width, &field)
}

/// A price in euros in a column.
pub(crate) fn push_aligned_price<A: Allocator + Copy>(
    alloc: A,
    text: &mut Vec<u8, A>,
    width: usize,
    price: Price,
    tick: TickSize,
) -> Result<(), OutOfMemory>
    ensures { OnOk result (text.new.items ≡ text.old.items ++ aligned_price width price tick) }
{
    let mut field = Vec::new(alloc);
    push_price(&mut field, price, tick)?;
    push_aligned(text, width, &field)
}
