//! The pieces that the lines of the statement and of the carry file are put together from.
ghost use Rattle.std.specs.Prelude.{◌≡◌, ◌+◌, ◌/◌, ◌%◌, ◌<◌, ◌++◌, ◌∷◌, [], Ok, OnOk, codes};
ghost use Rattle.std.specs.Fmt.{decimal};
ghost use Rattle.xm_texts.specs.Statement.{name_at, party_text};
ghost use Rattle.xm_ticks.specs.Writing.{money_text, price_text};

use itoa::Buffer;
use std::alloc::Allocator;
use std::io;
use xm_files::SegmentNames;
use xm_memory::OutOfMemory;
use xm_ticks::{Price, TickSize, write_money, write_price};

/// A number. Most have four digits or less, which are written where they stand.
pub fn push_number<A: Allocator>(text: &mut Vec<u8, A>, number: u64) -> Result<(), OutOfMemory>
    ensures { OnOk result (text.new.items ≡ text.old.items ++ decimal number) }
{
    if number < 10 {
        return push_digit(text, number);
    }
    if number < 100 {
        return push_pair(text, number);
    }
    if number < 1_000 {
        push_digit(text, number / 100)?;
        return push_pair(text, number % 100);
    }
    if number < 10_000 {
        push_pair(text, number / 100)?;
        return push_pair(text, number % 100);
    }
    push_long(text, number)
}

/// A number, whatever its length.
#[inline(never)]
fn push_long<A: Allocator>(text: &mut Vec<u8, A>, number: u64) -> Result<(), OutOfMemory>
    ensures { OnOk result (text.new.items ≡ text.old.items ++ decimal number) }
{
    let mut digits = Buffer::new();
    push_text(text, digits.format(number))
}

/// Two digits.
#[inline(always)]
fn push_pair<A: Allocator>(text: &mut Vec<u8, A>, number: u64) -> Result<(), OutOfMemory>
    requires { number < 100 }
    ensures { OnOk result (text.new.items ≡ text.old.items ++ (48 + number / 10) ∷ (48 + number % 10) ∷ []) }
{
    push_digit(text, number / 10)?;
    push_digit(text, number % 10)
}

/// A digit.
#[inline(always)]
fn push_digit<A: Allocator>(text: &mut Vec<u8, A>, digit: u64) -> Result<(), OutOfMemory>
    requires { digit < 10 }
    ensures { OnOk result (text.new.items ≡ text.old.items ++ (48 + digit) ∷ []) }
{
    text.push(b'0' + digit as u8)?;
    Ok(())
}

/// A price in euros.
pub fn push_price<A: Allocator>(
    text: &mut Vec<u8, A>,
    price: Price,
    tick: TickSize,
) -> Result<(), OutOfMemory>
    ensures { OnOk result (text.new.items ≡ text.old.items ++ price_text price tick) }
{
    written(write_price(text, price, tick))
}

/// Ten-thousandths of a euro, in euros.
pub fn push_money<A: Allocator>(text: &mut Vec<u8, A>, money: i128) -> Result<(), OutOfMemory>
    ensures { OnOk result (text.new.items ≡ text.old.items ++ money_text money) }
{
    written(write_money(text, money))
}

/// What a text answers that is written to, whose only error is that its growth was refused.
pub fn written(answer: io::Result<()>) -> Result<(), OutOfMemory>
    ensures { OnOk result (answer ≡ Ok tt) }
{
    match answer {
        Ok(()) => Ok(()),
        Err(error) => Err(OutOfMemory::told_by(&error)),
    }
}

/// A member's name and the reference that it gave an order.
#[inline(always)]
pub fn push_party<A: Allocator>(
    text: &mut Vec<u8, A>,
    names: &SegmentNames,
    member: u32,
    reference: u32,
) -> Result<(), OutOfMemory>
    ensures { OnOk result (text.new.items ≡ text.old.items ++ party_text names.now member reference) }
{
    push_text(text, member_name(names, member))?;
    push_space(text)?;
    push_number(text, u64::from(reference))
}

/// A space.
pub fn push_space<A: Allocator>(text: &mut Vec<u8, A>) -> Result<(), OutOfMemory>
    ensures { OnOk result (text.new.items ≡ text.old.items ++ codes " ") }
{
    text.push(b' ')?;
    Ok(())
}

/// The comma between two fields.
pub fn push_comma<A: Allocator>(text: &mut Vec<u8, A>) -> Result<(), OutOfMemory>
    ensures { OnOk result (text.new.items ≡ text.old.items ++ codes ",") }
{
    text.push(b',')?;
    Ok(())
}

/// The end of a line.
pub fn push_line_feed<A: Allocator>(text: &mut Vec<u8, A>) -> Result<(), OutOfMemory>
    ensures { OnOk result (text.new.items ≡ text.old.items ++ codes "\n") }
{
    text.push(b'\n')?;
    Ok(())
}

/// Adds a text as it is, which a statement's many short pieces take less time for than for a format.
pub fn push_text<A: Allocator>(text: &mut Vec<u8, A>, more: &str) -> Result<(), OutOfMemory>
    ensures { OnOk result (text.new.items ≡ text.old.items ++ more.now) }
{
    text.extend_from_slice(more.as_bytes())?;
    Ok(())
}

/// The name of a member, or no text where there is none.
pub fn member_name(names: &SegmentNames, member: u32) -> &str
    ensures { result.now ≡ name_at names.now.members member }
{
    match names.member(member) {
        Some(name) => name,
        None => "",
    }
}

/// The name of a security, or no text where there is none.
pub fn security_name(names: &SegmentNames, security: u32) -> &str
    ensures { result.now ≡ name_at names.now.securities security }
{
    match names.security(security) {
        Some(name) => name,
        None => "",
    }
}
