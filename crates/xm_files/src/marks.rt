//! The marks of a text, found 64 bytes at a time.
ghost use Rattle.std.specs.Prelude.{◌≡◌, ℕ, ◌+◌, ◌<◌, ◌≤◌, IfSome, get_or, length, true};
ghost use Rattle.std.specs.Int.{bit_at};
ghost use Rattle.xm_files.specs.Plain.{EndsAt, IsBehind, IsMarked, IsNextMark, is_mark, left_of, rest_of};
ghost use Rattle.xm_files.specs.declared.marks.TheConstants.{BLOCK};

use std::marker::Model;
use std::simd::prelude::*;

/// How many bytes are looked at together.
const BLOCK: usize = 64;

/// A text that is read from mark to mark: line feeds, carriage returns, quotes and commas. A clause sees the text and the
/// place up to which it is read.
#[derive(Drop)]
pub(crate) struct Marks<'a> {
    text: &'a [u8],
    at: usize,
    // Where the block at hand begins, and a bit for each of its marks that isn't read yet.
    block: usize,
    bits: u64,
}

impl<'a> Model for Marks<'a> {
    ghost use Rattle.xm_files.specs.Plain.{IsMarked, TextFrom};

    ghost Value = { TextFrom };

    ghost view = { λ m. record { text = m.text.now; at = m.at } };

    ghost invariant = { λ m. IsMarked m.text.now m.at m.block m.bits };
}

impl<'a> Marks<'a> {
    /// A text of which nothing is read yet, or `None` where it is shorter than a block.
    pub(crate) fn of(text: &'a [u8]) -> Option<Marks<'a>>
        ensures { IfSome result (λ marks. marks ≡ record { text = text.now; at = 0 }) }
    {
        if text.len() < BLOCK {
            return None;
        }
        Some(Marks {
            text,
            at: 0,
            block: 0,
            bits: block_marks(text, 0),
        })
    }

    /// What isn't read yet, with the byte before it.
    pub(crate) fn left(&self) -> &'a [u8]
        ensures { result.now ≡ left_of self.now }
    {
        &self.text[self.at.saturating_sub(1)..]
    }

    /// The field that comes next, where this mark ends it. The last 63 bytes of a text have no such field.
    #[inline(always)]
    pub(crate) fn field(&mut self, mark: u8) -> Option<&'a [u8]>
        ensures text { self.new.text ≡ self.old.text }
        ensures field { IfSome result (λ field. EndsAt mark (rest_of self.old) field.now (rest_of self.new)) }
        ensures behind { IfSome result (λ _. IsBehind mark self.new) }
    {
        let from = self.at;
        let at = self.next()?;
        if self.text[at] != mark {
            return None;
        }
        Some(&self.text[from..at])
    }

    /// The place of the next mark, which then is read.
    #[inline(always)]
    fn next(&mut self) -> Option<usize>
        ensures text { self.new.text ≡ self.old.text }
        ensures next { IfSome result (IsNextMark self.old) }
        ensures read { IfSome result (λ at. self.new ≡ record self.old { at = at + 1 }) }
    {
        let (block, bits) = self.ahead()?;
        let at = block + bits.trailing_zeros() as usize;
        self.block = block;
        self.bits = bits & (bits - 1); // The lowest bit is read.
        self.at = at + 1;
        Some(at)
    }

    /// Where the block of the next mark begins, and a bit for each of its marks that isn't read yet. It is `None` where no whole
    /// block has one.
    #[inline(always)]
    fn ahead(&self) -> Option<(usize, u64)>
        ensures marked { IfSome result (λ ahead. IsMarked self.now.text self.now.at ahead.0 ahead.1) }
        ensures some { IfSome result (λ ahead. 0 < ahead.1) }
    {
        if self.bits != 0 {
            return Some((self.block, self.bits));
        }
        let (block, bits) = marked_block(self.text, self.block);
        if bits == 0 { None } else { Some((block, bits)) }
    }
}

/// The first block behind one that has a mark, or the last one: where it begins, and a bit for each of its marks.
#[inline(never)]
fn marked_block(text: &[u8], behind: usize) -> (usize, u64)
    requires { behind + BLOCK ≤ length text.now }
    ensures { IsMarked text.now (behind + BLOCK) result.0 result.1 }
{
    let mut block = behind;
    while text.len() - block >= 2 * BLOCK {
        block += BLOCK;
        let bits = block_marks(text, block);
        if bits != 0 {
            return (block, bits);
        }
    }
    (block, 0)
}

/// A bit for each mark of the block that begins at a place.
#[inline(always)]
fn block_marks(text: &[u8], block: usize) -> u64
    requires { block + BLOCK ≤ length text.now }
    ensures { (k : ℕ) → k < BLOCK → is_mark (get_or text.now (block + k) 0) ≡ true → bit_at result k ≡ 1 }
{
    marks_of(u8x64::from_slice(&text[block..block + BLOCK]))
}

/// A bit for each mark of a block.
#[inline(always)]
fn marks_of(block: u8x64) -> u64
    ensures { (k : ℕ) → k < BLOCK → is_mark (get_or block k 0) ≡ true → bit_at result k ≡ 1 }
{
    let ends = block.simd_eq(u8x64::splat(b'\n')) | block.simd_eq(u8x64::splat(b','));
    let others = block.simd_eq(u8x64::splat(b'\r')) | block.simd_eq(u8x64::splat(b'"'));
    (ends | others).to_bitmask()
}
