//! The next bit of one word.
ghost use Rattle.std.specs.Prelude.{◌≡◌, ℕ, ◌<◌, ◌≤◌, IfNone, IfSome};
ghost use Rattle.std.specs.Int.{bit_at};
ghost use Rattle.xm_price_maps.specs.Marks.{IsBitAbove, IsBitBelow};

/// The first bit above bit `k`.
#[inline(always)]
pub fn bit_above(word: u64, k: usize) -> Option<usize>
    requires { k < 64 }
    ensures some { IfSome result (IsBitAbove word k) }
    ensures none { IfNone result ((i : ℕ) → k < i → bit_at word i ≡ 0) }
{
    let rest = word >> k >> 1;
    if rest == 0 {
        None
    } else {
        Some(k + 1 + rest.trailing_zeros() as usize)
    }
}

/// The last bit below bit `k`.
#[inline(always)]
pub fn bit_below(word: u64, k: usize) -> Option<usize>
    requires { k < 64 }
    ensures some { IfSome result (IsBitBelow word k) }
    ensures none { IfNone result ((i : ℕ) → i < k → bit_at word i ≡ 0) }
{
    let rest = word & ((1 << k) - 1);
    if rest == 0 {
        None
    } else {
        Some(rest.ilog2() as usize)
    }
}

/// The first bit of a word that has one.
#[inline(always)]
pub fn first_bit(word: u64) -> usize
    requires { 0 < word }
    ensures within { result < 64 }
    ensures marked { bit_at word result ≡ 1 }
    ensures first { (i : ℕ) → i < result → bit_at word i ≡ 0 }
{
    word.trailing_zeros() as usize
}

/// The last bit of a word that has one.
#[inline(always)]
pub fn last_bit(word: u64) -> usize
    requires { 0 < word }
    ensures within { result < 64 }
    ensures marked { bit_at word result ≡ 1 }
    ensures last { (i : ℕ) → result < i → bit_at word i ≡ 0 }
{
    word.ilog2() as usize
}
