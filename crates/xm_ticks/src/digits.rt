//! Up to eight digits of a text, read at once. They lie in the bytes of a word, the first in the lowest byte.
ghost use Rattle.std.specs.Prelude.{◌≡◌, ◌+◌, ◌-◌, ◌≤◌, length, take, drop, IfSome};
ghost use Rattle.xm_ticks.specs.Digits.{AreDigits, IsJoined, number_in, digits_word};

/// The number that the first `front` and the last `back` characters of a text write, if they are digits: of eight digits,
/// with zeros before the first ones up to four, and behind the last ones up to four.
#[inline(always)]
pub(crate) fn joined(text: &[u8], front: usize, back: usize) -> Option<u32>
    requires long { 4 ≤ length text.now }
    requires front { front ≤ 4 }
    requires some { 1 ≤ back }
    requires back { back ≤ 4 }
    ensures { IfSome result (λ n. IsJoined (take front text.now) (drop (length text.now - back) text.now) n) }
{
    let first = u64::from(four_at(text, 0)) << (8 * (4 - front)) & 0xffff_ffff;
    let last = u64::from(four_at(text, text.len() - 4) >> (8 * (4 - back)));
    eight_digits(last << 32 | first)
}

/// The four characters from this place on as digits. Another character is more than 9.
fn four_at(text: &[u8], at: usize) -> u32
    requires { at + 4 ≤ length text.now }
    ensures { result ≡ digits_word (take 4 (drop at text.now)) }
{
    u32::from_le_bytes([text[at], text[at + 1], text[at + 2], text[at + 3]]) ^ 0x3030_3030
}

/// The number of eight digits, if none is more than 9: with 0x76 it would reach the highest bit of its byte.
fn eight_digits(word: u64) -> Option<u32>
    ensures digits { IfSome result (λ n. AreDigits 8 word) }
    ensures number { IfSome result (λ n. n ≡ number_in 8 word) }
{
    if (word.wrapping_add(0x7676_7676_7676_7676) | word) & 0x8080_8080_8080_8080 != 0 {
        return None;
    }
    Some(number_of(word))
}

/// The number of eight digits. Each second byte of `pairs` has two of them, and the upper half of a product the sum of two
/// pairs, each at its place.
fn number_of(word: u64) -> u32
    requires { AreDigits 8 word }
    ensures { result ≡ number_in 8 word }
{
    let pairs = word * 10 + (word >> 8);
    let first_and_third = (pairs & 0x0000_00ff_0000_00ff).wrapping_mul((1_000_000 << 32) + 100);
    let second_and_fourth = (pairs >> 16 & 0x0000_00ff_0000_00ff).wrapping_mul((10_000 << 32) + 1);
    (first_and_third.wrapping_add(second_and_fourth) >> 32) as u32
}
