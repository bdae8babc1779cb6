//! Numbers whose digits are read eight at a time.
ghost use Rattle.std.specs.Prelude.{◌≡◌, ℕ, ◌+◌, ◌≤◌, ◌++◌, List, length, drop, decimal, IfSome};
ghost use Rattle.std.specs.Int.{w64, from_le_bytes};
ghost use Rattle.core.specs.Int.Digits.{number_from_digits};
ghost use Rattle.core.specs.Dec2flt.Digits.{IsEightBytes, IsEightDigits};
ghost use Rattle.text_lines.specs.Inner.Digits.{IsDigitsSoFar};

use core::dec2flt::ten_to;

/// The digit 0 in each byte.
const ZEROS: u64 = 0x3030_3030_3030_3030;

/// All bits but the highest of each byte.
const LOW_BITS: u64 = 0x7f7f_7f7f_7f7f_7f7f;

/// Added to a byte, carries 10 and above into its highest bit.
const TO_HIGH: u64 = 0x7676_7676_7676_7676;

/// The highest bit of each byte.
const HIGH_BITS: u64 = 0x8080_8080_8080_8080;

/// Returns the number that eight digits spell, the first in the lowest byte. Combines digits to pairs, pairs to
/// fours, and fours to eight.
#[inline(always)]
fn value_of_digits(word: u64) -> u64
    ensures { (digits : List ℕ) → IsEightDigits digits → word ≡ from_le_bytes w64 digits
        → result ≡ number_from_digits 10 digits }
{
    let pairs = word.wrapping_mul(10).wrapping_add(word >> 8);
    let outer = (pairs & 0xff_0000_00ff).wrapping_mul(100 + (1_000_000 << 32));
    let inner = ((pairs >> 16) & 0xff_0000_00ff).wrapping_mul(1 + (10_000 << 32));
    outer.wrapping_add(inner) >> 32
}

/// Returns the number of digits that eight bytes begin with, and their value.
#[inline(always)]
fn digits_in(bytes: &[u8; 8]) -> (usize, u64)
    ensures digits { IsDigitsSoFar bytes.now result.0 result.1 }
    ensures most { result.0 ≤ 8 }
{
    let lanes = u64::from_le_bytes(*bytes) ^ ZEROS;
    let others = ((lanes & LOW_BITS) + TO_HIGH | lanes) & HIGH_BITS;
    let count = others.trailing_zeros() / 8;
    if count == 0 {
        return (0, 0);
    }
    (count as usize, value_of_digits(lanes << (64 - 8 * count)))
}

/// Returns the number of digits at `at`, up to eight, and their value.
#[inline(always)]
fn eight_digits_at(bytes: &[u8], at: usize) -> (usize, u64)
    requires { at + 8 ≤ length bytes.now }
    ensures digits { IsDigitsSoFar (drop at bytes.now) result.0 result.1 }
    ensures most { result.0 ≤ 8 }
{
    match bytes[at..at + 8].first_chunk() {
        Some(eight) => digits_in(eight),
        None => (0, 0),
    }
}

/// Reads up to eight more digits after `count` of them at `at`. Returns the number of all digits, and their value, if
/// that is in range.
#[inline(always)]
fn more_digits_at(bytes: &[u8], at: usize, count: usize, value: u64) -> Option<(usize, u64)>
    requires room { at + count + 8 ≤ length bytes.now }
    requires so_far { IsDigitsSoFar (drop at bytes.now) count value }
    ensures digits { IfSome result (λ p. IsDigitsSoFar (drop at bytes.now) p.0 p.1) }
    ensures most { IfSome result (λ p. p.0 ≤ count + 8) }
{
    let (more, next) = eight_digits_at(bytes, at + count);
    let value = value.checked_mul(ten_to(more as u64))?.checked_add(next)?;
    Some((count + more, value))
}

/// Returns the number of digits at `at`, up to 24, and their value, if that is in range.
#[inline(always)]
fn digits_at(bytes: &[u8], at: usize) -> Option<(usize, u64)>
    requires { at + 24 ≤ length bytes.now }
    ensures digits { IfSome result (λ p. IsDigitsSoFar (drop at bytes.now) p.0 p.1) }
    ensures most { IfSome result (λ p. p.0 ≤ 24) }
{
    let (count, value) = eight_digits_at(bytes, at);
    if count != 8 {
        return Some((count, value));
    }
    let (count, value) = more_digits_at(bytes, at, count, value)?;
    if count != 16 {
        return Some((count, value));
    }
    more_digits_at(bytes, at, count, value)
}

/// Parses the number at `at`, which isn't 0. Returns it with the place after its digits.
///
/// Digits are read eight at a time, which is why there must be more bytes than a number has digits.
#[inline(always)]
pub fn number_at(bytes: &[u8], at: usize) -> Option<(u64, usize)>
    requires { at + 24 ≤ length bytes.now }
    ensures number { IfSome result (λ p. drop at bytes.now ≡ decimal p.0 ++ drop p.1 bytes.now) }
    ensures end { IfSome result (λ p. p.1 ≤ at + 24) }
{
    if bytes[at] == b'0' {
        return None;
    }
    let (count, value) = digits_at(bytes, at)?;
    if count == 0 {
        return None;
    }
    Some((value, at + count))
}
