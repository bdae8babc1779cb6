ghost use Rattle.std.specs.Prelude.{◌≡◌, ◌+◌, ◌<◌, ◌≤◌, ◌∷◌, ◌++◌, List, [], length, take, ℕ, decimal};

use itoa::write_digits;
use std::marker::Model;

/// A list of up to `MOST` bytes, held in place without taking memory.
#[derive(Drop)]
pub struct InPlace<const MOST: usize> {
    bytes: [u8; MOST],
    len: usize,
}

impl<const MOST: usize> Model for InPlace<MOST> {
    ghost Value = { List ℕ };

    ghost view = { λ s. take s.len s.bytes };

    ghost invariant = { λ s. s.len ≤ MOST };
}

impl<const MOST: usize> InPlace<MOST> {
    /// Makes an empty list.
    pub fn new() -> Self
        ensures { result ≡ [] }
    {
        InPlace {
            bytes: [0; MOST],
            len: 0,
        }
    }

    /// Returns the number of bytes.
    pub fn len(&self) -> usize
        ensures value { result ≡ length self.now }
        ensures few { length self.now ≤ MOST }
    {
        self.len
    }

    /// Returns the bytes, in order.
    pub fn as_slice(&self) -> &[u8]
        ensures { result.now ≡ self.now }
    {
        &self.bytes[..self.len]
    }

    /// Removes all bytes.
    pub fn clear(&mut self)
        ensures { self.new ≡ [] }
    {
        self.len = 0;
    }

    /// Appends a byte. There is room for it.
    pub fn push_byte(&mut self, byte: u8)
        requires { length self.old < MOST }
        ensures { self.new ≡ self.old ++ byte ∷ [] }
    {
        self.bytes[self.len] = byte;
        self.len += 1;
    }

    /// Appends bytes. There is room for them.
    #[inline(always)]
    pub fn push(&mut self, bytes: &[u8])
        requires { length self.old + length bytes.now ≤ MOST }
        ensures bytes { self.new ≡ self.old ++ bytes.now }
        ensures len { length self.new ≡ length self.old + length bytes.now }
    {
        let start = self.len;
        let end = start + bytes.len();
        let places = &mut self.bytes[..];
        places[start..end].copy_from_slice(bytes);
        self.len = end;
    }

    /// Appends a number in decimal digits, at most 20.
    #[inline(always)]
    pub(crate) fn push_decimal(&mut self, number: u64)
        requires { length self.old + 20 ≤ MOST }
        ensures { self.new ≡ self.old ++ decimal number }
    {
        let end = self.len + decimal_len(number);
        let places = &mut self.bytes[..];
        write_digits(number, places, end);
        self.len = end;
    }
}

/// Returns the number of decimal digits of a number.
#[inline(always)]
fn decimal_len(number: u64) -> usize
    ensures { result ≡ length (decimal number) }
{
    match number.checked_ilog10() {
        Some(tens) => tens as usize + 1,
        None => 1,
    }
}
