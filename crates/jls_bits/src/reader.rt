//! Reading the data bits of bytes.

ghost use Rattle.std.specs.Prelude.{◌≡◌, ◌↔◌, ℕ, ◌^◌, ◌≤◌, true, List, [], ◌∷◌, ◌++◌, length, IfSome, IfNone};
ghost use Rattle.jls_bits.specs.Bits.{bits, bits_read, bits_read_after, is_whole, is_whole_after, BelowMarkers};

use crate::stuffing::{ends_data, width_after};
use std::marker::Model;

/// Reads the data bits of bytes in their order, the most significant bit of each byte first. They end before a byte
/// of 0x80 or more that follows 0xFF (ITU-T T.87, A.1).
#[derive(Drop)]
pub struct BitReader<'a> {
    /// The bytes after `byte`.
    rest: &'a [u8],
    /// The last byte that was taken from the input, or 0 before the first.
    byte: u8,
    /// How many of the low bits of `byte` have not been read.
    count: u8,
}

impl<'a> Model for BitReader<'a> {
    ghost use Rattle.std.specs.Prelude.{◌≤◌, ◌++◌};
    ghost use Rattle.jls_bits.specs.Bits.{bits, bits_read_after, is_whole_after};
    ghost use Rattle.jls_bits.specs.Unread.{Unread};

    ghost Value = { Unread };

    ghost view = { λ r. record {
      left = bits r.count r.byte ++ bits_read_after r.byte r.rest.now;
      whole = is_whole_after r.byte r.rest.now;
    } };

    ghost invariant = { λ r. r.count ≤ 8 };
}

/// The next byte with data bits, how many of its low bits those are, and the bytes after it.
#[tactic(auto, using(crate::proofs::DataBits::data_laws))]
fn next_byte(before: u8, bytes: &[u8]) -> Option<(u8, u8, &[u8])>
    ensures bits { IfSome result (λ x. bits_read_after before bytes.now ≡ bits x.1 x.0 ++ bits_read_after x.0 x.2.now) }
    ensures whole { IfSome result (λ x. is_whole_after before bytes.now ≡ is_whole_after x.0 x.2.now) }
    ensures count { IfSome result (λ x. (7 ≤ x.1) × (x.1 ≤ 8)) }
    ensures none { IfNone result (bits_read_after before bytes.now ≡ []) }
{
    match bytes.split_first() {
        None => None,
        Some((next, rest)) => {
            if ends_data(before, *next) {
                None
            } else {
                Some((*next, width_after(before), rest))
            }
        }
    }
}

/// How many data bits the bytes after `before` have, up to the first byte that ends the data.
#[tactic(auto, using(crate::proofs::DataBits::data_laws))]
fn count_bits(before: u8, bytes: &[u8]) -> u128
    ensures count { result ≡ length (bits_read_after before bytes.now) }
    ensures bounded { result ≤ 2 ^ 67 }
{
    let mut count = 0;
    let mut before = before;
    for next in bytes {
        if ends_data(before, *next) {
            return count;
        }
        count += width_after(before) as u128;
        before = *next;
    }
    count
}

/// Whether none of the bytes after `before` ends the data.
#[tactic(auto, using(crate::proofs::DataBits::data_laws))]
fn is_whole_from(before: u8, bytes: &[u8]) -> bool
    ensures { result ≡ is_whole_after before bytes.now }
{
    let mut before = before;
    for next in bytes {
        if ends_data(before, *next) {
            return false;
        }
        before = *next;
    }
    true
}

impl<'a> BitReader<'a> {
    /// A reader of the bits of these bytes, up to the first byte of 0x80 or more that follows 0xFF.
    #[tactic(auto, using(crate::proofs::DataBits::data_laws))]
    pub fn over(bytes: &'a [u8]) -> BitReader<'a>
        ensures left { result.left ≡ bits_read bytes.now }
        ensures whole { result.whole ≡ is_whole bytes.now }
    {
        BitReader {
            rest: bytes,
            byte: 0,
            count: 0,
        }
    }

    /// The next data bit. None where none is left, then and from then on.
    #[tactic(auto, using(crate::proofs::DataBits::data_laws))]
    pub fn read_bit(&mut self) -> Option<bool>
        ensures some { IfSome result (λ b. self.old.left ≡ b ∷ self.new.left) }
        ensures none { IfNone result ((self.old.left ≡ []) × (self.new.left ≡ [])) }
        ensures whole { self.new.whole ≡ self.old.whole }
    {
        if self.count > 0 {
            self.count -= 1;
            return Some((self.byte >> self.count) % 2 == 1);
        }
        match next_byte(self.byte, self.rest) {
            None => None,
            Some((byte, count, rest)) => {
                self.byte = byte;
                self.count = count - 1;
                self.rest = rest;
                Some((byte >> (count - 1)) % 2 == 1)
            }
        }
    }

    /// How many data bits can still be read. It goes over the bytes that are left.
    #[tactic(auto, using(crate::proofs::DataBits::data_laws))]
    pub fn left(&self) -> u128
        ensures { result ≡ length self.now.left }
    {
        self.count as u128 + count_bits(self.byte, self.rest)
    }

    /// Whether no byte of 0x80 or more follows 0xFF, among all bytes that the reader was made over. It goes over the
    /// bytes that are left.
    pub fn is_whole(&self) -> bool
        ensures { result ≡ self.now.whole }
    {
        is_whole_from(self.byte, self.rest)
    }

    /// A second reader at the same place.
    pub(crate) fn fork(&self) -> BitReader<'a>
        ensures { result ≡ self.now }
    {
        BitReader {
            rest: self.rest,
            byte: self.byte,
            count: self.count,
        }
    }
}

/// A law: bytes are whole if and only if each byte after 0xFF is below 0x80. What can be read of other bytes is the data bits before
/// the first byte of 0x80 or more that follows 0xFF.
pub fn data_bits_end_at_a_marker()
    ensures whole { (bytes : List ℕ) → (is_whole bytes ≡ true) ↔ BelowMarkers bytes }
    ensures read { (prefix back : List ℕ) (x : ℕ) → is_whole (prefix ++ 0xFF ∷ []) ≡ true → 0x80 ≤ x
        → bits_read (prefix ++ 0xFF ∷ (x ∷ back)) ≡ bits_read (prefix ++ 0xFF ∷ []) }
{}
