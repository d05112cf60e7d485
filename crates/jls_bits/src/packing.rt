//! Whole bytes, and the bits that wait for the next ones.

ghost use Rattle.std.specs.Prelude.{◌≡◌, ◌↔◌, ◌+◌, ◌*◌, ◌^◌, ◌<◌, ◌≤◌, false, [], ◌++◌, replicate};
ghost use Rattle.std.specs.Prelude.{vec_len, vec_capacity, IsTrue, IfOk, OnOk};
ghost use Rattle.jls_bits.specs.Bits;
ghost use Rattle.jls_bits.specs.Bits.{bits};
ghost use Rattle.jls_bits.specs.Pad.{IsPad};
ghost use Rattle.jls_bits.specs.Packing.{IsPacking, bits_put};
ghost use Rattle.jls_bits.specs.Front.{IsFront, EndsAt};

use crate::stuffing::width_after;
use crate::writer::BitPlace;
use std::alloc::{AllocError, Global};

/// Bits that are packed into bytes as they come. Up to 63 of them wait in a number, so that most calls put no byte. Only `reserve` and
/// `finish` want memory.
#[derive(Drop)]
pub(crate) struct Packing {
    /// The bytes that are whole.
    bytes: Vec<u8>,
    /// The last whole byte, or 0 where there is none.
    last: u8,
    /// How many bits wait after the whole bytes.
    count: u8,
    /// The bits that wait, as a number.
    waiting: u64,
}

impl Packing {
    /// No bit.
    pub(crate) fn new(alloc: Global) -> Packing
        ensures packing { IsPacking result }
        ensures none { bits_put result ≡ [] }
    {
        Packing {
            bytes: Vec::new(alloc),
            last: 0,
            count: 0,
            waiting: 0,
        }
    }

    /// Whether so many bits more can wait.
    #[inline(always)]
    pub(crate) fn has_place(&self, count: u8) -> bool
        requires packing { IsPacking self.now }
        requires count { count ≤ 128 }
        ensures { IsTrue result ↔ self.now.count + count < 64 }
    {
        self.count + count < 64
    }

    /// Appends the low `count` bits of `value` to those that wait, the most significant first.
    #[inline(always)]
    pub(crate) fn append(&mut self, value: u32, count: u8)
        requires packing { IsPacking self.old }
        requires place { self.old.count + count < 64 }
        requires value { value < 2 ^ count }
        ensures packing { IsPacking self.new }
        ensures bits { bits_put self.new ≡ bits_put self.old ++ bits count value }
        ensures bytes { self.new.bytes ≡ self.old.bytes }
        ensures count { self.new.count ≡ self.old.count + count }
    {
        self.waiting = (self.waiting << count) + value as u64;
        self.count += count;
    }

    /// Makes room for so many bits more. Each byte takes seven at least.
    pub(crate) fn reserve(&mut self, count: u8) -> Result<(), AllocError>
        requires { IsPacking self.old }
        ensures packing { IsPacking self.new }
        ensures bits { bits_put self.new ≡ bits_put self.old }
        ensures room { OnOk result (7 * vec_len self.new.bytes + self.new.count + count ≤ 7 * vec_capacity self.new.bytes) }
    {
        let bytes = (self.count as usize + count as usize + 6) / 7;
        self.bytes.reserve(bytes)
    }

    /// Appends zeros, for which there is room.
    pub(crate) fn put_zeros(&mut self, count: u8)
        requires packing { IsPacking self.old }
        requires room { 7 * vec_len self.old.bytes + self.old.count + count ≤ 7 * vec_capacity self.old.bytes }
        ensures packing { IsPacking self.new }
        ensures bits { bits_put self.new ≡ bits_put self.old ++ replicate count false }
        ensures capacity { vec_capacity self.new.bytes ≡ vec_capacity self.old.bytes }
        ensures growth { 7 * vec_len self.new.bytes + self.new.count ≤ 7 * vec_len self.old.bytes + self.old.count + count }
    {
        let mut left = count;
        while left > 32 {
            self.put_bits(0, 32);
            left -= 32;
        }
        self.put_bits(0, left);
    }

    /// Puts the bytes that the waiting bits fill, for which there is room.
    fn put_bytes(&mut self)
        requires packing { IsPacking self.old }
        requires room { 7 * vec_len self.old.bytes + self.old.count ≤ 7 * vec_capacity self.old.bytes }
        ensures packing { IsPacking self.new }
        ensures bits { bits_put self.new ≡ bits_put self.old }
        ensures few { self.new.count < Bits.width_after self.new.last }
        ensures capacity { vec_capacity self.new.bytes ≡ vec_capacity self.old.bytes }
        ensures growth { 7 * vec_len self.new.bytes + self.new.count ≤ 7 * vec_len self.old.bytes + self.old.count }
    {
        let mut waiting = self.waiting;
        let mut left = self.count;
        let mut width = width_after(self.last);
        while left >= width {
            left -= width;
            let byte = (waiting >> left) as u8;
            waiting %= 1 << left;
            self.bytes.push_reserved(byte);
            self.last = byte;
            width = width_after(byte);
        }
        self.count = left;
        self.waiting = waiting;
    }

    /// Appends the low `count` bits of `value`, for which there is room, the most significant first.
    pub(crate) fn put_bits(&mut self, value: u32, count: u8)
        requires packing { IsPacking self.old }
        requires count { count ≤ 32 }
        requires value { value < 2 ^ count }
        requires room { 7 * vec_len self.old.bytes + self.old.count + count ≤ 7 * vec_capacity self.old.bytes }
        ensures packing { IsPacking self.new }
        ensures bits { bits_put self.new ≡ bits_put self.old ++ bits count value }
        ensures capacity { vec_capacity self.new.bytes ≡ vec_capacity self.old.bytes }
        ensures growth { 7 * vec_len self.new.bytes + self.new.count ≤ 7 * vec_len self.old.bytes + self.old.count + count }
    {
        self.put_bytes();
        self.append(value, count);
    }

    /// The bytes of the bits, filled up with zeros, and without 0xFF at the end, where fewer bits wait than fill a byte.
    fn padded(self) -> Result<Vec<u8>, AllocError>
        requires packing { IsPacking self }
        requires few { self.count < Bits.width_after self.last }
        ensures { IfOk result (λ v. IsPad (bits_put self) v.items) }
    {
        let Packing {
            mut bytes,
            last,
            count,
            waiting,
        } = self;
        if count > 0 {
            let partial = waiting as u8;
            bytes.push(partial << (width_after(last) - count))?;
        } else if last == 0xFF {
            bytes.push(0)?;
        }
        Ok(bytes)
    }

    /// Puts the bytes that the bits fill. Fewer bits wait after them than the next byte carries.
    pub(crate) fn fill(&mut self) -> Result<(), AllocError>
        requires { IsPacking self.old }
        ensures packing { IsPacking self.new }
        ensures bits { bits_put self.new ≡ bits_put self.old }
        ensures few { OnOk result (self.new.count < Bits.width_after self.new.last) }
    {
        self.reserve(0)?;
        self.put_bytes();
        Ok(())
    }

    /// The bytes of the bits, filled up with zeros, and without 0xFF at the end.
    pub(crate) fn finish(mut self) -> Result<Vec<u8>, AllocError>
        requires { IsPacking self }
        ensures { IfOk result (λ v. IsPad (bits_put self) v.items) }
    {
        self.fill()?;
        self.padded()
    }

    /// Where the bits end, where fewer wait than fill a byte.
    pub(crate) fn place(&self) -> BitPlace
        requires packing { IsPacking self.now }
        requires few { self.now.count < Bits.width_after self.now.last }
        ensures { EndsAt (bits_put self.now) result }
    {
        BitPlace {
            bytes: self.bytes.len(),
            bits: self.count,
        }
    }

    /// The bytes that the bits fill, where fewer bits wait than fill another.
    pub(crate) fn into_front(self) -> Vec<u8>
        requires packing { IsPacking self }
        requires few { self.count < Bits.width_after self.last }
        ensures { IsFront (bits_put self) result.items }
    {
        let Packing { bytes, .. } = self;
        bytes
    }
}
