//! Writing bits into bytes.

ghost use Rattle.std.specs.Prelude.{◌≡◌, ℕ, Bool, List, ◌^◌, ◌<◌, ◌≤◌, false, [], ◌∷◌, ◌++◌, replicate, IfOk, OnOk, OnErr};
ghost use Rattle.jls_bits.specs.Bits.{bits};
ghost use Rattle.jls_bits.specs.Pad.{IsPad, pad};
ghost use Rattle.jls_bits.specs.Front.{IsFront, EndsAt, FrontsBeginBytes, FrontsGrow, FrontsAreOne};

use crate::packing::Packing;
use std::alloc::{AllocError, Global};
use std::marker::Model;

/// A place in the data bits of bytes: after so many whole bytes, and so many data bits of the next one.
#[derive(Clone, Copy, Debug, PartialEq, Eq, Drop)]
pub struct BitPlace {
    pub bytes: usize,
    pub bits: u8,
}

/// Collects the bits of an interval, the most significant bit of each byte first. A bit 0 is stuffed after each byte 0xFF (ITU-T T.87,
/// A.1). A contract sees the list of the bits so far.
#[derive(Drop)]
pub struct BitWriter {
    packing: Packing,
}

impl Model for BitWriter {
    ghost use Rattle.std.specs.Prelude.{Bool, List};

    ghost Value = { List Bool };

    ghost use Rattle.jls_bits.specs.Packing.{IsPacking, bits_put};

    ghost view = { λ w. bits_put w.packing };

    ghost invariant = { λ w. IsPacking w.packing };
}

impl BitWriter {
    /// A writer of no bit. It takes no memory yet.
    pub fn new(alloc: Global) -> BitWriter
        ensures { result ≡ [] }
    {
        BitWriter {
            packing: Packing::new(alloc),
        }
    }

    /// Appends a bit. The only refusal is out of memory.
    pub fn push_bit(&mut self, bit: bool) -> Result<(), AllocError>
        ensures ok { OnOk result (self.new ≡ self.old ++ bit ∷ []) }
        ensures err { OnErr result (self.new ≡ self.old) }
    {
        self.push_zeros_then_bits(0, bit as u32, 1)
    }

    /// Appends the low `n` bits of `value`, the most significant first. The only refusal is out of memory.
    pub fn push_bits(&mut self, value: u32, n: u8) -> Result<(), AllocError>
        requires n { n ≤ 32 }
        requires value { value < 2 ^ n }
        ensures ok { OnOk result (self.new ≡ self.old ++ bits n value) }
        ensures err { OnErr result (self.new ≡ self.old) }
    {
        self.push_zeros_then_bits(0, value, n)
    }

    /// Appends zeros, and then the low `count` bits of `value`: all of them, or nothing where memory is refused.
    #[inline(always)]
    pub(crate) fn push_zeros_then_bits(
        &mut self,
        zeros: u8,
        value: u32,
        count: u8,
    ) -> Result<(), AllocError>
        requires count { count ≤ 32 }
        requires zeros { zeros ≤ 64 }
        requires value { value < 2 ^ count }
        ensures ok { OnOk result (self.new ≡ self.old ++ (replicate zeros false ++ bits count value)) }
        ensures err { OnErr result (self.new ≡ self.old) }
    {
        if self.packing.has_place(zeros + count) {
            self.packing.append(value, zeros + count);
            return Ok(());
        }
        self.put_zeros_then_bits(zeros, value, count)
    }

    /// Appends zeros, and then the low `count` bits of `value`, where not all of these bits can wait.
    #[inline(never)]
    fn put_zeros_then_bits(&mut self, zeros: u8, value: u32, count: u8) -> Result<(), AllocError>
        requires count { count ≤ 32 }
        requires zeros { zeros ≤ 64 }
        requires value { value < 2 ^ count }
        ensures ok { OnOk result (self.new ≡ self.old ++ (replicate zeros false ++ bits count value)) }
        ensures err { OnErr result (self.new ≡ self.old) }
    {
        self.packing.reserve(zeros + count)?;
        self.packing.put_zeros(zeros);
        self.packing.put_bits(value, count);
        Ok(())
    }

    /// The bytes whose data bits are the bits and then zeros alone. They are as few as there can be without 0xFF at the end, and so
    /// exactly one list. That zeros fill up, and that 0xFF is never last, is this project's choice. Out of memory gives the bits up.
    pub fn finish(self) -> Result<Vec<u8>, AllocError>
        ensures { IfOk result (λ v. IsPad self v.items) }
    {
        self.packing.finish()
    }

    /// Where the bits end: after the bytes that they fill, and fewer bits than the next byte carries. The only refusal is out of
    /// memory.
    pub fn place(&mut self) -> Result<BitPlace, AllocError>
        ensures same { self.new ≡ self.old }
        ensures place { IfOk result (λ place. EndsAt self.old place) }
    {
        self.packing.fill()?;
        Ok(self.packing.place())
    }

    /// The bytes that the bits fill. The bits after them, fewer than the next byte carries, are left out. Out of memory gives the bits
    /// up.
    pub fn into_front(mut self) -> Result<Vec<u8>, AllocError>
        ensures { IfOk result (λ v. IsFront self v.items) }
    {
        self.packing.fill()?;
        Ok(self.packing.into_front())
    }
}

/// A law: bits have exactly one pad, and the definition `pad` computes it.
pub fn bits_have_one_pad()
    ensures computed { (given : List Bool) → IsPad given (pad given) }
    ensures only { (given : List Bool) (bytes : List ℕ) → IsPad given bytes → bytes ≡ pad given }
{}

/// A law: bytes begin with the front of their first data bits, and so does the front of more bits. Bits have one front.
pub fn fronts_begin()
    ensures bytes { FrontsBeginBytes }
    ensures grow { FrontsGrow }
    ensures one { FrontsAreOne }
{}
