//! A few data bits at once.

ghost use Rattle.std.specs.Prelude.{◌≡◌, ◌↔◌, ◌+◌, ◌-◌, ◌*◌, ◌≤◌, ◌<◌, ◌^◌, IsTrue, IfSome, IfNone};
ghost use Rattle.std.specs.Prelude.{true, false, [], ◌∷◌, ◌++◌, length, replicate};
ghost use Rattle.jls_bits.specs.Bits.{bits};
ghost use Rattle.jls_bits.specs.Golomb.{golomb, has_golomb, NoShortCodeBegins};
ghost use Rattle.jls_bits.specs.Chunk.{NoShortPrefix};

use std::marker::Model;

/// Up to 64 bits. They are appended at the end and taken from the start. A contract sees the list of the bits.
#[derive(Drop)]
pub struct Chunk {
    /// The bits are its low `count` ones.
    value: u64,
    count: u8,
}

impl Model for Chunk {
    ghost use Rattle.std.specs.Prelude.{◌≤◌, ◌<◌, ◌^◌, List, Bool};
    ghost use Rattle.jls_bits.specs.Bits.{bits};

    ghost Value = { List Bool };

    ghost view = { λ c. bits c.count c.value };

    ghost invariant = { λ c. (c.count ≤ 64) × (c.value < 2 ^ c.count) };
}

impl Chunk {
    /// No bit.
    pub fn new() -> Chunk
        ensures { result ≡ [] }
    {
        Chunk { value: 0, count: 0 }
    }

    /// Appends the low `count` bits of a byte, as `Unstuffer::push` gives them.
    pub fn append(&mut self, byte: u8, count: u8)
        requires count { count ≤ 8 }
        requires byte { byte < 2 ^ count }
        requires room { length self.old ≤ 56 }
        ensures { self.new ≡ self.old ++ bits count byte }
    {
        self.value = (self.value << count) + byte as u64;
        self.count += count;
    }

    /// How many bits there are.
    pub fn len(&self) -> u8
        ensures { result ≡ length self.now }
    {
        self.count
    }

    /// Whether there is no bit.
    pub fn is_empty(&self) -> bool
        ensures { IsTrue result ↔ (self.now ≡ []) }
    {
        self.count == 0
    }

    /// Takes the first bit. None where there is none.
    pub fn take_bit(&mut self) -> Option<bool>
        ensures some { IfSome result (λ b. self.old ≡ b ∷ self.new) }
        ensures none { IfNone result ((self.old ≡ []) × (self.new ≡ [])) }
    {
        if self.count == 0 {
            return None;
        }
        let count = self.count - 1;
        let bit = (self.value >> count) == 1;
        self.value %= 1 << count;
        self.count = count;
        Some(bit)
    }

    /// Takes the first `count` bits as a number. Where there are fewer it takes nothing.
    pub fn take_bits(&mut self, count: u8) -> Option<u32>
        requires { (1 ≤ count) × (count ≤ 16) }
        ensures some { IfSome result (λ number. self.old ≡ bits count number ++ self.new) }
        ensures number { IfSome result (λ number. number < 2 ^ count) }
        ensures none { IfNone result (self.new ≡ self.old) }
    {
        if self.count < count {
            return None;
        }
        let rest = self.count - count;
        let number = self.value >> rest;
        self.value %= 1 << rest;
        self.count = rest;
        Some(number as u32)
    }

    /// The same bits once more, to look ahead in.
    pub fn fork(&self) -> Chunk
        ensures { result ≡ self.now }
    {
        Chunk {
            value: self.value,
            count: self.count,
        }
    }

    /// So many zeros.
    pub(crate) fn zeros(count: u8) -> Chunk
        requires { count ≤ 64 }
        ensures { result ≡ replicate count false }
    {
        Chunk { value: 0, count }
    }

    /// So many zeros, a one, and the low `count` bits of a number.
    pub(crate) fn zeros_and_one(zeros: u8, count: u8, value: u32) -> Chunk
        requires room { zeros + count < 64 }
        requires value { value < 2 ^ count }
        ensures { result ≡ replicate zeros false ++ true ∷ bits count value }
    {
        Chunk {
            value: (1 << count) + value as u64,
            count: zeros + count + 1,
        }
    }

    /// How many zeros stand before the first one, how many bits after it, and the number of these. None where there is no one.
    #[tactic(auto, using(crate::proofs::ChunkBits::below_place))]
    #[inline(always)]
    pub(crate) fn first_one(&self) -> Option<(u8, u8, u64)>
        ensures some { IfSome result (λ x. self.now ≡ replicate x.0 false ++ true ∷ bits x.1 x.2) }
        ensures value { IfSome result (λ x. x.2 < 2 ^ x.1) }
        ensures none { IfNone result (self.now ≡ replicate (length self.now) false) }
    {
        if self.value == 0 {
            return None;
        }
        let first = self.value.ilog2() as u8;
        Some((self.count - first - 1, first, self.value % (1 << first)))
    }

    /// Takes fewer than `limit` zeros, a one, and the k bits after it, if they stand whole at the start. Else it takes nothing. The answer
    /// is how many zeros there are, and the number of the one and the k bits.
    #[tactic(auto, using(crate::proofs::ChunkBits::below_place))]
    pub(crate) fn take_short(&mut self, limit: u8, k: u8) -> Option<(u8, u32)>
        requires k { k ≤ 16 }
        ensures some { IfSome result (λ x. self.old ≡ replicate x.0 false ++ true ∷ (bits k (x.1 - 2 ^ k) ++ self.new)) }
        ensures zeros { IfSome result (λ x. x.0 < limit) }
        ensures number { IfSome result (λ x. (2 ^ k ≤ x.1) × (x.1 < 2 * 2 ^ k)) }
        ensures none { IfNone result (self.new ≡ self.old) }
        ensures none_stands { IfNone result (NoShortPrefix limit k self.old) }
    {
        if self.value == 0 {
            return None;
        }
        let first = self.value.ilog2() as u8;
        let zeros = self.count - first - 1;
        if limit <= zeros || first < k {
            return None;
        }
        let count = first - k;
        let number = self.value >> count;
        self.value %= 1 << count;
        self.count = count;
        Some((zeros, number as u32))
    }

    /// Takes the code of a number, if the chunk begins with a complete short code. Otherwise it answers None and takes nothing.
    pub fn take_code(&mut self, k: u8, g: u8, qbpp: u8) -> Option<u32>
        requires k { k ≤ 16 }
        requires qbpp { (1 ≤ qbpp) × (qbpp ≤ 16) }
        requires g { (qbpp + 2 ≤ g) × (g ≤ 64) }
        ensures some { IfSome result (λ m. (has_golomb k g qbpp m ≡ true) × (self.old ≡ golomb k g qbpp m ++ self.new)) }
        ensures none { IfNone result (self.new ≡ self.old) }
        ensures none_stands { IfNone result (NoShortCodeBegins k g qbpp self.old) }
    {
        match self.take_short(g - qbpp - 1, k) {
            None => None,
            Some((zeros, number)) => {
                // The number still has the one, which is 2^k: so one zero less counts.
                let above = (zeros as u32).wrapping_sub(1) << k;
                Some(number.wrapping_add(above))
            }
        }
    }
}
