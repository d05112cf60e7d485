//! The bits that wait to be read, and Golomb codes that are read from them.

ghost use Rattle.std.specs.Prelude.{◌≡◌, ◌+◌, ◌<◌, ◌≤◌, ◌⊎◌, [], ◌∷◌, ◌++◌, true, length, min, IfSome, IfNone, IfOk, OnOk};
ghost use Rattle.jls_bits.specs.Golomb.{NoCodeBegins};
ghost use Rattle.jls_pixel.specs.PendingBits.{bits_of, bits_of_all, ReadsCode};

use crate::data_bits::DataBits;
use jls_bits::{Chunk, CodeState, CodeStep};
use std::alloc::{AllocError, Global};
use std::collections::VecDeque;
use std::marker::Model;

/// Bits that wait to be read. They are appended at the end and taken from the start. A contract sees the list of the bits.
#[derive(Drop)]
pub(crate) struct PendingBits {
    /// The first ones.
    first: Chunk,
    /// Those after them.
    after: VecDeque<DataBits>,
}

impl Model for PendingBits {
    ghost use Rattle.std.specs.Prelude.{◌++◌, List, Bool};
    ghost use Rattle.jls_pixel.specs.PendingBits.{bits_of_all};

    ghost Value = { List Bool };

    ghost view = { λ p. p.first ++ bits_of_all p.after.items };
}

/// Moves bits to the first ones as long as a byte's have room there.
fn fill(first: &mut Chunk, after: &mut VecDeque<DataBits>)
    ensures bits { first.new ++ bits_of_all after.new.items ≡ first.old ++ bits_of_all after.old.items }
    ensures full { (56 < length first.new) ⊎ (after.new.items ≡ []) }
{
    'bytes: while first.len() <= 56 {
        match after.pop_front() {
            None => return,
            Some(next) => first.append(next.value, next.count),
        }
    }
}

impl PendingBits {
    /// No bit. It takes no memory yet.
    pub(crate) fn new(alloc: Global) -> PendingBits
        ensures { result ≡ [] }
    {
        PendingBits {
            first: Chunk::new(),
            after: VecDeque::new(alloc),
        }
    }

    /// The same bits once more.
    pub(crate) fn try_clone(&self) -> Result<PendingBits, AllocError>
        ensures { IfOk result (λ clone. clone ≡ self.now) }
    {
        Ok(PendingBits {
            first: self.first.fork(),
            after: self.after.clone()?,
        })
    }

    /// Appends the data bits of a byte.
    pub(crate) fn append(&mut self, next: DataBits) -> Result<(), AllocError>
        ensures { OnOk result (self.new ≡ self.old ++ bits_of next) }
    {
        match self.after.push_back(next) {
            Ok(()) => Ok(()),
            Err(_) => Err(AllocError),
        }
    }

    /// Whether there are so many bits, counting only seven for some bytes: `false` says nothing.
    pub(crate) fn has(&self, count: usize) -> bool
        ensures { result ≡ true → count ≤ length self.now }
    {
        usize::from(self.first.len()).saturating_add(self.after.len().saturating_mul(7)) >= count
    }

    /// How many bits there are, counted up to 8.
    pub(crate) fn count_to_8(&mut self) -> u8
        ensures count { result ≡ min 8 (length self.old) }
        ensures same { self.new ≡ self.old }
    {
        fill(&mut self.first, &mut self.after);
        self.first.len().min(8)
    }

    /// Takes the first bit. None where there is none.
    pub(crate) fn read_bit(&mut self) -> Option<bool>
        ensures some { IfSome result (λ b. self.old ≡ b ∷ self.new) }
        ensures none { IfNone result ((self.old ≡ []) × (self.new ≡ [])) }
    {
        if self.first.is_empty() {
            fill(&mut self.first, &mut self.after);
        }
        self.first.take_bit()
    }

    /// Takes the code of a number, if it is short and complete in the first bits. Else the bits stay.
    fn take_short(&mut self, k: u8, g: u8, qbpp: u8) -> Option<u32>
        requires k { k ≤ 16 }
        requires qbpp { (1 ≤ qbpp) × (qbpp ≤ 16) }
        requires g { (qbpp + 2 ≤ g) × (g ≤ 64) }
        ensures some { IfSome result (ReadsCode k g qbpp self.old self.new) }
        ensures none { IfNone result (self.new ≡ self.old) }
    {
        fill(&mut self.first, &mut self.after);
        self.first.take_code(k, g, qbpp)
    }
}

/// Reads a code bit by bit. It takes some bits where none stands.
fn read_code(pending: &mut PendingBits, k: u8, g: u8, qbpp: u8) -> Option<u32>
    requires k { k ≤ 16 }
    requires qbpp { (1 ≤ qbpp) × (qbpp ≤ 16) }
    requires g { (qbpp + 2 ≤ g) × (g ≤ 64) }
    ensures some { IfSome result (ReadsCode k g qbpp pending.old pending.new) }
    ensures none { IfNone result (NoCodeBegins k g qbpp pending.old) }
{
    let mut state = CodeState::START;
    while let Some(bit) = pending.read_bit() {
        match state.push(k, g, qbpp, bit) {
            CodeStep::More(next) => state = next,
            CodeStep::Done(number) => return Some(number),
            CodeStep::Refused => return None,
        }
    }
    None
}

/// Reads the code LG(k, g) that comes next, and gives its number (ITU-T T.87, A.5.3). It takes some bits where none stands.
pub(crate) fn read_golomb(pending: &mut PendingBits, k: u8, g: u8, qbpp: u8) -> Option<u32>
    requires k { k ≤ 16 }
    requires qbpp { (1 ≤ qbpp) × (qbpp ≤ 16) }
    requires g { (qbpp + 2 ≤ g) × (g ≤ 64) }
    ensures some { IfSome result (ReadsCode k g qbpp pending.old pending.new) }
    ensures none { IfNone result (NoCodeBegins k g qbpp pending.old) }
{
    match pending.take_short(k, g, qbpp) {
        Some(number) => Some(number),
        None => read_code(pending, k, g, qbpp),
    }
}
