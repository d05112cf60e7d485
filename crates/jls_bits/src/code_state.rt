//! A Golomb code as a machine that is fed its bits as they come.

ghost use Rattle.std.specs.Prelude.{◌≡◌, ℕ, ◌↔◌, ◌+◌, ◌^◌, ◌<◌, ◌≤◌, true, false, [], ◌∷◌, ◌++◌, length, replicate, IsTrue, IfSome, IfNone};
ghost use Rattle.jls_bits.specs.Golomb.{escape_zeros, BeginsCodeOf};
ghost use Rattle.jls_bits.specs.Bits.{bits};
ghost use Rattle.jls_bits.specs.CodeState.{bits_fed, IsOpen, IsOfShort, StepIs};
ghost use Rattle.jls_bits.specs.Chunk.{ChunkStep};
ghost use Rattle.jls_bits.specs.declared.code_state.CodeState.TheVariants.{Zeros, Remainder, Escape};

use crate::chunk::Chunk;

/// How far an incomplete code was read. A contract sees its bits so far as `bits_fed`.
#[derive(Clone, Copy)]
pub enum CodeState {
    /// So many zeros, and nothing else.
    Zeros(u8),
    /// The zeros of a short code's quotient, the one, and the first bits of the remainder.
    Remainder { quotient: u8, count: u8, value: u32 },
    /// The zeros of an escape, the one, and the first bits of its number.
    Escape { count: u8, value: u32 },
}

/// What one more bit makes of a code.
#[derive(Clone, Copy)]
pub enum CodeStep {
    /// The bits begin some code, and none is whole.
    More(CodeState),
    /// The bits are this number's code.
    Done(u32),
    /// The bits begin no code, however they go on.
    Refused,
}

impl CodeState {
    /// No bit yet.
    pub const START: CodeState = CodeState::Zeros(0);

    /// Takes the next bit of a code LG(k, g), whose escapes have qbpp bits of a number (T.87 A.5.3).
    pub fn push(self, k: u8, g: u8, qbpp: u8, bit: bool) -> CodeStep
        requires k { k ≤ 16 }
        requires qbpp { (1 ≤ qbpp) × (qbpp ≤ 16) }
        requires g { (qbpp + 2 ≤ g) × (g ≤ 64) }
        requires open { IsOpen k g qbpp self }
        ensures { StepIs k g qbpp (bits_fed g qbpp self ++ bit ∷ []) result }
    {
        match self {
            CodeState::Zeros(zeros) => push_to_zeros(zeros, k, g, qbpp, bit),
            CodeState::Remainder {
                quotient,
                count,
                value,
            } => push_to_remainder(quotient, count, value, k, bit),
            CodeState::Escape { count, value } => {
                push_to_escape(FirstBits { count, value }, k, g, qbpp, bit)
            }
        }
    }

    /// The state of an incomplete short code whose bits are all bits of a chunk. They are fewer zeros than those of an escape, or such
    /// zeros, the one after them and too few bits of the remainder. None if no such state has these bits.
    #[inline(always)]
    pub fn of_short(k: u8, g: u8, qbpp: u8, chunk: &Chunk) -> Option<CodeState>
        requires k { k ≤ 16 }
        requires qbpp { (1 ≤ qbpp) × (qbpp ≤ 16) }
        requires g { (qbpp + 2 ≤ g) × (g ≤ 64) }
        ensures opened { IfSome result (λ s. IsOpen k g qbpp s) }
        ensures fed { IfSome result (λ s. bits_fed g qbpp s ≡ chunk.now) }
        ensures none { IfNone result ((s : CodeState) → IsOfShort g qbpp s → IsOpen k g qbpp s → bits_fed g qbpp s ≡ chunk.now → ⊥) }
    {
        let escape = g - qbpp - 1;
        match chunk.first_one() {
            None => {
                if chunk.len() < escape {
                    Some(CodeState::Zeros(chunk.len()))
                } else {
                    None
                }
            }
            Some((quotient, count, value)) => {
                if quotient < escape && count < k {
                    let value = value as u32;
                    Some(CodeState::Remainder {
                        quotient,
                        count,
                        value,
                    })
                } else {
                    None
                }
            }
        }
    }

    /// The bits fed so far, to be fed once more with those that follow. None where they are more than 56.
    pub fn fed(self, g: u8, qbpp: u8) -> Option<Chunk>
        requires qbpp { (1 ≤ qbpp) × (qbpp ≤ 16) }
        requires g { (qbpp + 2 ≤ g) × (g ≤ 64) }
        requires open { (k : ℕ) × IsOpen k g qbpp self }
        ensures some { IfSome result (λ c. c ≡ bits_fed g qbpp self) }
        ensures few { IfSome result (λ c. length c ≤ 56) }
        ensures none { IfNone result (56 < length (bits_fed g qbpp self)) }
    {
        match self {
            CodeState::Zeros(zeros) => {
                if zeros <= 56 {
                    Some(Chunk::zeros(zeros))
                } else {
                    None
                }
            }
            CodeState::Remainder {
                quotient,
                count,
                value,
            } => fed_one(quotient, FirstBits { count, value }),
            CodeState::Escape { count, value } => {
                fed_one(g - qbpp - 1, FirstBits { count, value })
            }
        }
    }

    /// Takes bits from the start of a chunk until the code is complete or refused, or no bit is left. After a refusal the rest of the
    /// chunk is of no use.
    #[inline(always)]
    pub fn push_chunk(self, k: u8, g: u8, qbpp: u8, chunk: &mut Chunk) -> CodeStep
        requires k { k ≤ 16 }
        requires qbpp { (1 ≤ qbpp) × (qbpp ≤ 16) }
        requires g { (qbpp + 2 ≤ g) × (g ≤ 64) }
        requires open { IsOpen k g qbpp self }
        ensures { ChunkStep k g qbpp (bits_fed g qbpp self) chunk.old chunk.new result }
    {
        if let CodeState::Zeros(0) = self {
            if let Some(number) = chunk.take_code(k, g, qbpp) {
                return CodeStep::Done(number);
            }
            if let Some(state) = CodeState::of_short(k, g, qbpp, chunk) {
                *chunk = Chunk::new();
                return CodeStep::More(state);
            }
        }
        push_bit_by_bit(self, k, g, qbpp, chunk)
    }

    /// Whether the bits fed so far begin the code of a number, or are all of it.
    pub fn allows(self, k: u8, g: u8, qbpp: u8, mapped: u32) -> bool
        requires k { k ≤ 16 }
        requires qbpp { (1 ≤ qbpp) × (qbpp ≤ 16) }
        requires g { (qbpp + 2 ≤ g) × (g ≤ 64) }
        requires open { IsOpen k g qbpp self }
        requires mapped { mapped ≤ 2 ^ qbpp }
        ensures { IsTrue result ↔ BeginsCodeOf k g qbpp (bits_fed g qbpp self) mapped }
    {
        let escape = (g - qbpp - 1) as u32;
        match self {
            CodeState::Zeros(zeros) => zeros as u32 <= mapped >> k,
            CodeState::Remainder {
                quotient,
                count,
                value,
            } => mapped >> (k - count) == ((quotient as u32) << count) + value,
            CodeState::Escape { count, value } => {
                escape <= mapped >> k && (mapped - 1) >> (qbpp - count) == value
            }
        }
    }
}

/// So many zeros, a one, and the first bits of a number. None where they are more than 56.
fn fed_one(zeros: u8, number: FirstBits) -> Option<Chunk>
    requires { number.value < 2 ^ number.count }
    ensures some { IfSome result (λ c. c ≡ replicate zeros false ++ true ∷ bits number.count number.value) }
    ensures few { IfSome result (λ c. length c ≤ 56) }
    ensures none { IfNone result (56 < length (replicate zeros false ++ true ∷ bits number.count number.value)) }
{
    let FirstBits { count, value } = number;
    if zeros.saturating_add(count) < 56 {
        Some(Chunk::zeros_and_one(zeros, count, value))
    } else {
        None
    }
}

/// Takes bits from the start of a chunk, one after another.
#[inline(never)]
fn push_bit_by_bit(state: CodeState, k: u8, g: u8, qbpp: u8, chunk: &mut Chunk) -> CodeStep
    requires k { k ≤ 16 }
    requires qbpp { (1 ≤ qbpp) × (qbpp ≤ 16) }
    requires g { (qbpp + 2 ≤ g) × (g ≤ 64) }
    requires open { IsOpen k g qbpp state }
    ensures { ChunkStep k g qbpp (bits_fed g qbpp state) chunk.old chunk.new result }
{
    let mut now = state;
    while let Some(bit) = chunk.take_bit() {
        match now.push(k, g, qbpp, bit) {
            CodeStep::More(next) => now = next,
            step => return step,
        }
    }
    CodeStep::More(now)
}

/// Takes a bit after zeros alone.
fn push_to_zeros(zeros: u8, k: u8, g: u8, qbpp: u8, bit: bool) -> CodeStep
    requires k { k ≤ 16 }
    requires qbpp { (1 ≤ qbpp) × (qbpp ≤ 16) }
    requires g { (qbpp + 2 ≤ g) × (g ≤ 64) }
    requires open { IsOpen k g qbpp (Zeros zeros) }
    ensures { StepIs k g qbpp (bits_fed g qbpp (Zeros zeros) ++ bit ∷ []) result }
{
    let escape = g - qbpp - 1;
    if bit {
        if zeros == escape {
            CodeStep::More(CodeState::Escape { count: 0, value: 0 })
        } else if k == 0 {
            CodeStep::Done(zeros as u32)
        } else {
            CodeStep::More(CodeState::Remainder {
                quotient: zeros,
                count: 0,
                value: 0,
            })
        }
    } else if zeros == escape {
        CodeStep::Refused
    } else if zeros + 1 == escape && 1 << qbpp < (escape as u32) << k {
        // Every number of an escape has a short code.
        CodeStep::Refused
    } else {
        CodeStep::More(CodeState::Zeros(zeros + 1))
    }
}

/// Takes a bit of a short code's remainder.
fn push_to_remainder(quotient: u8, count: u8, value: u32, k: u8, bit: bool) -> CodeStep
    requires k { k ≤ 16 }
    requires count { count < k }
    requires value { value < 2 ^ count }
    ensures { (g qbpp : ℕ) → qbpp + 2 ≤ g → quotient < escape_zeros g qbpp
        → StepIs k g qbpp (bits_fed g qbpp (Remainder quotient count value) ++ bit ∷ []) result }
{
    let value = 2 * value + bit as u32;
    let count = count + 1;
    if count == k {
        CodeStep::Done(((quotient as u32) << k) + value)
    } else {
        CodeStep::More(CodeState::Remainder {
            quotient,
            count,
            value,
        })
    }
}

/// The first bits of a number: how many, and the number that they are.
#[derive(Clone, Copy)]
struct FirstBits {
    count: u8,
    value: u32,
}

/// Takes a bit of an escape's number.
fn push_to_escape(number: FirstBits, k: u8, g: u8, qbpp: u8, bit: bool) -> CodeStep
    requires k { k ≤ 16 }
    requires qbpp { qbpp ≤ 16 }
    requires g { (qbpp + 2 ≤ g) × (g ≤ 64) }
    requires open { IsOpen k g qbpp (Escape number.count number.value) }
    ensures { StepIs k g qbpp (bits_fed g qbpp (Escape number.count number.value) ++ bit ∷ []) result }
{
    let FirstBits { count, value } = number;
    let escape = g - qbpp - 1;
    let value = 2 * value + bit as u32;
    let count = count + 1;
    let largest = (value + 1) << (qbpp - count);
    if largest < (escape as u32) << k {
        CodeStep::Refused
    } else if count == qbpp {
        CodeStep::Done(value + 1)
    } else {
        CodeStep::More(CodeState::Escape { count, value })
    }
}
