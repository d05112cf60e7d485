//! Golomb codes of a limited length, LG(k, g) (ITU-T T.87, A.5.3).

ghost use Rattle.std.specs.Prelude.{◌≡◌, ℕ, ◌+◌, ◌^◌, ◌<◌, ◌≤◌, true, false, List, Bool, ◌++◌, replicate, length, IfSome, IfNone, OnOk};
ghost use Rattle.std.specs.Prelude.{OnErr};
ghost use Rattle.jls_bits.specs.Bits.{bits};
ghost use Rattle.jls_bits.specs.Golomb.{golomb, has_golomb, NoCodeBegins};

use crate::code_state::{CodeState, CodeStep};
use crate::reader::BitReader;
use crate::writer::BitWriter;
use std::alloc::AllocError;

/// Reads a code. Where none stands, it goes past some bits all the same.
fn read_code(reader: &mut BitReader<'_>, k: u8, g: u8, qbpp: u8) -> Option<u32>
    requires k { k ≤ 16 }
    requires qbpp { (1 ≤ qbpp) × (qbpp ≤ 16) }
    requires g { (qbpp + 2 ≤ g) × (g ≤ 64) }
    ensures some { IfSome result (λ m. (has_golomb k g qbpp m ≡ true) × (reader.old.left ≡ golomb k g qbpp m ++ reader.new.left)) }
    ensures none { IfNone result (NoCodeBegins k g qbpp reader.old.left) }
    ensures whole { reader.new.whole ≡ reader.old.whole }
{
    let mut state = CodeState::START;
    while let Some(bit) = reader.read_bit() {
        match state.push(k, g, qbpp, bit) {
            CodeStep::More(next) => state = next,
            CodeStep::Done(number) => return Some(number),
            CodeStep::Refused => return None,
        }
    }
    None
}

/// Reads the code LG(k, g) that comes next, and gives its number (ITU-T T.87, A.5.3). Here k is the number of bits of the remainder, and g
/// the length of an escape in bits. An escape has `qbpp` bits after its zeros and its one. The number may be above 2^qbpp, since a short
/// code has no such bound. The answer is None if no code comes next, and then the reader does not move. Either the bits end before the code
/// does, or they are no number's code. Such is an escape for a number that has a short code.
pub fn read_golomb(reader: &mut BitReader<'_>, k: u8, g: u8, qbpp: u8) -> Option<u32>
    requires k { k ≤ 16 }
    requires qbpp { (1 ≤ qbpp) × (qbpp ≤ 16) }
    requires g { (qbpp + 2 ≤ g) × (g ≤ 64) }
    ensures some { IfSome result (λ m. (has_golomb k g qbpp m ≡ true) × (reader.old.left ≡ golomb k g qbpp m ++ reader.new.left)) }
    ensures none { IfNone result (NoCodeBegins k g qbpp reader.old.left) }
    ensures same { IfNone result (reader.new ≡ reader.old) }
    ensures whole { reader.new.whole ≡ reader.old.whole }
{
    let mut ahead = reader.fork();
    match read_code(&mut ahead, k, g, qbpp) {
        None => None,
        Some(number) => {
            *reader = ahead;
            Some(number)
        }
    }
}

/// A code in two parts: zeros, and then the low `count` bits of `value`, of which the first is a one.
struct GolombCode {
    zeros: u8,
    value: u32,
    count: u8,
}

/// The code of a number.
fn golomb_code(mapped: u32, k: u8, g: u8, qbpp: u8) -> GolombCode
    requires k { k ≤ 16 }
    requires qbpp { (1 ≤ qbpp) × (qbpp ≤ 16) }
    requires g { (qbpp + 2 ≤ g) × (g ≤ 64) }
    requires mapped { mapped ≤ 2 ^ qbpp }
    ensures code { replicate result.zeros false ++ bits result.count result.value ≡ golomb k g qbpp mapped }
    ensures zeros { result.zeros ≤ 64 }
    ensures count { result.count ≤ 17 }
    ensures value { result.value < 2 ^ result.count }
{
    let escape = g - qbpp - 1;
    let quotient = mapped >> k;
    if quotient < escape as u32 {
        GolombCode {
            zeros: quotient as u8,
            value: (1 << k) + mapped % (1 << k),
            count: k + 1,
        }
    } else {
        GolombCode {
            zeros: escape,
            value: (1 << qbpp) + (mapped - 1),
            count: qbpp + 1,
        }
    }
}

/// Appends the code LG(k, g) of a number of at most 2^qbpp, with `qbpp` bits in an escape. All of it is appended, or nothing where memory
/// is refused, which is the only refusal.
pub fn write_golomb(
    writer: &mut BitWriter,
    mapped: u32,
    k: u8,
    g: u8,
    qbpp: u8,
) -> Result<(), AllocError>
    requires k { k ≤ 16 }
    requires qbpp { (1 ≤ qbpp) × (qbpp ≤ 16) }
    requires g { (qbpp + 2 ≤ g) × (g ≤ 64) }
    requires mapped { mapped ≤ 2 ^ qbpp }
    ensures has_code { has_golomb k g qbpp mapped ≡ true }
    ensures ok { OnOk result (writer.new ≡ writer.old ++ golomb k g qbpp mapped) }
    ensures err { OnErr result (writer.new ≡ writer.old) }
{
    let GolombCode {
        zeros,
        value,
        count,
    } = golomb_code(mapped, k, g, qbpp);
    writer.push_zeros_then_bits(zeros, value, count)
}

/// A law: under the same k, g and qbpp no code is a prefix of another. Bits that begin with the codes of two numbers
/// begin with one.
pub fn no_golomb_code_begins_another()
    ensures { (k g qbpp m n : ℕ) (s t : List Bool) → has_golomb k g qbpp m ≡ true → has_golomb k g qbpp n ≡ true
        → golomb k g qbpp m ++ s ≡ golomb k g qbpp n ++ t → (m ≡ n) × (s ≡ t) }
{}

/// A law: no code is longer than g where k is at most qbpp. Where k is above qbpp + 1 a short code can be longer.
pub fn golomb_codes_are_limited()
    ensures { (k g qbpp m : ℕ) → k ≤ qbpp → qbpp + 2 ≤ g → length (golomb k g qbpp m) ≤ g }
{}
