//! Run mode and regular mode.

ghost use Rattle.std.specs.Prelude.{◌≡◌, ◌^◌, pos, negsuc, ◌-ℤ◌, ◌≤ℤ◌, unsigned_abs};
ghost use Rattle.jls_values.specs.Params.{CodingParameters};
ghost use Rattle.jls_context.specs.Mode.{IsMode, IsQuantizedGradient, AreGradients};

use jls_values::Params;

/// The samples round the one that is coded, as far as they are known (ITU-T T.87, A.3).
#[derive(Clone, Copy, Debug, PartialEq, Eq)]
pub struct Neighbours {
    /// To the left.
    pub ra: u16,
    /// Above.
    pub rb: u16,
    /// Above, and to the left.
    pub rc: u16,
    /// Above, and to the right.
    pub rd: u16,
}

/// How the next sample is coded (ITU-T T.87, A.3.2 to A.3.4).
#[derive(Clone, Copy, Debug, PartialEq, Eq)]
pub enum Mode {
    /// All gradients are 0: a run of samples equal to Ra begins here.
    Run,
    /// The sample is coded alone.
    Regular {
        /// The number of the context, from 1 to 364.
        cell: u16,
        /// Whether SIGN is -1.
        negative: bool,
    },
}

/// The number with the opposite sign where SIGN is -1.
pub(crate) fn with_sign(negative: bool, value: i32) -> i32
    requires at_least { negsuc (2 ^ 17) ≤ℤ value }
    requires at_most { value ≤ℤ pos (2 ^ 17) }
    ensures value { result ≡ Rattle.jls_context.specs.Mode.with_sign negative value }
    ensures size { unsigned_abs result ≡ unsigned_abs value }
{
    if negative { -value } else { value }
}

fn quantized_size(params: &Params, size: u16) -> i32
    ensures value { result ≡ pos (Rattle.jls_context.specs.Mode.quantized_size params.now size) }
    ensures at_least { pos 0 ≤ℤ result }
    ensures at_most { result ≤ℤ pos 4 }
{
    let steps = (size >= 1) as u8
        + (size >= params.t1()) as u8
        + (size >= params.t2()) as u8
        + (size >= params.t3()) as u8;
    i32::from(steps)
}

/// The quantized gradient from one sample to another.
#[inline(always)]
pub(crate) fn quantized_gradient(params: &Params, to: u16, from: u16) -> i32
    ensures value { result ≡ Rattle.jls_context.specs.Mode.quantized_gradient params.now (pos to -ℤ pos from) }
    ensures step { IsQuantizedGradient result }
{
    let steps = quantized_size(params, to.abs_diff(from));
    if to < from { -steps } else { steps }
}

/// Three quantized gradients, weighed. The sum is 0 in run mode; else its size is the context's number, and its sign is SIGN.
fn weighed(q1: i32, q2: i32, q3: i32) -> i32
    requires q1 { IsQuantizedGradient q1 }
    requires q2 { IsQuantizedGradient q2 }
    requires q3 { IsQuantizedGradient q3 }
    ensures value { result ≡ Rattle.jls_context.specs.Mode.weighed q1 q2 q3 }
    ensures at_least { negsuc 363 ≤ℤ result }
    ensures at_most { result ≤ℤ pos 364 }
{
    81 * q1 + 9 * q2 + q3
}

impl Mode {
    /// The mode of a sample with these quantized gradients.
    #[inline(always)]
    pub(crate) fn of(q1: i32, q2: i32, q3: i32) -> Mode
        requires q1 { IsQuantizedGradient q1 }
        requires q2 { IsQuantizedGradient q2 }
        requires q3 { IsQuantizedGradient q3 }
        ensures { (p : CodingParameters) (near : Neighbours) → AreGradients p near q1 q2 q3 → IsMode p near result }
    {
        let number = weighed(q1, q2, q3);
        if number == 0 {
            return Mode::Run;
        }
        Mode::Regular {
            cell: number.unsigned_abs() as u16,
            negative: number < 0,
        }
    }
}
