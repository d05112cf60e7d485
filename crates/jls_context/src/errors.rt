//! Errors of predictions, modulo RANGE, and the numbers that they are mapped to.

ghost use Rattle.std.specs.Prelude.{◌≡◌, ℕ, ◌+◌, ◌*◌, ◌/◌, ◌^◌, ◌≤◌, IsTrue, ◌↔◌, pos, negsuc, neg_ℤ, ◌≤ℤ◌, ◌<ℤ◌};
ghost use Rattle.std.specs.Int.{int_rem_euclid};
ghost use Rattle.jls_values.specs.Params.{range};
ghost use Rattle.jls_context.specs.Errors.{IsError, IsModuloReduced, modulo_reduced, prediction_error};

use crate::mode::with_sign;
use jls_values::Params;

/// RANGE.
fn range_of(params: &Params) -> i32
    ensures value { result ≡ pos (range params.now) }
    ensures at_least { pos 1 ≤ℤ result }
    ensures at_most { result ≤ℤ pos (2 ^ 16) }
{
    i32::from(params.maxval()) + 1
}

/// The number below which errors are: half of RANGE, rounded up.
fn error_limit(params: &Params) -> i32
    ensures value { result ≡ pos ((range params.now + 1) / 2) }
    ensures at_most { result ≤ℤ pos (2 ^ 15) }
{
    (u32::from(params.maxval()) / 2 + 1) as i32
}

/// Whether a number is an error that a prediction can have.
pub(crate) fn is_error(params: &Params, error: i32) -> bool
    ensures { IsTrue result ↔ IsError params.now error }
{
    let limit = error_limit(params);
    limit - range_of(params) <= error && error < limit
}

/// Whether this error, which is mapped to the number `mapped`, is one that a prediction can have. Below MAXVAL each number is that of such
/// an error.
pub(crate) fn is_error_of(params: &Params, special: bool, mapped: u32, error: i32) -> bool
    requires { Rattle.jls_context.specs.Errors.error_mapped special error ≡ mapped }
    ensures { IsTrue result ↔ IsError params.now error }
{
    mapped < u32::from(params.maxval()) || is_error(params, error)
}

/// The remainder modulo RANGE of a number that is at most RANGE away from 0 to MAXVAL, without a division.
fn remainder(maxval: u16, value: i32) -> u16
    requires at_least { neg_ℤ (pos (maxval + 1)) ≤ℤ value }
    requires below { value <ℤ pos (2 * (maxval + 1)) }
    ensures value { pos result ≡ int_rem_euclid value (pos (maxval + 1)) }
    ensures at_most { result ≤ maxval }
{
    let range = i32::from(maxval) + 1;
    if value < 0 {
        (value + range) as u16
    } else if value < range {
        value as u16
    } else {
        (value - range) as u16
    }
}

/// The error that is congruent to the difference modulo RANGE.
pub(crate) fn reduced(params: &Params, difference: i32) -> i32
    requires above { neg_ℤ (pos (range params.now)) <ℤ difference }
    requires below { difference <ℤ pos (range params.now) }
    ensures value { result ≡ modulo_reduced params.now difference }
    ensures reduced { IsModuloReduced params.now difference result }
{
    let remainder = i32::from(remainder(params.maxval(), difference));
    if remainder < error_limit(params) {
        remainder
    } else {
        remainder - range_of(params)
    }
}

/// The sample with this error against its prediction.
pub(crate) fn restored(params: &Params, prediction: u16, negative: bool, error: i32) -> u16
    requires prediction { prediction ≤ params.now.maxval }
    requires error { IsError params.now error }
    ensures sample { result ≤ params.now.maxval }
    ensures error { prediction_error params.now negative result prediction ≡ error }
    ensures only { (other : ℕ) → other ≤ params.now.maxval → prediction_error params.now negative other prediction ≡ error
        → other ≡ result }
{
    let maxval = params.maxval();
    remainder(maxval, i32::from(prediction) + with_sign(negative, error))
}

/// The number that an error is mapped to.
pub(crate) fn error_mapped(special: bool, error: i32) -> u32
    requires at_least { negsuc (2 ^ 17) ≤ℤ error }
    requires at_most { error ≤ℤ pos (2 ^ 17) }
    ensures { result ≡ Rattle.jls_context.specs.Errors.error_mapped special error }
{
    let negative = error < 0;
    let size = if negative { -(error + 1) } else { error };
    2 * size as u32 + (negative != special) as u32
}

/// The error that is mapped to a number.
pub(crate) fn error_unmapped(special: bool, mapped: u32) -> i32
    ensures { Rattle.jls_context.specs.Errors.error_mapped special result ≡ mapped }
{
    let half = (mapped / 2) as i32;
    if (mapped % 2 == 1) == special {
        half
    } else {
        -half - 1
    }
}
