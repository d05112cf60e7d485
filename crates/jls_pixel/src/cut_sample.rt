//! Whether the bits that are left are the first ones, and not all, of a sample that can come (ITU-T T.87, A.5.3 and A.7.2).

ghost use Rattle.std.specs.Prelude.{◌≡◌, ◌+◌, ◌^◌, ◌≤◌, true, false, pos, ◌-ℤ◌, IfSome, IfNone};
ghost use Rattle.jls_values.specs.Params.{qbpp};
ghost use Rattle.jls_bits.specs.CodeState.{IsOpen, bits_fed};
ghost use Rattle.jls_context.specs.Mode.{with_sign};
ghost use Rattle.jls_pixel.specs.Reading.{IsKind};
ghost use Rattle.jls_pixel.specs.OpenEvents.{CutsNoCode, k_of, limit_of, IsNot};
ghost use Rattle.jls_pixel.specs.Answers.{IfYes, IfNo};
ghost use Rattle.jls_pixel.specs.SampleCodes.{parameters_of, IsSample, CodesSampleBy, CutsSamplesBy, CutsNoSampleBy};
ghost use Rattle.jls_pixel.specs.OpenSamples.{IsOpenSample, IsNotCut, BeginsSample, BeginsNoSample};

use crate::coder::{Coder, RegularMode};
use crate::pending_bits::PendingBits;
use crate::sample::SampleKind;
use jls_bits::{CodeState, CodeStep};
use jls_context::Neighbours;
use std::alloc::AllocError;

/// Takes all bits, if they are the first ones of a code and not all of it. None where they are not.
fn take_open_code(pending: &mut PendingBits, k: u8, g: u8, qbpp: u8) -> Option<CodeState>
    requires k { k ≤ 16 }
    requires qbpp { (1 ≤ qbpp) × (qbpp ≤ 16) }
    requires g { (qbpp + 2 ≤ g) × (g ≤ 64) }
    ensures opened { IfSome result (IsOpen k g qbpp) }
    ensures fed { IfSome result (λ code. bits_fed g qbpp code ≡ pending.old) }
    ensures none { IfNone result (CutsNoCode k g qbpp pending.old) }
{
    let mut state = CodeState::START;
    while let Some(bit) = pending.read_bit() {
        match state.push(k, g, qbpp, bit) {
            CodeStep::More(next) => state = next,
            CodeStep::Done(_) => return None,
            CodeStep::Refused => return None,
        }
    }
    Some(state)
}

/// What the code of a sample depends on, besides its number: k, and the limit.
#[derive(Clone, Copy)]
pub(crate) struct CodeShape {
    k: u8,
    limit: u8,
}

/// The shape of the code of a sample.
fn code_shape(coder: &Coder, kind: SampleKind, near: Neighbours) -> CodeShape
    requires { IsKind kind }
    ensures k { result.k ≡ k_of (parameters_of coder.now) kind near coder.now.cells }
    ensures limit { result.limit ≡ limit_of (parameters_of coder.now) kind }
    ensures k_at_most { result.k ≤ 16 }
    ensures room { qbpp (parameters_of coder.now) + 2 ≤ result.limit }
    ensures limit_at_most { result.limit ≤ 64 }
{
    match kind {
        SampleKind::Regular => CodeShape {
            k: coder.cells.regular_k(coder.regular_mode(near).context),
            limit: coder.lengths.limit,
        },
        SampleKind::Interrupting { order } => CodeShape {
            k: coder.cells.run_k(false),
            limit: coder.lengths.limit - order - 1,
        },
    }
}

/// The difference of a sample and its prediction, with SIGN.
fn signed_difference(negative: bool, sample: u16, prediction: u16) -> i32
    ensures { result ≡ with_sign negative (pos sample -ℤ pos prediction) }
{
    let difference = i32::from(sample) - i32::from(prediction);
    if negative { -difference } else { difference }
}

/// The number that is coded for a sample in regular mode.
fn regular_number(coder: &Coder, near: Neighbours, sample: u16) -> u32
    requires sample { IsSample coder.now sample }
    ensures number { CodesSampleBy coder.now SampleKind.Regular near sample result }
    ensures at_most { result ≤ 2 ^ qbpp (parameters_of coder.now) }
{
    let RegularMode { context, negative } = coder.regular_mode(near);
    let predicted = coder
        .cells
        .predict(context, negative, near.ra, near.rb, near.rc);
    let error = coder
        .cells
        .reduce(signed_difference(negative, sample, predicted));
    coder.cells.regular_code(context, error).1
}

/// The number that is coded for a sample of a pixel that interrupts a run. RItype is 0.
fn interrupting_number(coder: &Coder, near: Neighbours, order: u8, sample: u16) -> u32
    requires order { order ≤ 15 }
    requires above { IsSample coder.now near.rb }
    requires sample { IsSample coder.now sample }
    ensures number { CodesSampleBy coder.now (SampleKind.Interrupting order) near sample result }
    ensures at_most { result ≤ 2 ^ qbpp (parameters_of coder.now) }
{
    let error = coder
        .cells
        .reduce(signed_difference(near.rb < near.ra, sample, near.rb));
    coder.cells.run_code(false, error).1
}

/// The number that is coded for a sample of this kind.
fn sample_number(coder: &Coder, kind: SampleKind, near: Neighbours, sample: u16) -> u32
    requires kind { IsKind kind }
    requires above { IsSample coder.now near.rb }
    requires sample { IsSample coder.now sample }
    ensures number { CodesSampleBy coder.now kind near sample result }
    ensures at_most { result ≤ 2 ^ qbpp (parameters_of coder.now) }
{
    match kind {
        SampleKind::Regular => regular_number(coder, near, sample),
        SampleKind::Interrupting { order } => interrupting_number(coder, near, order, sample),
    }
}

/// The first bits of the code of a sample, and what the code depends on besides its number.
#[derive(Clone, Copy)]
pub(crate) struct OpenSample {
    kind: SampleKind,
    near: Neighbours,
    shape: CodeShape,
    code: CodeState,
}

/// Whether this sample is the one that is excepted.
fn is_excepted(except: Option<u16>, sample: u16) -> bool
    ensures yes { result ≡ true → IsNot except sample → ⊥ }
    ensures no { result ≡ false → IsNot except sample }
{
    match except {
        None => false,
        Some(value) => sample == value,
    }
}

/// Whether the first bits of a code are those of this sample, and it is not the one that is excepted.
fn sample_begins(coder: &Coder, begun: OpenSample, except: Option<u16>, sample: u16) -> bool
    requires begun { IsOpenSample coder.now.cells begun }
    requires sample { IsSample coder.now sample }
    ensures yes { result ≡ true → BeginsSample coder.now except begun }
    ensures no { result ≡ false → IsNot except sample → IsNotCut coder.now.cells begun sample }
{
    if is_excepted(except, sample) {
        return false;
    }
    let number = sample_number(coder, begun.kind, begun.near, sample);
    begun.code.allows(begun.shape.k, begun.shape.limit, coder.lengths.qbpp, number)
}

/// Whether the first bits of a code are those of a sample that is not the one that is excepted.
fn some_sample_begins(coder: &Coder, begun: OpenSample, except: Option<u16>) -> bool
    requires { IsOpenSample coder.now.cells begun }
    ensures yes { result ≡ true → BeginsSample coder.now except begun }
    ensures no { result ≡ false → BeginsNoSample coder.now except begun }
{
    for sample in 0..u32::from(coder.lengths.maxval) + 1 {
        if sample_begins(coder, begun, except, sample as u16) {
            return true;
        }
    }
    false
}

/// Whether the bits are the first ones, and not all, of the code of a sample of this kind. One value may be excepted.
pub(crate) fn sample_is_cut(
    pending: &PendingBits,
    coder: &Coder,
    kind: SampleKind,
    near: Neighbours,
    except: Option<u16>,
) -> Result<bool, AllocError>
    requires kind { IsKind kind }
    requires above { IsSample coder.now near.rb }
    ensures yes { IfYes result (CutsSamplesBy coder.now kind near except pending.now) }
    ensures no { IfNo result (CutsNoSampleBy coder.now kind near except pending.now) }
{
    let shape = code_shape(coder, kind, near);
    let mut left = pending.try_clone()?;
    match take_open_code(&mut left, shape.k, shape.limit, coder.lengths.qbpp) {
        None => Ok(false),
        Some(code) => {
            let begun = OpenSample {
                kind,
                near,
                shape,
                code,
            };
            Ok(some_sample_begins(coder, begun, except))
        }
    }
}
