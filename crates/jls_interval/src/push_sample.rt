//! Reading one sample, a few bits at a time (ITU-T T.87, A.4, A.5 and A.7.2).

ghost use Rattle.std.specs.Prelude.{◌≡◌, ◌≢◌, ◌≤◌, ◌++◌, Bool, true, List, pos, IfSome, IfNone};
ghost use Rattle.jls_context.specs.Errors.{IsError};
ghost use Rattle.jls_interval.specs.Cells.{regular_error, is_same, interruption_error};
ghost use Rattle.jls_interval.specs.Code.{regular_bits, interrupting_bits};
ghost use Rattle.jls_interval.specs.SampleCodes.{parameters_of, IsModeAt, IsRegularOpen, NoRegular, has_regular_code, regular_cell};
ghost use Rattle.jls_interval.specs.SampleCodes.{regular_code, regular_fed, IsInterruptingOpen, NoInterrupting, has_interrupting_code};
ghost use Rattle.jls_interval.specs.SampleCodes.{interrupting_cell, interrupting_code, interrupting_fed};
ghost use Rattle.jls_interval.specs.SampleSteps.{SamplePushed, InterruptionPushed};

use crate::coder::{Coder, RegularMode};
use jls_bits::{Chunk, CodeState, CodeStep};
use jls_context::Neighbours;

/// A sample that was read, and the error of its prediction.
#[derive(Clone, Copy)]
pub(crate) struct Sample {
    pub value: u16,
    pub error: i32,
}

/// What more bits make of a sample.
#[derive(Clone, Copy)]
pub(crate) enum SampleStep {
    /// The bits are no whole sample.
    More(CodeState),
    Done(Sample),
    /// The bits begin with no sample, however they go on.
    Refused,
}

/// The sample of regular mode whose error is mapped to this number. None where there is none.
#[inline(always)]
pub(crate) fn sample_of(
    coder: &Coder,
    neighbours: Neighbours,
    mode: RegularMode,
    mapped: u32,
) -> Option<Sample>
    requires mode { IsModeAt coder.now neighbours mode }
    requires code { has_regular_code coder.now mode mapped ≡ true }
    ensures sample { IfSome result (λ s. s.value ≤ (parameters_of coder.now).maxval) }
    ensures error { IfSome result
        (λ s. s.error ≡ regular_error (parameters_of coder.now) (regular_cell coder.now mode) neighbours s.value) }
    ensures reduced { IfSome result (λ s. IsError (parameters_of coder.now) s.error) }
    ensures bits { IfSome result (λ s. regular_bits (parameters_of coder.now) (regular_cell coder.now mode) neighbours s.value
        ≡ regular_code coder.now mode mapped) }
    ensures none { IfNone result ((given unread : List Bool) → given ≡ regular_code coder.now mode mapped ++ unread
        → NoRegular coder.now mode neighbours given) }
{
    let RegularMode { context, negative } = mode;
    match coder.cells.regular_error(context, mapped) {
        None => None,
        Some(error) => {
            let Neighbours { ra, rb, rc, .. } = neighbours;
            let prediction = coder.cells.predict(context, negative, ra, rb, rc);
            let value = coder.cells.restore(prediction, negative, error);
            Some(Sample { value, error })
        }
    }
}

/// Takes bits of a sample in regular mode.
#[inline(always)]
pub(crate) fn push_to_sample(
    coder: &Coder,
    neighbours: Neighbours,
    mode: RegularMode,
    code: CodeState,
    chunk: &mut Chunk,
) -> SampleStep
    requires mode { IsModeAt coder.now neighbours mode }
    requires opened { IsRegularOpen coder.now mode code }
    ensures { SamplePushed (parameters_of coder.now) (regular_cell coder.now mode) neighbours (regular_fed coder.now code)
        chunk.old chunk.new result }
{
    let k = coder.cells.regular_k(mode.context);
    match code.push_chunk(k, coder.lengths.limit, coder.lengths.qbpp, chunk) {
        CodeStep::More(next) => SampleStep::More(next),
        CodeStep::Refused => SampleStep::Refused,
        CodeStep::Done(mapped) => match sample_of(coder, neighbours, mode, mapped) {
            None => SampleStep::Refused,
            Some(sample) => SampleStep::Done(sample),
        },
    }
}

/// The sample that interrupts a run, whose error is mapped to this number. None where there is none,
/// and where the run would be interrupted by its own value.
pub(crate) fn interruption_of(
    coder: &Coder,
    neighbours: Neighbours,
    order: u8,
    mapped: u32,
) -> Option<Sample>
    requires order { order ≤ 15 }
    requires above { neighbours.rb ≤ (parameters_of coder.now).maxval }
    requires code { has_interrupting_code coder.now neighbours order mapped ≡ true }
    ensures sample { IfSome result (λ s. s.value ≤ (parameters_of coder.now).maxval) }
    ensures another { IfSome result (λ s. s.value ≢ neighbours.ra) }
    ensures error { IfSome result (λ s. s.error ≡ interruption_error (parameters_of coder.now) neighbours s.value) }
    ensures reduced { IfSome result (λ s. IsError (parameters_of coder.now) s.error) }
    ensures another_error { IfSome result (λ s. is_same neighbours ≡ true → s.error ≢ pos 0) }
    ensures bits { IfSome result (λ s. interrupting_bits (parameters_of coder.now) (interrupting_cell coder.now neighbours) neighbours
        order s.value ≡ interrupting_code coder.now neighbours order mapped) }
    ensures none { IfNone result ((given unread : List Bool) → given ≡ interrupting_code coder.now neighbours order mapped ++ unread
        → NoInterrupting coder.now neighbours order given) }
{
    let Neighbours { ra, rb, .. } = neighbours;
    match coder.cells.run_error(ra == rb, mapped) {
        None => None,
        Some(error) => {
            let value = coder.cells.restore(rb, rb < ra, error);
            if value == ra {
                None
            } else {
                Some(Sample { value, error })
            }
        }
    }
}

/// Takes bits of a sample that interrupts a run, after J bits of its count.
pub(crate) fn push_to_interruption(
    coder: &Coder,
    neighbours: Neighbours,
    order: u8,
    code: CodeState,
    chunk: &mut Chunk,
) -> SampleStep
    requires order { order ≤ 15 }
    requires above { neighbours.rb ≤ (parameters_of coder.now).maxval }
    requires opened { IsInterruptingOpen coder.now neighbours order code }
    ensures { InterruptionPushed (parameters_of coder.now) (interrupting_cell coder.now neighbours) neighbours order
        (interrupting_fed coder.now order code) chunk.old chunk.new result }
{
    let k = coder.cells.run_k(neighbours.ra == neighbours.rb);
    let limit = coder.lengths.limit - order - 1;
    match code.push_chunk(k, limit, coder.lengths.qbpp, chunk) {
        CodeStep::More(next) => SampleStep::More(next),
        CodeStep::Refused => SampleStep::Refused,
        CodeStep::Done(mapped) => match interruption_of(coder, neighbours, order, mapped) {
            None => SampleStep::Refused,
            Some(sample) => SampleStep::Done(sample),
        },
    }
}
