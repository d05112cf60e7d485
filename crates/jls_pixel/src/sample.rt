//! Reading one sample (ITU-T T.87, A.4, A.5 and A.7.2).

ghost use Rattle.std.specs.Prelude.{◌≡◌, ◌≤◌, IfSome, IfNone};
ghost use Rattle.jls_pixel.specs.Reading.{IsKind};
ghost use Rattle.jls_pixel.specs.SampleCodes.{parameters_of, IsSample, ReadsSampleBy, RefusesSampleBy};

use crate::coder::{Coder, RegularMode};
use crate::pending_bits::{PendingBits, read_golomb};
use jls_context::Neighbours;

/// How a sample is coded: in regular mode, or as one of a pixel that interrupts a run.
#[derive(Clone, Copy)]
pub(crate) enum SampleKind {
    Regular,
    /// J is that of RUNindex after the full blocks of the run.
    Interrupting { order: u8 },
}

/// Reads a sample in regular mode. None where none stands at the start of what is left.
fn read_regular(pending: &mut PendingBits, coder: &mut Coder, near: Neighbours) -> Option<u16>
    ensures read { IfSome result (ReadsSampleBy coder.old coder.new SampleKind.Regular near pending.old pending.new) }
    ensures sample { IfSome result (IsSample coder.old) }
    ensures refused { IfNone result (RefusesSampleBy coder.old SampleKind.Regular near pending.old) }
    ensures parameters { parameters_of coder.new ≡ parameters_of coder.old }
{
    let RegularMode { context, negative } = coder.regular_mode(near);
    let lengths = coder.lengths;
    match read_golomb(
        pending,
        coder.cells.regular_k(context),
        lengths.limit,
        lengths.qbpp,
    ) {
        None => None,
        Some(mapped) => match coder.cells.regular_error(context, mapped) {
            None => None,
            Some(error) => {
                let prediction = coder
                    .cells
                    .predict(context, negative, near.ra, near.rb, near.rc);
                let value = coder.cells.restore(prediction, negative, error);
                coder.cells.update_regular(context, error);
                Some(value)
            }
        },
    }
}

/// Reads a sample of a pixel that interrupts a run, after J bits of its count. RItype is 0. None where none stands at the start of what
/// is left.
fn read_interrupting(
    pending: &mut PendingBits,
    coder: &mut Coder,
    near: Neighbours,
    order: u8,
) -> Option<u16>
    requires order { order ≤ 15 }
    requires above { IsSample coder.old near.rb }
    ensures read { IfSome result (ReadsSampleBy coder.old coder.new (SampleKind.Interrupting order) near pending.old pending.new) }
    ensures sample { IfSome result (IsSample coder.old) }
    ensures refused { IfNone result (RefusesSampleBy coder.old (SampleKind.Interrupting order) near pending.old) }
    ensures parameters { parameters_of coder.new ≡ parameters_of coder.old }
{
    let lengths = coder.lengths;
    let limit = lengths.limit - order - 1;
    match read_golomb(pending, coder.cells.run_k(false), limit, lengths.qbpp) {
        None => None,
        Some(mapped) => match coder.cells.run_error(false, mapped) {
            None => None,
            Some(error) => {
                let value = coder.cells.restore(near.rb, near.rb < near.ra, error);
                coder.cells.update_run(false, error);
                Some(value)
            }
        },
    }
}

/// Reads a sample of this kind.
pub(crate) fn read_sample(
    pending: &mut PendingBits,
    coder: &mut Coder,
    kind: SampleKind,
    near: Neighbours,
) -> Option<u16>
    requires kind { IsKind kind }
    requires above { IsSample coder.old near.rb }
    ensures read { IfSome result (ReadsSampleBy coder.old coder.new kind near pending.old pending.new) }
    ensures sample { IfSome result (IsSample coder.old) }
    ensures refused { IfNone result (RefusesSampleBy coder.old kind near pending.old) }
    ensures parameters { parameters_of coder.new ≡ parameters_of coder.old }
{
    match kind {
        SampleKind::Regular => read_regular(pending, coder, near),
        SampleKind::Interrupting { order } => read_interrupting(pending, coder, near, order),
    }
}
