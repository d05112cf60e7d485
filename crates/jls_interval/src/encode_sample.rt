//! Writing one sample (ITU-T T.87, A.4, A.5 and A.7.2).

ghost use Rattle.std.specs.Prelude.{◌≡◌, ◌≢◌, ◌≤◌, [], ◌∷◌, ◌++◌, not, pos, ◌-ℤ◌, OnOk};
ghost use Rattle.jls_context.specs.Mode.{with_sign};
ghost use Rattle.jls_context.specs.Interruption.{run_updated};
ghost use Rattle.jls_context.specs.Variables.{run_cell_at};
ghost use Rattle.jls_interval.specs.Events.{regular};
ghost use Rattle.jls_interval.specs.Cells.{is_same, interruption_error};
ghost use Rattle.jls_interval.specs.Code.{interrupting_bits};
ghost use Rattle.jls_interval.specs.SampleCodes.{parameters_of, interrupting_cell, IsModeAt};
ghost use Rattle.jls_interval.specs.Encoding.{WroteEvents};

use crate::coder::RegularMode;
use crate::encoder::Encoder;
use jls_bits::write_golomb;
use jls_context::Neighbours;
use std::alloc::AllocError;

/// The difference of a sample and its prediction, with SIGN.
fn signed_difference(negative: bool, sample: u16, prediction: u16) -> i32
    ensures { result ≡ with_sign negative (pos sample -ℤ pos prediction) }
{
    let difference = i32::from(sample) - i32::from(prediction);
    if negative { -difference } else { difference }
}

// A call of its own: within the loop that calls it, the compiler makes jumps of what are moves here.
/// Writes a sample of regular mode.
#[inline(never)]
pub(crate) fn write_regular(
    encoder: &mut Encoder,
    neighbours: Neighbours,
    mode: RegularMode,
    sample: u16,
) -> Result<(), AllocError>
    requires mode { IsModeAt encoder.old.coder neighbours mode }
    requires sample { sample ≤ (parameters_of encoder.old.coder).maxval }
    ensures written { OnOk result (WroteEvents encoder.old encoder.new (regular neighbours sample ∷ [])) }
    ensures parameters { parameters_of encoder.new.coder ≡ parameters_of encoder.old.coder }
{
    let RegularMode { context, negative } = mode;
    let Neighbours { ra, rb, rc, .. } = neighbours;
    let cells = &mut encoder.coder.cells;
    let lengths = encoder.coder.lengths;
    let predicted = cells.predict(context, negative, ra, rb, rc);
    let error = cells.reduce(signed_difference(negative, sample, predicted));
    let (k, mapped) = cells.regular_code(context, error);
    write_golomb(&mut encoder.writer, mapped, k, lengths.limit, lengths.qbpp)?;
    cells.update_regular(context, error);
    Ok(())
}

/// Writes the sample that interrupts a run, after J bits.
pub(crate) fn write_interrupting(
    encoder: &mut Encoder,
    neighbours: Neighbours,
    order: u8,
    sample: u16,
) -> Result<(), AllocError>
    requires above { neighbours.rb ≤ (parameters_of encoder.old.coder).maxval }
    requires order { order ≤ 15 }
    requires sample { sample ≤ (parameters_of encoder.old.coder).maxval }
    requires another { sample ≢ neighbours.ra }
    ensures written { OnOk result (encoder.new.writer ≡ encoder.old.writer
        ++ interrupting_bits (parameters_of encoder.old.coder) (interrupting_cell encoder.old.coder neighbours) neighbours order sample) }
    ensures updated { OnOk result (interrupting_cell encoder.new.coder neighbours
        ≡ run_updated (parameters_of encoder.old.coder).reset (is_same neighbours) (interrupting_cell encoder.old.coder neighbours)
        (interruption_error (parameters_of encoder.old.coder) neighbours sample)) }
    ensures other { run_cell_at encoder.new.coder.cells (not (is_same neighbours))
        ≡ run_cell_at encoder.old.coder.cells (not (is_same neighbours)) }
    ensures regular { encoder.new.coder.cells.regular ≡ encoder.old.coder.cells.regular }
    ensures parameters { parameters_of encoder.new.coder ≡ parameters_of encoder.old.coder }
    ensures run_indices { encoder.new.coder.run_indices ≡ encoder.old.coder.run_indices }
{
    let Neighbours { ra, rb, .. } = neighbours;
    let same = ra == rb;
    let cells = &mut encoder.coder.cells;
    let lengths = encoder.coder.lengths;
    let error = cells.reduce(signed_difference(rb < ra, sample, rb));
    let (k, mapped) = cells.run_code(same, error);
    let limit = lengths.limit - order - 1;
    write_golomb(&mut encoder.writer, mapped, k, limit, lengths.qbpp)?;
    cells.update_run(same, error);
    Ok(())
}
