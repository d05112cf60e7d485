//! Writing samples of regular mode, one after another (ITU-T T.87, A.3 to A.6).

ghost use Rattle.std.specs.Prelude.{◌≡◌, ◌^◌, ◌<◌, ◌≤◌, length, IfOk};
ghost use Rattle.jls_interval.specs.SampleCodes.{parameters_of, AreInRange};
ghost use Rattle.jls_interval.specs.Encoding.{WroteColumns};

use crate::coder::RegularMode;
use crate::encode_sample::write_regular;
use crate::encoder::Encoder;
use crate::place::Place;
use jls_context::Mode;
use std::alloc::AllocError;

/// Writes samples of regular mode from column x on, as long as one follows the other, and gives the column after them. The last two
/// columns of the line are not written.
pub(crate) fn write_samples(
    encoder: &mut Encoder,
    place: &Place<'_>,
    line: &[u16],
    x: usize,
) -> Result<usize, AllocError>
    requires samples { AreInRange encoder.old.coder line.now }
    requires width { length line.now < 2 ^ 16 }
    requires column { x < length line.now }
    ensures from { IfOk result (λ next. x ≤ next) }
    ensures within { IfOk result (λ next. next < length line.now) }
    ensures written { IfOk result (λ next. WroteColumns place.now line.now x next encoder.old encoder.new) }
    ensures parameters { parameters_of encoder.new.coder ≡ parameters_of encoder.old.coder }
{
    let mut column = x;
    let mut near = place.neighbours(line.len(), line, column);
    let mut second = encoder.coder.cells.gradient(near.rb, near.rc);
    'columns: while column + 2 < line.len() {
        let first = encoder.coder.cells.gradient(near.rd, near.rb);
        let third = encoder.coder.cells.gradient(near.rc, near.ra);
        match encoder.coder.cells.mode_of(first, second, third) {
            Mode::Run => return Ok(column),
            Mode::Regular { cell, negative } => {
                let mode = RegularMode {
                    context: cell,
                    negative,
                };
                let sample = line[column];
                write_regular(encoder, near, mode, sample)?;
                near = place.neighbours_after(near, sample, column);
                second = first;
                column += 1;
            }
        }
    }
    Ok(column)
}
