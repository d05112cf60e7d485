//! Taking samples of regular mode from a line in work, one after another (ITU-T T.87, A.3 to A.6).

ghost use Rattle.std.specs.Prelude.{◌≡◌, ◌<◌, ◌≤◌, ◌++◌, length, pos, ◌-ℤ◌, IfSome, OnOk};
ghost use Rattle.jls_values.specs.Params.{limit, qbpp};
ghost use Rattle.jls_context.specs.Mode.{IsRegularMode, IsQuantizedGradient, quantized_gradient};
ghost use Rattle.jls_context.specs.Errors.{IsError};
ghost use Rattle.jls_context.specs.Regular.{regular_k};
ghost use Rattle.jls_context.specs.Variables.{cell_at};
ghost use Rattle.jls_bits.specs.CodeState.{IsOpen, bits_fed};
ghost use Rattle.jls_interval.specs.Cells.{regular_error};
ghost use Rattle.jls_interval.specs.CodeLengths.{AreLengths};
ghost use Rattle.jls_interval.specs.Code.{regular_bits};
ghost use Rattle.jls_interval.specs.Place.{above_of};
ghost use Rattle.jls_interval.specs.SampleCodes.{parameters_of};
ghost use Rattle.jls_interval.specs.LineSamples.{PrefixIs, TakesInLine};

use crate::code_lengths::CodeLengths;
use crate::coder::{Coder, RegularMode};
use crate::line_reader::{LineReader, OpenEvent};
use crate::place::Place;
use crate::push_sample::{Sample, sample_of};
use jls_bits::{Chunk, CodeState};
use jls_context::{Mode, Neighbours};
use std::alloc::AllocError;

/// What stands at the start of a chunk, where a sample of regular mode may come.
#[derive(Clone, Copy)]
pub(crate) enum Prefix {
    /// This sample, which was taken.
    Taken(u16),
    /// The first bits of a short code and no more, which were all taken.
    Begun(CodeState),
    /// Something else, of which nothing was taken.
    Other,
}

/// The quantized gradients of a sample from Rb to Rd and from Rc to Rb.
#[derive(Clone, Copy)]
struct GradientsAbove {
    first: i32,
    second: i32,
}

/// Takes a sample of regular mode whose code is short, if that stands whole at the start. If all bits are the first ones of such a code, it
/// takes these. The sample's gradients in the line above are given, and the lengths of the scan's codes.
#[inline(always)]
fn take_sample(
    coder: &mut Coder,
    lengths: CodeLengths,
    neighbours: Neighbours,
    gradients: GradientsAbove,
    chunk: &mut Chunk,
) -> Prefix
    requires lengths { AreLengths (parameters_of coder.old) lengths }
    requires first { gradients.first ≡ quantized_gradient (parameters_of coder.old) (pos neighbours.rd -ℤ pos neighbours.rb) }
    requires second { gradients.second ≡ quantized_gradient (parameters_of coder.old) (pos neighbours.rb -ℤ pos neighbours.rc) }
    requires steps { IsQuantizedGradient gradients.first × IsQuantizedGradient gradients.second }
    ensures prefix { PrefixIs (parameters_of coder.old) neighbours coder.old coder.new chunk.old chunk.new result }
    ensures parameters { parameters_of coder.new ≡ parameters_of coder.old }
{
    let third = coder.cells.gradient(neighbours.rc, neighbours.ra);
    match coder
        .cells
        .mode_of(gradients.first, gradients.second, third)
    {
        Mode::Run => Prefix::Other,
        Mode::Regular { cell, negative } => {
            let mode = RegularMode {
                context: cell,
                negative,
            };
            let k = coder.cells.regular_k(cell);
            let CodeLengths { qbpp, limit } = lengths;
            let before = chunk.fork();
            match chunk.take_code(k, limit, qbpp) {
                None => match CodeState::of_short(k, limit, qbpp, chunk) {
                    None => Prefix::Other,
                    Some(code) => {
                        *chunk = Chunk::new();
                        Prefix::Begun(code)
                    }
                },
                Some(mapped) => match sample_of(coder, neighbours, mode, mapped) {
                    None => {
                        *chunk = before;
                        Prefix::Other
                    }
                    Some(sample) => {
                        coder.cells.update_regular(cell, sample.error);
                        Prefix::Taken(sample.value)
                    }
                },
            }
        }
    }
}

/// Takes samples of regular mode, as long as there are at least `looked_for` bits and the next code is short and stands whole at the start.
/// It takes none where an event has begun. Where one bit is enough, it takes the first bits of a code after them too. The last column of
/// the line is not taken.
#[inline(always)]
pub(crate) fn take_samples(
    reader: &mut LineReader,
    place: &Place<'_>,
    looked_for: u8,
    chunk: &mut Chunk,
) -> Result<(), AllocError>
    requires columns { length reader.old.line.items < reader.old.width }
    ensures taken { OnOk result (TakesInLine place.now.component (above_of place.now) reader.old reader.new chunk.old chunk.new) }
    ensures width { reader.new.width ≡ reader.old.width }
    ensures parameters { parameters_of reader.new.coder ≡ parameters_of reader.old.coder }
{
    // A copy of its own, which the loop can hold in registers.
    let mut bits = chunk.fork();
    let taken = take_samples_of(reader, place, looked_for, &mut bits);
    *chunk = bits;
    taken
}

/// Takes samples as `take_samples` does, from a chunk that nothing else refers to.
#[inline(always)]
fn take_samples_of(
    reader: &mut LineReader,
    place: &Place<'_>,
    looked_for: u8,
    chunk: &mut Chunk,
) -> Result<(), AllocError>
    requires columns { length reader.old.line.items < reader.old.width }
    ensures taken { OnOk result (TakesInLine place.now.component (above_of place.now) reader.old reader.new chunk.old chunk.new) }
    ensures width { reader.new.width ≡ reader.old.width }
    ensures parameters { parameters_of reader.new.coder ≡ parameters_of reader.old.coder }
{
    let OpenEvent::NotBegun = reader.open_event else {
        return Ok(());
    };
    if reader.line.len() + 1 >= reader.width {
        return Ok(());
    }
    // A copy of its own, which the updates of the cells can't change.
    let lengths = reader.coder.lengths;
    let mut near = place.neighbours(reader.width, &reader.line, reader.line.len());
    if near.rd == near.rb && near.rb == near.rc && near.rc == near.ra {
        // A run begins here.
        return Ok(());
    }
    let mut second = reader.coder.cells.gradient(near.rb, near.rc);
    'columns: while chunk.len() >= looked_for {
        let first = reader.coder.cells.gradient(near.rd, near.rb);
        let before = chunk.fork();
        let gradients = GradientsAbove { first, second };
        match take_sample(&mut reader.coder, lengths, near, gradients, chunk) {
            Prefix::Other => return Ok(()),
            Prefix::Begun(code) => {
                if looked_for > 1 {
                    // More bytes are to come, and the whole code is taken at once then.
                    *chunk = before;
                    return Ok(());
                }
                reader.open_event = OpenEvent::Sample(code);
                return Ok(());
            }
            Prefix::Taken(value) => {
                reader.line.push(value)?;
                let count = reader.line.len();
                if count + 1 >= reader.width {
                    return Ok(());
                }
                near = place.neighbours_after(near, value, count - 1);
                second = first;
            }
        }
    }
    Ok(())
}
