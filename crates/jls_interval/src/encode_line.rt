//! Writing one line, a stretch of columns at a time (ITU-T T.87, A.3 and A.7).

ghost use Rattle.std.specs.Prelude.{◌≡◌, ◌^◌, ◌<◌, ◌≤◌, true, ◌==◌, [], ◌∷◌, length, slice_index, EachIndex, IsTrue, IfOk, OnOk};
ghost use Rattle.std.specs.List.{prefix_len};
ghost use Rattle.jls_context.specs.Mode.{is_run_mode};
ghost use Rattle.jls_interval.specs.SampleCodes.{parameters_of, AreInRange, IsAboveInRange};
ghost use Rattle.jls_interval.specs.Encoding.{WroteEvents, events_at, near_at, stretch_at};

use crate::coder::RegularMode;
use crate::encode_run::{write_interrupted_run, write_run_to_end};
use crate::encode_sample::{write_interrupting, write_regular};
use crate::encode_samples::write_samples;
use crate::encoder::Encoder;
use crate::place::Place;
use crate::run_index::{lowered, run_order};
use jls_context::Mode;
use std::alloc::AllocError;

/// How many samples are compared at once.
const BLOCK: usize = 16;

/// Whether all these samples have this value. It looks at each of them, so that the compiler compares several by one instruction.
#[inline(always)]
fn are_all(samples: &[u16], value: u16) -> bool
    ensures { IsTrue result → EachIndex samples.now (λ k. slice_index samples.now k ≡ value) }
{
    let mut same = true;
    for sample in samples {
        if *sample != value {
            same = false;
        }
    }
    same
}

/// How many samples from the start on have this value.
fn run_length(samples: &[u16], value: u16) -> usize
    ensures value { result ≡ prefix_len (λ sample. sample == value) samples.now }
    ensures within { result ≤ length samples.now }
{
    let mut count = 0;
    while count + BLOCK <= samples.len() && are_all(&samples[count..count + BLOCK], value) {
        count += BLOCK;
    }
    while count < samples.len() && samples[count] == value {
        count += 1;
    }
    count
}

/// Writes the run of this value from column x on, and the sample that interrupts it, and gives the column
/// after them.
fn write_run(
    encoder: &mut Encoder,
    place: &Place<'_>,
    line: &[u16],
    x: usize,
    value: u16,
) -> Result<usize, AllocError>
    requires above { IsAboveInRange encoder.old.coder place.now }
    requires samples { AreInRange encoder.old.coder line.now }
    requires width { length line.now < 2 ^ 16 }
    requires column { x < length line.now }
    requires run { is_run_mode (near_at place.now line.now x) ≡ true }
    requires value { value ≡ (near_at place.now line.now x).ra }
    ensures column { IfOk result (λ next. next ≡ (stretch_at place.now line.now x).next) }
    ensures written { OnOk result (WroteEvents encoder.old encoder.new ((stretch_at place.now line.now x).event ∷ [])) }
    ensures parameters { parameters_of encoder.new.coder ≡ parameters_of encoder.old.coder }
{
    let count = run_length(&line[x..], value);
    let stop = x + count;
    let run_index = encoder.coder.run_index(place.component);
    if stop == line.len() {
        let after = write_run_to_end(&mut encoder.writer, run_index, count as u32)?;
        encoder.coder.set_run_index(place.component, after);
        return Ok(stop);
    }
    let raised = write_interrupted_run(&mut encoder.writer, run_index, count as u32)?;
    let neighbours = place.neighbours(line.len(), line, stop);
    write_interrupting(encoder, neighbours, run_order(raised), line[stop])?;
    encoder
        .coder
        .set_run_index(place.component, lowered(raised));
    Ok(stop + 1)
}

/// Writes the stretch that begins at column x, and gives the column after it. A stretch is a sample of regular mode, or a run with the
/// sample that interrupts it.
fn write_stretch(
    encoder: &mut Encoder,
    place: &Place<'_>,
    line: &[u16],
    x: usize,
) -> Result<usize, AllocError>
    requires above { IsAboveInRange encoder.old.coder place.now }
    requires samples { AreInRange encoder.old.coder line.now }
    requires width { length line.now < 2 ^ 16 }
    requires column { x < length line.now }
    ensures column { IfOk result (λ next. next ≡ (stretch_at place.now line.now x).next) }
    ensures written { OnOk result (WroteEvents encoder.old encoder.new ((stretch_at place.now line.now x).event ∷ [])) }
    ensures parameters { parameters_of encoder.new.coder ≡ parameters_of encoder.old.coder }
{
    let neighbours = place.neighbours(line.len(), line, x);
    match encoder
        .coder
        .cells
        .mode(neighbours.ra, neighbours.rb, neighbours.rc, neighbours.rd)
    {
        Mode::Run => write_run(encoder, place, line, x, neighbours.ra),
        Mode::Regular { cell, negative } => {
            let mode = RegularMode {
                context: cell,
                negative,
            };
            write_regular(encoder, neighbours, mode, line[x])?;
            Ok(x + 1)
        }
    }
}

/// Writes a line at its place.
pub(crate) fn write_line(
    encoder: &mut Encoder,
    place: &Place<'_>,
    line: &[u16],
) -> Result<(), AllocError>
    requires above { IsAboveInRange encoder.old.coder place.now }
    requires samples { AreInRange encoder.old.coder line.now }
    requires width { length line.now < 2 ^ 16 }
    ensures written { OnOk result (WroteEvents encoder.old encoder.new (events_at place.now line.now)) }
    ensures parameters { parameters_of encoder.new.coder ≡ parameters_of encoder.old.coder }
{
    let mut x = 0;
    while x < line.len() {
        let next = write_samples(encoder, place, line, x)?;
        x = write_stretch(encoder, place, line, next)?;
    }
    Ok(())
}
