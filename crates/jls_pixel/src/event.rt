//! Reading one event: a pixel in regular mode, or a run with what ends it.

ghost use Rattle.std.specs.Prelude.{◌≡◌, ◌+◌, ◌<◌, ◌≤◌, ◌++◌, true, false, length, replicate, nat_eq, IfOk};
ghost use Rattle.std.specs.Cmp.Lexicographic.{pointwise};
ghost use Rattle.jls_pixel.specs.Pixels.{is_run_pixel};
ghost use Rattle.jls_pixel.specs.Place.{nears_at, run_value_at};
ghost use Rattle.jls_pixel.specs.Answers.{IfFound, IfNoneFound};
ghost use Rattle.jls_pixel.specs.SampleCodes.{parameters_of};
ghost use Rattle.jls_pixel.specs.RowsInWork.{ArePixels, ArePixelsAbove, GrowsWithin, ReadsEventAt, RefusesEventAt};
ghost use Rattle.jls_pixel.specs.RowsInWork.{InterruptionReadAt, NoInterruptionAt};

use crate::coder::Coder;
use crate::pending_bits::PendingBits;
use crate::pixel::Pixel;
use crate::place::Place;
use crate::read_pixel::read_pixel;
use crate::run::{Run, read_run};
use crate::run_index::{lowered, run_order};
use crate::sample::SampleKind;
use std::alloc::AllocError;

/// Adds the pixels of a run to its row.
pub(crate) fn push_run(
    place: &Place<'_>,
    row: &mut Vec<Pixel>,
    count: u32,
) -> Result<(), AllocError>
    requires { length row.old.items + count ≤ place.now.width }
    ensures { IfOk result (λ _. row.new.items ≡ row.old.items ++ replicate count (run_value_at place.now row.old.items)) }
{
    for _pixel in 0..count {
        let value = place.run_value(row);
        row.push(value)?;
    }
    Ok(())
}

/// Reads a pixel in regular mode, adds it to its row, and gives RUNindex as it was. None where none stands at the start of what is left.
fn read_regular_pixel(
    pending: &mut PendingBits,
    coder: &mut Coder,
    run_index: u8,
    place: &Place<'_>,
    row: &mut Vec<Pixel>,
) -> Result<Option<u8>, AllocError>
    requires run_index { run_index ≤ 31 }
    requires above { ArePixelsAbove coder.old place.now }
    requires row { ArePixels coder.old place.now row.old.items }
    requires column { length row.old.items < place.now.width }
    requires mode { is_run_pixel (nears_at place.now row.old.items) ≡ false }
    ensures read { IfFound result (ReadsEventAt place.now row.old.items row.new.items coder.old coder.new run_index
        pending.old pending.new) }
    ensures pixels { IfFound result (λ _. ArePixels coder.old place.now row.new.items) }
    ensures columns { IfFound result (λ _. GrowsWithin place.now row.old.items row.new.items) }
    ensures refused { IfNoneFound result (RefusesEventAt place.now row.old.items coder.old run_index pending.old) }
    ensures run_index { IfFound result (λ next. next ≤ 31) }
    ensures parameters { parameters_of coder.new ≡ parameters_of coder.old }
{
    match read_pixel(pending, coder, SampleKind::Regular, place, row) {
        None => Ok(None),
        Some(pixel) => {
            row.push(pixel)?;
            Ok(Some(run_index))
        }
    }
}

/// Whether a pixel is the value of a run that goes on at the pixel that follows these pixels of the row.
fn is_run_value(place: &Place<'_>, row: &[Pixel], pixel: &Pixel) -> bool
    requires { length row.now < place.now.width }
    ensures { result ≡ pointwise nat_eq pixel.now (run_value_at place.now row.now) }
{
    pixel.is_same(&place.run_value(row))
}

/// Reads the pixel that interrupts a run whose pixels were added to its row, from this RUNindex after its full blocks on. None where no
/// such pixel stands at the start of what is left, and where it is the run's own value.
fn read_interruption(
    pending: &mut PendingBits,
    coder: &mut Coder,
    run_index: u8,
    place: &Place<'_>,
    row: &mut Vec<Pixel>,
) -> Result<Option<u8>, AllocError>
    requires run_index { run_index ≤ 31 }
    requires above { ArePixelsAbove coder.old place.now }
    requires row { ArePixels coder.old place.now row.old.items }
    requires column { length row.old.items < place.now.width }
    ensures read { IfFound result (InterruptionReadAt place.now row.old.items row.new.items coder.old coder.new run_index
        pending.old pending.new) }
    ensures refused { IfNoneFound result (NoInterruptionAt place.now row.old.items coder.old run_index pending.old) }
    ensures parameters { parameters_of coder.new ≡ parameters_of coder.old }
{
    let kind = SampleKind::Interrupting {
        order: run_order(run_index),
    };
    match read_pixel(pending, coder, kind, place, row) {
        None => Ok(None),
        Some(pixel) => {
            if is_run_value(place, row, &pixel) {
                return Ok(None);
            }
            row.push(pixel)?;
            Ok(Some(lowered(run_index)))
        }
    }
}

/// Reads a run and what ends it, adds its pixels to the row, and gives the new RUNindex. None where no run stands at the start of what is
/// left.
fn read_run_pixels(
    pending: &mut PendingBits,
    coder: &mut Coder,
    run_index: u8,
    place: &Place<'_>,
    row: &mut Vec<Pixel>,
) -> Result<Option<u8>, AllocError>
    requires run_index { run_index ≤ 31 }
    requires above { ArePixelsAbove coder.old place.now }
    requires row { ArePixels coder.old place.now row.old.items }
    requires column { length row.old.items < place.now.width }
    requires mode { is_run_pixel (nears_at place.now row.old.items) ≡ true }
    ensures read { IfFound result (ReadsEventAt place.now row.old.items row.new.items coder.old coder.new run_index
        pending.old pending.new) }
    ensures pixels { IfFound result (λ _. ArePixels coder.old place.now row.new.items) }
    ensures columns { IfFound result (λ _. GrowsWithin place.now row.old.items row.new.items) }
    ensures refused { IfNoneFound result (RefusesEventAt place.now row.old.items coder.old run_index pending.old) }
    ensures run_index { IfFound result (λ next. next ≤ 31) }
    ensures parameters { parameters_of coder.new ≡ parameters_of coder.old }
{
    let columns = (place.width - row.len()) as u32;
    match read_run(pending, run_index, columns) {
        None => Ok(None),
        Some(Run::ToEnd { run_index }) => {
            push_run(place, row, columns)?;
            Ok(Some(run_index))
        }
        Some(Run::Interrupted { count, run_index }) => {
            push_run(place, row, count)?;
            read_interruption(pending, coder, run_index, place, row)
        }
    }
}

/// Reads the event that stands at the start of what is left, adds its pixels to the row, and gives the new RUNindex. None where none
/// stands there that can come next.
pub(crate) fn read_event(
    pending: &mut PendingBits,
    coder: &mut Coder,
    run_index: u8,
    place: &Place<'_>,
    row: &mut Vec<Pixel>,
) -> Result<Option<u8>, AllocError>
    requires run_index { run_index ≤ 31 }
    requires above { ArePixelsAbove coder.old place.now }
    requires row { ArePixels coder.old place.now row.old.items }
    requires column { length row.old.items < place.now.width }
    ensures read { IfFound result (ReadsEventAt place.now row.old.items row.new.items coder.old coder.new run_index
        pending.old pending.new) }
    ensures pixels { IfFound result (λ _. ArePixels coder.old place.now row.new.items) }
    ensures columns { IfFound result (λ _. GrowsWithin place.now row.old.items row.new.items) }
    ensures refused { IfNoneFound result (RefusesEventAt place.now row.old.items coder.old run_index pending.old) }
    ensures run_index { IfFound result (λ next. next ≤ 31) }
    ensures parameters { parameters_of coder.new ≡ parameters_of coder.old }
{
    if place.is_run(row) {
        read_run_pixels(pending, coder, run_index, place, row)
    } else {
        read_regular_pixel(pending, coder, run_index, place, row)
    }
}
