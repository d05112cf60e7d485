//! Whether the bits that are left are the first ones, and not all, of an event that can come next.

ghost use Rattle.std.specs.Prelude.{◌≡◌, ◌<◌, ◌≤◌, true, length};
ghost use Rattle.jls_pixel.specs.Pixels.{is_run_pixel};
ghost use Rattle.jls_pixel.specs.Place.{nears_at};
ghost use Rattle.jls_pixel.specs.Answers.{IfYes, IfNo};
ghost use Rattle.jls_pixel.specs.RowsInWork.{ArePixels, ArePixelsAbove, CutsEventsAt, CutsNoEventAt};

use crate::coder::Coder;
use crate::cut_pixel::pixel_is_cut;
use crate::cut_run::{RunEnd, read_run_end};
use crate::event::push_run;
use crate::finished_rows::cloned_row;
use crate::pending_bits::PendingBits;
use crate::pixel::Pixel;
use crate::place::Place;
use crate::run::Run;
use crate::run_index::run_order;
use crate::sample::SampleKind;
use std::alloc::{AllocError, Global};

/// Whether the bits are the first ones, and not all, of a run that can come next, with the pixel that interrupts it. Without components
/// no pixel can interrupt a run.
fn run_is_cut(
    alloc: Global,
    pending: &mut PendingBits,
    coder: &mut Coder,
    run_index: u8,
    place: &Place<'_>,
    row: &[Pixel],
) -> Result<bool, AllocError>
    requires run_index { run_index ≤ 31 }
    requires above { ArePixelsAbove coder.old place.now }
    requires row { ArePixels coder.old place.now row.now }
    requires column { length row.now < place.now.width }
    requires mode { is_run_pixel (nears_at place.now row.now) ≡ true }
    ensures yes { IfYes result (CutsEventsAt place.now row.now coder.old run_index pending.old) }
    ensures no { IfNo result (CutsNoEventAt place.now row.now coder.old run_index pending.old) }
{
    let columns = (place.width - row.len()) as u32;
    match read_run_end(pending, run_index, columns) {
        RunEnd::Refused => Ok(false),
        RunEnd::InBlocks => Ok(true),
        RunEnd::InCount => Ok(place.components > 0),
        RunEnd::Whole(Run::ToEnd { .. }) => Ok(false),
        RunEnd::Whole(Run::Interrupted { count, run_index }) => {
            let mut longer = cloned_row(alloc, row)?;
            push_run(place, &mut longer, count)?;
            let kind = SampleKind::Interrupting {
                order: run_order(run_index),
            };
            pixel_is_cut(pending, coder, kind, place, &longer)
        }
    }
}

/// Whether the bits are the first ones, and not all, of an event that can come next in a row that begins with these pixels. What stands
/// whole is taken.
pub(crate) fn event_is_cut(
    alloc: Global,
    pending: &mut PendingBits,
    coder: &mut Coder,
    run_index: u8,
    place: &Place<'_>,
    row: &[Pixel],
) -> Result<bool, AllocError>
    requires run_index { run_index ≤ 31 }
    requires above { ArePixelsAbove coder.old place.now }
    requires row { ArePixels coder.old place.now row.now }
    requires column { length row.now < place.now.width }
    ensures yes { IfYes result (CutsEventsAt place.now row.now coder.old run_index pending.old) }
    ensures no { IfNo result (CutsNoEventAt place.now row.now coder.old run_index pending.old) }
{
    if place.is_run(row) {
        run_is_cut(alloc, pending, coder, run_index, place, row)
    } else {
        pixel_is_cut(pending, coder, SampleKind::Regular, place, row)
    }
}
