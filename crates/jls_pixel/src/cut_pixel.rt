//! Whether the bits that are left are the first ones, and not all, of the samples of a pixel that can come.

ghost use Rattle.std.specs.Prelude.{◌<◌, length};
ghost use Rattle.jls_pixel.specs.Place.{run_value_at};
ghost use Rattle.jls_pixel.specs.Reading.{IsKind};
ghost use Rattle.jls_pixel.specs.OpenEvents.{IsExcepted};
ghost use Rattle.jls_pixel.specs.Answers.{IfYes, IfNo};
ghost use Rattle.jls_pixel.specs.RowsInWork.{ArePixels, ArePixelsAbove, CutsPixelsAt, CutsNoPixelAt};

use crate::coder::Coder;
use crate::cut_sample::sample_is_cut;
use crate::pending_bits::PendingBits;
use crate::pixel::Pixel;
use crate::place::Place;
use crate::sample::{SampleKind, read_sample};
use std::alloc::AllocError;

/// The sample that would make of these first ones the run's own value, in a pixel that interrupts a run. It can only be that of the last
/// component.
fn excepted_sample(
    kind: SampleKind,
    place: &Place<'_>,
    row: &[Pixel],
    first: &Pixel,
    ra: u16,
) -> Option<u16>
    requires column { length row.now < place.now.width }
    requires few { length first.now < 4 }
    ensures { IsExcepted kind (run_value_at place.now row.now) first.now ra result }
{
    match kind {
        SampleKind::Regular => None,
        SampleKind::Interrupting { .. } => {
            let mut own = first.to_owned();
            own.push(ra);
            if own.is_same(&place.run_value(row)) {
                Some(ra)
            } else {
                None
            }
        }
    }
}

/// Whether the bits are the first ones, and not all, of the samples of a pixel that can follow these pixels of the row. It takes the
/// samples that stand whole.
pub(crate) fn pixel_is_cut(
    pending: &mut PendingBits,
    coder: &mut Coder,
    kind: SampleKind,
    place: &Place<'_>,
    row: &[Pixel],
) -> Result<bool, AllocError>
    requires kind { IsKind kind }
    requires above { ArePixelsAbove coder.old place.now }
    requires row { ArePixels coder.old place.now row.now }
    requires column { length row.now < place.now.width }
    ensures yes { IfYes result (CutsPixelsAt place.now row.now coder.old kind pending.old) }
    ensures no { IfNo result (CutsNoPixelAt place.now row.now coder.old kind pending.old) }
{
    let mut pixel = Pixel::new();
    for component in 0..place.components {
        let near = place.neighbours(row, component);
        let except = excepted_sample(kind, place, row, &pixel, near.ra);
        if sample_is_cut(pending, coder, kind, near, except)? {
            return Ok(true);
        }
        match read_sample(pending, coder, kind, near) {
            None => return Ok(false),
            Some(sample) => pixel.push(sample),
        }
    }
    Ok(false)
}
