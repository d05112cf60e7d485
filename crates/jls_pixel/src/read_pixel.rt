//! Reading the samples of one pixel.

ghost use Rattle.std.specs.Prelude.{◌≡◌, ◌<◌, length, IfSome, IfNone};
ghost use Rattle.jls_pixel.specs.Pixels.{IsPixel};
ghost use Rattle.jls_pixel.specs.Reading.{IsKind};
ghost use Rattle.jls_pixel.specs.SampleCodes.{parameters_of};
ghost use Rattle.jls_pixel.specs.RowsInWork.{ArePixels, ArePixelsAbove, ReadsPixelAt, RefusesPixelAt};

use crate::coder::Coder;
use crate::pending_bits::PendingBits;
use crate::pixel::Pixel;
use crate::place::Place;
use crate::sample::{SampleKind, read_sample};

/// Reads the samples of the pixel that follows these pixels of the row. None where no such pixel stands at the start of what is left.
pub(crate) fn read_pixel(
    pending: &mut PendingBits,
    coder: &mut Coder,
    kind: SampleKind,
    place: &Place<'_>,
    row: &[Pixel],
) -> Option<Pixel>
    requires kind { IsKind kind }
    requires above { ArePixelsAbove coder.old place.now }
    requires row { ArePixels coder.old place.now row.now }
    requires column { length row.now < place.now.width }
    ensures read { IfSome result (ReadsPixelAt place.now row.now coder.old coder.new kind pending.old pending.new) }
    ensures pixel { IfSome result (IsPixel (parameters_of coder.old) place.now.components) }
    ensures refused { IfNone result (RefusesPixelAt place.now row.now coder.old kind pending.old) }
    ensures parameters { parameters_of coder.new ≡ parameters_of coder.old }
{
    let mut pixel = Pixel::new();
    for component in 0..place.components {
        let near = place.neighbours(row, component);
        match read_sample(pending, coder, kind, near) {
            None => return None,
            Some(sample) => pixel.push(sample),
        }
    }
    Some(pixel)
}
