//! Reading the rows of an interval whose bytes are all there.

ghost use Rattle.std.specs.Prelude.{◌≡◌, ◌≤◌, ℕ, List, map, IfOk, IfErr, MatchResult};
ghost use Rattle.jls_pixel.specs.Pixels.{pixel_shape};
ghost use Rattle.jls_pixel.specs.Reads.{Reads};
ghost use Rattle.jls_pixel.specs.PieceFaults.{FaultIs};

use crate::pixel::Pixel;
use crate::pixel_decoder::PixelDecoder;
use jls_values::Params;
use std::alloc::{AllocError, Global};
use thiserror::Error;

/// Why bytes gave no rows.
#[derive(Clone, Copy, Debug, PartialEq, Eq, Error)]
pub enum PixelFault {
    /// The whole piece has data bits, and more than seven of them follow the code of some rows.
    #[error("more than seven bits follow the code of the rows")]
    Long,
    /// The bytes are not the code of any rows with at most seven bits after it, nor are they `Long`.
    #[error("the bytes are no code of rows")]
    Broken,
    /// Memory was refused. Nothing is said of the bytes.
    #[error("out of memory")]
    OutOfMemory,
}

/// Reads the bytes of an interval as its rows of pixels. Each has `width` pixels of `components` samples, and no sample is above MAXVAL.
/// The whole piece is judged, also after its last row. At most seven bits may follow the code, of any value, which is this project's
/// choice. A byte of 0x80 or more after 0xFF makes the piece broken, wherever it is (ITU-T T.87, A.1).
pub fn decode_pixels(
    alloc: Global,
    params: &Params,
    width: u16,
    components: u8,
    rows: u32,
    piece: &[u8],
) -> Result<Vec<Vec<Pixel>>, PixelFault>
    requires width { 1 ≤ width }
    requires components { components ≤ 4 }
    ensures rows { IfOk result (λ v. Reads (pixel_shape params.now width components rows) piece.now (map (λ v. v.items) v.items)) }
    ensures fault { IfErr result (λ fault. FaultIs fault (pixel_shape params.now width components rows) piece.now) }
    ensures read { (wanted : List (List (List ℕ))) → Reads (pixel_shape params.now width components rows) piece.now wanted
        → MatchResult result (λ v. map (λ v. v.items) v.items ≡ wanted) (λ fault. fault ≡ PixelFault.OutOfMemory) }
{
    let mut decoder = PixelDecoder::new(alloc, params, width, components, rows);
    match decoder.push_all(piece) {
        Err(AllocError) => Err(PixelFault::OutOfMemory),
        Ok(()) => match decoder.finish() {
            Err(fault) => Err(fault),
            Ok(rows) => match rows.into_vecs() {
                Err(AllocError) => Err(PixelFault::OutOfMemory),
                Ok(rows) => Ok(rows),
            },
        },
    }
}
