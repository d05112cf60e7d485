//! Reading the lines of an interval whose bytes are all there.

ghost use Rattle.std.specs.Prelude.{◌≡◌, ◌*◌, ◌^◌, ◌≤◌, ℕ, List, map, IfOk, IfErr, MatchResult};
ghost use Rattle.jls_interval.specs.Lines.{interval_shape};
ghost use Rattle.jls_interval.specs.Reads.{Reads};
ghost use Rattle.jls_interval.specs.PieceFaults.{FaultIs};

use crate::interval_decoder::IntervalDecoder;
use jls_values::Params;
use std::alloc::{AllocError, Global};
use thiserror::Error;

/// Why bytes gave no lines.
#[derive(Clone, Copy, Debug, PartialEq, Eq, Error)]
pub enum PieceFault {
    /// The whole piece has data bits, and more than seven of them follow the code of some lines.
    #[error("more than seven bits follow the code of the lines")]
    Long,
    /// The bytes are not the code of any lines with at most seven bits after it, nor are they `Long`.
    #[error("the bytes are no code of lines")]
    Broken,
    /// Memory was refused. Nothing is said of the bytes.
    #[error("out of memory")]
    OutOfMemory,
}

/// Reads the bytes of an interval as its lines, row by row, and within a row by component. Each has `width` samples of at most MAXVAL.
/// `rows` is the number of lines of each component. The whole piece is judged, also after its last line. At most seven bits may follow
/// the code, of any value, which is this project's choice. A byte of 0x80 or more after 0xFF makes the piece broken, wherever it is
/// (ITU-T T.87, A.1).
pub fn decode_interval(
    alloc: Global,
    params: &Params,
    width: u16,
    components: u8,
    rows: u32,
    piece: &[u8],
) -> Result<Vec<Vec<u16>>, PieceFault>
    requires width { 1 ≤ width }
    requires components_at_least { 1 ≤ components }
    requires components_at_most { components ≤ 4 }
    requires rows { 1 ≤ rows }
    requires samples { width * components * rows ≤ 2 ^ 28 }
    ensures lines { IfOk result (λ v. Reads (interval_shape params.now width components (rows * components)) piece.now
        (map (λ v. v.items) v.items)) }
    ensures fault { IfErr result (λ fault. FaultIs fault (interval_shape params.now width components (rows * components)) piece.now) }
    ensures read { (lines : List (List ℕ)) → Reads (interval_shape params.now width components (rows * components)) piece.now lines
        → MatchResult result (λ v. map (λ v. v.items) v.items ≡ lines) (λ fault. fault ≡ PieceFault.OutOfMemory) }
{
    let mut decoder = IntervalDecoder::new(alloc, params, width, components, rows);
    match decoder.push_all(piece) {
        Err(AllocError) => Err(PieceFault::OutOfMemory),
        Ok(()) => match decoder.finish() {
            Err(fault) => Err(fault),
            Ok(lines) => match lines.into_vecs() {
                Err(AllocError) => Err(PieceFault::OutOfMemory),
                Ok(lines) => Ok(lines),
            },
        },
    }
}
