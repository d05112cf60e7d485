//! Pieces of scan data by line and by sample, and the lines that they read as. CharLS 2.4.1 wrote them, where nothing else is said.

ghost use Rattle.std.specs.Prelude.{◌*◌, ◌≤◌, ◌^◌};

use jls_interval::PieceFault;
use jls_piece::{FinishedLines, PieceDecoder, PlannedPiece};
use jls_values::Params;
use std::alloc::Global;
use std::test::Fail;

/// A piece, and the samples of its lines.
#[derive(Drop)]
struct Known {
    width: u16,
    components: u8,
    rows: u32,
    by_sample: bool,
    samples: &'static [u16],
    piece: &'static [u8],
}

/// Two components by line. This one is by hand, from T.87.
const TWO_BY_LINE: Known = Known {
    width: 1,
    components: 2,
    rows: 1,
    by_sample: false,
    samples: &[10, 10],
    piece: &[0x07, 0x16],
};

/// Pixels in regular mode, with escapes.
const PIXELS: Known = Known {
    width: 2,
    components: 3,
    rows: 2,
    by_sample: true,
    samples: &[10, 11, 20, 19, 30, 33, 200, 10, 0, 20, 255, 31],
    piece: &[
        0x02, 0x02, 0x07, 0x2E, 0x50, 0x00, 0x00, 0x18, 0x20, 0x02, 0x00, 0x00, 0xA0, 0x00, 0x00,
        0x30, 0x60, 0x0E, 0x00, 0x01, 0x00,
    ],
};

/// Runs of pixels.
const RUNS: Known = Known {
    width: 4,
    components: 3,
    rows: 3,
    by_sample: true,
    samples: &[
        0, 0, 5, 5, 0, 0, 0, 0, 0, 0, 9, 9, 0, 0, 5, 5, 0, 0, 0, 0, 0, 0, 9, 9, 0, 0, 0, 5, 0, 0,
        0, 1, 0, 0, 0, 9,
    ],
    piece: &[0xC6, 0x80, 0xD2, 0x4D, 0x12, 0x72, 0x68],
};

/// A decoder of a known piece that was given nothing.
fn decoder_of(alloc: Global, params: &Params, known: &Known) -> Option<PieceDecoder> {
    let width = known.width;
    let components = known.components;
    let rows = known.rows;
    let in_row = u32::from(width).checked_mul(u32::from(components))?;
    let samples = in_row.checked_mul(rows)?;
    if width == 0 || components == 0 || components > 4 || rows == 0 || samples > 1 << 28 {
        return None;
    }
    let _maxval = params.maxval();
    Some(PieceDecoder::new(
        alloc,
        PlannedPiece {
            params: *params,
            width,
            components,
            rows,
            by_sample: known.by_sample,
        },
    ))
}

/// Whether lines are the samples of a known piece.
fn are_known(lines: FinishedLines, known: &Known) -> bool {
    let count = lines.len();
    let Ok(lines) = lines.into_vecs() else {
        return false;
    };
    if lines.len() != count {
        return false;
    }
    let mut wanted = known.samples.iter();
    for line in lines {
        for sample in line {
            if wanted.next() != Some(&sample) {
                return false;
            }
        }
    }
    wanted.next().is_none()
}

/// Whether a piece reads as its samples, also by a clone that was made half-way.
fn is_read(alloc: Global, params: &Params, known: &Known) -> bool {
    let (first, second) = known.piece.split_at(known.piece.len() / 2);
    let Some(mut decoder) = decoder_of(alloc, params, known) else {
        return false;
    };
    if decoder.push_all(first).is_err() {
        return false;
    }
    let Ok(mut clone) = decoder.try_clone() else {
        return false;
    };
    if decoder.push_all(second).is_err() || clone.push_all(second).is_err() {
        return false;
    }
    let (Ok(lines), Ok(again)) = (decoder.finish(), clone.finish()) else {
        return false;
    };
    are_known(lines, known) && are_known(again, known)
}

/// The fault of these bytes, in the size of a known piece.
fn fault_of(alloc: Global, params: &Params, known: &Known, piece: &[u8]) -> Option<PieceFault> {
    let mut decoder = decoder_of(alloc, params, known)?;
    decoder.push_all(piece).ok()?;
    decoder.finish().err()
}

#[test]
fn known_pieces(rt: HostRuntime) -> Result<(), Fail> {
    let alloc = rt.alloc();
    let params = Params::new(8, 0, 0, 0, 0, 0)?;
    for known in [TWO_BY_LINE, PIXELS, RUNS] {
        assert!(rt; is_read(alloc, &params, &known));
    }
    Ok(())
}

#[test]
fn faulty_pieces(rt: HostRuntime) -> Result<(), Fail> {
    let alloc = rt.alloc();
    let params = Params::new(8, 0, 0, 0, 0, 0)?;
    for known in [TWO_BY_LINE, PIXELS, RUNS] {
        let (first, _) = known.piece.split_at(known.piece.len() / 2);
        let cut = fault_of(alloc, &params, &known, first);
        assert!(rt; matches!(&cut, Some(PieceFault::Broken)));
        let mut longer = Vec::new(alloc);
        longer.extend_from_slice(known.piece)?;
        longer.push(0)?;
        let long = fault_of(alloc, &params, &known, &longer);
        assert!(rt; matches!(&long, Some(PieceFault::Long)));
        longer.extend_from_slice(&[0xFF, 0x80])?;
        let ended = fault_of(alloc, &params, &known, &longer);
        assert!(rt; matches!(&ended, Some(PieceFault::Broken)));
    }
    Ok(())
}
