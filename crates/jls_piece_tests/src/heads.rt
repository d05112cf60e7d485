//! What pieces of scan data by sample give where their end is cut off. How many bytes the first rows need is what a coder in C++ gives
//! that writes these pieces byte for byte.

ghost use Rattle.std.specs.Prelude.{◌≤◌};

use crate::rows::{BLOCKS, CONTEXT_0, DEEP, FOUR, Known, PIXELS, RESET_3, RUNS, TWO, sliced};
use jls_pixel::{FinishedRows, PixelCutEnd, PixelDecoder, PixelFault};
use jls_values::Params;
use std::alloc::Global;
use std::test::Fail;

/// A known piece, and after how many of its bytes each row is whole.
#[derive(Drop)]
struct Rows {
    known: Known,
    ends: &'static [usize],
}

/// How many rows are whole after so many bytes.
fn whole_rows(ends: &[usize], bytes: usize) -> usize {
    let mut whole = 0usize;
    for end in ends {
        if *end <= bytes {
            whole = whole.saturating_add(1);
        }
    }
    whole
}

/// Whether rows are the first ones of a known piece, and so many.
fn are_first(rows: FinishedRows, known: &Known, count: usize) -> bool {
    let Ok(rows) = rows.into_vecs() else {
        return false;
    };
    let mut wanted = known.samples.iter();
    for row in &rows {
        for pixel in row {
            for component in 0..usize::from(known.components) {
                if wanted.next() != Some(&pixel.sample(component)) {
                    return false;
                }
            }
        }
    }
    rows.len() == count
}

/// Whether the first bytes of a piece give its whole rows, if they are so many.
fn has_head(alloc: Global, params: &Params, rows: &Rows, bytes: usize, count: usize) -> bool {
    let Some(begun) = rows.known.piece.get(..bytes) else {
        return false;
    };
    let Ok(decoder) = sliced(alloc, params, &rows.known, begun, 7) else {
        return false;
    };
    match decoder.finish_cut() {
        Ok(PixelCutEnd::Head(head, PixelFault::Broken)) => are_first(head, &rows.known, count),
        _ => false,
    }
}

/// Whether a piece gives its whole rows wherever it is cut off, and all of them where it isn't.
fn has_heads(alloc: Global, params: &Params, rows: &Rows) -> bool {
    for bytes in 0..rows.known.piece.len() {
        if !has_head(alloc, params, rows, bytes, whole_rows(rows.ends, bytes)) {
            return false;
        }
    }
    let Ok(decoder) = sliced(alloc, params, &rows.known, rows.known.piece, 7) else {
        return false;
    };
    match decoder.finish_cut() {
        Ok(PixelCutEnd::Whole(all)) => are_first(all, &rows.known, rows.ends.len()),
        _ => false,
    }
}

/// What these bytes give in the size of a known piece: the number of rows and the fault, if they read as no rows.
fn head_of(
    alloc: Global,
    params: &Params,
    known: &Known,
    bytes: &[u8],
) -> Option<(usize, PixelFault)> {
    let Ok(decoder) = sliced(alloc, params, known, bytes, 7) else {
        return None;
    };
    match decoder.finish_cut() {
        Ok(PixelCutEnd::Head(head, fault)) => Some((head.len(), fault)),
        _ => None,
    }
}

#[test]
fn cut_pieces(rt: HostRuntime) -> Result<(), Fail> {
    let alloc = rt.alloc();
    let params = Params::new(8, 0, 0, 0, 0, 0)?;
    let all = [
        Rows {
            known: PIXELS,
            ends: &[5, 21],
        },
        Rows {
            known: RUNS,
            ends: &[4, 6, 7],
        },
        Rows {
            known: CONTEXT_0,
            ends: &[2, 3, 4, 5],
        },
        Rows {
            known: BLOCKS,
            ends: &[26, 48, 71, 97, 116, 129],
        },
        Rows {
            known: FOUR,
            ends: &[4, 11],
        },
        Rows {
            known: TWO,
            ends: &[2, 5],
        },
    ];
    for rows in &all {
        assert!(rt; has_heads(alloc, &params, rows));
    }
    let resets = Params::new(8, 0, 0, 0, 0, 3)?;
    assert!(rt;
        has_heads(
            alloc,
            &resets,
            &Rows {
                known: RESET_3,
                ends: &[21, 37, 55, 75, 96]
            }
        )
    );
    Ok(())
}

#[test]
fn cut_deep_pieces(rt: HostRuntime) -> Result<(), Fail> {
    let alloc = rt.alloc();
    let deep = Params::new(16, 0, 0, 0, 0, 0)?;
    let rows = Rows {
        known: DEEP,
        ends: &[55, 117, 165, 212],
    };
    for bytes in [0, 54, 55, 56, 164, 165, 210, 211] {
        assert!(rt; has_head(alloc, &deep, &rows, bytes, whole_rows(rows.ends, bytes)));
    }
    Ok(())
}

#[test]
fn bytes_without_a_head(rt: HostRuntime) -> Result<(), Fail> {
    let alloc = rt.alloc();
    let params = Params::new(8, 0, 0, 0, 0, 0)?;
    // No code begins with so many zeros (ITU-T T.87, A.5.3).
    let mut zeros = Vec::new(alloc);
    zeros.extend_from_slice(&RUNS.piece[..4])?;
    zeros.extend_from_slice(&[0; 10])?;
    assert!(rt; head_of(alloc, &params, &RUNS, &zeros) == Some((0, PixelFault::Broken)));
    // A byte of 0x80 or more follows 0xFF.
    let mut ended = Vec::new(alloc);
    ended.extend_from_slice(&RUNS.piece[..4])?;
    ended.extend_from_slice(&[0xFF, 0x80])?;
    assert!(rt; head_of(alloc, &params, &RUNS, &ended) == Some((0, PixelFault::Broken)));
    // More than seven bits follow the last row.
    let mut longer = Vec::new(alloc);
    longer.extend_from_slice(TWO.piece)?;
    longer.push(0)?;
    assert!(rt; head_of(alloc, &params, &TWO, &longer) == Some((0, PixelFault::Long)));
    // A zero, and three samples of error 0, 100, 10 and 10: the value of the run itself, which can't interrupt it.
    let own = Known {
        width: 1,
        components: 3,
        rows: 2,
        samples: &[],
        piece: &[0x4A],
    };
    assert!(rt; head_of(alloc, &params, &own, own.piece) == Some((0, PixelFault::Broken)));
    // Without components no pixel interrupts a run: a zero begins nothing, and a one is a row.
    let none = Known {
        width: 16,
        components: 0,
        rows: 20,
        samples: &[],
        piece: &[],
    };
    assert!(rt; head_of(alloc, &params, &none, &[0xE0]) == Some((0, PixelFault::Broken)));
    Ok(())
}

#[test]
fn no_bytes(rt: HostRuntime) -> Result<(), Fail> {
    let params = Params::new(8, 0, 0, 0, 0, 0)?;
    let decoder = PixelDecoder::new(rt.alloc(), &params, 3, 2, 2);
    assert!(rt;
        matches!(
            &decoder.finish_cut(),
            Ok(PixelCutEnd::Head(_, PixelFault::Broken))
        )
    );
    Ok(())
}
