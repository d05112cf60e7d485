//! Pieces of scan data, and the lines that they read as.

ghost use Rattle.std.specs.Prelude.{◌*◌, ◌^◌, ◌≤◌};

use super::size::Size;
use jls_interval::*;
use jls_values::Params;
use std::alloc::Global;
use std::test::Fail;

/// What a decoder answers that is given the piece by slices of this length.
fn by_slices(
    alloc: Global,
    params: &Params,
    size: &Size,
    piece: &[u8],
    length: usize,
) -> Result<Vec<Vec<u16>>, PieceFault>
    requires length { 1 ≤ length }
{
    let mut decoder = size.decoder(alloc, params);
    for slice in piece.chunks(length) {
        if decoder.push_all(slice).is_err() {
            return Err(PieceFault::OutOfMemory);
        }
    }
    match decoder.finish()?.into_vecs() {
        Ok(lines) => Ok(lines),
        Err(_) => Err(PieceFault::OutOfMemory),
    }
}

/// What a decoder answers that is given the piece byte by byte.
fn by_bytes(
    alloc: Global,
    params: &Params,
    size: &Size,
    piece: &[u8],
) -> Result<Vec<Vec<u16>>, PieceFault> {
    let mut decoder = size.decoder(alloc, params);
    for byte in piece {
        if decoder.push(*byte).is_err() {
            return Err(PieceFault::OutOfMemory);
        }
    }
    match decoder.finish()?.into_vecs() {
        Ok(lines) => Ok(lines),
        Err(_) => Err(PieceFault::OutOfMemory),
    }
}

/// What the piece reads as, where it is given whole, byte by byte and by slices of every length. Two answers
/// that differ are out of memory.
fn decoded(
    alloc: Global,
    params: &Params,
    size: &Size,
    piece: &[u8],
) -> Result<Vec<Vec<u16>>, PieceFault> {
    let whole = size.decoded(alloc, params, piece);
    if by_bytes(alloc, params, size, piece) != whole {
        return Err(PieceFault::OutOfMemory);
    }
    for length in 1..=piece.len() {
        if by_slices(alloc, params, size, piece, length) != whole {
            return Err(PieceFault::OutOfMemory);
        }
    }
    whole
}

fn reads_as(alloc: Global, params: &Params, size: &Size, piece: &[u8], lines: &[&[u16]]) -> bool {
    match decoded(alloc, params, size, piece) {
        Err(_) => false,
        Ok(read) => {
            if read.len() != lines.len() {
                return false;
            }
            for (line, wanted) in read.iter().zip(lines.iter()) {
                if line.as_slice() != *wanted {
                    return false;
                }
            }
            true
        }
    }
}

/// The fault of a piece of one component.
fn fault(alloc: Global, params: &Params, width: u16, rows: u32, piece: &[u8]) -> Option<PieceFault>
    requires width { 1 ≤ width }
    requires rows { 1 ≤ rows }
    requires samples { width * 1 * rows ≤ 2 ^ 28 }
{
    decoded(alloc, params, &Size::new(width, 1, rows), piece).err()
}

/// Samples of 8 bits, and the pieces of intervals that have nothing else.
pub const SINGLE_SAMPLES: [(u16, u8); 13] = [
    (0, 0x80),
    (1, 0x50),
    (2, 0x70),
    (3, 0x28),
    (4, 0x38),
    (5, 0x14),
    (6, 0x1C),
    (7, 0x0A),
    (8, 0x0E),
    (9, 0x05),
    (10, 0x07),
    (254, 0x60),
    (255, 0x40),
];

/// Precision, MAXVAL, a sample, and the piece of an interval that has nothing else.
pub const OTHER_PARAMETERS: [(u8, u16, u16, &[u8]); 5] = [
    (2, 0, 3, &[0x40]),
    (2, 0, 1, &[0x60]),
    (2, 0, 2, &[0x20]),
    (16, 0, 65535, &[0x40, 0x00]),
    (8, 15, 15, &[0x40]),
];

#[test]
fn single_samples(rt: HostRuntime) -> Result<(), Fail> {
    let alloc = rt.alloc();
    let params = Params::new(8, 0, 0, 0, 0, 0)?;
    for &(sample, byte) in &SINGLE_SAMPLES {
        assert!(rt;
            reads_as(alloc, &params, &Size::new(1, 1, 1), &[byte], &[&[sample]]),
            "{sample}"
        );
    }
    Ok(())
}

#[test]
fn other_parameters(rt: HostRuntime) -> Result<(), Fail> {
    for &(precision, maxval, sample, piece) in &OTHER_PARAMETERS {
        let params = Params::new(precision, maxval, 0, 0, 0, 0)?;
        assert!(rt;
            reads_as(
                rt.alloc(),
                &params,
                &Size::new(1, 1, 1),
                piece,
                &[&[sample]]
            ),
            "{sample}"
        );
    }
    Ok(())
}

/// The width of a line, its piece, and the line.
const RUNS: [(u16, &[u8], &[u16]); 5] = [
    (12, &[0xFF, 0x00], &[0; 12]),
    (13, &[0xFF, 0x40], &[0; 13]),
    (16, &[0xFF, 0x40], &[0; 16]),
    (5, &[0xF8], &[0; 5]),
    (5, &[0xF0, 0x00, 0x00, 0x1B, 0x20], &[0, 0, 0, 0, 90]),
];

#[test]
fn runs(rt: HostRuntime) -> Result<(), Fail> {
    let alloc = rt.alloc();
    let params = Params::new(8, 0, 0, 0, 0, 0)?;
    for &(width, piece, line) in &RUNS {
        let width = width.max(1);
        assert!(rt;
            reads_as(alloc, &params, &Size::new(width, 1, 1), piece, &[line]),
            "{line:?}"
        );
    }
    assert!(rt; reads_as(alloc, &params, &Size::new(1, 1, 2), &[0xC0], &[&[0], &[0]]));
    Ok(())
}

#[test]
fn several_lines(rt: HostRuntime) -> Result<(), Fail> {
    let alloc = rt.alloc();
    let params = Params::new(8, 0, 0, 0, 0, 0)?;
    let piece = [
        0xC0, 0x00, 0x00, 0x6C, 0x80, 0x20, 0x8E, 0x01, 0xC0, 0x00, 0x00, 0x57, 0x40, 0x00, 0x00,
        0x6E, 0xE6, 0x00, 0x00, 0x01, 0xBC, 0x18, 0x00, 0x00, 0x05, 0xD8, 0x00, 0x00, 0x91, 0x60,
    ];
    let lines: [&[u16]; 4] = [
        &[0, 0, 90, 74],
        &[68, 50, 43, 205],
        &[64, 145, 145, 145],
        &[100, 145, 145, 145],
    ];
    assert!(rt; reads_as(alloc, &params, &Size::new(4, 1, 4), &piece, &lines));
    assert!(rt;
        reads_as(
            alloc,
            &params,
            &Size::new(3, 1, 2),
            &[0xC5, 0xD0],
            &[&[0, 0, 5], &[0, 0, 5]]
        )
    );
    assert!(rt;
        reads_as(
            alloc,
            &params,
            &Size::new(3, 1, 2),
            &[0xC5, 0xE0],
            &[&[0, 0, 5], &[0, 0, 0]]
        )
    );
    Ok(())
}

/// Pieces that are cut before the escape and inside it; escapes of a number with a short code, and with too many zeros.
const CUT_ESCAPES: [&[u8]; 5] = [
    &[0x50],
    &[0x50, 0x00],
    &[0x50, 0x00, 0x00, 0x15],
    &[0x50, 0x00, 0x00, 0x10],
    &[0x50, 0x00, 0x00, 0x00, 0x00],
];

#[test]
fn an_escape(rt: HostRuntime) -> Result<(), Fail> {
    let alloc = rt.alloc();
    let params = Params::new(8, 0, 0, 0, 0, 0)?;
    assert!(rt;
        reads_as(
            alloc,
            &params,
            &Size::new(1, 1, 2),
            &[0x50, 0x00, 0x0C],
            &[&[1], &[34]]
        )
    );
    for &piece in &CUT_ESCAPES {
        let fault = fault(alloc, &params, 1, 2, piece);
        assert!(rt; fault == Some(PieceFault::Broken), "of {piece:?}");
    }
    Ok(())
}

#[test]
fn several_components(rt: HostRuntime) -> Result<(), Fail> {
    let alloc = rt.alloc();
    let params = Params::new(8, 0, 0, 0, 0, 0)?;
    assert!(rt;
        reads_as(
            alloc,
            &params,
            &Size::new(1, 2, 1),
            &[0x07, 0x16],
            &[&[10], &[10]]
        )
    );
    let zeros: &[u16] = &[0; 4];
    assert!(rt;
        reads_as(
            alloc,
            &params,
            &Size::new(4, 3, 1),
            &[0xFF, 0x78],
            &[zeros, zeros, zeros]
        )
    );
    Ok(())
}

/// Pieces of one sample that are broken.
const BROKEN_PIECES: [&[u8]; 5] = [
    &[],
    // An escape for 1, which has a short code, and one for 256, to which no error is mapped.
    &[0x00, 0x00, 0x01, 0x00],
    &[0x00, 0x00, 0x01, 0xFF, 0x00],
    // A marker after the last line, and after more bits than may follow it.
    &[0x70, 0xFF, 0xA3],
    &[0x80, 0x00, 0xFF, 0x90],
];

#[test]
fn broken_pieces(rt: HostRuntime) -> Result<(), Fail> {
    let alloc = rt.alloc();
    let params = Params::new(8, 0, 0, 0, 0, 0)?;
    let broken = Some(PieceFault::Broken);
    for &piece in &BROKEN_PIECES {
        assert!(rt;
            fault(alloc, &params, 1, 1, piece) == broken,
            "of {piece:?}"
        );
    }
    // A zero, and a count that reaches the end of the line.
    assert!(rt; fault(alloc, &params, 5, 1, &[0xF4]) == broken);
    // A run that is interrupted by its own value.
    assert!(rt; fault(alloc, &params, 3, 2, &[0xC5, 0xC5]) == broken);
    Ok(())
}

/// Pieces of one sample that are too long.
const LONG_PIECES: [&[u8]; 4] = [
    &[0x80, 0x00],
    // Eight bits, after a code of eight.
    &[0x05, 0x00],
    &[0x80, 0x00, 0xFF, 0x00],
    &[0x28, 0x38],
];

#[test]
fn long_pieces(rt: HostRuntime) -> Result<(), Fail> {
    let alloc = rt.alloc();
    let params = Params::new(8, 0, 0, 0, 0, 0)?;
    assert!(rt; reads_as(alloc, &params, &Size::new(1, 1, 1), &[0xC0], &[&[0]]));
    for &piece in &LONG_PIECES {
        let fault = fault(alloc, &params, 1, 1, piece);
        assert!(rt; fault == Some(PieceFault::Long), "of {piece:?}");
    }
    Ok(())
}
