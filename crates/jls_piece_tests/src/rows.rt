//! Pieces of scan data by sample, and the rows that they read as. CharLS 2.4.1 wrote them, where nothing else is said.

ghost use Rattle.std.specs.Prelude.{◌≤◌};

use jls_pixel::{Pixel, PixelDecoder, PixelFault, decode_pixels};
use jls_values::Params;
use std::alloc::Global;
use std::test::Fail;

/// A piece, and its samples: row by row, pixel by pixel, and in a pixel by component.
#[derive(Drop)]
pub(crate) struct Known {
    pub width: u16,
    pub components: u8,
    pub rows: u32,
    pub samples: &'static [u16],
    pub piece: &'static [u8],
}

/// Pixels in regular mode, with escapes.
pub(crate) const PIXELS: Known = Known {
    width: 2,
    components: 3,
    rows: 2,
    samples: &[10, 20, 30, 11, 19, 33, 200, 0, 255, 10, 20, 31],
    piece: &[
        0x02, 0x02, 0x07, 0x2E, 0x50, 0x00, 0x00, 0x18, 0x20, 0x02, 0x00, 0x00, 0xA0, 0x00, 0x00,
        0x30, 0x60, 0x0E, 0x00, 0x01, 0x00,
    ],
};

/// Runs that are interrupted, and runs to the end of a row.
pub(crate) const RUNS: Known = Known {
    width: 4,
    components: 3,
    rows: 3,
    samples: &[
        0, 0, 0, 0, 0, 0, 5, 0, 9, 5, 0, 9, 0, 0, 0, 0, 0, 0, 5, 0, 9, 5, 0, 9, 0, 0, 0, 0, 0, 0,
        0, 0, 0, 5, 1, 9,
    ],
    piece: &[0xC6, 0x80, 0xD2, 0x4D, 0x12, 0x72, 0x68],
};

/// The gradients of the first component are 0, and the others' are not.
pub(crate) const CONTEXT_0: Known = Known {
    width: 1,
    components: 3,
    rows: 4,
    samples: &[0, 0, 3, 0, 1, 3, 0, 1, 4, 0, 1, 4],
    piece: &[0x48, 0x51, 0x4E, 0x5F, 0x00],
};

/// Three colours in runs.
pub(crate) const BLOCKS: Known = Known {
    width: 12,
    components: 3,
    rows: 6,
    samples: &[
        238, 56, 124, 238, 56, 124, 238, 56, 124, 238, 56, 124, 238, 56, 124, 168, 224, 184, 168,
        224, 184, 168, 224, 184, 168, 224, 184, 168, 224, 184, 168, 224, 184, 168, 224, 184, 238,
        56, 124, 168, 224, 184, 168, 224, 184, 168, 224, 184, 168, 224, 184, 168, 224, 184, 168,
        224, 184, 221, 240, 135, 221, 240, 135, 238, 56, 124, 238, 56, 124, 238, 56, 124, 168, 224,
        184, 168, 224, 184, 238, 56, 124, 238, 56, 124, 238, 56, 124, 238, 56, 124, 238, 56, 124,
        238, 56, 124, 238, 56, 124, 238, 56, 124, 168, 224, 184, 168, 224, 184, 221, 240, 135, 221,
        240, 135, 221, 240, 135, 221, 240, 135, 168, 224, 184, 168, 224, 184, 168, 224, 184, 168,
        224, 184, 168, 224, 184, 168, 224, 184, 168, 224, 184, 168, 224, 184, 168, 224, 184, 168,
        224, 184, 168, 224, 184, 168, 224, 184, 168, 224, 184, 168, 224, 184, 168, 224, 184, 238,
        56, 124, 238, 56, 124, 238, 56, 124, 238, 56, 124, 238, 56, 124, 168, 224, 184, 168, 224,
        184, 168, 224, 184, 238, 56, 124, 238, 56, 124, 238, 56, 124, 238, 56, 124, 238, 56, 124,
        238, 56, 124, 238, 56, 124, 238, 56, 124, 221, 240, 135,
    ],
    piece: &[
        0x00, 0x70, 0x10, 0x01, 0xC4, 0xAF, 0xF8, 0x00, 0x00, 0x0C, 0x58, 0x00, 0x00, 0x38, 0x06,
        0xE3, 0x18, 0xC6, 0x31, 0x8C, 0x63, 0x18, 0xC6, 0x31, 0x99, 0x99, 0x94, 0x25, 0x9B, 0xDE,
        0x26, 0x66, 0x66, 0x65, 0x79, 0xAB, 0x03, 0x0C, 0xC9, 0x0B, 0x00, 0x00, 0x01, 0x8E, 0x36,
        0x22, 0x22, 0x20, 0x00, 0x00, 0x06, 0x2C, 0xE2, 0xF1, 0xC4, 0xC3, 0x83, 0xBC, 0x44, 0x44,
        0x44, 0x44, 0x66, 0x03, 0xE6, 0x98, 0x4B, 0x37, 0xBC, 0x44, 0x40, 0x00, 0x00, 0x0B, 0x40,
        0x50, 0x00, 0x4E, 0x47, 0x80, 0x00, 0x00, 0xD7, 0xA3, 0x14, 0x44, 0x05, 0xC2, 0x0F, 0x62,
        0x22, 0x22, 0x49, 0x24, 0x9E, 0xDD, 0x90, 0x00, 0xD0, 0x00, 0x18, 0x37, 0x26, 0x92, 0x69,
        0xB8, 0xAC, 0x62, 0x61, 0xC1, 0xDE, 0x49, 0x24, 0x92, 0x49, 0x31, 0x58, 0xC2, 0x61, 0xC3,
        0xDE, 0x49, 0x24, 0xF8, 0xC5, 0xB2, 0x84, 0x9F, 0x58,
    ],
};

/// The same at 16 bits.
pub(crate) const DEEP: Known = Known {
    width: 9,
    components: 3,
    rows: 4,
    samples: &[
        55469, 55863, 50287, 55469, 55863, 50287, 53969, 16043, 33407, 53969, 16043, 33407, 53969,
        16043, 33407, 53969, 16043, 33407, 53969, 16043, 33407, 53969, 16043, 33407, 53969, 16043,
        33407, 37561, 10496, 26227, 55469, 55863, 50287, 55469, 55863, 50287, 55469, 55863, 50287,
        55469, 55863, 50287, 37561, 10496, 26227, 37561, 10496, 26227, 37561, 10496, 26227, 37561,
        10496, 26227, 37561, 10496, 26227, 53969, 16043, 33407, 53969, 16043, 33407, 53969, 16043,
        33407, 53969, 16043, 33407, 53969, 16043, 33407, 53969, 16043, 33407, 55469, 55863, 50287,
        55469, 55863, 50287, 53969, 16043, 33407, 53969, 16043, 33407, 55469, 55863, 50287, 55469,
        55863, 50287, 55469, 55863, 50287, 55469, 55863, 50287, 55469, 55863, 50287, 55469, 55863,
        50287, 55469, 55863, 50287,
    ],
    piece: &[
        0x00, 0x00, 0x0D, 0x4A, 0x57, 0x22, 0x37, 0x21, 0x80, 0x10, 0x04, 0x00, 0x00, 0x37, 0x00,
        0x00, 0x00, 0x00, 0x00, 0x00, 0x39, 0x1D, 0x01, 0x1F, 0x04, 0x00, 0x30, 0x00, 0xC0, 0x03,
        0x00, 0x0C, 0x00, 0x30, 0x01, 0x80, 0x0C, 0x00, 0x60, 0x03, 0x00, 0x18, 0x00, 0xC0, 0x06,
        0x00, 0x30, 0x01, 0x80, 0x0C, 0x00, 0x60, 0x06, 0x00, 0x40, 0x00, 0x00, 0x00, 0x0F, 0xCE,
        0x5D, 0x94, 0x3D, 0xFB, 0x80, 0x00, 0x00, 0x00, 0x1F, 0x9C, 0xBB, 0x28, 0x7B, 0xF7, 0x3D,
        0xB8, 0x00, 0x00, 0x02, 0x3A, 0x88, 0x7B, 0xF0, 0x03, 0x00, 0x30, 0x03, 0x00, 0x30, 0x03,
        0x00, 0x20, 0x00, 0x0B, 0xE6, 0x00, 0x00, 0x1B, 0x2A, 0x00, 0x37, 0xED, 0x00, 0x38, 0x01,
        0xC0, 0x0E, 0x00, 0x70, 0x03, 0x80, 0x1C, 0x00, 0xE0, 0x07, 0x00, 0x38, 0x01, 0x00, 0x40,
        0x12, 0xED, 0x44, 0x8E, 0xC2, 0x1E, 0xEC, 0x00, 0xE0, 0x07, 0x00, 0x38, 0x01, 0xC0, 0x0E,
        0x00, 0x70, 0x00, 0xA0, 0x01, 0x40, 0x02, 0x20, 0x16, 0xEB, 0x51, 0xF0, 0x23, 0x00, 0x38,
        0x01, 0xC0, 0x0F, 0x77, 0x60, 0x01, 0x8E, 0x60, 0x09, 0xF1, 0xC0, 0x06, 0x00, 0x30, 0x01,
        0x00, 0x00, 0x00, 0x00, 0x86, 0x1A, 0xD5, 0x1C, 0x0A, 0x40, 0x08, 0x80, 0x11, 0x00, 0x19,
        0x2E, 0xE0, 0x0A, 0x39, 0xC8, 0x7C, 0x10, 0x01, 0x80, 0x0C, 0x00, 0x60, 0x03, 0x00, 0x18,
        0x00, 0xC0, 0x06, 0x00, 0x30, 0x01, 0x80, 0x05, 0x00, 0x04, 0x00, 0x10, 0x01, 0xA0, 0x03,
        0x40, 0x09,
    ],
};

/// A run that the fourth component alone interrupts. CharLS compares three components of four, so that this is another coder's.
pub(crate) const FOUR: Known = Known {
    width: 3,
    components: 4,
    rows: 2,
    samples: &[
        0, 0, 0, 0, 1, 2, 3, 4, 1, 2, 3, 4, 9, 9, 9, 9, 1, 2, 3, 4, 1, 2, 3, 5,
    ],
    piece: &[
        0xB2, 0x31, 0x25, 0x20, 0xC4, 0x06, 0x20, 0x75, 0x9F, 0xD2, 0x48,
    ],
};

/// Two components, which CharLS has not.
pub(crate) const TWO: Known = Known {
    width: 3,
    components: 2,
    rows: 2,
    samples: &[0, 0, 0, 0, 3, 0, 0, 0, 0, 7, 3, 0],
    piece: &[0xCD, 0x28, 0x02, 0x83, 0x00],
};

/// RESET 3, at which CharLS fails.
pub(crate) const RESET_3: Known = Known {
    width: 10,
    components: 3,
    rows: 5,
    samples: &[
        227, 110, 128, 227, 110, 128, 227, 110, 128, 227, 110, 128, 227, 110, 128, 227, 110, 128,
        227, 110, 128, 243, 194, 152, 243, 194, 152, 243, 194, 152, 2, 14, 51, 2, 14, 51, 2, 14,
        51, 2, 14, 51, 2, 14, 51, 2, 14, 51, 2, 14, 51, 2, 14, 51, 2, 14, 51, 2, 14, 51, 243, 194,
        152, 243, 194, 152, 243, 194, 152, 243, 194, 152, 243, 194, 152, 243, 194, 152, 243, 194,
        152, 243, 194, 152, 227, 110, 128, 227, 110, 128, 227, 110, 128, 227, 110, 128, 227, 110,
        128, 227, 110, 128, 227, 110, 128, 227, 110, 128, 227, 110, 128, 243, 194, 152, 243, 194,
        152, 243, 194, 152, 2, 14, 51, 2, 14, 51, 2, 14, 51, 227, 110, 128, 227, 110, 128, 227,
        110, 128, 227, 110, 128, 2, 14, 51, 2, 14, 51, 2, 14, 51,
    ],
    piece: &[
        0x00, 0x01, 0x40, 0xF0, 0x7F, 0x95, 0xFF, 0x7E, 0x00, 0x00, 0x02, 0x3C, 0x00, 0x00, 0x03,
        0x48, 0xAE, 0x69, 0x29, 0x2A, 0x80, 0x00, 0x18, 0x08, 0x4B, 0x32, 0x53, 0x6D, 0xB6, 0x48,
        0x07, 0x00, 0x00, 0x01, 0xA6, 0xDB, 0x6D, 0xC0, 0x58, 0x12, 0xED, 0xB6, 0xDB, 0x6D, 0x80,
        0x00, 0x00, 0x90, 0x00, 0x00, 0x07, 0x2C, 0x96, 0x39, 0xCF, 0x99, 0x75, 0xC8, 0xCD, 0x36,
        0x96, 0xFE, 0x03, 0x80, 0x00, 0x00, 0xD3, 0x6D, 0x01, 0xC0, 0x00, 0x00, 0x69, 0xB6, 0xF0,
        0x00, 0x14, 0x46, 0x4F, 0x7E, 0x00, 0x00, 0x02, 0x78, 0x00, 0x12, 0x0E, 0xBA, 0x78, 0xB0,
        0x24, 0xC1, 0x83, 0x0C, 0x10, 0x80,
    ],
};

/// What these bytes read as, in the size of a known piece.
fn decoded(
    alloc: Global,
    params: &Params,
    known: &Known,
    piece: &[u8],
) -> Result<Vec<Vec<Pixel>>, PixelFault> {
    if known.width == 0 || known.components > 4 {
        return Err(PixelFault::OutOfMemory);
    }
    decode_pixels(
        alloc,
        params,
        known.width,
        known.components,
        known.rows,
        piece,
    )
}

/// Whether rows are the samples of a known piece.
fn are_known(rows: &[Vec<Pixel>], known: &Known) -> bool {
    let mut wanted = known.samples.iter();
    for row in rows {
        for pixel in row {
            for component in 0..usize::from(known.components) {
                if wanted.next() != Some(&pixel.sample(component)) {
                    return false;
                }
            }
        }
    }
    wanted.next().is_none()
}

/// Whether a piece reads as its samples.
fn is_read(alloc: Global, params: &Params, known: &Known) -> bool {
    match decoded(alloc, params, known, known.piece) {
        Ok(rows) => are_known(&rows, known),
        Err(_) => false,
    }
}

/// A decoder that was given bytes in slices of at most this length.
pub(crate) fn sliced(
    alloc: Global,
    params: &Params,
    known: &Known,
    bytes: &[u8],
    length: usize,
) -> Result<PixelDecoder, PixelFault> {
    if known.width == 0 || known.components > 4 || length == 0 {
        return Err(PixelFault::OutOfMemory);
    }
    let mut decoder = PixelDecoder::new(alloc, params, known.width, known.components, known.rows);
    for slice in bytes.chunks(length) {
        if decoder.push_all(slice).is_err() {
            return Err(PixelFault::OutOfMemory);
        }
    }
    Ok(decoder)
}

/// Whether what a decoder was given reads as the samples of a known piece.
fn ends_known(decoder: PixelDecoder, known: &Known) -> bool {
    let Ok(rows) = decoder.finish() else {
        return false;
    };
    match rows.into_vecs() {
        Ok(rows) => are_known(&rows, known),
        Err(_) => false,
    }
}

/// Whether a piece in slices of at most this length reads as its samples, also by a clone that was made half-way.
fn is_read_in_slices(alloc: Global, params: &Params, known: &Known, length: usize) -> bool {
    let (first, second) = known.piece.split_at(known.piece.len() / 2);
    let Ok(mut decoder) = sliced(alloc, params, known, first, length) else {
        return false;
    };
    let Ok(mut clone) = decoder.try_clone() else {
        return false;
    };
    for byte in second {
        if decoder.push(*byte).is_err() {
            return false;
        }
    }
    if clone.push_all(second).is_err() {
        return false;
    }
    !decoder.reads_no_more() && ends_known(decoder, known) && ends_known(clone, known)
}

/// Whether a piece reads the same whole and in slices.
fn is_read_in_any_slices(alloc: Global, params: &Params, known: &Known) -> bool {
    for length in [1, 2, 7] {
        if !is_read_in_slices(alloc, params, known, length) {
            return false;
        }
    }
    true
}

#[test]
fn known_pieces(rt: HostRuntime) -> Result<(), Fail> {
    let alloc = rt.alloc();
    let params = Params::new(8, 0, 0, 0, 0, 0)?;
    for known in [PIXELS, RUNS, CONTEXT_0, BLOCKS, FOUR, TWO] {
        assert!(rt; is_read(alloc, &params, &known));
    }
    let deep = Params::new(16, 0, 0, 0, 0, 0)?;
    assert!(rt; is_read(alloc, &deep, &DEEP));
    let resets = Params::new(8, 0, 0, 0, 0, 3)?;
    assert!(rt; is_read(alloc, &resets, &RESET_3));
    Ok(())
}

#[test]
fn broken_pieces(rt: HostRuntime) -> Result<(), Fail> {
    let alloc = rt.alloc();
    let params = Params::new(8, 0, 0, 0, 0, 0)?;
    let cut = decoded(alloc, &params, &BLOCKS, &BLOCKS.piece[..5]);
    assert!(rt; matches!(&cut, Err(PixelFault::Broken)));
    // A zero, and three samples of error 0, 100, 10 and 10: the value of the run itself.
    let own = Known {
        width: 1,
        components: 3,
        rows: 1,
        samples: &[],
        piece: &[0x4A],
    };
    let read = decoded(alloc, &params, &own, own.piece);
    assert!(rt; matches!(&read, Err(PixelFault::Broken)));
    let mut longer = Vec::new(alloc);
    longer.extend_from_slice(TWO.piece)?;
    longer.push(0)?;
    let long = decoded(alloc, &params, &TWO, &longer);
    assert!(rt; matches!(&long, Err(PixelFault::Long)));
    Ok(())
}

#[test]
fn sliced_pieces(rt: HostRuntime) -> Result<(), Fail> {
    let alloc = rt.alloc();
    let params = Params::new(8, 0, 0, 0, 0, 0)?;
    for known in [PIXELS, RUNS, CONTEXT_0, BLOCKS, FOUR, TWO] {
        assert!(rt; is_read_in_any_slices(alloc, &params, &known));
    }
    let deep = Params::new(16, 0, 0, 0, 0, 0)?;
    assert!(rt; is_read_in_any_slices(alloc, &deep, &DEEP));
    let resets = Params::new(8, 0, 0, 0, 0, 3)?;
    assert!(rt; is_read_in_any_slices(alloc, &resets, &RESET_3));
    Ok(())
}

#[test]
fn sliced_faults(rt: HostRuntime) -> Result<(), Fail> {
    let alloc = rt.alloc();
    let params = Params::new(8, 0, 0, 0, 0, 0)?;
    for length in [1, 2, 7] {
        let mut decoder = sliced(alloc, &params, &BLOCKS, &BLOCKS.piece[..5], length)?;
        assert!(rt; !decoder.reads_no_more());
        let clone = decoder.try_clone()?;
        assert!(rt; matches!(&clone.finish(), Err(PixelFault::Broken)));
        decoder.push_all(&[0xFF, 0x80])?;
        assert!(rt; decoder.reads_no_more());
        assert!(rt; matches!(&decoder.finish(), Err(PixelFault::Broken)));
        let mut longer = sliced(alloc, &params, &TWO, TWO.piece, length)?;
        longer.push(0)?;
        let clone = longer.try_clone()?;
        assert!(rt; matches!(&clone.finish(), Err(PixelFault::Long)));
        longer.push_all(&[0; 64])?;
        assert!(rt; longer.reads_no_more());
        assert!(rt; matches!(&longer.finish(), Err(PixelFault::Long)));
    }
    Ok(())
}
