//! Lines, and the bytes that they are written as.

use super::decoding::{OTHER_PARAMETERS, SINGLE_SAMPLES};
use jls_bits::BitPlace;
use jls_interval::*;
use jls_values::Params;
use std::alloc::{AllocError, Global};
use std::test::Fail;

/// The lines of an interval: the samples in each, how many components take turns, and the lines.
#[derive(Clone, Copy)]
struct Lines<'a> {
    width: u16,
    components: u8,
    lines: &'a [&'a [u16]],
}

/// Whether the lines fit an interval and are written as these bytes.
fn written_as(
    alloc: Global,
    params: &Params,
    given: Lines<'_>,
    wanted: &[u8],
) -> Result<bool, AllocError> {
    let Lines {
        width,
        components,
        lines,
    } = given;
    if !fits(params, width, components, lines) {
        return Ok(false);
    }
    let bytes = encode_interval(alloc, params, width, components, lines)?;
    Ok(bytes.as_slice() == wanted)
}

/// Whether the lines of this width, of one component, are written as these bytes.
fn alone_as(
    alloc: Global,
    params: &Params,
    width: u16,
    lines: &[&[u16]],
    wanted: &[u8],
) -> Result<bool, AllocError> {
    let components = 1;
    written_as(
        alloc,
        params,
        Lines {
            width,
            components,
            lines,
        },
        wanted,
    )
}

#[test]
fn single_samples(rt: HostRuntime) -> Result<(), Fail> {
    let alloc = rt.alloc();
    let params = Params::new(8, 0, 0, 0, 0, 0)?;
    for &(sample, byte) in &SINGLE_SAMPLES {
        assert!(rt;
            alone_as(alloc, &params, 1, &[&[sample]], &[byte])?,
            "{sample}"
        );
    }
    Ok(())
}

#[test]
fn other_parameters(rt: HostRuntime) -> Result<(), Fail> {
    for &(precision, maxval, sample, bytes) in &OTHER_PARAMETERS {
        let params = Params::new(precision, maxval, 0, 0, 0, 0)?;
        assert!(rt;
            alone_as(rt.alloc(), &params, 1, &[&[sample]], bytes)?,
            "{sample}"
        );
    }
    Ok(())
}

/// Width, lines of one component, and the bytes that they are written as.
const RUNS: [(u16, &[&[u16]], &[u8]); 6] = [
    (12, &[&[0; 12]], &[0xFF, 0x00]),
    (13, &[&[0; 13]], &[0xFF, 0x40]),
    (16, &[&[0; 16]], &[0xFF, 0x40]),
    (5, &[&[0; 5]], &[0xF8]),
    (5, &[&[0, 0, 0, 0, 90]], &[0xF0, 0x00, 0x00, 0x1B, 0x20]),
    (1, &[&[0], &[0]], &[0xC0]),
];

#[test]
fn runs(rt: HostRuntime) -> Result<(), Fail> {
    let params = Params::new(8, 0, 0, 0, 0, 0)?;
    for &(width, lines, bytes) in &RUNS {
        assert!(rt;
            alone_as(rt.alloc(), &params, width, lines, bytes)?,
            "{lines:?}"
        );
    }
    Ok(())
}

/// The same of several lines.
const SEVERAL_LINES: [(u16, &[&[u16]], &[u8]); 4] = [
    (
        4,
        &[
            &[0, 0, 90, 74],
            &[68, 50, 43, 205],
            &[64, 145, 145, 145],
            &[100, 145, 145, 145],
        ],
        &[
            0xC0, 0x00, 0x00, 0x6C, 0x80, 0x20, 0x8E, 0x01, 0xC0, 0x00, 0x00, 0x57, 0x40, 0x00,
            0x00, 0x6E, 0xE6, 0x00, 0x00, 0x01, 0xBC, 0x18, 0x00, 0x00, 0x05, 0xD8, 0x00, 0x00,
            0x91, 0x60,
        ],
    ),
    (3, &[&[0, 0, 5], &[0, 0, 5]], &[0xC5, 0xD0]),
    (3, &[&[0, 0, 5], &[0, 0, 0]], &[0xC5, 0xE0]),
    (1, &[&[1], &[34]], &[0x50, 0x00, 0x0C]),
];

#[test]
fn several_lines(rt: HostRuntime) -> Result<(), Fail> {
    let params = Params::new(8, 0, 0, 0, 0, 0)?;
    for &(width, lines, bytes) in &SEVERAL_LINES {
        assert!(rt;
            alone_as(rt.alloc(), &params, width, lines, bytes)?,
            "{lines:?}"
        );
    }
    Ok(())
}

/// RESET is 3. Runs go on over lines, and are interrupted above, below and beside Rb. CharLS 2.4.1 writes the same.
#[test]
fn runs_of_several_lines(rt: HostRuntime) -> Result<(), Fail> {
    let params = Params::new(8, 0, 0, 0, 0, 3)?;
    let lines: [&[u16]; 3] = [
        &[11, 9, 11, 11, 11, 9],
        &[11, 11, 11, 11, 11, 8],
        &[11, 11, 11, 11, 11, 9],
    ];
    let bytes = [0x02, 0xA2, 0xC8, 0xA2, 0x4D, 0xBC, 0xA0];
    assert!(rt; alone_as(rt.alloc(), &params, 6, &lines, &bytes)?);
    Ok(())
}

/// MAXVAL, width, count, lines and bytes. Two rows; and both components in the contexts of one MAXVAL, which isn't that of the precision.
const SEVERAL_COMPONENTS: [(u16, u16, u8, &[&[u16]], &[u8]); 4] = [
    (0, 1, 2, &[&[10], &[10]], &[0x07, 0x16]),
    (0, 4, 3, &[&[0; 4], &[0; 4], &[0; 4]], &[0xFF, 0x78]),
    (
        0,
        1,
        2,
        &[&[10], &[20], &[30], &[40]],
        &[0x07, 0x07, 0x80, 0x10, 0xB0],
    ),
    (159, 2, 2, &[&[10, 12], &[10, 12]], &[0x07, 0xE2, 0xE8]),
];

#[test]
fn several_components(rt: HostRuntime) -> Result<(), Fail> {
    for &(maxval, width, components, lines, bytes) in &SEVERAL_COMPONENTS {
        let params = Params::new(8, maxval, 0, 0, 0, 0)?;
        let given = Lines {
            width,
            components,
            lines,
        };
        assert!(rt; written_as(rt.alloc(), &params, given, bytes)?, "{lines:?}");
    }
    Ok(())
}

/// Where the first line of each front ends, and where the second one does.
const FIRST: BitPlace = BitPlace { bytes: 1, bits: 0 };

const SECOND: BitPlace = BitPlace { bytes: 1, bits: 6 };

/// Whether a front has these bytes, and its lines end there.
fn is_front(front: &Front, bytes: &[u8], ends: &[BitPlace]) -> bool {
    front.bytes.as_slice() == bytes && front.ends.as_slice() == ends
}

#[test]
fn fronts_of_whole_rows(rt: HostRuntime) -> Result<(), Fail> {
    let params = Params::new(8, 0, 0, 0, 0, 0)?;
    let line = [0, 0, 5];
    let two = encode_front(rt.alloc(), &params, 3, 1, &[&line, &line])?;
    assert!(rt; is_front(&two, &[0xC5], &[FIRST, SECOND]));
    Ok(())
}

#[test]
fn fronts_of_a_run(rt: HostRuntime) -> Result<(), Fail> {
    let params = Params::new(8, 0, 0, 0, 0, 0)?;
    let run = encode_front(rt.alloc(), &params, 12, 1, &[&[0; 12]])?;
    assert!(rt; is_front(&run, &[0xFF], &[FIRST]));
    Ok(())
}

#[test]
fn fronts_inside_a_row(rt: HostRuntime) -> Result<(), Fail> {
    let params = Params::new(8, 0, 0, 0, 0, 0)?;
    let inside_a_row = encode_front(rt.alloc(), &params, 1, 2, &[&[10]])?;
    assert!(rt; is_front(&inside_a_row, &[0x07], &[FIRST]));
    Ok(())
}

#[test]
fn fronts_of_no_line(rt: HostRuntime) -> Result<(), Fail> {
    let params = Params::new(8, 0, 0, 0, 0, 0)?;
    let none = encode_front(rt.alloc(), &params, 3, 1, &[])?;
    assert!(rt; is_front(&none, &[], &[]));
    Ok(())
}
