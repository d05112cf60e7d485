//! Copies of known pictures, each byte of which is true in some copy or in none. CharLS wrote the file of four lines.

use crate::searched::searched;
use jls_marker::MarkerFault;
use jls_partial::Partial;
use jls_search::{Files, Settled, are_short, parts_can_be_searched, settle_files};
use jls_values::Shape;
use std::alloc::Global;
use std::test::Fail;

/// Four lines of four samples of 8 bits, in one piece, which begins at 25.
const FOUR_LINES: [u8; 57] = [
    0xFF, 0xD8, 0xFF, 0xF7, 0x00, 0x0B, 0x08, 0x00, 0x04, 0x00, 0x04, 0x01, 0x01, 0x11, 0x00, 0xFF,
    0xDA, 0x00, 0x08, 0x01, 0x01, 0x00, 0x00, 0x00, 0x00, 0xC0, 0x00, 0x00, 0x6C, 0x80, 0x20, 0x8E,
    0x01, 0xC0, 0x00, 0x00, 0x57, 0x40, 0x00, 0x00, 0x6E, 0xE6, 0x00, 0x00, 0x01, 0xBC, 0x18, 0x00,
    0x00, 0x05, 0xD8, 0x00, 0x00, 0x91, 0x60, 0xFF, 0xD9,
];

/// Their samples.
const LINES: [[u16; 4]; 4] = [
    [0, 0, 90, 74],
    [68, 50, 43, 205],
    [64, 145, 145, 145],
    [100, 145, 145, 145],
];

/// One sample of 2 bits.
const ONE_SAMPLE: [u8; 28] = [
    0xFF, 0xD8, 0xFF, 0xF7, 0x00, 0x0B, 0x02, 0x00, 0x01, 0x00, 0x01, 0x01, 0x01, 0x11, 0x00, 0xFF,
    0xDA, 0x00, 0x08, 0x01, 0x01, 0x00, 0x00, 0x00, 0x00, 0x40, 0xFF, 0xD9,
];

/// What comes of these copies and their splices, taken under source 7.
fn outcome_of(alloc: Global, copies: &[&[u8]]) -> Result<Settled, Fail> {
    if copies.is_empty() || !are_short(copies) {
        return Err(Fail::from("no copy, or too many bytes"));
    }
    parts_can_be_searched();
    let found = searched(alloc, copies, None, 4096)?;
    let files = Files {
        copies,
        parts: &found.0,
        splices: &found.1.splices,
        reader: &found.1.reader,
    };
    Ok(settle_files(alloc, Some(7), &files)?)
}

/// The file of four lines with this byte in place of another.
fn with_byte(alloc: Global, at: usize, byte: u8) -> Result<Vec<u8>, Fail> {
    let mut copy = Vec::from_slice(alloc, &FOUR_LINES)?;
    if let Some(place) = copy.get_mut(at) {
        *place = byte;
    }
    Ok(copy)
}

/// So many of the four lines, each from source 7.
fn lines_held(alloc: Global, count: usize) -> Result<Partial, Fail> {
    let Ok(shape) = Shape::new(8, 4, 4, &[1]) else {
        return Err(Fail::from("no shape"));
    };
    let mut partial = Partial::empty(alloc, shape);
    let mut row = 0u16;
    for line in LINES.iter().take(count) {
        if partial.insert(0, row, line).is_err() {
            return Err(Fail::from("no line"));
        }
        row = row.saturating_add(1);
    }
    partial.mark(7)?;
    Ok(partial)
}

/// What is damaged in two copies, as offset and byte, and how many lines come back: the data of both at two places; a height, so that the
/// first frame has another shape than the one that is taken, and the data; the first marker, so that the first copy has no frame, and the
/// data; the data of both at one place; nothing.
const PAIRS: [([usize; 2], [u8; 2], usize); 5] = [
    ([25, 53], [0x00, 0x00], 4),
    ([8, 53], [0x05, 0x00], 4),
    ([0, 53], [0x00, 0x00], 4),
    ([25, 25], [0x00, 0x00], 0),
    ([0, 1], [0xFF, 0xD8], 4),
];

#[test]
fn pairs_of_copies(rt: HostRuntime) -> Result<(), Fail> {
    for (places, bytes, count) in PAIRS {
        let first = with_byte(rt.alloc(), places[0], bytes[0])?;
        let second = with_byte(rt.alloc(), places[1], bytes[1])?;
        let wanted = lines_held(rt.alloc(), count)?;
        match outcome_of(rt.alloc(), &[first.as_slice(), second.as_slice()])? {
            Settled::Held(taken) => assert!(rt;
                *taken.station.partial() == wanted,
                "damage at {}",
                places[0]
            ),
            _ => return Err(Fail::from("no station")),
        }
    }
    Ok(())
}

#[test]
fn files_without_a_fault_differ_in_shape(rt: HostRuntime) -> Result<(), Fail> {
    let cases: [(&[&[u8]], usize); 3] = [
        (&[&FOUR_LINES, &ONE_SAMPLE], 1),
        (&[&FOUR_LINES, &FOUR_LINES, &ONE_SAMPLE], 2),
        (&[&[0x00], &FOUR_LINES, &ONE_SAMPLE], 2),
    ];
    for (copies, named) in cases {
        match outcome_of(rt.alloc(), copies)? {
            Settled::Differ(copy) => assert_eq!(rt; copy, named),
            _ => return Err(Fail::from("the shapes are one")),
        }
    }
    Ok(())
}

#[test]
fn no_copy_has_a_frame(rt: HostRuntime) -> Result<(), Fail> {
    let cases: [(&[&[u8]], MarkerFault, u64); 3] = [
        (&[&[], &[0x00]], MarkerFault::Ended, 0),
        (&[&[0x00], &[]], MarkerFault::NoSoi, 0),
        (&[&[0xFF, 0xD8], &[0x00]], MarkerFault::Ended, 2),
    ];
    for (copies, fault, offset) in cases {
        match outcome_of(rt.alloc(), copies)? {
            Settled::NoFrame(reported, place) => {
                assert_eq!(rt; reported, fault);
                assert_eq!(rt; place, offset);
            }
            _ => return Err(Fail::from("a frame was found")),
        }
    }
    Ok(())
}
