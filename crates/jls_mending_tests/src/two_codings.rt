//! A picture of 2 columns and 2 rows, of two components and 16 bits, in two codings: by plane in 68 bytes, and by line in 58. The bytes are
//! those of `TwoCodingExamples` of jls_carry_laws, by the plain coder of interop/. Which bytes carry which line was counted there by hand.

use jls_held::{MendedCopy, held_lines};
use jls_partial::Partial;
use jls_values::Shape;
use std::alloc::{AllocError, Global};
use std::test::Fail;

/// The picture by plane: one scan, one component.
pub const PLANE: &[u8] = &[
    0xFF, 0xD8, 0xFF, 0xF7, 0x00, 0x0E, 0x10, 0x00, 0x02, 0x00, 0x02, 0x02, 0x01, 0x11, 0x00, 0x02,
    0x11, 0x00, 0xFF, 0xDA, 0x00, 0x08, 0x01, 0x01, 0x00, 0x00, 0x00, 0x00, 0x00, 0x38, 0x7C, 0x00,
    0x00, 0x00, 0x00, 0x00, 0x00, 0x01, 0xD8, 0xEF, 0x00, 0x00, 0x00, 0x00, 0x00, 0x01, 0xFF, 0x1B,
    0x80, 0xFF, 0xDA, 0x00, 0x08, 0x01, 0x02, 0x00, 0x00, 0x00, 0x00, 0x40, 0x00, 0x07, 0x11, 0x80,
    0xB0, 0x10, 0xFF, 0xD9,
];

/// By line: one scan of both.
pub const LINE: &[u8] = &[
    0xFF, 0xD8, 0xFF, 0xF7, 0x00, 0x0E, 0x10, 0x00, 0x02, 0x00, 0x02, 0x02, 0x01, 0x11, 0x00, 0x02,
    0x11, 0x00, 0xFF, 0xDA, 0x00, 0x0A, 0x02, 0x01, 0x00, 0x02, 0x00, 0x00, 0x01, 0x00, 0x00, 0x38,
    0x7C, 0x00, 0x40, 0x00, 0x00, 0x00, 0x62, 0x20, 0x00, 0x00, 0x00, 0x00, 0x00, 0x3B, 0x1D, 0xE0,
    0x00, 0x00, 0x00, 0x3C, 0xEA, 0x02, 0xC0, 0x02, 0xFF, 0xD9,
];

/// Another picture by plane, which has all bytes of `PLANE` outside of `PLANE_LOST`: its first component is 5000, and its second 0.
const OTHER_PLANE: &[u8] = &[
    0xFF, 0xD8, 0xFF, 0xF7, 0x00, 0x0E, 0x10, 0x00, 0x02, 0x00, 0x02, 0x02, 0x01, 0x11, 0x00, 0x02,
    0x11, 0x00, 0xFF, 0xDA, 0x00, 0x08, 0x01, 0x01, 0x00, 0x00, 0x00, 0x00, 0x00, 0x38, 0x7C, 0x00,
    0x80, 0x10, 0xFF, 0xDA, 0x00, 0x08, 0x01, 0x02, 0x00, 0x00, 0x00, 0x00, 0xF0, 0xFF, 0xD9, 0x1B,
    0x80, 0xFF, 0xDA, 0x00, 0x08, 0x01, 0x02, 0x00, 0x00, 0x00, 0x00, 0x40, 0x00, 0x07, 0x11, 0x80,
    0xB0, 0x10, 0xFF, 0xD9,
];

/// What the copy by plane lost: bytes of the second row of its first scan.
pub const PLANE_LOST: &[usize] = &[32, 33, 34, 35, 37, 38, 39, 44, 45, 46];

/// What the copy by line lost: bytes of the second component's first row.
pub const LINE_LOST: &[usize] = &[34, 35, 36, 37];

/// A line of the picture: its component, its row and its samples.
pub type Line = (u8, u16, &'static [u16]);

pub const FIRST_0: Line = (0, 0, &[5000, 5000]);

pub const FIRST_1: Line = (0, 1, &[32768, 100]);

pub const SECOND_0: Line = (1, 0, &[65535, 5000]);

pub const SECOND_1: Line = (1, 1, &[2, 0]);

/// A partial picture of this width with these lines.
pub fn picture(alloc: Global, width: u16, lines: &[Line]) -> Result<Partial, Fail> {
    let shape = Shape::new(16, width, 2, &[1, 2])?;
    let mut picture = Partial::empty(alloc, shape);
    for (component, row, samples) in lines {
        picture.insert(*component, *row, samples)?;
    }
    Ok(picture)
}

/// A file of which all bytes are held but those at the places that are lost.
pub fn file(alloc: Global, bytes: &[u8], lost: &[usize]) -> Result<MendedCopy, AllocError> {
    let mut held = Vec::new(alloc);
    for place in 0..bytes.len() {
        held.push(!lost.contains(&place))?;
    }
    let bytes = Vec::from_slice(alloc, bytes)?;
    Ok(MendedCopy { bytes, held })
}

/// Whether the files hold these lines, and no others.
fn hold(alloc: Global, files: &[MendedCopy], lines: &[Line]) -> Result<bool, Fail> {
    let wanted = picture(alloc, 2, lines)?;
    let shape = Shape::new(16, 2, 2, &[1, 2])?;
    let held = held_lines(alloc, shape, files)?;
    Ok(held == wanted)
}

/// Whether one file holds these lines, and no others.
fn one_holds(alloc: Global, bytes: &[u8], lost: &[usize], lines: &[Line]) -> Result<bool, Fail> {
    hold(alloc, &[file(alloc, bytes, lost)?], lines)
}

#[test]
fn all_bytes(rt: HostRuntime) -> Result<(), Fail> {
    let all = [FIRST_0, FIRST_1, SECOND_0, SECOND_1];
    assert!(rt; one_holds(rt.alloc(), PLANE, &[], &all)?);
    assert!(rt; one_holds(rt.alloc(), LINE, &[], &all)?);
    assert!(rt; hold(rt.alloc(), &[], &[])?);
    Ok(())
}

/// Lines from the one of a lost byte on, to the end of the interval, are not held.
#[test]
fn one_lost_byte(rt: HostRuntime) -> Result<(), Fail> {
    let alloc = rt.alloc();
    let rows: [(&[u8], usize, &[Line]); 8] = [
        (PLANE, 28, &[SECOND_0, SECOND_1]),
        (PLANE, 31, &[SECOND_0, SECOND_1]),
        (PLANE, 32, &[FIRST_0, SECOND_0, SECOND_1]),
        (PLANE, 48, &[FIRST_0, SECOND_0, SECOND_1]),
        (PLANE, 65, &[FIRST_0, FIRST_1, SECOND_0]),
        (LINE, 34, &[FIRST_0]),
        (LINE, 39, &[FIRST_0]),
        (LINE, 55, &[FIRST_0, SECOND_0, FIRST_1]),
    ];
    for (bytes, place, lines) in rows {
        assert!(rt; one_holds(alloc, bytes, &[place], lines)?, "{place}");
    }
    Ok(())
}

/// Bytes of headers and markers need not be held.
#[test]
fn lost_headers(rt: HostRuntime) -> Result<(), Fail> {
    let all = [FIRST_0, FIRST_1, SECOND_0, SECOND_1];
    let lost = [0, 9, 20, 27, 49, 50, 57, 58, 66, 67];
    assert!(rt; one_holds(rt.alloc(), PLANE, &lost, &all)?);
    Ok(())
}

/// Each copy carries the other over its lost bytes. So all lines are held, and yet `OTHER_PLANE` has all these bytes too, and another copy
/// by line: the lines are not strictly held.
#[test]
fn each_carries_the_other(rt: HostRuntime) -> Result<(), Fail> {
    let alloc = rt.alloc();
    assert!(rt; one_holds(alloc, PLANE, PLANE_LOST, &[FIRST_0, SECOND_0, SECOND_1])?);
    assert!(rt; one_holds(alloc, LINE, LINE_LOST, &[FIRST_0])?);
    let files = [
        file(alloc, PLANE, PLANE_LOST)?,
        file(alloc, LINE, LINE_LOST)?,
    ];
    assert!(rt; hold(alloc, &files, &[FIRST_0, FIRST_1, SECOND_0, SECOND_1])?);
    Ok(())
}

/// Two readings of a line can both be held.
#[test]
fn disputed_lines(rt: HostRuntime) -> Result<(), Fail> {
    let alloc = rt.alloc();
    let files = [file(alloc, PLANE, &[])?, file(alloc, OTHER_PLANE, &[])?];
    let other = [(0, 1, &[5000, 5000][..]), (1, 0, &[0, 0]), (1, 1, &[0, 0])];
    let lines = [
        FIRST_0, FIRST_1, SECOND_0, SECOND_1, other[0], other[1], other[2],
    ];
    assert!(rt; hold(alloc, &files, &lines)?);
    Ok(())
}

/// The first lines of a piece that the file's end cuts off are held, and none of a piece that is too long.
#[test]
fn faulty_pieces(rt: HostRuntime) -> Result<(), Fail> {
    let alloc = rt.alloc();
    assert!(rt; one_holds(alloc, &PLANE[..48], &[], &[FIRST_0])?);
    assert!(rt; one_holds(alloc, &PLANE[..30], &[], &[])?);
    let mut long = Vec::from_slice(alloc, &PLANE[..49])?;
    long.extend_from_slice(&[0, 0])?;
    long.extend_from_slice(&PLANE[49..])?;
    assert!(rt; one_holds(alloc, &long, &[], &[SECOND_0, SECOND_1])?);
    Ok(())
}

/// Lines of another width are left out.
#[test]
fn another_shape(rt: HostRuntime) -> Result<(), Fail> {
    let alloc = rt.alloc();
    let wanted = picture(alloc, 3, &[])?;
    let files = [file(alloc, PLANE, &[])?];
    let held = held_lines(alloc, Shape::new(16, 3, 2, &[1, 2])?, &files)?;
    assert!(rt; held == wanted);
    Ok(())
}
