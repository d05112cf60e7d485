//! Copies that mend each other, to the last byte.

use crate::files::{
    OTHER, PLAIN, PLAIN_12, PLAIN_16, ROWS, STEEP, WIDTH, replaced, sample, zeroed,
};
use jls_carry::{Edit, MendedCoding, carry};
use std::alloc::{AllocError, Global};
use std::test::Fail;

/// Whether these are the lines of the picture.
fn are_of_picture(lines: &[Option<Vec<u16>>]) -> bool {
    for (y, line) in lines.iter().enumerate() {
        let Some(line) = line else {
            return false;
        };
        if line.len() != WIDTH {
            return false;
        }
        for (x, own) in line.iter().enumerate() {
            if *own != sample(x, y) {
                return false;
            }
        }
    }
    lines.len() == ROWS
}

/// Whether a copy becomes a file by its edits.
fn becomes(alloc: Global, copy: &[u8], edits: &[Edit], file: &[u8]) -> Result<bool, AllocError> {
    let mut bytes = Vec::new(alloc);
    let mut next = 0usize;
    for edit in edits {
        let Some(own) = copy.get(next..edit.offset) else {
            return Ok(false);
        };
        bytes.extend_from_slice(own)?;
        bytes.extend_from_slice(&edit.bytes)?;
        next = edit.offset.saturating_add(edit.count);
    }
    let Some(own) = copy.get(next..) else {
        return Ok(false);
    };
    bytes.extend_from_slice(own)?;
    Ok(*bytes == *file)
}

/// Whether each copy of a coding becomes this file by its edits.
fn all_become(
    alloc: Global,
    copies: &[&[u8]],
    mended: &MendedCoding,
    file: &[u8],
) -> Result<bool, AllocError> {
    for (number, edits) in mended.copies.iter().zip(mended.edits.iter()) {
        let copy = copies.get(*number).copied().unwrap_or(&[]);
        if !becomes(alloc, copy, edits, file)? {
            return Ok(false);
        }
    }
    Ok(mended.copies.len() == mended.edits.len())
}

/// Whether copies bring back all lines of the picture, and these files, one for each coding.
fn bring_back(
    alloc: Global,
    copies: &[&[u8]],
    codings: &[usize],
    files: &[&[u8]],
) -> Result<bool, AllocError> {
    let carried = carry(alloc, copies, codings, copies.len())?;
    if !are_of_picture(&carried.lines) || carried.codings.len() != files.len() {
        return Ok(false);
    }
    for (mended, file) in carried.codings.iter().zip(files) {
        if *mended.bytes != **file || !all_become(alloc, copies, mended, file)? {
            return Ok(false);
        }
    }
    Ok(true)
}

/// A copy of another picture is left out, and the others mend each other.
#[test]
fn stranger(rt: HostRuntime) -> Result<(), Fail> {
    let alloc = rt.alloc();
    let first = zeroed(alloc, PLAIN, 70, 12)?;
    let second = zeroed(alloc, STEEP, 150, 12)?;
    let third = zeroed(alloc, OTHER, 120, 12)?;
    let copies: [&[u8]; 3] = [&first, &second, &third];
    let carried = carry(alloc, &copies, &[0, 1, 2], copies.len())?;
    assert!(rt; are_of_picture(&carried.lines));
    assert!(rt; carried.codings.len() == 2);
    assert!(rt; carried.strangers.as_slice() == [2].as_slice());
    Ok(())
}

/// Zeros stand in each copy at another place.
#[test]
fn zeros(rt: HostRuntime) -> Result<(), Fail> {
    let alloc = rt.alloc();
    let first = zeroed(alloc, PLAIN, 70, 12)?;
    let second = zeroed(alloc, STEEP, 150, 12)?;
    assert!(rt; bring_back(alloc, &[&first, &second], &[0, 1], &[PLAIN, STEEP])?);
    Ok(())
}

/// One copy has lost bytes, and the other has bytes too many.
#[test]
fn lost_and_inserted(rt: HostRuntime) -> Result<(), Fail> {
    let alloc = rt.alloc();
    let first = replaced(alloc, PLAIN, 70, 9, &[])?;
    let second = replaced(alloc, STEEP, 150, 0, &[0x5A, 0x11, 0xC3, 0x77, 0x12])?;
    assert!(rt; bring_back(alloc, &[&first, &second], &[0, 1], &[PLAIN, STEEP])?);
    Ok(())
}

/// The end of one copy is cut off. It comes back with EOI.
#[test]
fn cut_off(rt: HostRuntime) -> Result<(), Fail> {
    let alloc = rt.alloc();
    let first = zeroed(alloc, PLAIN, 70, 12)?;
    let second = replaced(alloc, STEEP, 170, usize::MAX, &[])?;
    assert!(rt; bring_back(alloc, &[&first, &second], &[0, 1], &[PLAIN, STEEP])?);
    Ok(())
}

/// Two copies are of one coding. Each has a damaged place of its own, and edits of its own.
#[test]
fn two_of_one_coding(rt: HostRuntime) -> Result<(), Fail> {
    let alloc = rt.alloc();
    let first = zeroed(alloc, PLAIN, 70, 12)?;
    let second = zeroed(alloc, STEEP, 150, 12)?;
    let third = replaced(alloc, STEEP, 120, 7, &[])?;
    let copies: [&[u8]; 3] = [&first, &second, &third];
    assert!(rt; bring_back(alloc, &copies, &[5, 2, 2], &[PLAIN, STEEP])?);
    Ok(())
}

/// A copy of 12 bits mends one of 16, although they have other parameters for what no LSE says.
#[test]
fn other_precision(rt: HostRuntime) -> Result<(), Fail> {
    let alloc = rt.alloc();
    let second = zeroed(alloc, PLAIN_16, 150, 40)?;
    let files: [&[u8]; 2] = [PLAIN_12, PLAIN_16];
    assert!(rt; bring_back(alloc, &[PLAIN_12, &second], &[0, 1], &files)?);
    Ok(())
}
