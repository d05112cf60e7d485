//! Pictures of lines of one sample, the numbers from 0 to 9 again and again, and their files with a restart interval for each line.

use crate::met::Stopped;
use jls_partial::Partial;
use jls_values::Shape;
use std::alloc::{AllocError, Global};

/// The scan data of a line of each number.
const CODES: [u8; 10] = [0x80, 0x50, 0x70, 0x28, 0x38, 0x14, 0x1C, 0x0A, 0x0E, 0x05];

/// What stands between the height and the scan data: the rest of the frame, a restart interval of one line, and the scan header.
const HEADERS: &[u8] =
    b"\x00\x01\x01\x01\x11\x00\xff\xdd\x00\x04\x00\x01\xff\xda\x00\x08\x01\x01\x00\x00\x00\x00";

/// The file of so many lines.
pub fn copy_of(alloc: Global, height: u16) -> Result<Vec<u8>, AllocError> {
    let mut copy = Vec::from_slice(alloc, b"\xff\xd8\xff\xf7\x00\x0b\x08")?;
    copy.extend_from_slice(&height.to_be_bytes())?;
    copy.extend_from_slice(HEADERS)?;
    for line in 0..height {
        if line > 0 {
            copy.extend_from_slice(&[0xFF, 0xD0 + ((line - 1) % 8) as u8])?;
        }
        copy.push(CODES[(line % 10) as usize])?;
    }
    copy.extend_from_slice(&[0xFF, 0xD9])?;
    Ok(copy)
}

/// The partial picture that has each line once, under no source.
pub fn lines_of(alloc: Global, height: u16) -> Result<Partial, Stopped> {
    let mut partial = Partial::empty(alloc, Shape::new(8, 1, height, &[1])?);
    for line in 0..height {
        partial.insert(0, line, &[line % 10])?;
    }
    Ok(partial)
}

/// The samples of all lines.
pub fn samples_of(alloc: Global, height: u16) -> Result<Vec<u8>, AllocError> {
    let mut samples = Vec::new(alloc);
    for line in 0..height {
        samples.push((line % 10) as u8)?;
    }
    Ok(samples)
}
