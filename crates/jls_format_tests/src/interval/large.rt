//! Intervals that are wide, and that have many samples: their lines come back where there is memory.

use super::size::Size;
use jls_interval::*;
use jls_values::Params;
use std::alloc::Global;
use std::test::Fail;

/// Lines of this width, of samples that change with place and line, and have the bits of `mask`.
fn lines_of(alloc: Global, width: u16, count: u32, mask: u16) -> Result<Vec<Vec<u16>>, Fail> {
    let mut lines = Vec::new(alloc);
    for y in 0..count {
        let row = (y % 4096) as u16 * 13;
        let mut line = Vec::new(alloc);
        for x in 0..width {
            line.push((x.wrapping_mul(7) ^ row) & mask)?;
        }
        lines.push(line)?;
    }
    Ok(lines)
}

/// Lines of an interval, lent.
fn lent<'a>(alloc: Global, lines: &'a [Vec<u16>]) -> Result<Vec<&'a [u16]>, Fail> {
    let mut lent = Vec::new(alloc);
    for line in lines {
        lent.push(line.as_slice())?;
    }
    Ok(lent)
}

/// The bytes that the lines are written as, if they fit an interval.
fn written(
    alloc: Global,
    params: &Params,
    size: &Size,
    lines: &[Vec<u16>],
) -> Result<Option<Vec<u8>>, Fail> {
    let lines = lent(alloc, lines)?;
    if !fits(params, size.width, size.components, &lines) {
        return Ok(None);
    }
    let piece = encode_interval(alloc, params, size.width, size.components, &lines)?;
    Ok(Some(piece))
}

/// Pushes the bytes in slices of 4,096.
fn push_in_slices(decoder: &mut IntervalDecoder, bytes: &[u8]) -> Result<(), Fail> {
    for slice in bytes.chunks(4096) {
        decoder.push_all(slice)?;
    }
    Ok(())
}

/// Whether a decoder that gets the bytes too gives the lines.
fn gives(mut decoder: IntervalDecoder, bytes: &[u8], lines: &[Vec<u16>]) -> Result<bool, Fail> {
    push_in_slices(&mut decoder, bytes)?;
    let read = decoder.finish()?.into_vecs()?;
    Ok(read.as_slice() == lines)
}

/// Whether the lines are written, and read back from slices as they are.
fn come_back(alloc: Global, size: &Size, lines: &[Vec<u16>]) -> Result<bool, Fail> {
    let params = Params::new(8, 0, 0, 0, 0, 0)?;
    match written(alloc, &params, size, lines)? {
        None => Ok(false),
        Some(piece) => gives(size.decoder(alloc, &params), &piece, lines),
    }
}

/// Whether a clone that gets the bytes too, and a clone of it before its end, give the lines.
fn clones_give(mut clone: IntervalDecoder, bytes: &[u8], lines: &[Vec<u16>]) -> Result<bool, Fail> {
    clone.push_all(bytes)?;
    let again = clone.try_clone()?;
    let of_clone = gives(clone, &[], lines)?;
    Ok(gives(again, &[], lines)? && of_clone)
}

/// Whether a decoder and clones of it that were made on the way give the lines, each in turn.
fn each_gives(alloc: Global, size: &Size, lines: &[Vec<u16>]) -> Result<bool, Fail> {
    let params = Params::new(8, 0, 0, 0, 0, 0)?;
    let Some(piece) = written(alloc, &params, size, lines)? else {
        return Ok(false);
    };
    let (first, rest) = piece.split_at(piece.len() / 2);
    let mut decoder = size.decoder(alloc, &params);
    push_in_slices(&mut decoder, first)?;
    let of_clones = clones_give(decoder.try_clone()?, rest, lines)?;
    Ok(gives(decoder, rest, lines)? && of_clones)
}

#[test]
fn clones_share_lines(rt: HostRuntime) -> Result<(), Fail> {
    let lines = lines_of(rt.alloc(), 1100, 100, 1)?;
    assert!(rt; each_gives(rt.alloc(), &Size::new(1100, 1, 100), &lines)?);
    Ok(())
}

#[test]
fn four_wide_components(rt: HostRuntime) -> Result<(), Fail> {
    let lines = lines_of(rt.alloc(), 100, 200, 255)?;
    assert!(rt; come_back(rt.alloc(), &Size::new(100, 4, 50), &lines)?);
    Ok(())
}

#[test]
fn more_than_a_million_samples(rt: HostRuntime) -> Result<(), Fail> {
    let lines = lines_of(rt.alloc(), 1100, 1000, 1)?;
    assert!(rt; come_back(rt.alloc(), &Size::new(1100, 1, 1000), &lines)?);
    Ok(())
}
