//! Pieces whose end is cut off, and the lines that stand whole in them.

use super::damaged::PIECE;
use super::size::Size;
use jls_interval::*;
use jls_values::Params;
use std::alloc::Global;
use std::test::Fail;

/// What the bytes of an interval of 8 bits give where the input ends after them: lines, and a fault if these are those of a head.
fn cut(
    alloc: Global,
    size: &Size,
    piece: &[u8],
) -> Result<(Vec<Vec<u16>>, Option<PieceFault>), Fail> {
    let params = Params::new(8, 0, 0, 0, 0, 0)?;
    let mut decoder = size.decoder(alloc, &params);
    decoder.push_all(piece)?;
    match decoder.finish_cut()? {
        CutEnd::Whole(lines) => Ok((lines.into_vecs()?, None)),
        CutEnd::Head(lines, fault) => Ok((lines.into_vecs()?, Some(fault))),
    }
}

/// Whether they give these lines and this fault.
fn has_head(
    alloc: Global,
    size: &Size,
    piece: &[u8],
    lines: &[&[u16]],
    fault: PieceFault,
) -> Result<bool, Fail> {
    let mut head = Vec::new(alloc);
    for line in lines {
        head.push(line.to_vec(alloc)?)?;
    }
    let (found, met) = cut(alloc, size, piece)?;
    Ok(found == head && met == Some(fault))
}

/// The first bytes of the piece: line 0 has 45 bits, the first two lines have 130, the first three 206, all 235.
#[test]
fn prefixes(rt: HostRuntime) -> Result<(), Fail> {
    let size = Size::new(4, 1, 4);
    let lines: [&[u16]; 3] = [&[0, 0, 90, 74], &[68, 50, 43, 205], &[64, 145, 145, 145]];
    for n in 0..PIECE.len() {
        let count = match n {
            0..6 => 0,
            6..17 => 1,
            17..26 => 2,
            _ => 3,
        };
        let (piece, lines) = (&PIECE[..n], &lines[..count]);
        assert!(rt;
            has_head(rt.alloc(), &size, piece, lines, PieceFault::Broken)?,
            "of the first {n} bytes"
        );
    }
    Ok(())
}

/// The first bytes of two lines, or others in their place, and the lines that stand whole in them: none before or in line 1; one in the
/// zeros of the second code, and in an escape that can be 92 to 96; none in an escape that could only be a number of at most 16, which
/// has a short code, and after so many zeros that no code begins with them.
const CUT_CODES: [(&[u8], &[&[u16]]); 6] = [
    (&[], &[]),
    (&[0x50], &[&[1]]),
    (&[0x50, 0x00], &[&[1]]),
    (&[0x50, 0x00, 0x00, 0x15], &[&[1]]),
    (&[0x50, 0x00, 0x00, 0x10], &[]),
    (&[0x50, 0x00, 0x00, 0x00, 0x00], &[]),
];

/// The lines 1 and 34 of one sample, of 8 bits, are the bytes 50 00 0C.
#[test]
fn cut_codes(rt: HostRuntime) -> Result<(), Fail> {
    let size = Size::new(1, 1, 2);
    for &(piece, lines) in &CUT_CODES {
        assert!(rt;
            has_head(rt.alloc(), &size, piece, lines, PieceFault::Broken)?,
            "of {piece:?}"
        );
    }
    Ok(())
}

/// Whether the bytes of that picture give both lines, and no fault.
fn is_whole(alloc: Global, size: &Size) -> Result<bool, Fail> {
    let lines = vec![in alloc; vec![in alloc; 1]?, vec![in alloc; 34]?]?;
    let (found, met) = cut(alloc, size, &[0x50, 0x00, 0x0C])?;
    Ok(found == lines && met.is_none())
}

/// A byte too many, and a byte that no data bits can have.
const FAULTY: [(&[u8], PieceFault); 2] = [
    (&[0x50, 0x00, 0x0C, 0x00], PieceFault::Long),
    (&[0x50, 0xFF, 0x80], PieceFault::Broken),
];

/// The same picture whole, and with such a byte.
#[test]
fn whole_and_faulty(rt: HostRuntime) -> Result<(), Fail> {
    let size = Size::new(1, 1, 2);
    assert!(rt; is_whole(rt.alloc(), &size)?);
    for &(piece, fault) in &FAULTY {
        assert!(rt;
            has_head(rt.alloc(), &size, piece, &[], fault)?,
            "of {piece:?}"
        );
    }
    Ok(())
}
