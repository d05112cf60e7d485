//! The piece of a small picture with its end cut off or one bit changed: every prefix, and every change of a bit.

use jls_interval::*;
use jls_values::Params;
use std::alloc::Global;
use std::fmt::Write;
use std::test::Fail;

/// The lines 0 0 90 74, 68 50 43 205, 64 145 145 145 and 100 145 145 145, of 8 bits.
pub(super) const PIECE: [u8; 30] = [
    0xC0, 0x00, 0x00, 0x6C, 0x80, 0x20, 0x8E, 0x01, 0xC0, 0x00, 0x00, 0x57, 0x40, 0x00, 0x00, 0x6E,
    0xE6, 0x00, 0x00, 0x01, 0xBC, 0x18, 0x00, 0x00, 0x05, 0xD8, 0x00, 0x00, 0x91, 0x60,
];

/// What a change of each bit makes of the piece, from the most significant bit of the first byte on: r where it reads as
/// lines, L where it is too long, B where it is broken. This and the next table are what a coder in Python that was written
/// from the standard says of it: `python3 interop/plain_coder.py 4 4 C0 00 ..`, with the bytes of the piece.
const KINDS: &str = "\
BBBBLLLLLBBBLLLLLLLLLLLLBBBrBBrrrBBLLLLBBrrrrLLLBBBrrrrLrrrrrLBLrrBLLLLLLLLLLLLL\
LLLLLLLLLBLBLBBBrBBBBBBBBBBBBBBLLLLLLLLLLBBBBBBBBBBrrrrBLLLLLLLLLLLLLLLLLLLLLLLB\
BBBBBBBBrLBrrBLLLLLLLLLLLLLLLLLLLLLrrBBBBBBBBBrrrrrrrrrrrBBBrrBBBrBBBBBBBBBrrrrr";

/// The lines of the changed pieces that read, in their order.
const LINES: &str = "\
[[0, 0, 122, 106], [68, 50, 75, 237], [64, 211, 218, 177], [100, 211, 221, 180]]
[[0, 0, 94, 78], [68, 50, 47, 209], [64, 145, 149, 149], [100, 145, 146, 146]]
[[0, 0, 92, 76], [68, 50, 45, 207], [64, 145, 147, 147], [100, 145, 144, 144]]
[[0, 0, 89, 73], [68, 50, 42, 204], [64, 145, 144, 144], [100, 145, 147, 147]]
[[0, 0, 90, 75], [100, 82, 43, 205], [96, 177, 145, 145], [132, 177, 148, 148]]
[[0, 0, 90, 62], [231, 221, 174, 52], [231, 220, 13, 6], [35, 255, 48, 44]]
[[0, 0, 90, 73], [68, 50, 43, 205], [64, 145, 145, 145], [100, 145, 145, 145]]
[[0, 0, 90, 107], [68, 50, 137, 231], [68, 51, 42, 143], [128, 75, 66, 140]]
[[0, 0, 90, 74], [72, 54, 43, 205], [68, 149, 145, 145], [104, 149, 148, 148]]
[[0, 0, 90, 74], [66, 48, 43, 205], [62, 143, 145, 145], [98, 143, 142, 142]]
[[0, 0, 90, 74], [67, 49, 43, 205], [63, 144, 145, 145], [99, 144, 142, 142]]
[[0, 0, 90, 74], [188, 170, 123, 13], [184, 9, 2, 62], [148, 9, 255, 254]]
[[0, 0, 90, 74], [68, 70, 100, 37], [162, 162, 161, 193], [169, 229, 8, 36]]
[[0, 0, 90, 74], [68, 72, 98, 35], [162, 162, 161, 193], [169, 229, 8, 36]]
[[0, 0, 90, 74], [68, 74, 96, 33], [162, 162, 161, 193], [169, 229, 8, 36]]
[[0, 0, 90, 74], [68, 76, 94, 31], [162, 162, 161, 193], [169, 229, 8, 36]]
[[0, 0, 90, 74], [68, 78, 92, 29], [162, 162, 161, 193], [169, 229, 8, 36]]
[[0, 0, 90, 74], [68, 51, 43, 205], [64, 146, 145, 145], [100, 146, 148, 148]]
[[0, 0, 90, 74], [68, 85, 43, 205], [68, 84, 204, 212], [8, 60, 180, 185]]
[[0, 0, 90, 74], [68, 50, 42, 204], [64, 145, 144, 144], [100, 145, 147, 147]]
[[0, 0, 90, 74], [68, 50, 43, 205], [56, 145, 145, 145], [92, 145, 145, 145]]
[[0, 0, 90, 74], [68, 50, 43, 205], [60, 145, 145, 145], [96, 145, 145, 145]]
[[0, 0, 90, 74], [68, 50, 43, 205], [66, 145, 145, 145], [102, 145, 145, 145]]
[[0, 0, 90, 74], [68, 50, 43, 205], [65, 145, 145, 145], [101, 145, 145, 145]]
[[0, 0, 90, 74], [68, 50, 43, 205], [64, 145, 138, 206], [4, 49, 49, 114]]
[[0, 0, 90, 74], [68, 50, 43, 205], [64, 145, 146, 160], [65, 146, 182, 180]]
[[0, 0, 90, 74], [68, 50, 43, 205], [64, 145, 144, 145], [100, 145, 141, 142]]
[[0, 0, 90, 74], [68, 50, 43, 205], [64, 145, 145, 162], [60, 144, 180, 178]]
[[0, 0, 90, 74], [68, 50, 43, 205], [64, 145, 145, 250], [62, 146, 182, 252]]
[[0, 0, 90, 74], [68, 50, 43, 205], [64, 145, 145, 145], [64, 175, 175, 168]]
[[0, 0, 90, 74], [68, 50, 43, 205], [64, 145, 145, 145], [66, 173, 173, 166]]
[[0, 0, 90, 74], [68, 50, 43, 205], [64, 145, 145, 145], [68, 171, 171, 164]]
[[0, 0, 90, 74], [68, 50, 43, 205], [64, 145, 145, 145], [70, 169, 169, 162]]
[[0, 0, 90, 74], [68, 50, 43, 205], [64, 145, 145, 145], [72, 167, 167, 160]]
[[0, 0, 90, 74], [68, 50, 43, 205], [64, 145, 145, 145], [74, 165, 165, 164]]
[[0, 0, 90, 74], [68, 50, 43, 205], [64, 145, 145, 145], [76, 163, 163, 162]]
[[0, 0, 90, 74], [68, 50, 43, 205], [64, 145, 145, 145], [78, 161, 161, 160]]
[[0, 0, 90, 74], [68, 50, 43, 205], [64, 145, 145, 145], [80, 159, 159, 158]]
[[0, 0, 90, 74], [68, 50, 43, 205], [64, 145, 145, 145], [82, 157, 157, 156]]
[[0, 0, 90, 74], [68, 50, 43, 205], [64, 145, 145, 145], [84, 155, 155, 154]]
[[0, 0, 90, 74], [68, 50, 43, 205], [64, 145, 145, 145], [92, 162, 165, 166]]
[[0, 0, 90, 74], [68, 50, 43, 205], [64, 145, 145, 145], [94, 146, 149, 149]]
[[0, 0, 90, 74], [68, 50, 43, 205], [64, 145, 145, 145], [101, 145, 145, 145]]
[[0, 0, 90, 74], [68, 50, 43, 205], [64, 145, 145, 145], [100, 145, 145, 145]]
[[0, 0, 90, 74], [68, 50, 43, 205], [64, 145, 145, 145], [100, 145, 145, 145]]
[[0, 0, 90, 74], [68, 50, 43, 205], [64, 145, 145, 145], [100, 145, 145, 145]]
[[0, 0, 90, 74], [68, 50, 43, 205], [64, 145, 145, 145], [100, 145, 145, 145]]
[[0, 0, 90, 74], [68, 50, 43, 205], [64, 145, 145, 145], [100, 145, 145, 145]]
";

#[test]
fn prefixes(rt: HostRuntime) -> Result<(), Fail> {
    let params = Params::new(8, 0, 0, 0, 0, 0)?;
    for n in 0..PIECE.len() {
        let read = decode_interval(rt.alloc(), &params, 4, 1, 4, &PIECE[..n]);
        assert!(rt; read == Err(PieceFault::Broken), "of the first {n} bytes");
    }
    Ok(())
}

/// The kind of a piece, whose lines are put into a line of the text if it reads.
fn kind_of(alloc: Global, piece: &[u8], lines: &mut String) -> Result<char, Fail> {
    let params = Params::new(8, 0, 0, 0, 0, 0)?;
    match decode_interval(alloc, &params, 4, 1, 4, piece) {
        Ok(read) => {
            writeln!(lines, "{read:?}")?;
            Ok('r')
        }
        Err(PieceFault::Long) => Ok('L'),
        Err(PieceFault::Broken) => Ok('B'),
        Err(PieceFault::OutOfMemory) => Ok('M'),
    }
}

/// The kinds of the pieces with one changed bit. The lines of those that read are put into the text.
fn kinds_of_changes(alloc: Global, lines: &mut String) -> Result<String, Fail> {
    let mut kinds = String::new(alloc);
    for at in 0..8 * PIECE.len() {
        let mut piece = PIECE;
        piece[at / 8] ^= 0x80 >> (at % 8);
        kinds.push(kind_of(alloc, &piece, lines)?)?;
    }
    Ok(kinds)
}

#[test]
fn changed_bits(rt: HostRuntime) -> Result<(), Fail> {
    let mut lines = String::new(rt.alloc());
    assert!(rt; kinds_of_changes(rt.alloc(), &mut lines)?.as_str() == KINDS);
    assert!(rt; lines.as_str() == LINES);
    Ok(())
}

#[test]
fn a_byte_after(rt: HostRuntime) -> Result<(), Fail> {
    let params = Params::new(8, 0, 0, 0, 0, 0)?;
    let mut piece = PIECE.to_vec(rt.alloc())?;
    piece.push(0)?;
    let read = decode_interval(rt.alloc(), &params, 4, 1, 4, &piece);
    assert!(rt; read == Err(PieceFault::Long));
    Ok(())
}
