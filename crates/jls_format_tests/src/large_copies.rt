//! Copies of many lines, with many faulty pieces, and with a long comment.

use crate::copies::{bytes_of, read_in_pieces, reported};
use crate::known::LARGE_PICTURE;
use jls_copy::{CopyRead, End, PieceKind, PieceRecord};
use std::alloc::Global;
use std::process::Abort;
use std::test::Fail;

/// What a picture of 4,096 lines gives whose input ends after eight times FF 7F.
fn cut_large_picture(alloc: Global) -> Result<CopyRead, Fail> {
    let mut bytes = bytes_of(alloc, LARGE_PICTURE)?;
    bytes.truncate(41);
    Ok(read_in_pieces(alloc, &bytes, 4096)?)
}

/// 45 lines stand whole.
fn check_large_picture(rt: &impl Abort, read: &CopyRead) {
    assert!(rt; read.piece_count() == 1 && read.ended() == End::Input(41));
    for line in 0..4096u16 {
        assert!(rt;
            lines_of(read, line) == if line < 45 { 1 } else { 0 },
            "line {line}"
        );
    }
}

#[test]
fn a_large_picture_is_cut(rt: HostRuntime) -> Result<(), Fail> {
    let read = cut_large_picture(rt.alloc())?;
    check_large_picture(&rt, &read);
    Ok(())
}

/// How many readings a line of the first component has; none where there is no such line.
fn lines_of(read: &CopyRead, line: u16) -> usize {
    let partial = read.partial();
    if line >= partial.shape().height() {
        return 0;
    }
    partial.count(0, line)
}

/// A header of 5,000 lines of one sample, with a restart interval for each line.
const LINES: &str =
    "FF D8 FF F7 00 0B 08 13 88 00 01 01 01 11 00 FF DD 00 04 00 01 FF DA 00 08 01 01 00 00 00 00";

/// A copy of 5,000 lines of one sample, each written as `piece`.
fn copy_of_lines(alloc: Global, piece: &[u8]) -> Result<Vec<u8>, Fail> {
    let mut bytes = bytes_of(alloc, LINES)?;
    for interval in 0..5000u32 {
        bytes.extend_from_slice(piece)?;
        bytes.push(0xFF)?;
        let mark = 0xD0 + (interval % 8) as u8;
        bytes.push(if interval == 4999 { 0xD9 } else { mark })?;
    }
    Ok(bytes)
}

/// What this copy gives.
fn read_of_lines(alloc: Global, piece: &[u8]) -> Result<CopyRead, Fail> {
    let bytes = copy_of_lines(alloc, piece)?;
    Ok(read_in_pieces(alloc, &bytes, 4096)?)
}

/// Whether a copy is settled, and ends as one of 5,000 lines.
fn is_read_whole(read: &CopyRead) -> bool {
    read.partial().is_settled() && read.piece_count() == 0 && read.ended() == End::Eoi(15_029)
}

#[test]
fn many_lines(rt: HostRuntime) -> Result<(), Fail> {
    let read = read_of_lines(rt.alloc(), &[0x80])?;
    assert!(rt; is_read_whole(&read));
    Ok(())
}

/// The last faulty piece that is recorded.
const LAST_RECORD: PieceRecord = PieceRecord {
    scan: 0,
    interval: 4095,
    offset: 8221,
    kind: PieceKind::Broken,
};

/// Of 5,000 faulty pieces 4,096 are recorded.
fn check_records(rt: &impl Abort, read: &CopyRead) {
    assert!(rt; read.pieces().len() == 4096);
    assert!(rt; read.pieces().last() == Some(&LAST_RECORD));
    assert!(rt; read.piece_count() == 5000 && read.ended() == End::Eoi(10_029));
}

#[test]
fn many_faulty_pieces(rt: HostRuntime) -> Result<(), Fail> {
    let read = read_of_lines(rt.alloc(), &[])?;
    check_records(&rt, &read);
    Ok(())
}

/// A copy of one line of one sample after a comment of 65,533 bytes.
fn commented(alloc: Global) -> Result<Vec<u8>, Fail> {
    let mut bytes = bytes_of(alloc, "FF D8 FF FE FF FF")?;
    for _ in 0..65_533u32 {
        bytes.push(0)?;
    }
    let picture = bytes_of(
        alloc,
        "FF F7 00 0B 08 00 01 00 01 01 01 11 00 FF DA 00 08 01 01 00 00 00 00 80 FF D9",
    )?;
    bytes.extend_from_slice(&picture)?;
    Ok(bytes)
}

#[test]
fn a_long_comment(rt: HostRuntime) -> Result<(), Fail> {
    let bytes = commented(rt.alloc())?;
    let read = read_in_pieces(rt.alloc(), &bytes, 1000);
    assert!(rt; reported(rt.alloc(), read)?.as_str() == "0.0=[0] | 0 Eoi(65563)");
    Ok(())
}
