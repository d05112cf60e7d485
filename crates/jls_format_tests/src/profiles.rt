//! Copies with scans by sample, read under both profiles. CharLS 2.4.1 wrote their scan data, and reads both files as these lines.

use crate::copies::{bytes_of, check_copy, reported};
use crate::known::copies;
use jls_copy::{CopyFault, ProfileReader};
use jls_marker::Profile;
use std::alloc::Global;
use std::process::Abort;
use std::test::Fail;

/// A picture of 4x3 of three components by sample.
const BY_SAMPLE: &str =
    "FF D8 FF F7 00 11 08 00 03 00 04 03 01 11 00 02 11 00 03 11 00 FF DA 00 0C 03 01 00 02 00 03 00 00 02 00 02 \
     02 07 25 2C 38 38 68 00 1F CF 80 00 18 0A 6F 00 00 00 0B E6 9C 87 24 80 FF D9";

/// Copies, and what each gives under the strict profile and under the wide one.
const PROFILED: [(&str, &str, &str); 3] = [
    (
        BY_SAMPLE,
        "| 0 Header(Interleave, 21)",
        "0.0=[10, 10, 10, 12] 0.1=[0, 0, 0, 0] 0.2=[200, 7, 7, 7] 1.0=[20, 20, 20, 20] 1.1=[0, 0, 0, 9] \
         1.2=[13, 13, 13, 13] 2.0=[30, 30, 30, 30] 2.1=[0, 0, 0, 0] 2.2=[1, 255, 255, 0] | 0 Eoi(60)",
    ),
    // The same picture with a restart interval of two rows. CharLS wrote these rows alone, and the last row alone.
    (
        "FF D8 FF F7 00 11 08 00 03 00 04 03 01 11 00 02 11 00 03 11 00 FF DD 00 04 00 02 FF DA 00 0C 03 01 00 02 00 \
         03 00 00 02 00 02 02 07 25 2C 38 38 68 00 1F CF 80 00 18 FF D0 00 00 01 6E EA 20 00 00 17 C8 95 03 84 FF D9",
        "| 0 Header(Interleave, 27)",
        "0.0=[10, 10, 10, 12] 0.1=[0, 0, 0, 0] 0.2=[200, 7, 7, 7] 1.0=[20, 20, 20, 20] 1.1=[0, 0, 0, 9] \
         1.2=[13, 13, 13, 13] 2.0=[30, 30, 30, 30] 2.1=[0, 0, 0, 0] 2.2=[1, 255, 255, 0] | 0 Eoi(70)",
    ),
    // By hand: one component that says that it is by sample is a fault under both.
    (
        "FF D8 FF F7 00 0B 08 00 01 00 01 01 01 11 00 FF DA 00 08 01 01 00 00 02 00 80 FF D9",
        "| 0 Header(Interleave, 15)",
        "| 0 Header(Interleave, 15)",
    ),
];

/// Feeds a piece, of which no test has so many bytes that they could not be counted.
fn feed_piece(reader: &mut ProfileReader, piece: &[u8]) -> Result<(), CopyFault> {
    let fed = reader.fed();
    if fed > 1_000_000 || piece.len() > 1_000_000 {
        return Err(CopyFault::OutOfMemory);
    }
    match reader.feed(piece) {
        Ok(()) => Ok(()),
        Err(_) => Err(CopyFault::OutOfMemory),
    }
}

/// Feeds a copy in slices of this size.
fn feed_in_pieces(reader: &mut ProfileReader, bytes: &[u8], size: usize) -> Result<(), CopyFault> {
    for piece in bytes.chunks(size.max(1)) {
        feed_piece(reader, piece)?;
    }
    Ok(())
}

/// What a copy gives under a profile, if it comes in slices of this size.
fn read_under(alloc: Global, profile: Profile, bytes: &[u8], size: usize) -> Result<String, Fail> {
    let mut reader = ProfileReader::new(alloc, profile);
    feed_in_pieces(&mut reader, bytes, size)?;
    reported(alloc, reader.finish())
}

/// Makes sure that a copy gives this under a profile, in slices of several sizes.
fn check_under(
    rt: &impl Abort,
    alloc: Global,
    profile: Profile,
    bytes: &[u8],
    wanted: &str,
) -> Result<(), Fail> {
    for size in [1, 2, 7, 4096] {
        assert!(rt;
            read_under(alloc, profile, bytes, size)?.as_str() == wanted,
            "{profile:?}, in slices of {size}: {wanted}"
        );
    }
    Ok(())
}

/// Makes sure that a copy gives this under each profile.
fn check_both(
    rt: &impl Abort,
    alloc: Global,
    bytes: &[u8],
    strict: &str,
    wide: &str,
) -> Result<(), Fail> {
    check_copy(rt, alloc, bytes, strict)?;
    check_under(rt, alloc, Profile::Strict, bytes, strict)?;
    check_under(rt, alloc, Profile::Wide, bytes, wide)
}

#[test]
fn copies_by_sample(rt: HostRuntime) -> Result<(), Fail> {
    for &(text, strict, wide) in &PROFILED {
        let bytes = bytes_of(rt.alloc(), text)?;
        check_both(&rt, rt.alloc(), &bytes, strict, wide)?;
    }
    Ok(())
}

#[test]
fn other_copies_give_the_same_under_the_wide_profile(rt: HostRuntime) -> Result<(), Fail> {
    for &(text, wanted) in copies() {
        let bytes = bytes_of(rt.alloc(), text)?;
        check_under(&rt, rt.alloc(), Profile::Wide, &bytes, wanted)?;
    }
    Ok(())
}

/// What the copy by sample gives under the wide profile, of which the input ends after so many bytes of the scan data: 25 bytes and EOI.
/// Its head has the lines of whole rows. CharLS writes row 0 alone in 6 bytes, and rows 0 and 1 in 14.
fn read_of_cut(alloc: Global, left: usize) -> Result<String, Fail> {
    let lines = match left {
        0..6 => "",
        6..14 => "0.0=[10, 10, 10, 12] 1.0=[20, 20, 20, 20] 2.0=[30, 30, 30, 30] ",
        14..25 =>
            "0.0=[10, 10, 10, 12] 0.1=[0, 0, 0, 0] 1.0=[20, 20, 20, 20] 1.1=[0, 0, 0, 9] 2.0=[30, 30, 30, 30] 2.1=[0, 0, 0, 0] ",
        _ =>
            "0.0=[10, 10, 10, 12] 0.1=[0, 0, 0, 0] 0.2=[200, 7, 7, 7] 1.0=[20, 20, 20, 20] 1.1=[0, 0, 0, 9] \
             1.2=[13, 13, 13, 13] 2.0=[30, 30, 30, 30] 2.1=[0, 0, 0, 0] 2.2=[1, 255, 255, 0] ",
    };
    let record = if left < 25 { "0 0 35 Broken; 1" } else { "0" };
    let end = left.saturating_add(35);
    Ok(format!(in alloc; "{lines}| {record} Input({end})")?)
}

/// Whether it does, in slices of five bytes.
fn is_read_cut(alloc: Global, whole: &[u8], left: usize) -> Result<bool, Fail> {
    let wanted = read_of_cut(alloc, left)?;
    let bytes = &whole[..left.saturating_add(35).min(whole.len())];
    Ok(read_under(alloc, Profile::Wide, bytes, 5)? == wanted)
}

#[test]
fn cut_copies_by_sample(rt: HostRuntime) -> Result<(), Fail> {
    let whole = bytes_of(rt.alloc(), BY_SAMPLE)?;
    for left in 0..=26usize {
        assert!(rt;
            is_read_cut(rt.alloc(), &whole, left)?,
            "{left} bytes of scan data"
        );
    }
    Ok(())
}

/// A reader that was fed these bytes.
fn fed(alloc: Global, bytes: &[u8]) -> Result<ProfileReader, Fail> {
    let mut reader = ProfileReader::new(alloc, Profile::Wide);
    feed_piece(&mut reader, bytes)?;
    Ok(reader)
}

/// Whether a reader gives this once it was fed these bytes too.
fn reads_on(
    alloc: Global,
    mut reader: ProfileReader,
    bytes: &[u8],
    wanted: &str,
) -> Result<bool, Fail> {
    feed_piece(&mut reader, bytes)?;
    Ok(reported(alloc, reader.finish())?.as_str() == wanted)
}

/// Whether a reader that was fed the first bytes and cloned gives this, and its clone too. Both are then fed the others.
fn read_twice(alloc: Global, prefix: &[u8], back: &[u8], wanted: &str) -> Result<[bool; 2], Fail> {
    let reader = fed(alloc, prefix)?;
    let clone = reader.try_clone()?;
    let of_reader = reads_on(alloc, reader, back, wanted)?;
    Ok([of_reader, reads_on(alloc, clone, back, wanted)?])
}

/// Makes sure that they do, where the reader is cloned after each byte.
fn check_clones(rt: &impl Abort, alloc: Global, bytes: &[u8], wanted: &str) -> Result<(), Fail> {
    for place in 0..=bytes.len() {
        let (prefix, back) = bytes.split_at(place.min(bytes.len()));
        assert!(rt;
            read_twice(alloc, prefix, back, wanted)? == [true, true],
            "the reader or its clone, after {place} bytes"
        );
    }
    Ok(())
}

#[test]
fn clones_by_sample(rt: HostRuntime) -> Result<(), Fail> {
    for &(text, _, wanted) in &PROFILED {
        let bytes = bytes_of(rt.alloc(), text)?;
        check_clones(&rt, rt.alloc(), &bytes, wanted)?;
    }
    Ok(())
}

/// A reader is done after so many bytes, and not before.
fn check_done(
    rt: &impl Abort,
    reader: &mut ProfileReader,
    bytes: &[u8],
    done: usize,
) -> Result<(), Fail> {
    for (place, byte) in bytes.iter().enumerate() {
        assert!(rt; reader.is_done() == (place >= done), "{done}, {place}");
        feed_piece(reader, &[*byte])?;
    }
    assert!(rt; reader.is_done() && reader.fed() == 62);
    Ok(())
}

/// Readers say their profile, and whether a copy is done: the strict one is at the scan header, and the wide one at EOI.
fn check_profile(
    rt: &impl Abort,
    alloc: Global,
    bytes: &[u8],
    profile: Profile,
    done: usize,
) -> Result<(), Fail> {
    let mut reader = ProfileReader::new(alloc, profile);
    assert!(rt; reader.profile() == profile);
    check_done(rt, &mut reader, bytes, done)
}

#[test]
fn readers_are_done(rt: HostRuntime) -> Result<(), Fail> {
    let bytes = bytes_of(rt.alloc(), BY_SAMPLE)?;
    check_profile(&rt, rt.alloc(), &bytes, Profile::Strict, 35)?;
    check_profile(&rt, rt.alloc(), &bytes, Profile::Wide, 62)
}
