//! Copies with bad places, and what stands for them.

use jls_bad::{Listed, Place, known_copies};
use std::alloc::{AllocError, Global};
use std::test::Fail;

/// SOI, the header of a scan, six bytes of scan data, EOI and a byte behind it.
const FILE: &[u8] = &[
    0xFF, 0xD8, 0xFF, 0xDA, 0x00, 0x03, 0x01, 0x11, 0x22, 0x33, 0x44, 0x55, 0x66, 0xFF, 0xD9, 0x77,
];

/// The same with two damaged bytes of scan data.
const OTHER: &[u8] = &[
    0xFF, 0xD8, 0xFF, 0xDA, 0x00, 0x03, 0x01, 0x00, 0x00, 0x33, 0x44, 0x55, 0x66, 0xFF, 0xD9, 0x77,
];

/// SOI, the header of a scan, two bytes of scan data, RST0, three bytes of scan data and EOI.
const RESTARTED: &[u8] = &[
    0xFF, 0xD8, 0xFF, 0xDA, 0x00, 0x03, 0x01, 0x11, 0x22, 0xFF, 0xD0, 0x33, 0x44, 0x55, 0xFF, 0xD9,
];

/// SOI, the header of a scan, three bytes of scan data, a second scan with two, and EOI.
const TWO_SCANS: &[u8] = &[
    0xFF, 0xD8, 0xFF, 0xDA, 0x00, 0x03, 0x01, 0x11, 0x22, 0x33, 0xFF, 0xDA, 0x00, 0x03, 0x01, 0x44,
    0x55, 0xFF, 0xD9,
];

/// Whether a copy with bad places, and another with others, have this to stand for them.
fn stand(alloc: Global, copies: &[Listed<'_>], wanted: &[&[u8]]) -> Result<bool, AllocError> {
    let known = known_copies(alloc, copies)?;
    let are_same = known
        .iter()
        .zip(wanted)
        .all(|(copy, bytes)| copy.as_slice() == *bytes);
    Ok(are_same && known.len() == wanted.len())
}

/// So many bytes from an offset on.
fn place(offset: u64, length: u64) -> Place {
    Place { offset, length }
}

/// What a lone copy with one bad place has to stand for it.
fn is_lone(
    alloc: Global,
    bytes: &[u8],
    offset: u64,
    length: u64,
    wanted: &[u8],
) -> Result<bool, AllocError> {
    let places = [place(offset, length)];
    let copy = Listed {
        bytes,
        places: &places,
    };
    stand(alloc, &[copy], &[wanted])
}

/// FILE without its last byte.
const SHORTER: &[u8] = &[
    0xFF, 0xD8, 0xFF, 0xDA, 0x00, 0x03, 0x01, 0x11, 0x22, 0x33, 0x44, 0x55, 0x66, 0xFF, 0xD9,
];

/// FILE with one byte more.
const LONGER: &[u8] = &[
    0xFF, 0xD8, 0xFF, 0xDA, 0x00, 0x03, 0x01, 0x11, 0x22, 0x33, 0x44, 0x55, 0x66, 0xFF, 0xD9, 0x77,
    0x77,
];

/// Bad bytes are those of the other copy, where it has none that is bad.
#[test]
fn filled_from_the_other(rt: HostRuntime) -> Result<(), Fail> {
    let alloc = rt.alloc();
    let first = Listed {
        bytes: FILE,
        places: &[place(9, 1), place(20, 4), place(3, 5)],
    };
    let second = Listed {
        bytes: OTHER,
        places: &[place(7, 1), place(8, 1), place(8, 0)],
    };
    assert!(rt; stand(alloc, &[first, second], &[&FILE[..7], &FILE[..7]])?);
    Ok(())
}

/// A copy that is shorter or longer gives no byte.
#[test]
fn not_filled_from_other_lengths(rt: HostRuntime) -> Result<(), Fail> {
    let alloc = rt.alloc();
    let first = Listed {
        bytes: FILE,
        places: &[place(8, 2)],
    };
    let shorter = Listed {
        bytes: SHORTER,
        places: &[],
    };
    let longer = Listed {
        bytes: LONGER,
        places: &[],
    };
    let lost = [
        0xFF, 0xD8, 0xFF, 0xDA, 0x00, 0x03, 0x01, 0x11, 0xFF, 0xD8, 0x44, 0x55, 0x66, 0xFF, 0xD9,
        0x77,
    ];
    assert!(rt; stand(alloc, &[shorter, first, longer], &[SHORTER, &lost, LONGER])?);
    Ok(())
}

#[test]
fn filled_from_the_same_length(rt: HostRuntime) -> Result<(), Fail> {
    let alloc = rt.alloc();
    let first = Listed {
        bytes: FILE,
        places: &[place(8, 2)],
    };
    let longer = Listed {
        bytes: LONGER,
        places: &[],
    };
    let second = Listed {
        bytes: FILE,
        places: &[],
    };
    assert!(rt; stand(alloc, &[longer, first, second], &[LONGER, FILE, FILE])?);
    Ok(())
}

/// Before another scan lost bytes of scan data are markers, and one byte behind an odd run is given up.
#[test]
fn lost_before_a_scan(rt: HostRuntime) -> Result<(), Fail> {
    let alloc = rt.alloc();
    let one = [
        0xFF, 0xD8, 0xFF, 0xDA, 0x00, 0x03, 0x01, 0xFF, 0xD8, 0x33, 0xFF, 0xDA, 0x00, 0x03, 0x01,
        0x44, 0x55, 0xFF, 0xD9,
    ];
    assert!(rt; is_lone(alloc, TWO_SCANS, 7, 1, &one)?);
    let two = [
        0xFF, 0xD8, 0xFF, 0xDA, 0x00, 0x03, 0x01, 0x11, 0xFF, 0xD8, 0xFF, 0xDA, 0x00, 0x03, 0x01,
        0x44, 0x55, 0xFF, 0xD9,
    ];
    assert!(rt; is_lone(alloc, TWO_SCANS, 8, 2, &two)?);
    Ok(())
}

/// Behind an odd run a restart marker stays.
#[test]
fn lost_before_a_marker(rt: HostRuntime) -> Result<(), Fail> {
    let alloc = rt.alloc();
    let before_restart = [
        0xFF, 0xD8, 0xFF, 0xDA, 0x00, 0x03, 0x01, 0x11, 0xFF, 0xFF, 0xD0, 0x33, 0x44, 0x55, 0xFF,
        0xD9,
    ];
    assert!(rt; is_lone(alloc, RESTARTED, 8, 1, &before_restart)?);
    Ok(())
}

/// Where no restart marker and no scan follows, a copy is cut, since the lines before the end of a file are read.
#[test]
fn lost_at_last(rt: HostRuntime) -> Result<(), Fail> {
    let alloc = rt.alloc();
    assert!(rt; is_lone(alloc, FILE, 8, 2, &FILE[..8])?);
    assert!(rt; is_lone(alloc, FILE, 13, 1, &FILE[..13])?);
    assert!(rt; is_lone(alloc, RESTARTED, 9, 1, &RESTARTED[..9])?);
    assert!(rt; is_lone(alloc, RESTARTED, 11, 1, &RESTARTED[..11])?);
    assert!(rt; is_lone(alloc, RESTARTED, 11, 3, &RESTARTED[..11])?);
    assert!(rt; is_lone(alloc, TWO_SCANS, 16, 1, &TWO_SCANS[..16])?);
    Ok(())
}

/// A copy is cut before the first lost byte of a header, or behind the end of the picture.
#[test]
fn lost_elsewhere(rt: HostRuntime) -> Result<(), Fail> {
    let alloc = rt.alloc();
    assert!(rt; is_lone(alloc, FILE, 0, 1, &[])?);
    assert!(rt; is_lone(alloc, FILE, 5, 4, &FILE[..5])?);
    assert!(rt; is_lone(alloc, FILE, 15, 100, &FILE[..15])?);
    assert!(rt; is_lone(alloc, FILE, 16, 100, FILE)?);
    assert!(rt; is_lone(alloc, FILE, u64::MAX, u64::MAX, FILE)?);
    Ok(())
}

/// Without bad places a copy stands for itself.
#[test]
fn no_places(rt: HostRuntime) -> Result<(), Fail> {
    let alloc = rt.alloc();
    let copy = Listed {
        bytes: OTHER,
        places: &[],
    };
    let empty = Listed {
        bytes: &[],
        places: &[],
    };
    assert!(rt; stand(alloc, &[copy, empty], &[OTHER, &[]])?);
    assert!(rt; stand(alloc, &[], &[])?);
    Ok(())
}
