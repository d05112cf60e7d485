//! Splices of two copies of a file with restart intervals, worked by hand.

use crate::searched::searched;
use jls_search::{are_short, complete_by_groups};
use std::alloc::{AllocError, Global};
use std::test::Fail;

/// The head of a picture of 8 bits, with so many lines of one sample, and a restart interval for each 120 lines.
fn header(lines: u16) -> [u8; 31] {
    let [high, low] = lines.to_be_bytes();
    [
        0xFF, 0xD8, 0xFF, 0xF7, 0x00, 0x0B, 0x08, high, low, 0x00, 0x01, 0x01, 0x01, 0x11, 0x00,
        0xFF, 0xDD, 0x00, 0x04, 0x00, 0x78, 0xFF, 0xDA, 0x00, 0x08, 0x01, 0x01, 0x00, 0x00, 0x00,
        0x00,
    ]
}

/// The offsets of the first bytes of the first two intervals.
const FIRST: usize = 31;

const SECOND: usize = 49;

/// How many bytes an interval has, with the marker after it.
const STEP: usize = 18;

/// Adds an interval, and the marker after it. All of its samples are 0: each line is one bit 1, so it is 8 times FF 7F (T.87 A.7.1 and
/// C.1).
fn push_interval(file: &mut Vec<u8>, mark: u8) -> Result<(), AllocError> {
    for _ in 0..8u8 {
        file.push(0xFF)?;
        file.push(0x7F)?;
    }
    file.push(0xFF)?;
    file.push(mark)?;
    Ok(())
}

/// A file with so many intervals, and 40 bytes 0 after it.
fn whole_file(alloc: Global, intervals: u8) -> Result<Vec<u8>, AllocError> {
    let mut file = Vec::from_slice(alloc, &header(u16::from(intervals) * 120))?;
    for number in 0..intervals {
        let is_last = number + 1 == intervals;
        let mark = if is_last { 0xD9 } else { 0xD0 + number % 8 };
        push_interval(&mut file, mark)?;
    }
    file.extend_from_slice(&[0; 40])?;
    Ok(file)
}

/// A copy with another byte at these places.
fn damaged(
    alloc: Global,
    intervals: u8,
    places: &[usize],
    byte: u8,
) -> Result<Vec<u8>, AllocError> {
    let mut copy = whole_file(alloc, intervals)?;
    for place in places {
        if let Some(here) = copy.get_mut(*place) {
            *here = byte;
        }
    }
    Ok(copy)
}

/// What two searches come to: how many splices the first, how many groups the second searched, and how many splices there are of both.
type Counts = (usize, Option<usize>, usize);

/// What they come to over some copies, and whether the search by groups was cut off.
fn found_in(alloc: Global, copies: &[&[u8]], limit: u32) -> Result<(Counts, bool), Fail> {
    if copies.is_empty() || !are_short(copies) {
        return Err(Fail::from("no copies that can be searched"));
    }
    let (parts, all) = searched(alloc, copies, None, limit)?;
    let found = complete_by_groups(alloc, copies, parts, all, limit)?;
    let (groups, is_used_up) = match found.by_groups {
        Some(reported) => (Some(reported.groups), reported.is_used_up),
        None => (None, false),
    };
    Ok(((found.whole, groups, found.splices.len()), is_used_up))
}

/// Where each of two copies is damaged, and what the searches come to: each interval in one copy; the second one at the same place in both;
/// both so; the first one in both at two places.
const PAIRS: [([usize; 2], [usize; 2], Counts); 4] = [
    (
        [FIRST + 2, FIRST + 2],
        [SECOND + 2, SECOND + 2],
        (1, None, 1),
    ),
    (
        [FIRST + 2, SECOND + 4],
        [FIRST + 10, SECOND + 4],
        (0, Some(2), 2),
    ),
    (
        [FIRST + 2, SECOND + 4],
        [FIRST + 2, SECOND + 4],
        (0, Some(2), 0),
    ),
    (
        [FIRST + 2, FIRST + 2],
        [FIRST + 10, FIRST + 10],
        (1, None, 1),
    ),
];

#[test]
fn splices_of_two_copies(rt: HostRuntime) -> Result<(), Fail> {
    for (one, other, counts) in PAIRS {
        let first = damaged(rt.alloc(), 2, &one, 0)?;
        let second = damaged(rt.alloc(), 2, &other, 1)?;
        let copies = [first.as_slice(), second.as_slice()];
        assert_eq!(rt;
            found_in(rt.alloc(), &copies, 4096)?,
            (counts, false),
            "at {one:?}"
        );
    }
    Ok(())
}

#[test]
fn tries_of_groups_are_used_up(rt: HostRuntime) -> Result<(), Fail> {
    let first = damaged(rt.alloc(), 2, &[FIRST + 2, SECOND + 4], 0)?;
    let second = damaged(rt.alloc(), 2, &[FIRST + 10, SECOND + 4], 1)?;
    let copies = [first.as_slice(), second.as_slice()];
    assert_eq!(rt; found_in(rt.alloc(), &copies, 1)?, ((0, Some(2), 0), true));
    Ok(())
}

/// Places so far into each of the first 40 intervals, and one in the 41st.
fn places_in_41(alloc: Global, offset: u8) -> Result<Vec<usize>, AllocError> {
    let mut places = Vec::new(alloc);
    for number in 0..40usize {
        places.push(FIRST + STEP * number + usize::from(offset))?;
    }
    places.push(FIRST + STEP * 40 + 4)?;
    Ok(places)
}

/// Both copies are damaged in each of 40 intervals, at two places, and in one more at the same place. With each copy outside of it each of
/// the 40 is mended, since 64 tries are for one group.
#[test]
fn groups_have_tries_and_splices_of_their_own(rt: HostRuntime) -> Result<(), Fail> {
    let places = places_in_41(rt.alloc(), 2)?;
    let first = damaged(rt.alloc(), 41, &places, 0)?;
    let places = places_in_41(rt.alloc(), 10)?;
    let second = damaged(rt.alloc(), 41, &places, 1)?;
    let copies = [first.as_slice(), second.as_slice()];
    assert_eq!(rt;
        found_in(rt.alloc(), &copies, 64)?,
        ((0, Some(41), 80), false)
    );
    Ok(())
}

/// The first interval is damaged at the same place in both copies, and they differ at seven places after EOI, which are of the second
/// group. It gives the most that it may with each copy outside of it, of 128 files.
#[test]
fn a_group_gives_64_files_with_each_copy(rt: HostRuntime) -> Result<(), Fail> {
    let end = FIRST + 2 * STEP;
    let places = [
        FIRST + 4,
        end + 5,
        end + 10,
        end + 15,
        end + 20,
        end + 25,
        end + 30,
        end + 35,
    ];
    let first = damaged(rt.alloc(), 2, &places, 0x10)?;
    let second = damaged(rt.alloc(), 2, &places, 0x11)?;
    let copies = [first.as_slice(), second.as_slice()];
    assert_eq!(rt;
        found_in(rt.alloc(), &copies, 4096)?,
        ((0, Some(2), 128), true)
    );
    Ok(())
}
