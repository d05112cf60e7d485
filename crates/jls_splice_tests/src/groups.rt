//! Groups of two copies of a file with two restart intervals, worked by hand.

use jls_diff::{Border, Group, Part, Parts, find_groups};
use std::alloc::{AllocError, Global};
use std::test::Fail;

/// What stands in both copies, part by part, and `None` where they differ: SOI, and a comment that holds the code of a restart marker; SOS
/// with its scan header, and a byte of data; a marker that is no border; two restart markers with a byte before each.
const STRETCHES: [Option<&[u8]>; 8] = [
    Some(&[0xFF, 0xD8, 0xFF, 0xFE, 0x00, 0x04, 0xFF, 0xD0]),
    None,
    Some(&[
        0xFF, 0xDA, 0x00, 0x08, 0x01, 0x01, 0x00, 0x00, 0x00, 0x00, 0x80,
    ]),
    None,
    Some(&[0xFF, 0xC0]),
    None,
    Some(&[0x01, 0xFF, 0xD0, 0x02, 0xFF, 0xD1]),
    None,
];

const FIRST: Group = Group {
    head: 2,
    begin: Border { part: 2, at: 2 },
    end: Some(Border { part: 6, at: 3 }),
};

const SECOND: Group = Group {
    head: 2,
    begin: Border { part: 6, at: 6 },
    end: None,
};

/// The groups of the first parts, so many of them.
fn groups_of(alloc: Global, count: usize) -> Result<Vec<Group>, AllocError> {
    let ways: [&[u8]; 2] = [&[1], &[2]];
    let mut parts = Vec::new(alloc);
    for stretch in STRETCHES.iter().take(count) {
        parts.push(match stretch {
            Some(bytes) => Part::Same(*bytes),
            None => Part::Differ(Vec::from_slice(alloc, &ways)?),
        })?;
    }
    find_groups(alloc, &Parts::of(parts))
}

#[test]
fn groups_between_markers(rt: HostRuntime) -> Result<(), Fail> {
    let open = Group { end: None, ..FIRST };
    let cases: [(usize, &[Group]); 6] = [
        (0, &[]),
        (2, &[]),
        (3, &[]),
        (4, &[open]),
        (7, &[FIRST]),
        (8, &[FIRST, SECOND]),
    ];
    for (count, groups) in cases {
        let found = groups_of(rt.alloc(), count)?;
        assert_eq!(rt; found.as_slice(), groups, "of {count} parts");
    }
    Ok(())
}

#[test]
fn parts_of_each_group(rt: HostRuntime) {
    for (place, in_first, in_second) in [
        (0, true, true),
        (1, true, true),
        (2, false, false),
        (3, true, false),
        (5, true, false),
        (6, false, false),
        (7, false, true),
    ] {
        assert_eq!(rt; FIRST.is_inside(place), in_first, "{place}");
        assert_eq!(rt; SECOND.is_inside(place), in_second, "{place}");
    }
}
