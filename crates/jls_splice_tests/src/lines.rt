//! Lines of what was found, worked by hand.

use jls_diff::find_parts;
use jls_splice_run::{
    CutFileEnd, Difference, GroupSearch, Promise, SearchReport, differences_of, put_found,
    put_progress,
};
use std::alloc::{AllocError, Global};
use std::test::Fail;

/// The places where two copies differ.
fn differences_between(
    alloc: Global,
    first: &[u8],
    second: &[u8],
) -> Result<Vec<Difference>, AllocError> {
    let parts = find_parts(alloc, &[first, second])?;
    differences_of(alloc, &parts)
}

#[test]
fn one_byte_differs(rt: HostRuntime) -> Result<(), Fail> {
    let alloc = rt.alloc();
    let first = [7u8; 5000];
    let mut second = first;
    second[4321] = 8;
    let differences = differences_between(alloc, &first, &second)?;
    let mut text = Vec::new(alloc);
    put_found(
        &mut text,
        &differences,
        &SearchReport {
            splices: 2,
            is_used_up: false,
            ceiling: Some(2896),
            by_groups: Some(GroupSearch {
                groups: 1,
                is_used_up: true,
            }),
            before: Some(CutFileEnd {
                offset: 4321,
                ceiling: Some(4095),
            }),
            files: Some(12),
            is_eoi_added: true,
            lacks_single_file: true,
            has_lists: false,
            promise: Promise::Lines,
        },
    )?;
    put_progress(&mut text, 4096, 3)?;
    let expected: &[u8] = b"differ 4321 1
splices 2
limit 2896
by groups 1, tries used up
before 4321, samples up to 4095
files 12
eoi added
no single file
promise lines
4096 tries, 3 files
";
    assert_eq!(rt; text.as_slice(), expected);
    Ok(())
}

#[test]
fn many_places_differ(rt: HostRuntime) -> Result<(), Fail> {
    let alloc = rt.alloc();
    let mut differences = Vec::new(alloc);
    for at in 0..5000u64 {
        differences.push(Difference {
            offset: 2 * at,
            length: 1,
        })?;
    }
    let mut text = Vec::new(alloc);
    put_found(
        &mut text,
        &differences,
        &SearchReport {
            splices: 0,
            is_used_up: true,
            ceiling: None,
            by_groups: None,
            before: None,
            files: None,
            is_eoi_added: false,
            lacks_single_file: false,
            has_lists: false,
            promise: Promise::Lines,
        },
    )?;
    let end: &[u8] = b"\ndiffer 8190 1\ndiffer more 904\nsplices 0\ntries used up\npromise lines\n";
    assert!(rt; text.ends_with(end));
    assert_eq!(rt; text.iter().filter(|&&byte| byte == b'\n').count(), 4100);
    Ok(())
}
