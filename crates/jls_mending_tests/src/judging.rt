//! Proposals of edits that are taken, and those that are left out.

use crate::two_codings::{
    FIRST_0, FIRST_1, LINE, LINE_LOST, PLANE, PLANE_LOST, SECOND_0, SECOND_1, file, picture,
};
use jls_held::{CopyEdit, EditedCopy, Judged, MendedCopy, judge};
use jls_values::Shape;
use std::alloc::{AllocError, Global};
use std::test::Fail;

/// What another copy by plane lost: a byte of the last row.
const LATER_LOST: &[usize] = &[65];

/// These bytes, with others at the places that are lost.
fn damaged(alloc: Global, bytes: &[u8], lost: &[usize]) -> Result<Vec<u8>, AllocError> {
    let mut copy = Vec::new(alloc);
    for place in 0..bytes.len() {
        copy.push(if lost.contains(&place) {
            0xAA
        } else {
            bytes[place]
        })?;
    }
    Ok(copy)
}

/// An edit of the copy of this number at each place that is lost, with the true byte.
fn restored(
    alloc: Global,
    number: usize,
    truth: &[u8],
    lost: &[usize],
) -> Result<EditedCopy, AllocError> {
    let mut edits = Vec::new(alloc);
    for place in 0..truth.len() {
        if lost.contains(&place) {
            let bytes = Vec::from_slice(alloc, &truth[place..place + 1])?;
            edits.push(CopyEdit {
                offset: place,
                count: 1,
                bytes,
            })?;
        }
    }
    Ok(EditedCopy { number, edits })
}

/// The copies of these numbers, each without the bytes of these edits: their offsets, and how many bytes.
fn shortened(
    alloc: Global,
    numbers: &[usize],
    gaps: &[(usize, usize)],
) -> Result<Vec<EditedCopy>, AllocError> {
    let mut coding = Vec::new(alloc);
    for number in numbers {
        let mut edits = Vec::new(alloc);
        for (offset, count) in gaps {
            edits.push(CopyEdit {
                offset: *offset,
                count: *count,
                bytes: Vec::new(alloc),
            })?;
        }
        coding.push(EditedCopy {
            number: *number,
            edits,
        })?;
    }
    Ok(coding)
}

/// Judges proposals over three copies: two by plane, damaged in different places, and one by line between them.
fn judged(alloc: Global, proposals: Vec<Vec<EditedCopy>>) -> Result<Judged, Fail> {
    let plane = damaged(alloc, PLANE, PLANE_LOST)?;
    let line = damaged(alloc, LINE, LINE_LOST)?;
    let later = damaged(alloc, PLANE, LATER_LOST)?;
    let shape = Shape::new(16, 2, 2, &[1, 2])?;
    Ok(judge(alloc, shape, &[&plane, &line, &later], proposals)?)
}

/// Both copies by plane as the true file, and the one by line.
fn true_codings(alloc: Global) -> Result<Vec<Vec<EditedCopy>>, AllocError> {
    let mut plane = Vec::new(alloc);
    plane.push(restored(alloc, 0, PLANE, PLANE_LOST)?)?;
    plane.push(restored(alloc, 2, PLANE, LATER_LOST)?)?;
    let mut line = Vec::new(alloc);
    line.push(restored(alloc, 1, LINE, LINE_LOST)?)?;
    let mut codings = Vec::new(alloc);
    codings.push(plane)?;
    codings.push(line)?;
    Ok(codings)
}

/// Whether two files have the same bytes, and the same of them are held.
fn is_same(one: &MendedCopy, other: &MendedCopy) -> bool {
    one.bytes == other.bytes && one.held == other.held
}

/// Of the file by plane each byte is held, as one of its copies has it. Of the one by line those that its only copy has.
#[test]
fn takes_copies_of_one_file(rt: HostRuntime) -> Result<(), Fail> {
    let alloc = rt.alloc();
    let plane = file(alloc, PLANE, &[])?;
    let line = file(alloc, LINE, LINE_LOST)?;
    let all = picture(alloc, 2, &[FIRST_0, FIRST_1, SECOND_0, SECOND_1])?;
    let judged = judged(alloc, true_codings(alloc)?)?;
    assert!(rt; judged.codings.len() == 2 && judged.files.len() == 2);
    assert!(rt; is_same(&judged.files[0], &plane));
    assert!(rt; is_same(&judged.files[1], &line));
    assert!(rt; judged.held == all);
    Ok(())
}

/// Whether no file is made of these copies without these bytes, so that no line is held.
fn is_left_out(alloc: Global, numbers: &[usize], gaps: &[(usize, usize)]) -> Result<bool, Fail> {
    let none = picture(alloc, 2, &[])?;
    let mut proposals = Vec::new(alloc);
    proposals.push(shortened(alloc, numbers, gaps)?)?;
    let judged = judged(alloc, proposals)?;
    Ok(judged.codings.is_empty() && judged.files.is_empty() && judged.held == none)
}

/// Proposals that make no file.
#[test]
fn leaves_out(rt: HostRuntime) -> Result<(), Fail> {
    let alloc = rt.alloc();
    let rows: [(&str, &[usize], &[(usize, usize)]); 9] = [
        ("no copy", &[], &[]),
        (
            "the second edit begins inside the first",
            &[0],
            &[(32, 4), (35, 1)],
        ),
        (
            "the second edit is before the first",
            &[0],
            &[(35, 1), (32, 1)],
        ),
        ("the edit ends behind the copy", &[0], &[(67, 2)]),
        ("the edit begins behind the copy", &[0], &[(69, 0)]),
        (
            "the edit's end is past any number",
            &[0],
            &[(68, usize::MAX)],
        ),
        ("no copy has the number", &[3], &[]),
        ("no copy has the second number", &[0, 3], &[]),
        ("the copies make different bytes", &[0, 2], &[(0, 1)]),
    ];
    for (what, numbers, gaps) in rows {
        assert!(rt; is_left_out(alloc, numbers, gaps)?, "{what}");
    }
    Ok(())
}
