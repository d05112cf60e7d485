//! Partial pictures whose texts were written out by hand: their readings, and the unions of two.

ghost use Rattle.std.specs.Prelude.{◌<◌, length};

use crate::merged_texts::is_merged;
use jls_partial::{InsertFault, Partial, Status};
use jls_values::{Merge, MergeFault, Shape, merge_all};
use std::alloc::Global;
use std::process::Abort;
use std::test::Fail;

/// One line of one sample, of which nothing is known.
pub const NO_READING: &[u8] = b"JLSP\x02\x08\0\x01\0\x01\x01\x01\0\0\0\0";

/// The line, which was read as 0.
const ZERO: &[u8] =
    b"JLSP\x02\x08\0\x01\0\x01\x01\x01\0\0\0\x01\0\0\0\0\0\0\0\0\0\0\x01\0\0\0\0\0\0\0\0\0\0";

/// As 3.
pub const THREE: &[u8] =
    b"JLSP\x02\x08\0\x01\0\x01\x01\x01\0\0\0\x01\0\0\0\0\0\0\0\0\0\0\x01\0\x03\0\0\0\0\0\0\0\0";

/// As 5.
pub const FIVE: &[u8] =
    b"JLSP\x02\x08\0\x01\0\x01\x01\x01\0\0\0\x01\0\0\0\0\0\0\0\0\0\0\x01\0\x05\0\0\0\0\0\0\0\0";

/// As 3 and as 5, under no source.
pub const TWO_READINGS: &[u8] =
    b"JLSP\x02\x08\0\x01\0\x01\x01\x01\0\0\0\x01\0\0\0\0\0\0\0\0\0\0\x02\0\x03\0\0\0\0\0\0\0\0\0\x05\0\0\0\0\0\0\0\0";

/// As 3 under the source 2.
const SOURCE_2: &[u8] =
    b"JLSP\x02\x08\0\x01\0\x01\x01\x01\0\0\0\x01\0\0\0\0\0\0\0\0\0\0\x01\0\x03\0\0\0\0\0\0\0\x01\0\0\0\x02";

/// As 3 under the source 7.
const SOURCE_7: &[u8] =
    b"JLSP\x02\x08\0\x01\0\x01\x01\x01\0\0\0\x01\0\0\0\0\0\0\0\0\0\0\x01\0\x03\0\0\0\0\0\0\0\x01\0\0\0\x07";

/// As 3 under the sources 2 and 7.
pub const TWO_SOURCES: &[u8] =
    b"JLSP\x02\x08\0\x01\0\x01\x01\x01\0\0\0\x01\0\0\0\0\0\0\0\0\0\0\x01\0\x03\0\0\0\0\0\0\0\x02\0\0\0\x02\0\0\0\x07";

/// As 3 under the sources 3, 7 and 9.
const THREE_SOURCES: &[u8] =
    b"JLSP\x02\x08\0\x01\0\x01\x01\x01\0\0\0\x01\0\0\0\0\0\0\0\0\0\0\x01\0\x03\0\0\0\0\0\0\0\x03\0\0\0\x03\0\0\0\x07\0\0\0\x09";

/// As 3 under the sources 2, 3, 7 and 9.
const FOUR_SOURCES: &[u8] =
    b"JLSP\x02\x08\0\x01\0\x01\x01\x01\0\0\0\x01\0\0\0\0\0\0\0\0\0\0\x01\0\x03\0\0\0\0\0\0\0\x04\0\0\0\x02\0\0\0\x03\0\0\0\x07\0\0\0\x09";

/// As 3 under the source 7 and as 5 under none.
const ONE_SOURCE: &[u8] =
    b"JLSP\x02\x08\0\x01\0\x01\x01\x01\0\0\0\x01\0\0\0\0\0\0\0\0\0\0\x02\0\x03\0\0\0\0\0\0\0\x01\0\0\0\x07\0\x05\0\0\0\0\0\0\0\0";

/// A line of a component with another identifier, which was read as 5.
pub const OTHER_SHAPE: &[u8] =
    b"JLSP\x02\x08\0\x01\0\x01\x01\x02\0\0\0\x01\0\0\0\0\0\0\0\0\0\0\x01\0\x05\0\0\0\0\0\0\0\0";

/// The same line, which was read as 3 and as 5.
pub const OTHER_TWO_READINGS: &[u8] =
    b"JLSP\x02\x08\0\x01\0\x01\x01\x02\0\0\0\x01\0\0\0\0\0\0\0\0\0\0\x02\0\x03\0\0\0\0\0\0\0\0\0\x05\0\0\0\0\0\0\0\0";

/// Two lines of one sample, the second of which was read as 255.
const SECOND_LINE: &[u8] =
    b"JLSP\x02\x08\0\x01\0\x02\x01\x01\0\0\0\x01\0\0\x01\0\0\0\0\0\0\0\x01\0\xFF\0\0\0\0\0\0\0\0";

/// Two components of two lines, of which the second line of the first was read as 4.
const IN_FIRST: &[u8] =
    b"JLSP\x02\x08\0\x01\0\x02\x02\x01\x02\0\0\0\x01\0\0\x01\0\0\0\0\0\0\0\x01\0\x04\0\0\0\0\0\0\0\0";

/// The first line of the second was read as 9.
const IN_SECOND: &[u8] =
    b"JLSP\x02\x08\0\x01\0\x02\x02\x01\x02\0\0\0\x01\x01\0\0\0\0\0\0\0\0\0\x01\0\x09\0\0\0\0\0\0\0\0";

/// Both: entries stand by component, and then by line.
const IN_BOTH: &[u8] =
    b"JLSP\x02\x08\0\x01\0\x02\x02\x01\x02\0\0\0\x02\0\0\x01\0\0\0\0\0\0\0\x01\0\x04\0\0\0\0\0\0\0\0\
      \x01\0\0\0\0\0\0\0\0\0\x01\0\x09\0\0\0\0\0\0\0\0";

/// What stands before 1024 readings of one line of one sample of 16 bits.
pub const MANY_READINGS: &[u8] =
    b"JLSP\x02\x10\0\x01\0\x01\x01\x01\0\0\0\x01\0\0\0\0\0\0\0\0\0\x04\0";

/// What stands before the entries of ten lines of one sample.
const TEN_LINES: [u8; 16] = [0x4A, 0x4C, 0x53, 0x50, 2, 8, 0, 1, 0, 10, 1, 1, 0, 0, 0, 10];

/// What two texts say, and the text of their union.
const JOINS: [(&[u8], &[u8], &[u8]); 9] = [
    (NO_READING, ZERO, ZERO),
    (THREE, FIVE, TWO_READINGS),
    (TWO_READINGS, FIVE, TWO_READINGS),
    (TWO_READINGS, TWO_READINGS, TWO_READINGS),
    (THREE, SOURCE_7, SOURCE_7),
    (SOURCE_2, SOURCE_7, TWO_SOURCES),
    (TWO_SOURCES, THREE_SOURCES, FOUR_SOURCES),
    (TWO_READINGS, SOURCE_7, ONE_SOURCE),
    (IN_SECOND, IN_FIRST, IN_BOTH),
];

/// Whether a partial picture is written as this text.
pub fn has_text(alloc: Global, partial: &Partial, text: &[u8]) -> Result<bool, Fail> {
    Ok(partial.to_bytes(alloc)?.as_slice() == text)
}

/// Merges what a text says, and merges it again.
fn merge_twice(joined: &mut Partial, alloc: Global, text: &[u8]) -> Result<(), Fail> {
    let second = Partial::from_bytes(alloc, text)?;
    joined.merge(&second)?;
    merge_all(joined, &[second])?;
    Ok(())
}

/// Whether the join of what two texts say is written as the third.
fn is_join(alloc: Global, one: &[u8], other: &[u8], text: &[u8]) -> Result<bool, Fail> {
    let mut joined = Partial::from_bytes(alloc, one)?;
    merge_twice(&mut joined, alloc, other)?;
    has_text(alloc, &joined, text)
}

/// The union is the same where the second is merged as a partial picture, and as its text.
fn check_union(
    rt: &impl Abort,
    alloc: Global,
    one: &[u8],
    other: &[u8],
    joined: &[u8],
) -> Result<(), Fail> {
    assert!(rt; is_join(alloc, one, other, joined)?, "{joined:?}");
    assert!(rt; is_merged(alloc, one, other, joined)?, "{joined:?}");
    Ok(())
}

#[test]
fn joins_of_two(rt: HostRuntime) -> Result<(), Fail> {
    for &(one, other, joined) in &JOINS {
        check_union(&rt, rt.alloc(), one, other, joined)?;
        check_union(&rt, rt.alloc(), other, one, joined)?;
    }
    Ok(())
}

fn are_equal(alloc: Global, one: &[u8], other: &[u8]) -> Result<bool, Fail> {
    Ok(Partial::from_bytes(alloc, one)? == Partial::from_bytes(alloc, other)?)
}

/// Two texts, and whether they say the same.
const PAIRS: [(&[u8], &[u8], bool); 7] = [
    (THREE, THREE, true),
    (THREE, FIVE, false),
    (THREE, NO_READING, false),
    (FIVE, TWO_READINGS, false),
    (FIVE, OTHER_SHAPE, false),
    (THREE, SOURCE_7, false),
    (SOURCE_7, SOURCE_7, true),
];

#[test]
fn one_picture_or_two(rt: HostRuntime) -> Result<(), Fail> {
    for &(one, other, same) in &PAIRS {
        assert!(rt;
            are_equal(rt.alloc(), one, other)? == same,
            "{one:?} {other:?}"
        );
    }
    Ok(())
}

/// A picture of one line of one sample of 8 bits, of which nothing is known.
fn one_line(alloc: Global) -> Result<Partial, Fail> {
    Ok(Partial::empty(alloc, Shape::new(8, 1, 1, &[1])?))
}

/// The line, which was read as 3, and marked twice.
fn marked_twice(alloc: Global) -> Result<Partial, Fail> {
    let mut one = one_line(alloc)?;
    one.insert(0, 0, &[3])?;
    one.mark(7)?;
    one.mark(7)?;
    Ok(one)
}

/// The line is read as 3 again, and as 5.
fn check_readings(rt: &impl Abort, one: &mut Partial) {
    assert!(rt; one.insert(0, 0, &[3]) == Ok(false));
    assert!(rt; one.insert(0, 0, &[5]) == Ok(true));
    assert!(rt; one.count(0, 0) == 2);
    assert!(rt; one.reading(0, 0, 0) == [3].as_slice());
    assert!(rt; one.reading(0, 0, 1) == [5].as_slice());
    assert!(rt; one.sources(0, 0, 0) == [7].as_slice());
}

#[test]
fn readings_and_sources_of_one_line(rt: HostRuntime) -> Result<(), Fail> {
    let mut one = marked_twice(rt.alloc())?;
    check_readings(&rt, &mut one);
    assert!(rt; has_text(rt.alloc(), &one, ONE_SOURCE)?);
    Ok(())
}

/// The line is read as 0, and then as 5.
fn check_statuses(rt: &impl Abort, one: &mut Partial) -> Result<(), Fail>
    requires component { 0 < length one.old.shape.ids }
    requires line { 0 < one.old.shape.height }
{
    assert!(rt; one.status(0, 0) == Status::Missing && !one.is_settled());
    one.insert(0, 0, &[0])?;
    assert!(rt; one.status(0, 0) == Status::Settled && one.is_settled());
    one.insert(0, 0, &[5])?;
    assert!(rt; one.status(0, 0) == Status::Disputed && !one.is_settled());
    Ok(())
}

#[test]
fn missing_settled_and_disputed(rt: HostRuntime) -> Result<(), Fail> {
    let mut one = one_line(rt.alloc())?;
    check_statuses(&rt, &mut one)
}

/// A picture of ten lines, of which every other one, from this on, was read as its own number.
fn half(alloc: Global, first: u16) -> Result<Partial, Fail> {
    let mut partial = Partial::empty(alloc, Shape::new(8, 1, 10, &[1])?);
    for line in 0..10u16 {
        if line % 2 == first {
            partial.insert(0, line, &[line])?;
        }
    }
    Ok(partial)
}

/// The text of all ten lines.
fn ten_lines_text(alloc: Global) -> Result<Vec<u8>, Fail> {
    let mut text = Vec::from_slice(alloc, &TEN_LINES)?;
    for line in 0..10u8 {
        text.extend_from_slice(&[
            0, 0, line, 0, 0, 0, 0, 0, 0, 0, 1, 0, line, 0, 0, 0, 0, 0, 0, 0, 0,
        ])?;
    }
    Ok(text)
}

/// The picture of both halves.
fn joined_halves(alloc: Global) -> Result<Partial, Fail> {
    let mut odd = half(alloc, 1)?;
    odd.merge(&half(alloc, 0)?)?;
    Ok(odd)
}

/// Whether a picture is settled, and is written as the text of all ten lines.
fn has_ten_lines(alloc: Global, joined: &Partial) -> Result<bool, Fail> {
    let text = ten_lines_text(alloc)?;
    Ok(joined.is_settled() && has_text(alloc, joined, &text)?)
}

#[test]
fn ten_lines_from_two_halves(rt: HostRuntime) -> Result<(), Fail> {
    let joined = joined_halves(rt.alloc())?;
    assert!(rt; has_ten_lines(rt.alloc(), &joined)?);
    Ok(())
}

/// Identifiers of components, and the text of a picture of them of which nothing is known.
const EMPTY_TEXTS: [(&[u8], &[u8]); 4] = [
    (&[9], b"JLSP\x02\x0C\x02\x01\0\x03\x01\x09\0\0\0\0"),
    (&[9, 7], b"JLSP\x02\x0C\x02\x01\0\x03\x02\x09\x07\0\0\0\0"),
    (
        &[9, 7, 200],
        b"JLSP\x02\x0C\x02\x01\0\x03\x03\x09\x07\xC8\0\0\0\0",
    ),
    (
        &[9, 7, 200, 0],
        b"JLSP\x02\x0C\x02\x01\0\x03\x04\x09\x07\xC8\0\0\0\0\0",
    ),
];

/// Whether this is the text of a picture of these components of which nothing is known.
fn is_empty_text(alloc: Global, ids: &[u8], text: &[u8]) -> Result<bool, Fail> {
    let empty = Partial::empty(alloc, Shape::new(12, 513, 3, ids)?);
    Ok(has_text(alloc, &empty, text)? && Partial::from_bytes(alloc, text)? == empty)
}

#[test]
fn nothing_known_of_one_to_four_components(rt: HostRuntime) -> Result<(), Fail> {
    for &(ids, text) in &EMPTY_TEXTS {
        assert!(rt; is_empty_text(rt.alloc(), ids, text)?, "{ids:?}");
    }
    Ok(())
}

/// Component, line and samples, and the answer if they are inserted one after the other.
const INSERTIONS: [(u8, u16, &[u16], Result<bool, InsertFault>); 6] = [
    (1, 2, &[256, 0], Err(InsertFault::Component)),
    (0, 2, &[256, 0], Err(InsertFault::Line)),
    (0, 1, &[256, 0], Err(InsertFault::Width)),
    (0, 1, &[256], Err(InsertFault::Sample)),
    (0, 1, &[255], Ok(true)),
    (0, 1, &[255], Ok(false)),
];

/// Inserts each of them.
fn check_insertions(rt: &impl Abort, one: &mut Partial) {
    for &(component, line, samples, wanted) in &INSERTIONS {
        assert!(rt;
            one.insert(component, line, samples) == wanted,
            "{wanted:?}"
        );
    }
}

#[test]
fn refusals_in_order(rt: HostRuntime) -> Result<(), Fail> {
    let mut one = Partial::empty(rt.alloc(), Shape::new(8, 1, 2, &[1])?);
    check_insertions(&rt, &mut one);
    assert!(rt; has_text(rt.alloc(), &one, SECOND_LINE)?);
    Ok(())
}

#[test]
fn shapes_that_differ(rt: HostRuntime) -> Result<(), Fail> {
    let mut one = Partial::from_bytes(rt.alloc(), THREE)?;
    assert!(rt; merged_shape_differs(rt.alloc(), &mut one)?);
    assert!(rt; has_text(rt.alloc(), &one, THREE)?);
    Ok(())
}

/// Whether a picture of another shape is not merged.
fn merged_shape_differs(alloc: Global, one: &mut Partial) -> Result<bool, Fail> {
    let other = Partial::from_bytes(alloc, OTHER_SHAPE)?;
    Ok(one.merge(&other) == Err(MergeFault::ShapeDiffers))
}

/// Reads the line of a picture as each even number below 1024, or as each odd one, in the order of the multiples of `step`.
fn insert_in_steps(one: &mut Partial, step: u16, odd: u16) -> Result<(), InsertFault> {
    for number in 0..512u16 {
        one.insert(0, 0, &[number.wrapping_mul(step) % 512 * 2 + odd % 2])?;
    }
    Ok(())
}

/// The text of a picture of one sample that was read as each even number below 1024, then marked, and then read as each odd one.
fn read_in_steps(alloc: Global, step: u16) -> Result<Vec<u8>, Fail> {
    let mut one = Partial::empty(alloc, Shape::new(16, 1, 1, &[1])?);
    insert_in_steps(&mut one, step, 0)?;
    one.mark(7)?;
    insert_in_steps(&mut one, step, 1)?;
    Ok(one.to_bytes(alloc)?)
}

/// The text of these readings.
fn marked_readings(alloc: Global) -> Result<Vec<u8>, Fail> {
    let mut text = Vec::from_slice(alloc, MANY_READINGS)?;
    for sample in 0..1024u16 {
        let sources: &[u8] = if sample % 2 == 0 {
            &[0, 0, 0, 0, 0, 0, 0, 1, 0, 0, 0, 7]
        } else {
            &[0, 0, 0, 0, 0, 0, 0, 0]
        };
        text.extend_from_slice(&sample.to_be_bytes())?;
        text.extend_from_slice(sources)?;
    }
    Ok(text)
}

#[test]
fn readings_of_one_line_in_any_order(rt: HostRuntime) -> Result<(), Fail> {
    let text = marked_readings(rt.alloc())?;
    // Rising, falling, and neither.
    for step in [1, 511, 195] {
        assert!(rt;
            read_in_steps(rt.alloc(), step)? == text,
            "in steps of {step}"
        );
    }
    Ok(())
}
