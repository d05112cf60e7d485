//! Texts whose readings go straight into a partial picture.

use crate::partial::{
    FIVE, MANY_READINGS, NO_READING, OTHER_SHAPE, OTHER_TWO_READINGS, THREE, TWO_READINGS, has_text,
};
use jls_partial::{MergeTextFault, Partial, TextFault};
use jls_values::Shape;
use std::alloc::Global;
use std::test::Fail;

/// Whether what is held is written as the third text when the second was merged, and merged again.
pub fn is_merged(alloc: Global, held: &[u8], text: &[u8], wanted: &[u8]) -> Result<bool, Fail> {
    let mut held = Partial::from_bytes(alloc, held)?;
    held.merge_text(alloc, text)?;
    held.merge_text(alloc, text)?;
    has_text(alloc, &held, wanted)
}

/// A text of 1,024 readings of one line, every other number from the first on.
fn every_other(alloc: Global, first: u16) -> Result<Vec<u8>, Fail> {
    let mut text = Vec::from_slice(alloc, MANY_READINGS)?;
    for i in 0..1024u16 {
        text.extend_from_slice(&(2 * i + first % 2).to_be_bytes())?;
        text.extend_from_slice(&0u64.to_be_bytes())?;
    }
    Ok(text)
}

/// The picture that was read as each number.
fn each_number(alloc: Global) -> Result<Partial, Fail> {
    let mut partial = Partial::empty(alloc, Shape::new(16, 1, 1, &[1])?);
    for sample in 0..2048u16 {
        partial.insert(0, 0, &[sample])?;
    }
    Ok(partial)
}

/// Merges the text of every other number.
fn merge_every_other(held: &mut Partial, alloc: Global, first: u16) -> Result<(), Fail> {
    let text = every_other(alloc, first)?;
    held.merge_text(alloc, &text)?;
    Ok(())
}

/// The picture of which the texts of both halves were merged.
fn from_texts(alloc: Global) -> Result<Partial, Fail> {
    let mut held = Partial::empty(alloc, Shape::new(16, 1, 1, &[1])?);
    merge_every_other(&mut held, alloc, 1)?;
    merge_every_other(&mut held, alloc, 0)?;
    Ok(held)
}

#[test]
fn gives_the_union_of_many_readings(rt: HostRuntime) -> Result<(), Fail> {
    assert!(rt; from_texts(rt.alloc())? == each_number(rt.alloc())?);
    Ok(())
}

/// A text of another shape changes nothing.
#[test]
fn refuses_other_shapes(rt: HostRuntime) -> Result<(), Fail> {
    let mut partial = Partial::from_bytes(rt.alloc(), THREE)?;
    let answer = partial.merge_text(rt.alloc(), OTHER_SHAPE);
    assert!(rt; answer == Err(MergeTextFault::ShapeDiffers));
    assert!(rt; has_text(rt.alloc(), &partial, THREE)?);
    Ok(())
}

/// What is held, a text, how many of its bytes are merged, and what is held then.
const CUT_TEXTS: [(&[u8], &[u8], usize, &[u8]); 6] = [
    (THREE, OTHER_SHAPE, 36, THREE),
    (FIVE, OTHER_TWO_READINGS, 46, FIVE),
    (THREE, FIVE, 0, THREE),
    (THREE, FIVE, 36, THREE),
    (FIVE, TWO_READINGS, 46, TWO_READINGS),
    (NO_READING, TWO_READINGS, 46, THREE),
];

/// Whether a text ends too early at its end, and this is held then.
fn is_truncated(alloc: Global, held: &[u8], text: &[u8], left: &[u8]) -> Result<bool, Fail> {
    let mut partial = Partial::from_bytes(alloc, held)?;
    let fault = MergeTextFault::Text(TextFault::Truncated(text.len() as u64));
    Ok(partial.merge_text(alloc, text) == Err(fault) && has_text(alloc, &partial, left)?)
}

/// The fault of a text comes before another shape. What stands before the fault is held where the shape is the same.
#[test]
fn refuses_what_is_no_text(rt: HostRuntime) -> Result<(), Fail> {
    for &(held, text, count, left) in &CUT_TEXTS {
        let cut = &text[..count.min(text.len())];
        assert!(rt; is_truncated(rt.alloc(), held, cut, left)?, "{cut:?}");
    }
    Ok(())
}
