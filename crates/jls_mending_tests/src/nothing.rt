//! Copies that bring back nothing of each other: no line is settled, no file is mended, and each agrees with no other.

use crate::files::{BLANK, OTHER, PLAIN, STEEP, zeroed};
use jls_carry::carry;
use std::alloc::{AllocError, Global};
use std::test::Fail;

/// Whether copies of these codings bring back no line and no file, and all are said to agree with no other.
fn are_strangers(alloc: Global, copies: &[&[u8]], codings: &[usize]) -> Result<bool, AllocError> {
    let carried = carry(alloc, copies, codings, copies.len())?;
    for line in carried.lines.iter() {
        if line.is_some() {
            return Ok(false);
        }
    }
    for (place, number) in carried.strangers.iter().enumerate() {
        if *number != place {
            return Ok(false);
        }
    }
    Ok(carried.codings.is_empty() && carried.strangers.len() == copies.len())
}

/// A copy alone agrees with none, whether it is damaged or not.
#[test]
fn one_copy(rt: HostRuntime) -> Result<(), Fail> {
    let alloc = rt.alloc();
    let damaged = zeroed(alloc, PLAIN, 70, 12)?;
    assert!(rt; are_strangers(alloc, &[PLAIN], &[0])?);
    assert!(rt; are_strangers(alloc, &[&damaged], &[0])?);
    Ok(())
}

/// A picture of zeros agrees with no other.
#[test]
fn blank_picture(rt: HostRuntime) -> Result<(), Fail> {
    let alloc = rt.alloc();
    let damaged = zeroed(alloc, PLAIN, 70, 12)?;
    assert!(rt; are_strangers(alloc, &[PLAIN, BLANK], &[0, 1])?);
    assert!(rt; are_strangers(alloc, &[BLANK, &damaged], &[0, 1])?);
    Ok(())
}

/// Nor does another picture, even where two copies have it in one coding.
#[test]
fn other_picture(rt: HostRuntime) -> Result<(), Fail> {
    let alloc = rt.alloc();
    let damaged = zeroed(alloc, OTHER, 120, 12)?;
    assert!(rt; are_strangers(alloc, &[PLAIN, OTHER], &[0, 1])?);
    assert!(rt; are_strangers(alloc, &[PLAIN, OTHER, &damaged], &[0, 1, 1])?);
    assert!(rt; are_strangers(alloc, &[&damaged, OTHER, PLAIN], &[0, 0, 1])?);
    Ok(())
}

/// Nor does a splice agree with the copy whose bytes it has.
#[test]
fn splice_of_a_copy(rt: HostRuntime) -> Result<(), Fail> {
    let alloc = rt.alloc();
    let damaged = zeroed(alloc, PLAIN, 70, 12)?;
    let copies: [&[u8]; 2] = [&damaged, PLAIN];
    let carried = carry(alloc, &copies, &[0, 0], 1)?;
    assert!(rt; carried.lines.iter().all(|line| line.is_none()));
    assert!(rt; carried.codings.is_empty());
    Ok(())
}

/// Lines that stand behind a damaged place of both copies can't come back.
#[test]
fn damaged_alike(rt: HostRuntime) -> Result<(), Fail> {
    let alloc = rt.alloc();
    let first = zeroed(alloc, PLAIN, 25, 182)?;
    let second = zeroed(alloc, STEEP, 42, 180)?;
    assert!(rt; are_strangers(alloc, &[&first, &second], &[0, 1])?);
    Ok(())
}
