//! Parts of copies, and the searches over their splices.

ghost use Rattle.std.specs.Prelude.{◌≡◌, ◌<◌, length, IfOk};
ghost use Rattle.jls_diff.specs.Parts.{AreParts};
ghost use Rattle.jls_diff.specs.PartsOf.{bytes_of, parts_of};
ghost use Rattle.jls_search.specs.Faultless.{IsSought};
ghost use Rattle.jls_search.specs.Search.{CameTo, lists_of};
ghost use Rattle.jls_search.specs.SearchLaws.{AreShort};

use crate::met::{Met, Stopped, Tally};
use crate::pairs::{half_lost_pair, mended_pair};
use jls_diff::{Part, Parts, find_parts};
use jls_search::{Searched, are_short, complete_by_groups, parts_can_be_searched, search};
use std::alloc::{AllocError, Global};
use std::process::Abort;

/// The bytes from 1 to 250 but those that are lost, which come after the first and go up to the second number. A zero stands for one.
fn bytes_but(alloc: Global, lost: (u8, u8), zeroed: u8) -> Result<Vec<u8>, AllocError> {
    let mut bytes = Vec::new(alloc);
    for byte in 1..=250u8 {
        if byte <= lost.0 || byte > lost.1 {
            bytes.push(if byte == zeroed { 0 } else { byte })?;
        }
    }
    Ok(bytes)
}

/// Whether a part has so many bytes: one number where all copies have it alike, else one for each copy.
fn is_part(part: &Part<'_>, lengths: &[usize]) -> bool {
    match part {
        Part::Same(bytes) => lengths.len() == 1 && lengths.first() == Some(&bytes.len()),
        Part::Differ(ways) => {
            ways.len() == lengths.len() && ways.iter().zip(lengths).all(|(way, n)| way.len() == *n)
        }
    }
}

/// The parts of three copies of a file, one of which lost bytes where the others differ.
const PARTS: [&[usize]; 4] = [&[100], &[0, 25, 25], &[0, 35, 35], &[90]];

fn find_one(rt: &impl Abort, alloc: Global) -> Result<Met, Stopped> {
    let first = bytes_but(alloc, (100, 160), 0)?;
    let second = bytes_but(alloc, (0, 0), 111)?;
    let third = bytes_but(alloc, (0, 0), 141)?;
    let copies = [first.as_slice(), second.as_slice(), third.as_slice()];
    let mut met = Met::Done;
    let mut found = find_parts(alloc, &copies);
    if found.is_err() {
        met = Met::Refused;
        found = find_parts(alloc, &copies);
    }
    let parts = found?;
    assert!(rt; parts.len() == PARTS.len());
    for place in 0..parts.len() {
        let lengths = PARTS.get(place).copied().unwrap_or(&[]);
        assert!(rt; is_part(parts.part(place), lengths), "{lengths:?}");
    }
    Ok(met)
}

#[test]
fn parts(rt: HostRuntime) {
    let mut tally = Tally::of("find_parts");
    tally.note(&rt, find_one(&rt, rt.alloc()));
    assert!(rt; tally.is_single());
}

/// The parts of copies, and what the search of all their splices comes to, with so many tries.
fn searched<'a>(
    alloc: Global,
    copies: &[&'a [u8]],
    limit: u32,
) -> Result<(Parts<'a>, Searched), AllocError>
    requires some_copy { 0 < length copies.now }
    requires short { AreShort (bytes_of copies.now) }
    ensures parts { IfOk result (λ found. AreParts (bytes_of copies.now) found.0) }
    ensures searched { IfOk result (λ found.
        CameTo (IsSought found.1.ceiling) found.0 (lists_of found.1.splices.items) found.1.is_used_up) }
{
    parts_can_be_searched();
    let parts = find_parts(alloc, copies)?;
    let searched = search(alloc, &parts, Some(255), limit)?;
    Ok((parts, searched))
}

/// How many splices both searches come to.
fn splices_of(alloc: Global, copies: &[&[u8]]) -> Result<usize, AllocError> {
    if copies.is_empty() || !are_short(copies) {
        return Err(AllocError);
    }
    let (parts, all) = searched(alloc, copies, 4096)?;
    let found = complete_by_groups(alloc, copies, parts, all, 4096)?;
    Ok(found.splices.len())
}

/// Searches the copies of a pair: that which is mended has one splice without a fault, and that which is half lost gives two by groups, the
/// piece that is left within each copy.
fn search_one(rt: &impl Abort, alloc: Global, is_mended: bool) -> Result<Met, Stopped> {
    let pair = if is_mended {
        mended_pair(alloc)?
    } else {
        half_lost_pair(alloc)?
    };
    let copies = [pair.first.as_slice(), pair.second.as_slice()];
    let mut met = Met::Done;
    let mut found = splices_of(alloc, &copies);
    if found.is_err() {
        met = Met::Refused;
        found = splices_of(alloc, &copies);
    }
    assert!(rt; found? == (if is_mended { 1 } else { 2 }));
    Ok(met)
}

#[test]
fn searches(rt: HostRuntime) {
    let mut tally = Tally::of("find_parts, search, and complete_by_groups after them");
    for is_mended in [true, false] {
        tally.note(&rt, search_one(&rt, rt.alloc(), is_mended));
    }
    assert!(rt; tally.is_single());
}
