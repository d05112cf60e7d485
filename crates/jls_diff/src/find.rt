//! The parts of some copies.

ghost use Rattle.std.specs.Prelude.{IfOk, IfSome};
ghost use Rattle.jls_diff.specs.Parts.{AreParts};
ghost use Rattle.jls_diff.specs.PartsOf.{bytes_of};

use crate::checking::are_parts;
use crate::finer::{CutPlaces, cut_finer};
use crate::part::Part;
use crate::parts::Parts;
use crate::propose::proposed;
use std::alloc::{AllocError, Global};

/// All of the copies as one part: no part, where there are no copies. `Err` comes if memory is refused.
pub fn one_part<'a>(alloc: Global, copies: &[&'a [u8]]) -> Result<Parts<'a>, AllocError>
    ensures { IfOk result (λ parts. AreParts (bytes_of copies.now) parts) }
{
    let mut parts = Vec::new(alloc);
    if !copies.is_empty() {
        parts.push(Part::Differ(Vec::from_slice(alloc, copies)?))?;
    }
    Ok(Parts::of(parts))
}

/// The parts of some copies of one file. `Err` comes if memory is refused.
///
/// A search proposes them and they are checked, so the contract holds however they are found. It goes along all copies while they
/// agree. After a difference it looks for the next 24 bytes that agree again, with a shift if bytes were lost or added. If all copies have
/// one length, no shift is taken, unless the copies differ in far fewer bytes with shifts.
///
/// Inside a difference, one agreeing byte divides two stretches. Between two restart markers or scan headers, more than 11 stretches
/// are too many. Then the nearest are joined, if fewer than 8 bytes agree between them. A run of 8 zeros or more in some copies begins
/// a stretch and ends it. If copies have different lengths in a stretch, those of the most frequent length divide it.
pub fn find_parts<'a>(alloc: Global, copies: &[&'a [u8]]) -> Result<Parts<'a>, AllocError>
    ensures { IfOk result (λ parts. AreParts (bytes_of copies.now) parts) }
{
    let parts = proposed(alloc, copies)?;
    if are_parts(copies, &parts) {
        return Ok(Parts::of(parts));
    }
    one_part(alloc, copies)
}

/// Whether two lists of parts of some copies are cut at the same places, as the first copy has them.
fn are_same_cuts(parts: &[Part<'_>], others: &[Part<'_>]) -> bool {
    parts.len() == others.len()
        && parts
            .iter()
            .zip(others)
            .all(|(part, other)| part.way(0).len() == other.way(0).len())
}

/// Finer parts of the copies that these are the parts of. `None` comes if they are the same. `Err` comes if memory is refused.
///
/// They serve where damaged places touch: then a part holds bytes of two such places, and no copy has all of it. Parts with fewer than
/// 8 agreeing bytes between them are one stretch. In a stretch of up to 16 bytes each byte that differs is a part, unless more than 4 in a
/// row differ. A longer one is cut at multiples of 512 bytes in the first copy. A part whose bytes have several lengths stays as it is.
/// They are checked as the others are.
pub fn find_finer_parts<'a>(
    alloc: Global,
    copies: &[&'a [u8]],
    parts: &Parts<'a>,
) -> Result<Option<Parts<'a>>, AllocError>
    ensures { IfOk result (λ finer. IfSome finer (AreParts (bytes_of copies.now))) }
{
    let finer = cut_finer(alloc, copies, parts, CutPlaces::Sectors)?;
    if are_same_cuts(&finer, parts.list()) || !are_parts(copies, &finer) {
        return Ok(None);
    }
    Ok(Some(Parts::of(finer)))
}

/// Parts of the copies that these are the parts of, which are cut at these offsets in the first copy, in any order. `None` comes if such
/// parts make other copies. `Err` comes if memory is refused.
///
/// They are as `find_finer_parts` has them, but that stretches of more than 16 bytes are cut there alone, and else stay whole. They are
/// checked as the others are.
pub fn find_cut_parts<'a>(
    alloc: Global,
    copies: &[&'a [u8]],
    parts: &Parts<'a>,
    offsets: &[usize],
) -> Result<Option<Parts<'a>>, AllocError>
    ensures { IfOk result (λ cut. IfSome cut (AreParts (bytes_of copies.now))) }
{
    let cut = cut_finer(alloc, copies, parts, CutPlaces::Offsets(offsets))?;
    if !are_parts(copies, &cut) {
        return Ok(None);
    }
    Ok(Some(Parts::of(cut)))
}
