//! The search of all splices of some copies.

ghost use Rattle.std.specs.Prelude.{◌≡◌, ◌<◌, length, IfOk, IfSome};
ghost use Rattle.jls_diff.specs.Parts.{AreParts};
ghost use Rattle.jls_diff.specs.PartsOf.{bytes_of, parts_of};
ghost use Rattle.jls_search.specs.Faultless.{IsSought};
ghost use Rattle.jls_search.specs.Search.{CameTo, IsKeptReader, lists_of};
ghost use Rattle.jls_search.specs.SearchLaws.{AreShort};

use jls_diff::{Parts, find_parts};
use jls_search::{Searched, parts_can_be_searched, search};
use std::alloc::{AllocError, Global};

/// The parts of copies, and what the search of all their splices comes to.
pub(crate) fn searched<'a>(
    alloc: Global,
    copies: &[&'a [u8]],
    ceiling: Option<u16>,
    limit: u32,
) -> Result<(Parts<'a>, Searched), AllocError>
    requires some_copy { 0 < length copies.now }
    requires short { AreShort (bytes_of copies.now) }
    ensures parts { IfOk result (λ found. AreParts (bytes_of copies.now) found.0) }
    ensures ceiling { IfOk result (λ found. found.1.ceiling ≡ ceiling) }
    ensures searched { IfOk result (λ found.
        CameTo (IsSought found.1.ceiling) found.0 (lists_of found.1.splices.items) found.1.is_used_up) }
    ensures reader { IfOk result (λ found. IfSome found.1.reader (IsKeptReader found.0)) }
{
    parts_can_be_searched();
    let parts = find_parts(alloc, copies)?;
    let searched = search(alloc, &parts, ceiling, limit)?;
    Ok((parts, searched))
}
