//! Whether parts make some copies.

ghost use Rattle.std.specs.Prelude.{◌≡◌, ℕ, ◌<◌, ◌++◌, [], length, get_or, IfSome, IsTrue};
ghost use Rattle.std.specs.List.{AllByRecursion};
ghost use Rattle.jls_diff.specs.Parts.{AreParts, HasWays, made};
ghost use Rattle.jls_diff.specs.PartsOf.{bytes_of, part_of, parts_of};

use crate::part::Part;

/// Whether there is a way for each of so many copies.
fn part_has_ways(part: &Part<'_>, count: usize) -> bool
    ensures { IsTrue result → HasWays count (part_of part.now) }
{
    match part {
        Part::Same(_) => true,
        Part::Differ(ways) => ways.len() == count,
    }
}

/// What stands after this prefix, if the bytes begin with it.
fn following<'b>(bytes: &'b [u8], prefix: &[u8]) -> Option<&'b [u8]>
    ensures { IfSome result (λ rest. bytes.now ≡ prefix.now ++ rest.now) }
{
    if bytes.len() < prefix.len() {
        return None;
    }
    let (begin, rest) = bytes.split_at(prefix.len());
    if begin == prefix { Some(rest) } else { None }
}

/// Whether the parts, as this copy has them, make these bytes.
fn makes(parts: &[Part<'_>], copy: usize, bytes: &[u8]) -> bool
    ensures { IsTrue result → made copy (parts_of parts.now) ≡ bytes.now }
{
    let mut rest = bytes;
    for part in parts {
        match following(rest, part.way(copy)) {
            Some(others) => rest = others,
            None => return false,
        }
    }
    rest.is_empty()
}

/// Whether each part has a way for each of so many copies.
fn parts_have_ways(parts: &[Part<'_>], count: usize) -> bool
    ensures { IsTrue result → AllByRecursion (HasWays count) (parts_of parts.now) }
{
    for part in parts {
        if !part_has_ways(part, count) {
            return false;
        }
    }
    true
}

/// Whether the parts make each copy again.
pub(crate) fn are_parts(copies: &[&[u8]], parts: &[Part<'_>]) -> bool
    ensures { IsTrue result → AreParts (bytes_of copies.now) (parts_of parts.now) }
{
    if !parts_have_ways(parts, copies.len()) {
        return false;
    }
    for (copy, bytes) in copies.iter().enumerate() {
        if !makes(parts, copy, bytes) {
            return false;
        }
    }
    true
}
