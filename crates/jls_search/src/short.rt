//! Whether copies are short enough to be spliced.

ghost use Rattle.std.specs.Prelude.{◌↔◌, IsTrue};
ghost use Rattle.jls_diff.specs.PartsOf.{bytes_of};
ghost use Rattle.jls_search.specs.SearchLaws.{AreShort};

/// How many bytes a reader of copies takes at most.
const MOST_BYTES: usize = 0x7FFF_FFFF_FFFF_FFFF;

/// Whether some copies have 2^63 - 1 bytes together at most, so that a reader takes any splice of them (`parts_can_be_searched`).
pub fn are_short(copies: &[&[u8]]) -> bool
    ensures { IsTrue result ↔ AreShort (bytes_of copies.now) }
{
    let mut count = 0;
    for copy in copies {
        if copy.len() > MOST_BYTES - count {
            return false;
        }
        count += copy.len();
    }
    true
}
