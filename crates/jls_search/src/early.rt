//! Readers that are fed what a path makes, until what they were fed is enough.

ghost use Rattle.std.specs.Prelude.{◌≡◌, ◌+◌, ◌-◌, ◌^◌, ◌≤◌, [], true, length, take, Some, IfOk, IfSome};
ghost use Rattle.jls_diff.specs.PartsOf.{parts_of};
ghost use Rattle.jls_search.specs.Choices.{IsPath, prefix_of};
ghost use Rattle.jls_search.specs.Search.{IsFedEnough, IsFedUntil};

use crate::faultless::is_broken;
use jls_copy::WideReader;
use jls_diff::Parts;
use std::alloc::AllocError;

/// How many bytes are fed before it is asked whether they are enough.
const STEP: usize = 4096;

/// Until when a reader is fed.
#[derive(Clone, Copy)]
pub(crate) enum Until {
    /// Until no file without a fault begins with what it was fed.
    Dead,
    /// Until the piece in hand begins at this offset or after it.
    Past(u64),
    /// Until the end of the path: nothing is enough before.
    End,
}

/// Whether what the reader was fed is enough.
fn is_enough(reader: &WideReader, until: Until) -> bool
    ensures { result ≡ true → IfSome reader.now (IsFedEnough until) }
{
    match until {
        Until::Dead => is_broken(reader),
        Until::Past(offset) => reader.is_past(offset),
        Until::End => false,
    }
}

/// Feeds what a choice takes of a part, until what was fed is enough. Then the answer is `true`.
fn feed_until(reader: &mut WideReader, way: &[u8], until: Until) -> Result<bool, AllocError>
    requires { IfSome reader.old (λ before. length before + length way.now ≤ 2 ^ 63 - 1) }
    ensures { IfOk result (λ enough. IsFedUntil (IsFedEnough until) way.now reader.old reader.new enough) }
{
    let mut rest = way;
    while !rest.is_empty() {
        let (slice, later) = rest.split_at(rest.len().min(STEP));
        reader.feed(slice)?;
        rest = later;
        if is_enough(reader, until) {
            return Ok(true);
        }
    }
    Ok(false)
}

/// Feeds what the choices of the path take from this place on, until what was fed is enough. Then the answer is `true`.
pub(crate) fn feed_path_until(
    reader: &mut WideReader,
    parts: &Parts<'_>,
    path: &[usize],
    place: usize,
    until: Until,
) -> Result<bool, AllocError>
    requires within { place ≤ length path.now }
    requires fed { reader.old ≡ Some (prefix_of parts.now (take place path.now)) }
    requires path { IsPath parts.now path.now }
    requires few { length (prefix_of parts.now path.now) ≤ 2 ^ 63 - 1 }
    ensures { IfOk result (λ enough. IsFedUntil (IsFedEnough until) (prefix_of parts.now path.now) (Some []) reader.new enough) }
{
    for at in place..path.len() {
        let enough = feed_until(reader, parts.way(at, path[at]), until)?;
        if enough {
            return Ok(true);
        }
    }
    Ok(false)
}
