//! Splices and their prefixes, fed to a reader of copies.

ghost use Rattle.std.specs.Prelude.{◌≡◌, ℕ, ◌+◌, ◌-◌, ◌^◌, ◌<◌, ◌≤◌, ◌⊎◌, [], length, get_or, Some, None};
ghost use Rattle.std.specs.Prelude.{IfOk, OnOk, OnErr, IfSome, IsSome};
ghost use Rattle.std.specs.List.{AllByRecursion};
ghost use Rattle.jls_copy.specs.ReadCopy.{after};
ghost use Rattle.jls_diff.specs.PartsOf.{part_of, parts_of};
ghost use Rattle.jls_diff.specs.Parts.{Same, way};
ghost use Rattle.jls_search.specs.Choices.{IsFirstWay, IsPath, prefix_of};

use jls_copy::WideReader;
use jls_diff::Parts;
use std::alloc::{AllocError, Global};

/// How many bytes a reader takes at most.
const MOST_BYTES: u64 = 0x7FFF_FFFF_FFFF_FFFF;

/// Feeds a reader any bytes. `Err` comes where memory is or was refused, and where it would be fed more than 2^63 - 1 bytes in all. In
/// the latter case it is fed nothing.
pub fn feed_any(reader: &mut WideReader, bytes: &[u8]) -> Result<(), AllocError>
    ensures fed { OnOk result (reader.new ≡ after reader.old bytes.now) }
    ensures not_refused { OnOk result (IsSome reader.old) }
    ensures err { OnErr result ((reader.new ≡ None) ⊎ ((reader.new ≡ reader.old)
        × IfSome reader.old (λ before. 2 ^ 63 - 1 < length before + length bytes.now))) }
{
    let fed = reader.fed();
    if fed > MOST_BYTES || bytes.len() as u64 > MOST_BYTES - fed {
        return Err(AllocError);
    }
    reader.feed(bytes)
}

/// Feeds what a choice takes of a part.
pub(crate) fn feed_way(reader: &mut WideReader, way: &[u8]) -> Result<(), AllocError>
    requires { IfSome reader.old (λ before. length before + length way.now ≤ 2 ^ 63 - 1) }
    ensures fed { OnOk result (reader.new ≡ after reader.old way.now) }
    ensures bytes { OnOk result (AllByRecursion (λ b. b < 256) way.now) }
    ensures err { OnErr result (reader.new ≡ None) }
{
    reader.feed(way)
}

/// Feeds what the choices make of the first parts, part by part, as slices of the copies. If there is a choice for each part, that is a
/// whole splice. No memory is taken for it. Where the reader refuses memory, it refuses all further bytes.
pub(crate) fn feed_prefix(
    reader: &mut WideReader,
    parts: &Parts<'_>,
    choices: &[usize],
) -> Result<(), AllocError>
    requires path { IsPath parts.now choices.now }
    requires few { IfSome reader.old
        (λ bytes. length bytes + length (prefix_of parts.now choices.now) ≤ 2 ^ 63 - 1) }
    ensures fed { OnOk result (reader.new ≡ after reader.old (prefix_of parts.now choices.now)) }
    ensures bytes { OnOk result (AllByRecursion (λ b. b < 256) (prefix_of parts.now choices.now)) }
    ensures err { OnErr result (reader.new ≡ None) }
{
    for place in 0..choices.len() {
        feed_way(reader, parts.way(place, choices[place]))?;
    }
    Ok(())
}

/// A reader that was fed what the path makes.
pub fn reader_of(alloc: Global, parts: &Parts<'_>, path: &[usize]) -> Result<WideReader, AllocError>
    requires path { IsPath parts.now path.now }
    requires few { length (prefix_of parts.now path.now) ≤ 2 ^ 63 - 1 }
    ensures { IfOk result (λ reader. reader ≡ Some (prefix_of parts.now path.now)) }
{
    let mut reader = WideReader::new(alloc);
    feed_prefix(&mut reader, parts, path)?;
    Ok(reader)
}
