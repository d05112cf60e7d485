//! Names of files, in buffers of fixed size.

ghost use Rattle.std.specs.Prelude.{◌≡◌, ◌++◌, ◌<◌, codes, decimal, length, IfSome, IfNone};

use arrayvec::ArrayString;
use itoa::Buffer;

/// The most bytes of a name. Linux has no longer path.
const MOST_BYTES: usize = 4096;

/// The name of a file, of at most 4,096 bytes.
pub type Name = ArrayString<MOST_BYTES>;

/// The name of a file beside an output: the output's name, then `.jls-salvage-` and this number. `None` if that is longer than 4,096
/// bytes.
pub fn name_beside(name: &str, number: u32) -> Option<Name>
    ensures named { IfSome result (λ n. n.bytes ≡ name.now ++ (codes ".jls-salvage-" ++ decimal number)) }
    ensures too_long { IfNone result (4096 < length (name.now ++ (codes ".jls-salvage-" ++ decimal number))) }
{
    let mut beside = Name::new();
    let mut buffer = Buffer::new();
    let digits = buffer.format(number);
    let Ok(()) = beside.try_push_str(name) else {
        return None;
    };
    let Ok(()) = beside.try_push_str(".jls-salvage-") else {
        return None;
    };
    let Ok(()) = beside.try_push_str(digits) else {
        return None;
    };
    Some(beside)
}

/// The name under which an older file is kept: the output's name, then `~`. `None` if that is longer than 4,096 bytes.
pub fn name_kept(name: &str) -> Option<Name>
    ensures named { IfSome result (λ n. n.bytes ≡ name.now ++ codes "~") }
    ensures too_long { IfNone result (4096 < length (name.now ++ codes "~")) }
{
    let mut kept = Name::new();
    let Ok(()) = kept.try_push_str(name) else {
        return None;
    };
    let Ok(()) = kept.try_push_str("~") else {
        return None;
    };
    Some(kept)
}
