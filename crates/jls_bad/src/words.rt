//! The words of a line.

ghost use Rattle.std.specs.Prelude.{◌≡◌, ◌||◌, ◌&&◌, ◌==◌, nat_le, map, IfOk};
ghost use Rattle.std.specs.List.{before_first, slice_split};
ghost use Rattle.jls_bad.specs.ListText.{is_blank, words};

use std::alloc::{AllocError, Global};

/// Whether a byte separates words.
fn is_space(byte: u8) -> bool
    ensures { result ≡ is_blank byte }
{
    byte == b' ' || matches!(byte, b'\t'..=b'\r')
}

/// What stands before the first `#`.
fn before_comment(line: &[u8]) -> &[u8]
    ensures { result.now ≡ before_first (λ byte. byte == 35) line.now }
{
    for (at, byte) in line.iter().enumerate() {
        if *byte == b'#' {
            return &line[..at];
        }
    }
    line
}

/// The words of a line. `Err` comes if memory is refused.
pub(crate) fn words_of(alloc: Global, line: &[u8]) -> Result<Vec<&[u8]>, AllocError>
    ensures { IfOk result (λ found. map (λ word. word.now) found.items ≡ words line.now) }
{
    before_comment(line)
        .split(|byte| is_space(*byte))
        .filter(|word| !word.is_empty())
        .collect(alloc)
}
