//! Two damaged copies in memory, mended by a call, also with lists of bad places.

use crate::met::{Met, Stopped, Tally};
use crate::pairs::{Which, pair_of};
use crate::splicing::{FOUR_BACK, lines_of};
use jls_cli::Cause;
use jls_memory::Output;
use jls_mend::{BadPlaces, MendOptions, Mended, are_mendable, mend};
use std::alloc::Global;
use std::process::Abort;

/// What the names and the bytes of the outputs are.
fn holds(output: &Output, name: &str, bytes: &[u8]) -> bool {
    output.name.as_str() == name && *output.bytes == *bytes
}

/// Whether the four lines were handed out, then the file, and the file under its number.
fn is_whole(mended: &Mended, text: &[u8], file: &[u8]) -> bool {
    match mended.outputs.as_slice() {
        [first, second, third] => {
            mended.is_promised
                && mended.is_whole
                && holds(first, "OUT", text)
                && holds(second, "FILE", file)
                && holds(third, "ALL-1", file)
        }
        _ => false,
    }
}

/// Whether a mending stops for this where memory is refused.
fn is_want_of_memory(cause: Cause) -> bool {
    matches!(
        cause,
        Cause::OutOfMemory
            | Cause::NotCreated
            | Cause::NotWritten(_)
            | Cause::FileNotCreated(_)
            | Cause::FileNotWritten(_, _)
    )
}

fn mend_pair(rt: &impl Abort, alloc: Global, lists: &[BadPlaces<'_>]) -> Result<Met, Stopped> {
    let pair = pair_of(alloc, Which::Mended)?;
    let text = lines_of(alloc, &FOUR_BACK)?.to_bytes(alloc)?;
    let copies: [&[u8]; 2] = [&pair.first, &pair.second];
    let options = MendOptions {
        source: None,
        tries: 4096,
        ceiling: None,
        files: true,
    };
    assert!(rt; are_mendable(&copies, lists));
    match mend(alloc, &copies, lists, &options) {
        Ok(mended) => {
            assert!(rt; is_whole(&mended, &text, &pair.file));
            Ok(Met::Done)
        }
        Err(refusal) => {
            assert!(rt; is_want_of_memory(refusal.cause));
            Ok(Met::Refused)
        }
    }
}

#[test]
fn mend_copies(rt: HostRuntime) {
    let mut tally = Tally::of("mend");
    tally.note(&rt, mend_pair(&rt, rt.alloc(), &[]));
    assert!(&rt; tally.is_single());
}

/// Lists that name no place: what comes of the copies is the same.
#[test]
fn mend_copies_with_lists(rt: HostRuntime) {
    let lists = [
        BadPlaces {
            copy: 0,
            text: b"# nothing is bad\n",
        },
        BadPlaces { copy: 1, text: b"" },
    ];
    let mut tally = Tally::of("mend with lists");
    tally.note(&rt, mend_pair(&rt, rt.alloc(), &lists));
    assert!(&rt; tally.is_single());
}
