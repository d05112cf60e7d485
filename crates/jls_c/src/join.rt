//! Two partial pictures as one.

ghost use Rattle.jls_c.specs.PartialAnswers.{IsTextPut, IsTextLonger, AreTexts, IsJoined, IsJoinLonger, AreOfTwoShapes};
ghost use Rattle.jls_c.specs.PartialAnswers.{HasNoPartial, HasNoSecond};
ghost use Rattle.jls_c.specs.Info as reported;
ghost use Rattle.jls_partial.specs.Text.{IsTextOf};
ghost use Rattle.std.specs.Prelude.{◌≡◌, ◌≢◌, ◌≤◌, ◌<◌, [], ◌∷◌, length, Contains, List, ℕ};

use crate::answer::{
    DONE, NO_PARTIAL, NO_SECOND_PARTIAL, OUT_OF_MEMORY, SHAPES_DIFFER, SHORT_ROOM,
};
use crate::info::{JlsInfo, info_of_partial};
use crate::statuses::statuses_of;
use crate::text::{put_text, refuse_text};
use jls_partial::{MergeTextFault, Partial};
use std::alloc::Global;

/// Puts a partial picture into a buffer, and tells of it.
fn put_partial(alloc: Global, partial: &Partial, info: &mut JlsInfo, out: &mut [u8]) -> u32
    ensures known { result ≤ 3 }
    ensures done { result ≡ DONE → IsTextPut partial.now (reported.info_of_partial partial.now) info.new out.old out.new }
    ensures short_room { result ≡ SHORT_ROOM
        → IsTextLonger partial.now (reported.info_of_partial partial.now) info.new (length out.old) }
    ensures answers { result ≢ 2 }
    ensures out_of_memory { result ≡ OUT_OF_MEMORY → info.new ≡ info.old }
    ensures kept { result ≢ DONE → out.new ≡ out.old }
{
    let Ok(statuses) = statuses_of(alloc, partial) else {
        return OUT_OF_MEMORY;
    };
    let reported = info_of_partial(partial, &statuses);
    put_text(alloc, partial, reported, info, out)
}

/// Joins a partial picture, which has the first bytes as its text, and that of the second bytes.
fn join_second(
    alloc: Global,
    first: Partial,
    second: &[u8],
    info: &mut JlsInfo,
    out: &mut [u8],
) -> u32
    ensures known { result ≤ 6 }
    ensures answers { result ≢ 2 }
    ensures both { result ≢ 4 }
    ensures done { result ≡ DONE → (bytes : List ℕ) → IsTextOf bytes first → IsJoined bytes second.now info.new out.old out.new }
    ensures short_room { result ≡ SHORT_ROOM
        → (bytes : List ℕ) → IsTextOf bytes first → IsJoinLonger bytes second.now info.new (length out.old) }
    ensures no_second { result ≡ NO_SECOND_PARTIAL → HasNoPartial second.now info.new }
    ensures shapes_differ { result ≡ SHAPES_DIFFER → (bytes : List ℕ) → IsTextOf bytes first → AreOfTwoShapes bytes second.now }
    ensures out_of_memory { result ≡ OUT_OF_MEMORY → info.new ≡ info.old }
    ensures shape_unreported { result ≡ SHAPES_DIFFER → info.new ≡ info.old }
    ensures kept { result ≢ DONE → out.new ≡ out.old }
{
    let mut partial = first;
    match partial.merge_text(alloc, second) {
        Ok(()) => put_partial(alloc, &partial, info, out),
        Err(MergeTextFault::Text(fault)) => refuse_text(fault, NO_SECOND_PARTIAL, info),
        Err(MergeTextFault::ShapeDiffers) => SHAPES_DIFFER,
    }
}

/// Joins two partial pictures of one shape: writes one that has the readings of both, with their sources. At `DONE` and `SHORT_ROOM`
/// `info` tells of it, and `bytes` is how many bytes it has. At `NO_PARTIAL` and `NO_SECOND_PARTIAL` `info` says why the first or the
/// second is none. At any answer but `DONE` nothing is written beside `info`, and at `OUT_OF_MEMORY` and `SHAPES_DIFFER` nothing at all.
#[unsafe(no_mangle)]
pub extern "C" fn jls_join(
    alloc: Global,
    first: &[u8],
    second: &[u8],
    info: &mut JlsInfo,
    joined: &mut [u8],
) -> u32
    ensures answers { Contains
        (DONE ∷ SHORT_ROOM ∷ NO_PARTIAL ∷ NO_SECOND_PARTIAL ∷ SHAPES_DIFFER ∷ OUT_OF_MEMORY ∷ []) result }
    ensures done { result ≡ DONE → IsJoined first.now second.now info.new joined.old joined.new }
    ensures short_room { result ≡ SHORT_ROOM → IsJoinLonger first.now second.now info.new (length joined.old) }
    ensures no_first { result ≡ NO_PARTIAL → HasNoPartial first.now info.new }
    ensures no_second { result ≡ NO_SECOND_PARTIAL → HasNoSecond first.now second.now info.new }
    ensures shapes_differ { result ≡ SHAPES_DIFFER → AreOfTwoShapes first.now second.now }
    ensures out_of_memory { result ≡ OUT_OF_MEMORY → info.new ≡ info.old }
    ensures shape_unreported { result ≡ SHAPES_DIFFER → info.new ≡ info.old }
    ensures kept { result ≢ DONE → joined.new ≡ joined.old }
{
    match Partial::from_bytes(alloc, first) {
        Ok(partial) => join_second(alloc, partial, second, info, joined),
        Err(fault) => refuse_text(fault, NO_PARTIAL, info),
    }
}
