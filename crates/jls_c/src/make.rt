//! A copy as a partial picture.

ghost use Rattle.jls_c.specs.Answers as answers;
ghost use Rattle.jls_c.specs.Answers.{HasNoPicture, HasNoPictureUnder};
ghost use Rattle.jls_c.specs.PartialAnswers.{IsTextPut, IsTextLonger, IsPartialMade, IsPartialLonger};
ghost use Rattle.jls_c.specs.PartialAnswers.{IsPartialMadeUnder, IsPartialLongerUnder};
ghost use Rattle.jls_c.specs.Info as reported;
ghost use Rattle.jls_partial.specs.Partial.{with_source};
ghost use Rattle.std.specs.Prelude.{◌≡◌, ◌≢◌, ◌≤◌, [], ◌∷◌, length, Contains};

use crate::answer::{DONE, NO_PICTURE, OUT_OF_MEMORY, SHORT_ROOM};
use crate::info::{JlsInfo, info_of, refuse};
use crate::read::{read_copy, read_copy_under};
use crate::statuses::statuses_of;
use crate::text::put_text;
use jls_copy::CopyRead;
use jls_marker::Profile;
use std::alloc::Global;

/// Puts what was read, each reading with this source, into a buffer.
fn put_read(alloc: Global, read: CopyRead, source: u32, info: &mut JlsInfo, out: &mut [u8]) -> u32
    ensures known { result ≤ 3 }
    ensures done { result ≡ DONE → IsTextPut (with_source read.partial source) (reported.info_of read) info.new out.old out.new }
    ensures short_room { result ≡ SHORT_ROOM
        → IsTextLonger (with_source read.partial source) (reported.info_of read) info.new (length out.old) }
    ensures answers { result ≢ NO_PICTURE }
    ensures out_of_memory { result ≡ OUT_OF_MEMORY → info.new ≡ info.old }
    ensures kept { result ≢ DONE → out.new ≡ out.old }
{
    let Ok(statuses) = statuses_of(alloc, read.partial()) else {
        return OUT_OF_MEMORY;
    };
    let reported = info_of(&read, &statuses);
    let mut partial = read.into_partial();
    let Ok(()) = partial.mark(source) else {
        return OUT_OF_MEMORY;
    };
    put_text(alloc, &partial, reported, info, out)
}

/// Reads a copy, which may be damaged, and writes what it gives as a partial picture, each of its readings with this source. At `DONE`
/// and `SHORT_ROOM` `info` is what the copy says, and `bytes` how many bytes the partial picture has. At `NO_PICTURE` it says why there
/// is none. At any answer but `DONE` nothing is written beside `info`, and at `OUT_OF_MEMORY` nothing at all.
#[tactic(auto, using(crate::proofs::Reported::makes, crate::proofs::Reported::refusals, crate::proofs::Known::of_read))]
#[unsafe(no_mangle)]
pub extern "C" fn jls_partial(
    alloc: Global,
    copy: &[u8],
    source: u32,
    info: &mut JlsInfo,
    partial: &mut [u8],
) -> u32
    ensures answers { Contains (DONE ∷ SHORT_ROOM ∷ NO_PICTURE ∷ OUT_OF_MEMORY ∷ []) result }
    ensures done { result ≡ DONE → IsPartialMade copy.now source info.new partial.old partial.new }
    ensures short_room { result ≡ SHORT_ROOM → IsPartialLonger copy.now source info.new (length partial.old) }
    ensures no_picture { result ≡ NO_PICTURE → HasNoPicture copy.now info.new }
    ensures out_of_memory { result ≡ OUT_OF_MEMORY → info.new ≡ info.old }
    ensures kept { result ≢ DONE → partial.new ≡ partial.old }
{
    match read_copy(alloc, copy, Profile::Strict) {
        Ok(read) => put_read(alloc, read, source, info, partial),
        Err(fault) => refuse(fault, info),
    }
}

/// Writes what `jls_partial` writes, under a profile: the strict one where this number is 0, and otherwise the wide one.
#[tactic(auto, using(crate::proofs::Reported::makes, crate::proofs::Reported::refusals, crate::proofs::Known::of_read))]
#[unsafe(no_mangle)]
pub extern "C" fn jls_partial_under(
    alloc: Global,
    copy: &[u8],
    profile: u32,
    source: u32,
    info: &mut JlsInfo,
    partial: &mut [u8],
) -> u32
    ensures answers { Contains (DONE ∷ SHORT_ROOM ∷ NO_PICTURE ∷ OUT_OF_MEMORY ∷ []) result }
    ensures done { result ≡ DONE
        → IsPartialMadeUnder (answers.profile_of profile) copy.now source info.new partial.old partial.new }
    ensures short_room { result ≡ SHORT_ROOM
        → IsPartialLongerUnder (answers.profile_of profile) copy.now source info.new (length partial.old) }
    ensures no_picture { result ≡ NO_PICTURE → HasNoPictureUnder (answers.profile_of profile) copy.now info.new }
    ensures out_of_memory { result ≡ OUT_OF_MEMORY → info.new ≡ info.old }
    ensures kept { result ≢ DONE → partial.new ≡ partial.old }
{
    match read_copy_under(alloc, copy, profile) {
        Ok(read) => put_read(alloc, read, source, info, partial),
        Err(fault) => refuse(fault, info),
    }
}
