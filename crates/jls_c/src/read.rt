//! Reading a copy into buffers.

ghost use Rattle.jls_c.specs.Answers as answers;
ghost use Rattle.jls_c.specs.Answers.{IsShown, IsRoomShort, IsCopyShown, IsRoomShortForCopy, HasNoPicture};
ghost use Rattle.jls_c.specs.Answers.{IsCopyShownUnder, IsRoomShortForCopyUnder, HasNoPictureUnder};
ghost use Rattle.jls_copy.specs.CopyReads.{CopyReadsUnder, CopyGivesNoneUnder};
ghost use Rattle.std.specs.Prelude.{◌≡◌, ◌≢◌, ◌≤◌, [], ◌∷◌, length, Contains, IfOk, IfErr};

use crate::answer::{DONE, NO_PICTURE, OUT_OF_MEMORY, SHORT_ROOM};
use crate::info::{JlsInfo, info_of, refuse};
use crate::samples::put_samples;
use crate::statuses::statuses_of;
use jls_copy::{CopyFault, CopyRead, ProfileReader};
use jls_marker::Profile;
use std::alloc::Global;

/// The profile of a number that a caller gives: the strict one of 0.
fn profile_of(profile: u32) -> Profile
    ensures { result ≡ answers.profile_of profile }
{
    if profile == 0 {
        Profile::Strict
    } else {
        Profile::Wide
    }
}

/// What a copy gives under a profile that is all there.
pub(crate) fn read_copy(alloc: Global, copy: &[u8], profile: Profile) -> Result<CopyRead, CopyFault>
    ensures read { IfOk result (λ read. CopyReadsUnder profile copy.now read) }
    ensures none { IfErr result (λ fault. CopyGivesNoneUnder profile copy.now fault) }
{
    let mut reader = ProfileReader::new(alloc, profile);
    match reader.feed(copy) {
        Ok(()) => reader.finish(),
        Err(_) => Err(CopyFault::OutOfMemory),
    }
}

/// The same under the profile that a caller asks for.
pub(crate) fn read_copy_under(
    alloc: Global,
    copy: &[u8],
    profile: u32,
) -> Result<CopyRead, CopyFault>
    ensures read { IfOk result (λ read. CopyReadsUnder (answers.profile_of profile) copy.now read) }
    ensures none { IfErr result (λ fault. CopyGivesNoneUnder (answers.profile_of profile) copy.now fault) }
{
    read_copy(alloc, copy, profile_of(profile))
}

/// Shows what was read.
#[tactic(auto, using(crate::proofs::Shown::length_statuses))]
fn show(
    alloc: Global,
    read: &CopyRead,
    info: &mut JlsInfo,
    samples: &mut [u16],
    statuses: &mut [u8],
) -> u32
    ensures answers { result ≢ NO_PICTURE }
    ensures done { result ≡ DONE → IsShown read.now info.new samples.old samples.new statuses.old statuses.new }
    ensures short_room { result ≡ SHORT_ROOM → IsRoomShort read.now info.new (length samples.old) (length statuses.old) }
    ensures out_of_memory { result ≡ OUT_OF_MEMORY → info.new ≡ info.old }
    ensures samples_kept { result ≢ DONE → samples.new ≡ samples.old }
    ensures statuses_kept { result ≢ DONE → statuses.new ≡ statuses.old }
    ensures known { result ≤ 3 }
{
    let Ok(found) = statuses_of(alloc, read.partial()) else {
        return OUT_OF_MEMORY;
    };
    *info = info_of(read, &found);
    let lines = found.len();
    if lines > statuses.len() || info.samples > samples.len() as u64 {
        return SHORT_ROOM;
    }
    let count = info.samples as usize;
    put_samples(read.partial(), &mut samples[..count]);
    statuses[..lines].copy_from_slice(&found);
    DONE
}

/// Reads a copy, which may be damaged. At `DONE` and `SHORT_ROOM` `info` is what the copy says. At `NO_PICTURE` it says why there is none.
/// At `SHORT_ROOM` it says how much room is needed: `samples` numbers of 16 bits, and `lines` bytes. At any answer but `DONE` nothing is
/// written beside `info`, and at `OUT_OF_MEMORY` nothing at all.
#[tactic(auto, using(crate::proofs::Reported::shows, crate::proofs::Reported::refusals))]
#[unsafe(no_mangle)]
pub extern "C" fn jls_read(
    alloc: Global,
    copy: &[u8],
    info: &mut JlsInfo,
    samples: &mut [u16],
    statuses: &mut [u8],
) -> u32
    ensures answers { Contains (DONE ∷ SHORT_ROOM ∷ NO_PICTURE ∷ OUT_OF_MEMORY ∷ []) result }
    ensures done { result ≡ DONE → IsCopyShown copy.now info.new samples.old samples.new statuses.old statuses.new }
    ensures short_room { result ≡ SHORT_ROOM → IsRoomShortForCopy copy.now info.new (length samples.old) (length statuses.old) }
    ensures no_picture { result ≡ NO_PICTURE → HasNoPicture copy.now info.new }
    ensures out_of_memory { result ≡ OUT_OF_MEMORY → info.new ≡ info.old }
    ensures samples_kept { result ≢ DONE → samples.new ≡ samples.old }
    ensures statuses_kept { result ≢ DONE → statuses.new ≡ statuses.old }
{
    match read_copy(alloc, copy, Profile::Strict) {
        Ok(read) => show(alloc, &read, info, samples, statuses),
        Err(fault) => refuse(fault, info),
    }
}

/// Reads a copy as `jls_read` does, under a profile: the strict one where this number is 0, and otherwise the wide one.
#[tactic(auto, using(crate::proofs::Reported::shows, crate::proofs::Reported::refusals))]
#[unsafe(no_mangle)]
pub extern "C" fn jls_read_under(
    alloc: Global,
    copy: &[u8],
    profile: u32,
    info: &mut JlsInfo,
    samples: &mut [u16],
    statuses: &mut [u8],
) -> u32
    ensures answers { Contains (DONE ∷ SHORT_ROOM ∷ NO_PICTURE ∷ OUT_OF_MEMORY ∷ []) result }
    ensures done { result ≡ DONE
        → IsCopyShownUnder (answers.profile_of profile) copy.now info.new samples.old samples.new statuses.old statuses.new }
    ensures short_room { result ≡ SHORT_ROOM → IsRoomShortForCopyUnder (answers.profile_of profile) copy.now info.new
        (length samples.old) (length statuses.old) }
    ensures no_picture { result ≡ NO_PICTURE → HasNoPictureUnder (answers.profile_of profile) copy.now info.new }
    ensures out_of_memory { result ≡ OUT_OF_MEMORY → info.new ≡ info.old }
    ensures samples_kept { result ≢ DONE → samples.new ≡ samples.old }
    ensures statuses_kept { result ≢ DONE → statuses.new ≡ statuses.old }
{
    match read_copy_under(alloc, copy, profile) {
        Ok(read) => show(alloc, &read, info, samples, statuses),
        Err(fault) => refuse(fault, info),
    }
}
