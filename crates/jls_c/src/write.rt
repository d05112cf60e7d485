//! Writing samples as a JPEG-LS file.

ghost use Rattle.jls_c.specs.Answers.{BeginsWith};
ghost use Rattle.jls_c.specs.Written.{IsWritten, IsFileLonger, HasPlan, HasLargeSample, HasLargeInterval};
ghost use Rattle.std.specs.Prelude.{◌≡◌, ◌<◌, ◌≤◌, ◌≢◌, ◌++◌, [], ◌∷◌, length, Contains};

use crate::answer::{BAD_FRAME, DONE, LARGE_INTERVAL, LARGE_SAMPLE, OUT_OF_MEMORY, SHORT_ROOM};
use crate::frame::{JlsFrame, has_large_interval, has_large_sample, plan};
use jls_write::{FileParts, Picture, jls_file};
use std::alloc::Global;

/// Puts a file into a buffer, and tells how many bytes it has.
fn put_file(found: &FileParts, file: &mut [u8], size: &mut u64) -> u32
    ensures answers { result ≢ DONE → result ≡ SHORT_ROOM }
    ensures size { size.new ≡ length (found.now.front.items ++ found.now.back.items) }
    ensures done { result ≡ DONE
        → (length (found.now.front.items ++ found.now.back.items) ≤ length file.old)
        × BeginsWith (found.now.front.items ++ found.now.back.items) file.old file.new }
    ensures short_room { result ≡ SHORT_ROOM → length file.old < length (found.now.front.items ++ found.now.back.items) }
    ensures kept { result ≢ DONE → file.new ≡ file.old }
{
    let middle = found.front.len();
    let count = middle + found.back.len();
    *size = count as u64;
    if count > file.len() {
        return SHORT_ROOM;
    }
    file[..middle].copy_from_slice(&found.front);
    file[middle..count].copy_from_slice(&found.back);
    DONE
}

/// Writes samples as a JPEG-LS file, with the default parameters of their precision. The samples stand by component, then by line from top
/// to bottom. `size` is how many bytes the file has, also at `SHORT_ROOM`, where nothing else is written. At any other answer but `DONE`
/// nothing is written. Of a bad frame, a large interval and a large sample the first is answered, before any memory is asked for.
/// `OUT_OF_MEMORY` comes where memory is refused; that it comes for no file that could be written is tested, and not proved.
#[unsafe(no_mangle)]
pub extern "C" fn jls_write(
    alloc: Global,
    frame: &JlsFrame,
    samples: &[u16],
    file: &mut [u8],
    size: &mut u64,
) -> u32
    ensures answers { Contains (DONE ∷ SHORT_ROOM ∷ BAD_FRAME ∷ LARGE_SAMPLE ∷ LARGE_INTERVAL ∷ OUT_OF_MEMORY ∷ []) result }
    ensures done { result ≡ DONE → IsWritten frame.now samples.now size.new file.old file.new }
    ensures short_room { result ≡ SHORT_ROOM → IsFileLonger frame.now samples.now size.new (length file.old) }
    ensures bad_frame { result ≡ BAD_FRAME → HasPlan frame.now (length samples.now) → ⊥ }
    ensures good_frame { result ≢ BAD_FRAME → HasPlan frame.now (length samples.now) }
    ensures large_interval { result ≡ LARGE_INTERVAL → HasLargeInterval frame.now }
    ensures small_intervals { result ≢ BAD_FRAME → result ≢ LARGE_INTERVAL → HasLargeInterval frame.now → ⊥ }
    ensures large_sample { result ≡ LARGE_SAMPLE → HasLargeSample frame.now samples.now }
    ensures small_samples { result ≢ BAD_FRAME → result ≢ LARGE_INTERVAL → result ≢ LARGE_SAMPLE
        → HasLargeSample frame.now samples.now → ⊥ }
    ensures size_kept { result ≢ DONE → result ≢ SHORT_ROOM → size.new ≡ size.old }
    ensures kept { result ≢ DONE → file.new ≡ file.old }
{
    let Some((shape, options)) = plan(frame, samples.len()) else {
        return BAD_FRAME;
    };
    if has_large_interval(&shape, &options) {
        return LARGE_INTERVAL;
    }
    if has_large_sample(samples, shape.precision()) {
        return LARGE_SAMPLE;
    }
    let picture = Picture::of_samples(&shape, samples);
    match jls_file(alloc, &picture, &options) {
        Ok(found) => put_file(&found, file, size),
        Err(_) => OUT_OF_MEMORY,
    }
}
