//! Copies that mend each other.

ghost use Rattle.jls_c.specs.Copies.{AreCopies, AreLists, listed, parted};
ghost use Rattle.jls_c.specs.Mended.{AreMended, AreMendedLonger, AreNotMended};
ghost use Rattle.jls_mend.specs.Asking.{AreMendable, places_of};
ghost use Rattle.std.specs.Prelude.{◌≡◌, ◌≢◌, [], ◌∷◌, length, map, Contains};

use crate::answer::{BAD_COPIES, BAD_LISTS, DONE, NOT_MENDED, OUT_OF_MEMORY, SHORT_ROOM};
use crate::cause::{JlsMendInfo, refuse_mending};
use crate::copies::{
    JlsBadList, JlsMendOptions, are_copies, are_lists, copies_in, lists_in, options_of,
};
use crate::outputs::put_mended;
use jls_mend::{BadPlaces, mend};
use std::alloc::Global;

/// Mends these copies, and puts what was mended into buffers.
fn mend_into(
    alloc: Global,
    copies: &[&[u8]],
    bad: &[BadPlaces<'_>],
    options: &JlsMendOptions,
    info: &mut JlsMendInfo,
    outputs: &mut [u8],
    output_sizes: &mut [u64],
) -> u32
    requires { AreMendable (map (λ copy. copy.now) copies.now) (map places_of bad.now) }
    ensures answers { Contains (DONE ∷ SHORT_ROOM ∷ NOT_MENDED ∷ OUT_OF_MEMORY ∷ []) result }
    ensures done { result ≡ DONE → AreMended options.now (map (λ copy. copy.now) copies.now) (map places_of bad.now) info.new
        outputs.old outputs.new output_sizes.old output_sizes.new }
    ensures short_room { result ≡ SHORT_ROOM → AreMendedLonger options.now (map (λ copy. copy.now) copies.now) (map places_of bad.now)
        info.new (length outputs.old) (length output_sizes.old) }
    ensures not_mended { result ≡ NOT_MENDED
        → AreNotMended options.now (map (λ copy. copy.now) copies.now) (map places_of bad.now) info.new }
    ensures out_of_memory { result ≡ OUT_OF_MEMORY → info.new ≡ info.old }
    ensures outputs_kept { result ≢ DONE → outputs.new ≡ outputs.old }
    ensures sizes_kept { result ≢ DONE → output_sizes.new ≡ output_sizes.old }
{
    match mend(alloc, copies, bad, &options_of(options)) {
        Ok(mended) => put_mended(alloc, &mended, info, outputs, output_sizes),
        Err(refusal) => refuse_mending(refusal, info),
    }
}

/// Mends copies of one file, as `jls-splice --file FILE OUT 1 2 ..` does, and with `--files ALL` if these are asked for. `bytes` holds the
/// copies one behind the other, and `sizes` says how many bytes each has. `texts` holds lists of bad places so, as `--bad` takes them, and
/// `lists` says of which copy each is, and how many bytes it has.
///
/// At `DONE` `outputs` begins with what the program hands out, one behind the other. These are the partial picture as a text, the mended
/// file, if there is one, and the files that have numbers. Behind them stand the lines that it prints. `output_sizes` begins with the bytes
/// of each output, without the lines. At `SHORT_ROOM` `info` says how much room is needed: `bytes` bytes, and `outputs` sizes.
///
/// `BAD_COPIES` comes if there are fewer than two copies, or with a list none. It comes too if their sizes don't add up to those of
/// `bytes`, or if `tries` is 0. `BAD_LISTS` comes if a list is of no copy, or of one behind 2^32 - 1 others. It comes too if their sizes
/// don't add up to those of `texts`. At `NOT_MENDED` `info` says what stops the program, and at which copy or list. At any answer but
/// `DONE` nothing is written beside `info`, and at `OUT_OF_MEMORY`, `BAD_COPIES` and `BAD_LISTS` nothing at all.
#[unsafe(no_mangle)]
pub extern "C" fn jls_mend(
    alloc: Global,
    bytes: &[u8],
    sizes: &[u64],
    texts: &[u8],
    lists: &[JlsBadList],
    options: &JlsMendOptions,
    info: &mut JlsMendInfo,
    outputs: &mut [u8],
    output_sizes: &mut [u64],
) -> u32
    ensures answers { Contains (DONE ∷ SHORT_ROOM ∷ BAD_COPIES ∷ BAD_LISTS ∷ NOT_MENDED ∷ OUT_OF_MEMORY ∷ []) result }
    ensures done { result ≡ DONE → AreMended options.now (parted sizes.now bytes.now) (listed lists.now texts.now) info.new
        outputs.old outputs.new output_sizes.old output_sizes.new }
    ensures short_room { result ≡ SHORT_ROOM → AreMendedLonger options.now (parted sizes.now bytes.now) (listed lists.now texts.now)
        info.new (length outputs.old) (length output_sizes.old) }
    ensures bad_copies { result ≡ BAD_COPIES → AreCopies options.now sizes.now bytes.now lists.now → ⊥ }
    ensures good_copies { result ≢ BAD_COPIES → AreCopies options.now sizes.now bytes.now lists.now }
    ensures bad_lists { result ≡ BAD_LISTS → AreLists (length sizes.now) lists.now texts.now → ⊥ }
    ensures good_lists { result ≢ BAD_COPIES → result ≢ BAD_LISTS → AreLists (length sizes.now) lists.now texts.now }
    ensures not_mended { result ≡ NOT_MENDED
        → AreNotMended options.now (parted sizes.now bytes.now) (listed lists.now texts.now) info.new }
    ensures out_of_memory { result ≡ OUT_OF_MEMORY → info.new ≡ info.old }
    ensures unreported { result ≡ BAD_COPIES → info.new ≡ info.old }
    ensures lists_unreported { result ≡ BAD_LISTS → info.new ≡ info.old }
    ensures outputs_kept { result ≢ DONE → outputs.new ≡ outputs.old }
    ensures sizes_kept { result ≢ DONE → output_sizes.new ≡ output_sizes.old }
{
    if !are_copies(options, sizes, bytes, lists) {
        return BAD_COPIES;
    }
    if !are_lists(sizes.len(), lists, texts) {
        return BAD_LISTS;
    }
    let Ok(copies) = copies_in(alloc, sizes, bytes) else {
        return OUT_OF_MEMORY;
    };
    let Ok(bad) = lists_in(alloc, lists, texts) else {
        return OUT_OF_MEMORY;
    };
    mend_into(alloc, &copies, &bad, options, info, outputs, output_sizes)
}
