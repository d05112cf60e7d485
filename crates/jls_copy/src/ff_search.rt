//! The search for a byte 0xFF, sixteen bytes at a time.

ghost use Rattle.std.specs.Prelude.{◌≡◌, ◌≢◌, ℕ, ◌+◌, ◌<◌, ◌≤◌, not, ◌==◌, length, slice_index};
ghost use Rattle.std.specs.Simd.Lanes.{chunk};
ghost use Rattle.std.specs.List.{prefix_len};

use std::simd::prelude::*;

/// How many bytes are looked at at once.
const LANES: usize = 16;

/// How many of the sixteen bytes from `at` on come before the first 0xFF among them; sixteen where there is none.
fn count_before_ff(bytes: &[u8], at: usize) -> usize
    requires { at + 16 ≤ length bytes.now }
    ensures { result ≡ prefix_len (λ b. not (b == 0xFF)) (chunk at 16 bytes.now) }
{
    let hits = u8x16::from_slice(&bytes[at..])
        .simd_eq(u8x16::splat(0xFF))
        .to_bitmask();
    if hits == 0 {
        LANES
    } else {
        hits.trailing_zeros() as usize
    }
}

/// The first place of a byte 0xFF, not before `from`, byte by byte: for the bytes after the last sixteen. The length where there is none.
fn next_ff_one_by_one(bytes: &[u8], from: usize) -> usize
    requires { from ≤ length bytes.now }
    ensures within { (from ≤ result) × (result ≤ length bytes.now) }
    ensures passed { (k : ℕ) → from ≤ k → k < result → slice_index bytes.now k ≢ 0xFF }
    ensures found { result < length bytes.now → slice_index bytes.now result ≡ 0xFF }
{
    for place in from..bytes.len() {
        if bytes[place] == 0xFF {
            return place;
        }
    }
    bytes.len()
}

/// The first place of a byte 0xFF, not before `from`; the length where there is none.
pub(crate) fn next_ff(bytes: &[u8], from: usize) -> usize
    requires { from ≤ length bytes.now }
    ensures within { (from ≤ result) × (result ≤ length bytes.now) }
    ensures passed { (k : ℕ) → from ≤ k → k < result → slice_index bytes.now k ≢ 0xFF }
    ensures found { result < length bytes.now → slice_index bytes.now result ≡ 0xFF }
{
    let mut at = from;
    while LANES <= bytes.len() - at {
        let before = count_before_ff(bytes, at);
        if before < LANES {
            return at + before;
        }
        at += LANES;
    }
    next_ff_one_by_one(bytes, at)
}
