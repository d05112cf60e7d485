//! Where scan data can be cut.

ghost use Rattle.std.specs.Prelude.{◌≡◌, ℕ, ◌≤◌, ◌<◌, IfSome, IfNone, take, length, slice_index};
ghost use Rattle.jls_copy.specs.Stretch.{IsStretch};
ghost use Rattle.jls_copy.specs.ScanData.{IsCutPlace};

use crate::ff_search::next_ff;

/// The first place, not before `from`, of a byte 0xFF that a byte of 0x80 or more follows; `None` where there is none. Stuffed
/// data bits hold no such pair (T.87 A.1), so a marker can only stand there, though not each such pair cuts
/// scan data.
pub fn next_cut(bytes: &[u8], from: usize) -> Option<usize>
    ensures found { IfSome result (λ place. (from ≤ place) × IsCutPlace bytes.now place) }
    ensures first { IfSome result (λ place. (other : ℕ) → from ≤ other → other < place → ¬ IsCutPlace bytes.now other) }
    ensures none { IfNone result ((other : ℕ) → from ≤ other → ¬ IsCutPlace bytes.now other) }
{
    let mut at = from;
    while at < bytes.len() {
        let place = next_ff(bytes, at);
        if bytes.len() - place < 2 {
            return None;
        }
        if bytes[place + 1] >= 0x80 {
            return Some(place);
        }
        at = place + 1;
    }
    None
}

/// How many bytes stand before the first place of `next_cut`: all, where there is none.
fn uncut_len(bytes: &[u8]) -> usize
    ensures within { result ≤ length bytes.now }
    ensures uncut { (place : ℕ) → place < result → ¬ IsCutPlace bytes.now place }
    ensures cut { result < length bytes.now → IsCutPlace bytes.now result }
{
    match next_cut(bytes, 0) {
        Some(place) => place,
        None => bytes.len(),
    }
}

/// How many bytes at the start can be fed to a piece at once. They are those before the first place of `next_cut`. A byte 0xFF that ends
/// them is left out, as the byte after it is not known yet. If there are none, the first byte is 0xFF.
pub(crate) fn stretch_len(bytes: &[u8]) -> usize
    ensures within { result ≤ length bytes.now }
    ensures stretch { IsStretch (take result bytes.now) }
    ensures ff { result ≡ 0 → 0 < length bytes.now → slice_index bytes.now 0 ≡ 0xFF }
{
    let end = uncut_len(bytes);
    if end > 0 && bytes[end - 1] == 0xFF {
        end - 1
    } else {
        end
    }
}
