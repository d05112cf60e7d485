//! Fill bytes.

ghost use Rattle.std.specs.Prelude.{◌≡◌, ℕ, ◌<◌, ◌≤◌, length, slice_index};

/// How many bytes 0xFF stand at the start. Before a marker any number of them is fill (T.81 B.1.1.2).
pub(crate) fn fill_len(bytes: &[u8]) -> usize
    ensures within { result ≤ length bytes.now }
    ensures fill { (k : ℕ) → k < result → slice_index bytes.now k ≡ 0xFF }
{
    for place in 0..bytes.len() {
        if bytes[place] != 0xFF {
            return place;
        }
    }
    bytes.len()
}
