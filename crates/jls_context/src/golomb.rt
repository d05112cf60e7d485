//! The parameter of Golomb codes.

ghost use Rattle.std.specs.Prelude.{◌≡◌, ◌*◌, ◌^◌, ◌≤◌, ◌==◌};
ghost use Rattle.jls_context.specs.Regular.{IsGolombK};

/// The least k for which N times 2^k is at least A.
pub(crate) fn golomb_k(occurrences: u32, magnitudes: u32) -> u8
    requires some { 1 ≤ occurrences }
    requires few { magnitudes ≤ occurrences * 2 ^ 16 }
    ensures value { result ≡ Rattle.jls_context.specs.Regular.golomb_k occurrences magnitudes }
    ensures least { IsGolombK occurrences magnitudes result }
    ensures at_most { result ≤ 16 }
{
    let order = (magnitudes.max(occurrences).ilog2() - occurrences.ilog2()) as u8;
    order + ((occurrences << order) < magnitudes) as u8
}

/// Whether k is 0, which is so exactly where N is at least A: then k itself isn't computed.
pub(crate) fn is_zero_k(occurrences: u32, magnitudes: u32) -> bool
    ensures { result ≡ (Rattle.jls_context.specs.Regular.golomb_k occurrences magnitudes == 0) }
{
    magnitudes <= occurrences
}
