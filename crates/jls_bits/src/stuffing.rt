//! The bit 0 that is stuffed after each byte 0xFF, at the top of the next byte.

ghost use Rattle.std.specs.Prelude.{◌≡◌, ◌≤◌};
ghost use Rattle.jls_bits.specs.Bits;

/// How many data bits a byte that follows `before` carries, in its low bits: 7 or 8.
#[tactic(auto, unfolding(crate::specs::Bits::width_after))]
pub(crate) fn width_after(before: u8) -> u8
    ensures width { result ≡ Bits.width_after before }
    ensures few { result ≤ 8 }
    ensures many { 7 ≤ result }
{
    if before == 0xFF { 7 } else { 8 }
}

/// Whether `next` ends the data after `before`: with its stuffed bit it would be below 0x80.
#[tactic(auto, unfolding(crate::specs::Bits::ends_data))]
pub(crate) fn ends_data(before: u8, next: u8) -> bool
    ensures { result ≡ Bits.ends_data before next }
{
    before == 0xFF && next >= 0x80
}
