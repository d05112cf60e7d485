//! The data bits of a byte.

ghost use Rattle.std.specs.Prelude.{◌^◌, ◌<◌, ◌≤◌};

/// The data bits of a byte: the low `count` bits of a number.
#[derive(Clone, Copy)]
pub(crate) struct DataBits {
    pub value: u8,
    pub count: u8,
    ghost at_least: { 7 ≤ count },
    ghost at_most: { count ≤ 8 },
    ghost fits: { value < 2 ^ count },
}
