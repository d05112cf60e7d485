//! What is known of a piece of scan data before its first byte.

ghost use Rattle.std.specs.Prelude.{◌*◌, ◌^◌, ◌≤◌};
ghost use Rattle.jls_values.specs.Params.{AreCodingParameters};

use jls_values::Params;

/// What is known of a piece before its first byte. Its lines have `width` samples. They are row by row, and in a row by component.
#[derive(Clone, Copy)]
pub struct PlannedPiece {
    pub params: Params,
    pub width: u16,
    pub components: u8,
    /// The lines of one component.
    pub rows: u32,
    /// Whether the samples of a pixel follow one another (ILV 2, ITU-T T.87, C.2.3). Otherwise the lines of a row do.
    pub by_sample: bool,
    ghost in_range: { AreCodingParameters params },
    ghost width_at_least: { 1 ≤ width },
    ghost components_at_least: { 1 ≤ components },
    ghost components_at_most: { components ≤ 4 },
    ghost rows_at_least: { 1 ≤ rows },
    ghost samples: { width * components * rows ≤ 2 ^ 28 },
}
