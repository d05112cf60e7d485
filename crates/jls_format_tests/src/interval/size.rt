//! How large an interval is.

ghost use Rattle.std.specs.Prelude.{◌*◌, ◌^◌, ◌≤◌};

use jls_interval::*;
use jls_values::Params;
use std::alloc::Global;
use std::marker::Model;

/// The samples in a line, the components that take turns, and the rows of an interval that a decoder takes.
#[derive(Drop)]
pub(super) struct Size {
    pub(super) width: u16,
    pub(super) components: u8,
    rows: u32,
}

impl Model for Size {
    ghost use Rattle.std.specs.Prelude.{◌*◌, ◌^◌, ◌≤◌, ℕ};

    ghost Value = { ℕ × ℕ × ℕ };

    ghost view = { λ s. (s.width, s.components, s.rows) };

    ghost invariant = { λ s. (1 ≤ s.width) × (1 ≤ s.components) × (s.components ≤ 4) × (1 ≤ s.rows)
        × (s.width * s.components * s.rows ≤ 2 ^ 28) };
}

impl Size {
    /// An interval that a decoder takes has at least a line, one to four components, and at most 2^28 samples.
    pub(super) fn new(width: u16, components: u8, rows: u32) -> Size
        requires width { 1 ≤ width }
        requires components_at_least { 1 ≤ components }
        requires components_at_most { components ≤ 4 }
        requires rows { 1 ≤ rows }
        requires samples { width * components * rows ≤ 2 ^ 28 }
    {
        Size {
            width,
            components,
            rows,
        }
    }

    /// A decoder of no byte, for an interval of this size.
    pub(super) fn decoder(&self, alloc: Global, params: &Params) -> IntervalDecoder {
        IntervalDecoder::new(alloc, params, self.width, self.components, self.rows)
    }

    /// What a whole piece of an interval of this size reads as.
    pub(super) fn decoded(
        &self,
        alloc: Global,
        params: &Params,
        piece: &[u8],
    ) -> Result<Vec<Vec<u16>>, PieceFault> {
        decode_interval(alloc, params, self.width, self.components, self.rows, piece)
    }
}
