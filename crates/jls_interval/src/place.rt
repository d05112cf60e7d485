//! Where a line stands in its interval.

ghost use Rattle.std.specs.Prelude.{◌≡◌, ℕ, ◌+◌, ◌*◌, ◌%◌, ◌^◌, ◌<◌, ◌≤◌, List, [], ◌∷◌, ◌++◌, length, map};
ghost use Rattle.jls_interval.specs.Events.{above, neighbours};

use crate::neighbours::{line_back, neighbours_at, sample_at};
use jls_context::Neighbours;
use std::convert::AsSlice;

/// Where a line stands in its interval: its component, and the two lines of the component above it. One
/// that isn't there is empty.
#[derive(Drop)]
pub(crate) struct Place<'a> {
    pub component: usize,
    pub line_above: &'a [u16],
    pub line_two_above: &'a [u16],
    ghost component_below: { component < 4 },
}

impl<'a> Place<'a> {
    ghost use Rattle.jls_interval.specs.Place.{above_of};

    /// The place of the line that follows these lines, where so many components take turns.
    pub(crate) fn after<L: AsSlice<u16>>(lines: &'a [L], components: usize) -> Place<'a>
        requires at_least { 1 ≤ components }
        requires at_most { components ≤ 4 }
        ensures component { result.component ≡ length lines.now % components }
        ensures above { above_of result ≡ above components (map L.items lines.now) }
    {
        Place {
            component: if components == 1 {
                0
            } else {
                lines.len() % components
            },
            line_above: line_back(lines, components),
            line_two_above: line_back(lines, 2 * components),
        }
    }

    /// The samples round column x of the line here, which has this width and begins with these samples.
    pub(crate) fn neighbours(&self, width: usize, line: &[u16], x: usize) -> Neighbours
        requires { x < width }
        ensures { result ≡ neighbours width (above_of self.now) line.now x }
    {
        neighbours_at(width, self.line_above, self.line_two_above, line, x)
    }

    /// The samples round the column after column x, which has these samples round it, and this value.
    #[inline(always)]
    pub(crate) fn neighbours_after(&self, near: Neighbours, value: u16, x: usize) -> Neighbours
        requires { x < 2 ^ 16 }
        ensures rolled { (result.rb ≡ near.rd) × (result.rc ≡ near.rb) }
        ensures following { (width : ℕ) (line : List ℕ) → x ≡ length line → near ≡ neighbours width (above_of self.now) line x
            → x + 2 < width → result ≡ neighbours width (above_of self.now) (line ++ value ∷ []) (x + 1) }
    {
        Neighbours {
            ra: value,
            rb: near.rd,
            rc: near.rb,
            rd: sample_at(self.line_above, x + 2),
        }
    }
}
