//! Which lines can be written as one interval.

ghost use Rattle.std.specs.Prelude.{◌↔◌, IsTrue, map};
ghost use Rattle.std.specs.List.{AllByRecursion};
ghost use Rattle.jls_interval.specs.Lines.{IsLine};
ghost use Rattle.jls_interval.specs.Fits.{FitsInterval};

use jls_values::{MOST_SAMPLES, Params};

fn is_line(params: &Params, width: u16, line: &[u16]) -> bool
    ensures { IsTrue result ↔ IsLine params.now width line.now }
{
    line.len() == usize::from(width) && line.iter().all(|&sample| sample <= params.maxval())
}

fn are_lines(params: &Params, width: u16, lines: &[&[u16]]) -> bool
    ensures { IsTrue result ↔ AllByRecursion (IsLine params.now width) (map (λ l. l.now) lines.now) }
{
    for line in lines {
        if !is_line(params, width, line) {
            return false;
        }
    }
    true
}

/// Whether these lines can be written as one interval. They stand row by row, and in a row by component (ITU-T T.87, B.2). The width is
/// that of a line in samples. The width is at least 1, there are 1 to 4 components, and the number of lines is a positive multiple of that.
/// Each line has `width` samples of at most MAXVAL. There are at most 2^28 samples in all, which is this project's bound.
pub fn fits(params: &Params, width: u16, components: u8, lines: &[&[u16]]) -> bool
    ensures { IsTrue result ↔ FitsInterval params.now width components (map (λ l. l.now) lines.now) }
{
    width >= 1
        && (1..=4).contains(&components)
        && !lines.is_empty()
        && lines.len() % usize::from(components) == 0
        && lines.len() <= MOST_SAMPLES as usize / usize::from(width)
        && are_lines(params, width, lines)
}
