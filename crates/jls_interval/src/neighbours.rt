//! The samples round a column (ITU-T T.87, A.2 and A.3.1).

ghost use Rattle.std.specs.Prelude.{◌≡◌, ◌<◌, get_or, map};
ghost use Rattle.jls_interval.specs.Events.{line_back};

use jls_context::Neighbours;
use std::convert::AsSlice;

/// The sample in a column. Where the line isn't there, or ends before, it is 0.
pub(crate) fn sample_at(line: &[u16], x: usize) -> u16
    ensures { result ≡ get_or line.now x 0 }
{
    match line.get(x) {
        None => 0,
        Some(sample) => *sample,
    }
}

/// The samples round column x of a line of this width, below the two lines of its component. The line
/// itself is read before that column alone.
pub(crate) fn neighbours_at(
    width: usize,
    line_above: &[u16],
    line_two_above: &[u16],
    line: &[u16],
    x: usize,
) -> Neighbours
    requires { x < width }
    ensures { result ≡ Rattle.jls_interval.specs.Events.neighbours width
        (record { line_above = line_above.now; line_two_above = line_two_above.now }) line.now x }
{
    let rb = sample_at(line_above, x);
    let rd = if x + 1 < width {
        sample_at(line_above, x + 1)
    } else {
        rb
    };
    if x == 0 {
        let rc = sample_at(line_two_above, 0);
        Neighbours { ra: rb, rb, rc, rd }
    } else {
        let ra = sample_at(line, x - 1);
        let rc = sample_at(line_above, x - 1);
        Neighbours { ra, rb, rc, rd }
    }
}

/// The line so many places before the end of these lines, or none.
pub(crate) fn line_back<L: AsSlice<u16>>(lines: &[L], back: usize) -> &[u16]
    ensures { result.now ≡ line_back (map L.items lines.now) back }
{
    if lines.len() < back {
        return &[];
    }
    match lines.get(lines.len() - back) {
        None => &[],
        Some(line) => line.as_slice(),
    }
}
