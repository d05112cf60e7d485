//! What the bytes of an interval give where their end is cut off.

use crate::decode_piece::PieceFault;
use crate::finished_lines::FinishedLines;

/// What the bytes of an interval give if the input ends after them.
#[derive(Drop)]
pub enum CutEnd {
    /// The lines that they read as.
    Whole(FinishedLines),
    /// They read as no lines, for this fault, which is never `OutOfMemory`. The lines are those of their head: in order, row by row and in
    /// a row by component. So they may end inside a row.
    Head(FinishedLines, PieceFault),
}
