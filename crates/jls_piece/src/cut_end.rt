//! What the bytes of a piece give where their end is cut off.

use crate::finished_lines::FinishedLines;
use jls_interval::PieceFault;

/// What the bytes of a piece give if the input ends after them.
#[derive(Drop)]
pub enum PieceCutEnd {
    /// The lines that they read as.
    Whole(FinishedLines),
    /// They read as no lines, for this fault, which is never `OutOfMemory`. The lines are those of their head: in order, row by row
    /// and in a row by component. By line they may end inside a row.
    Head(FinishedLines, PieceFault),
}
