//! What the bytes of an interval give where their end is cut off.

use crate::decode::PixelFault;
use crate::finished_rows::FinishedRows;

/// What the bytes of an interval give if the input ends after them.
#[derive(Drop)]
pub enum PixelCutEnd {
    /// The rows that they read as.
    Whole(FinishedRows),
    /// They read as no rows, for this fault, which is never `OutOfMemory`. The rows are those of their head. A head ends at a whole row,
    /// never inside one.
    Head(FinishedRows, PixelFault),
}
