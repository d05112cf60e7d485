//! The shape of the files taken.

use jls_marker::MarkerFault;
use jls_values::Shape;

/// The shape of the files taken, or why they have none.
#[derive(Drop)]
pub enum ShapeFound {
    /// The shape that is taken.
    Taken(Shape),
    /// Two files without a fault differ in shape: the copy to name, by its number. The first copy's is 0.
    Differ(usize),
    /// No file is without a fault, and no copy has a frame: the fault of the first copy, and its offset.
    NoFrame(MarkerFault, u64),
}
