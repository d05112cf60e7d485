//! The contexts of lossless JPEG-LS coding: modes, predictions, errors, and the cells that learn from them.
//!
//! - `mode`, `prediction`: the mode of a sample, and its prediction
//! - `errors`: errors modulo RANGE, and errors as numbers
//! - `golomb`: k
//! - `regular`, `interruption`: a cell of each kind, and its update
//! - `cells`: the public type over all of them
//! - `laws`: the laws
//!
//! - `Cells` is seen as the record `Variables`: the parameters, the list of cells, and the two cells of run interruption. Contracts read a
//!   cell by `cell_at` and `run_cell_at`, so a layer above needs neither the list nor its length.
//! - `Cells::mode` is `gradient` of three pairs of samples, then `mode_of`. A caller that goes along a line keeps a gradient for the next
//!   column.
//! - k is computed only when a code is written or read. The error maps ask only whether k is 0, which A and N decide.
//! - The type's invariant keeps the ranges of every cell (`AreVariables`). One of them is A at most 2^15 * (N + 1), so k is at most 16 for
//!   every RESET.
//!
//! Definitions: `Mode`, `Prediction`, `Errors`, `Regular`, `Interruption`, `Variables`, `Bounds`. Inside the crate: `BiasSteps`.
#![tactic(auto)]

mod cells;
mod errors;
mod golomb;
mod interruption;
mod laws;
mod mode;
mod prediction;
mod regular;

pub use cells::Cells;
pub use laws::contexts_are_apart;
pub use mode::{Mode, Neighbours};
