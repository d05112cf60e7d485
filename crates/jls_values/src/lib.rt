//! Values that all crates of the salvager share: shapes, coding parameters, and values that are merged.
//!
//! - `shape`, `params`: `Shape`, seen as the record `PictureShape`. `Params`, seen as `CodingParameters`. Their getters also state the
//!   ranges (`IsShape`, `AreCodingParameters`), so that a crate above learns them from a contract
//! - `merge`: the trait `Merge`, whose laws are the record `JoinLaws`, and `merge_all`
//! - `limits`: the most samples of a restart interval
//! - `source_set`: `SourceSet`, seen as an ordered set of numbers
//!
//! `specs/OrderedSet.antt` is the finite set in a total order. Readings and line sets are seen as such sets. Its laws are in
//! `specs/OrderedSetLaws.antt`, since the laws of `Merge` that implementations state cite them.
#![tactic(auto)]

mod limits;
mod merge;
mod params;
mod shape;
mod source_set;

pub use limits::MOST_SAMPLES;
pub use merge::{Merge, MergeFault, merge_all, same_members_same_join};
pub use params::{ParamFault, Params, equal_params_are_one};
pub use shape::{Shape, ShapeFault, equal_shapes_are_one, has_repeat};
pub use source_set::SourceSet;
