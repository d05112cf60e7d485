//! Where copies of one file differ: the parts that all have alike or in which they differ, and groups of parts between two markers.
//!
//! - `part`, `parts`: a part: bytes that all copies have, or what each copy has there; all of them
//! - `find`: answers the parts of some copies (`find_parts`), finer ones (`find_finer_parts`), those cut at given offsets
//!   (`find_cut_parts`), and one part over all (`one_part`)
//! - `propose`: searches for parts. It goes from a stretch where copies differ to the next: `stretches`, `lengths`, `inside`, `merging`.
//!   `steps` compares copies without a shift, `seeds` with one, and `zeros` finds lost sectors. No contract speaks of these modules
//! - `finer`: cuts parts at bytes, at sectors and at given offsets, for places that touch. No contract speaks of it either
//! - `checking`: tests what they propose. If the test fails, `find` takes all of the copies as one part
//! - `laws`: the laws of splices
//! - `border`: places after a marker, SOS or a restart marker, that all copies have alike
//! - `group`: the parts between two such places, and the parts of the file's headers
//! - `grouping`: the groups of some parts
//!
//! Definitions: `Parts`, `PartsOf` (the slices that the code holds, as bytes), `SpliceLaws`, `Borders`, `Groups`.
//!
//! Not proved:
//!
//! - That parts are small or few, since one part over everything is allowed. Nor that no copies have no parts. Tests show which parts are
//!   found (`crates/jls_splice_tests/src/parts.rt`).
//! - That each border is found.
#![tactic(auto)]

mod border;
mod checking;
mod find;
mod finer;
mod group;
mod grouping;
mod inside;
mod laws;
mod lengths;
mod merging;
mod part;
mod parts;
mod propose;
mod seeds;
mod steps;
mod stretches;
mod zeros;

pub use border::Border;
pub use find::{find_cut_parts, find_finer_parts, find_parts, one_part};
pub use group::Group;
pub use grouping::find_groups;
pub use laws::{choices_make_splices, copies_are_splices, splices_are_listed};
pub use part::Part;
pub use parts::Parts;
