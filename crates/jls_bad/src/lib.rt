//! Bad places of copies: bytes that are known not to be those that were written.
//!
//! - `place`: a place of a copy
//! - `numbers`, `words`, `lines`: what a line of a list says, from its bytes on
//! - `lists`: the places that a list names (`places_in`)
//! - `marks`: which bytes of a copy are in bad places
//! - `filling`: what is known of a copy's bytes, by itself and by the others that are as long
//! - `choice`: what stands at bytes that no copy as long is known to have. No contract speaks of it
//! - `known`: known copies, which stand for the copies (`known_copies`). Markers stand in them for lost scan data, and a marker
//!   behind that stays
//! - `laws`: what a known copy is where nothing of it is bad
//!
//! Definitions: `ListText` (what a list says), `Known` (what a known copy is), `Copies` (copies as the code holds them).
//!
//! Not proved: what stands in a known copy where no copy as long is known to have a byte, and whether it is cut there.
#![tactic(auto)]

mod choice;
mod filling;
mod known;
mod laws;
mod lines;
mod lists;
mod marks;
mod numbers;
mod place;
mod words;

pub use known::{Listed, known_copies};
pub use laws::known_copies_are_whole;
pub use lines::Line;
pub use lists::{BadLine, places_in};
pub use place::Place;
