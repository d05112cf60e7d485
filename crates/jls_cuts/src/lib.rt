//! Where copies of one file whose damaged places touch go over from one to another. Such places give one stretch in which copies differ,
//! and no copy has all of it. It is right up to some byte in one copy, and from there on in another.
//!
//! - `feeding`: readers that are fed as long as a file without a fault may begin so
//! - `pace`: how many bytes the last samples of a reader took
//! - `stretch`: a part in which copies differ
//! - `saving`: how many bits fewer the lines of a reader would cost in a code that learns
//! - `change`: where the lines of a copy cease to save bits
//! - `seeking`: searches the bytes near there at which a stretch may be gone over
//! - `going_over`: searches all bytes of a stretch for that, up to where one copy's reader dies
//! - `walk`: goes through all parts, and searches these where no copy has all of a part
//!
//! What is found here are proposals, so no contract speaks of them. Parts that are cut there are tested (`find_cut_parts` of jls_diff), and
//! searched as all others are.
#![tactic(auto)]

mod change;
mod feeding;
mod going_over;
mod pace;
mod saving;
mod seeking;
mod stretch;
mod walk;

pub use walk::find_cuts;
