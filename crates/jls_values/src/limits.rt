//! Limits of this project.

/// The most samples of a restart interval, in all its lines together. It bounds what a decoder holds at once.
pub const MOST_SAMPLES: u64 = 1 << 28;
