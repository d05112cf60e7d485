//! Runs of zeros, as lost sectors leave them.

use std::alloc::{AllocError, Global};

/// How many zeros in a row are taken for lost bytes.
const RUN: usize = 8;

/// How many copies are looked at.
const MOST: usize = 64;

/// A run of zeros in one copy, or one byte that is not zero.
#[derive(Clone, Copy)]
struct Run {
    end: usize,
    is_long: bool,
}

/// In which copies zeros stand, place by place from the start on.
#[derive(Drop)]
pub(crate) struct ZeroRuns {
    runs: Vec<Run>,
}

/// How many zeros these bytes begin with.
fn leading_zeros(bytes: &[u8]) -> usize {
    for (at, byte) in bytes.iter().enumerate() {
        if *byte != 0 {
            return at;
        }
    }
    bytes.len()
}

/// What stands there.
fn run_at(bytes: &[u8], at: usize) -> Run {
    let count = leading_zeros(&bytes[at.min(bytes.len())..]);
    Run {
        end: at.saturating_add(count.max(1)),
        is_long: count >= RUN,
    }
}

impl ZeroRuns {
    /// Nothing is known yet.
    pub(crate) fn new(alloc: Global, copies: usize) -> Result<ZeroRuns, AllocError> {
        let none = Run {
            end: 0,
            is_long: false,
        };
        Ok(ZeroRuns {
            runs: vec![in alloc; none; copies]?,
        })
    }

    /// The copies in which there are zeros, one bit for each; `None` where all have them. Places come in order.
    pub(crate) fn at(&mut self, rests: &[&[u8]], at: usize) -> Option<u64> {
        let mut mask = 0u64;
        let mut others = rests.len() > MOST;
        for (run, rest) in self.runs.iter_mut().zip(rests).take(MOST) {
            if at >= run.end {
                *run = run_at(rest, at);
            }
            mask = mask.wrapping_mul(2);
            if run.is_long {
                mask |= 1;
            } else {
                others = true;
            }
        }
        if others { Some(mask) } else { None }
    }
}
