//! Why a reading is not taken.

ghost use Rattle.jls_partial.specs.InsertFaults.{reading_fault, samples_fault};
ghost use Rattle.std.specs.List.{list_any};
ghost use Rattle.std.specs.Prelude.{◌≡◌, ◌≤◌, ◌^◌, nat_le};
ghost use Rattle.jls_partial.specs.declared.insert_fault.InsertFault.TheVariants.{OutOfMemory};

use jls_values::Shape;
use std::alloc::{AllocError, AllocFailed};
use thiserror::Error;

/// Why a reading is not taken, in the order in which it is judged.
#[derive(Clone, Copy, Debug, PartialEq, Eq, Error)]
pub enum InsertFault {
    /// The picture has no component of that index.
    #[error("there is no such component")]
    Component,
    /// The component has no line of that number.
    #[error("there is no such line")]
    Line,
    /// The number of samples is not the width.
    #[error("the line has another width")]
    Width,
    /// A sample has more bits than the precision.
    #[error("a sample is too large")]
    Sample,
    /// The reading is new, and there is no memory for it.
    #[error("out of memory")]
    OutOfMemory,
}

impl From<AllocError> for InsertFault {
    ghost from_gives = { λ _ e. e ≡ OutOfMemory };

    fn from(_e: AllocError) -> InsertFault {
        InsertFault::OutOfMemory
    }
}

impl<T: Drop> From<AllocFailed<T>> for InsertFault {
    ghost from_gives = { λ _ e. e ≡ OutOfMemory };

    fn from(_e: AllocFailed<T>) -> InsertFault {
        InsertFault::OutOfMemory
    }
}

/// Whether a sample has more bits than the precision. One has exactly if the OR of all samples does. Each sample is looked at, so that the
/// machine can take several at once.
#[tactic(auto, using(crate::proofs::LargeSamples::large_none))]
fn has_large_sample(samples: &[u16], precision: u8) -> bool
    requires { precision ≤ 16 }
    ensures { result ≡ list_any (λ x. nat_le (2 ^ precision) x) samples.now }
{
    let limit = 2u32.pow(precision as u32);
    let mut union = 0u16;
    for x in samples {
        union |= *x;
    }
    limit <= union as u32
}

/// What is wrong with the samples of a line, in a picture of this precision and width.
pub(crate) fn find_samples_fault(samples: &[u16], precision: u8, width: u16) -> Option<InsertFault>
    requires { precision ≤ 16 }
    ensures { result ≡ samples_fault precision width samples.now }
{
    if samples.len() != width as usize {
        return Some(InsertFault::Width);
    }
    if has_large_sample(samples, precision) {
        return Some(InsertFault::Sample);
    }
    None
}

/// What is wrong with a reading, in a picture of this shape.
pub(crate) fn find_reading_fault(
    shape: &Shape,
    component: u8,
    line: u16,
    samples: &[u16],
) -> Option<InsertFault>
    ensures { result ≡ reading_fault shape.now component line samples.now }
{
    if shape.ids().len() <= component as usize {
        return Some(InsertFault::Component);
    }
    if shape.height() <= line {
        return Some(InsertFault::Line);
    }
    find_samples_fault(samples, shape.precision(), shape.width())
}
