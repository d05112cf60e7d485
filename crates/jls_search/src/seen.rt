//! What is seen of a file before a shape is taken, and the verdict on each file.

ghost use Rattle.std.specs.Prelude.{◌≡◌, List, ℕ, map, IfOk};
ghost use Rattle.jls_copy.specs.CopyReads.{CopyReadsUnder};
ghost use Rattle.jls_marker.specs.SegmentLaws.{AreBytes};
ghost use Rattle.jls_marker.specs.declared.profile.Profile.TheVariants.{Wide};
ghost use Rattle.jls_search.specs.Seen.{IsSeen, verdict_of};

use crate::faultless::is_read_faultless;
use jls_copy::CopyRead;
use jls_marker::MarkerFault;
use jls_values::Shape;
use std::alloc::{AllocError, Global};

/// What is seen of a file.
#[derive(Drop)]
pub(crate) enum Seen {
    /// It has this shape and no fault.
    Faultless(Shape),
    /// It has this shape and a fault.
    Faulty(Shape),
    /// It has no frame: the fault, and its offset.
    NoFrame(MarkerFault, u64),
}

/// What is seen of a file that has a frame, by what was read of it.
pub(crate) fn see(read: &CopyRead) -> Seen
    ensures { (file : List ℕ) → AreBytes file → CopyReadsUnder Wide file read.now → IsSeen file result }
{
    let shape = read.partial().shape().to_owned();
    if is_read_faultless(read) {
        Seen::Faultless(shape)
    } else {
        Seen::Faulty(shape)
    }
}

/// Whether a file has no fault, by what is seen of it.
fn has_no_fault(seen: &Seen) -> bool
    ensures { result ≡ verdict_of seen.now }
{
    match seen {
        Seen::Faultless(_) => true,
        Seen::Faulty(_) => false,
        Seen::NoFrame(_, _) => false,
    }
}

/// Whether each file has no fault, by what is seen of them.
pub(crate) fn verdicts_of(alloc: Global, seen: &[Seen]) -> Result<Vec<bool>, AllocError>
    ensures { IfOk result (λ verdicts. verdicts.items ≡ map verdict_of seen.now) }
{
    let mut verdicts = Vec::new(alloc);
    for file in seen {
        verdicts.push(has_no_fault(file))?;
    }
    Ok(verdicts)
}
