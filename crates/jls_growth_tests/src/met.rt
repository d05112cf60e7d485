//! How often the calls of a test were refused.

use jls_partial::{InsertFault, TextFault};
use jls_values::{MergeFault, ShapeFault};
use std::alloc::{AllocError, AllocFailed};

/// How a call ended for which memory was there, or was refused once.
#[derive(Clone, Copy)]
pub enum Met {
    /// It gave what it gives with ample memory.
    Done,
    /// It was refused, and did what it promises then.
    Refused,
}

/// A case that ended before the call or after it, for want of memory there.
#[derive(Clone, Copy)]
pub struct Stopped;

impl From<AllocError> for Stopped {
    fn from(_error: AllocError) -> Stopped {
        Stopped
    }
}

impl<T: Drop> From<AllocFailed<T>> for Stopped {
    fn from(_error: AllocFailed<T>) -> Stopped {
        Stopped
    }
}

impl From<InsertFault> for Stopped {
    fn from(_fault: InsertFault) -> Stopped {
        Stopped
    }
}

impl From<TextFault> for Stopped {
    fn from(_fault: TextFault) -> Stopped {
        Stopped
    }
}

impl From<MergeFault> for Stopped {
    fn from(_fault: MergeFault) -> Stopped {
        Stopped
    }
}

impl From<ShapeFault> for Stopped {
    fn from(_fault: ShapeFault) -> Stopped {
        Stopped
    }
}

/// The refusals that a test met. At most one growth is refused in a test, so there is at most one.
#[derive(Drop)]
pub struct Tally {
    call: &'static str,
    refusals: u8,
}

impl Tally {
    /// Of a call that was not made yet.
    pub fn of(call: &'static str) -> Tally {
        Tally { call, refusals: 0 }
    }

    /// Notes what came of one case. A case that stopped is no refusal of the call.
    pub fn note(&mut self, rt: &impl Print, case: Result<Met, Stopped>) {
        let word = match case {
            Ok(Met::Done) => return,
            Ok(Met::Refused) => "refused",
            Err(_) => "stopped",
        };
        self.refusals = self.refusals.saturating_add(1);
        let call = self.call;
        let _ = println!(rt; "{word} {call}");
    }

    /// Whether there was one refusal at most: a call that says more than once that memory is wanting says so where none was refused.
    pub fn is_single(&self) -> bool {
        self.refusals <= 1
    }
}
