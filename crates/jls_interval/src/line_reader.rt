//! A line that is read a few bits at a time.

ghost use Rattle.std.specs.Prelude.{◌<◌, ◌^◌};

use crate::coder::Coder;
use crate::run_reader::RunState;
use jls_bits::CodeState;
use std::alloc::{AllocError, Global};

/// A run that is read, and the first bits of the sample that interrupts it.
#[derive(Clone, Copy)]
pub(crate) struct Interruption {
    /// The columns of the run.
    pub count: u32,
    /// RUNindex after its full blocks.
    pub run_index: u8,
    pub code: CodeState,
}

/// What the bits since the last whole event have come to.
#[derive(Clone, Copy)]
pub(crate) enum OpenEvent {
    /// No bit.
    NotBegun,
    /// The first bits of a sample in regular mode.
    Sample(CodeState),
    /// The first bits of a run.
    InRun(RunState),
    /// A run, and the first bits of the sample that interrupts it.
    Interruption(Interruption),
}

/// What more bits make of the current event: the answer of `push_event`. `EventStepIs` of `OpenEvents` says what each means.
#[derive(Clone, Copy)]
pub(crate) enum EventStep {
    /// The bits are no whole event.
    More,
    /// The event is whole, and its samples are in the line.
    Moved,
    /// The bits begin with no event that can come next, however they go on.
    Refused,
}

/// A line in work.
#[derive(Drop)]
pub(crate) struct LineReader {
    pub coder: Coder,
    pub width: usize,
    /// The samples so far.
    pub line: Vec<u16>,
    pub open_event: OpenEvent,
    ghost width_below: { width < 2 ^ 16 },
}

impl LineReader {
    ghost use Rattle.std.specs.Prelude.{◌≡◌, IfOk};

    /// A second reader of the same line, which was given the same bits.
    pub(crate) fn try_clone(&self, alloc: Global) -> Result<LineReader, AllocError>
        ensures cells { IfOk result (λ clone. clone.coder.cells ≡ self.now.coder.cells) }
        ensures run_indices { IfOk result (λ clone. clone.coder.run_indices ≡ self.now.coder.run_indices) }
        ensures width { IfOk result (λ clone. clone.width ≡ self.now.width) }
        ensures line { IfOk result (λ clone. clone.line.items ≡ self.now.line.items) }
        ensures open_event { IfOk result (λ clone. clone.open_event ≡ self.now.open_event) }
    {
        let line = Vec::from_slice(alloc, &self.line)?;
        Ok(LineReader {
            coder: self.coder.to_owned(),
            width: self.width,
            line,
            open_event: self.open_event,
        })
    }
}
