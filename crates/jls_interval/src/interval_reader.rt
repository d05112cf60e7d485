//! The lines of an interval, from a few bits at a time.

ghost use Rattle.std.specs.Prelude.{◌≡◌, ◌↔◌, ◌-◌, ◌≤◌, ℕ, List, Bool, length, IsTrue, IfOk, OnOk};
ghost use Rattle.jls_values.specs.Params.{CodingParameters};

use crate::finished_lines::FinishedLines;
use crate::line_reader::{EventStep, LineReader, OpenEvent};
use crate::line_samples::take_samples;
use crate::push_event::push_to_event;
use jls_bits::Chunk;
use std::alloc::{AllocError, Global};
use std::mem;

/// What the bits so far have come to.
#[derive(Clone, Copy)]
pub(crate) enum State {
    /// Lines are still to come.
    Working,
    /// All lines are there, and so many bits came after their code, counted up to 8.
    Complete(u8),
    /// They begin with no lines' code, whatever comes.
    NoCode,
}

/// The lines of an interval that is read.
#[derive(Drop)]
pub(crate) struct IntervalReader {
    pub alloc: Global,
    /// The line in work.
    pub reader: LineReader,
    pub components: usize,
    /// How many lines there are to be.
    pub count: usize,
    /// The finished lines.
    pub lines: FinishedLines,
    pub state: State,
}

/// As long as a chunk has so many bits, a sample is taken from it while others wait for more bytes. Most codes of smooth pictures have no
/// more. If a code isn't whole, its bits stay until there are more.
const LOOKED_FOR: u8 = 15;

impl IntervalReader {
    ghost use Rattle.jls_interval.specs.Decoding.{IsReading, TakesAllBits, TakesFirst, TakesEvent, GivesBack, KeepsShape};
    ghost use Rattle.jls_interval.specs.IntervalBytes.{HasLengths};

    /// A second reader that was given the same bits.
    pub(crate) fn try_clone(&self) -> Result<IntervalReader, AllocError>
        ensures shape { IfOk result (KeepsShape self.now) }
        ensures lengths { IfOk result (λ clone. (bytes : List ℕ) → HasLengths bytes self.now → HasLengths bytes clone) }
        ensures bits { IfOk result
            (λ clone. (p : CodingParameters) (given : List Bool) → IsReading p given self.now → IsReading p given clone) }
    {
        Ok(IntervalReader {
            alloc: self.alloc,
            reader: self.reader.try_clone(self.alloc)?,
            components: self.components,
            count: self.count,
            lines: self.lines.try_clone()?,
            state: self.state,
        })
    }

    /// Takes the bits of the event in hand, where lines are still to come, and says whether it is whole. If it isn't, nothing more is to be
    /// taken.
    #[inline(never)]
    fn push_event(&mut self, chunk: &mut Chunk) -> Result<bool, AllocError>
        requires state { self.old.state ≡ State.Working }
        requires reading { (p : CodingParameters) × (given : List Bool) × IsReading p given self.old }
        ensures shape { KeepsShape self.old self.new }
        ensures bits { IfOk result (TakesEvent self.old self.new chunk.old chunk.new) }
    {
        let place = self.lines.next_place(self.components);
        match push_to_event(&mut self.reader, &place, chunk)? {
            EventStep::More => Ok(false),
            EventStep::Refused => {
                self.state = State::NoCode;
                Ok(false)
            }
            EventStep::Moved => {
                if self.reader.line.len() == self.reader.width {
                    let next = Vec::with_capacity(self.alloc, self.reader.width)?;
                    let line = mem::replace(&mut self.reader.line, next);
                    self.lines.push(line)?;
                    if self.lines.len() == self.count {
                        self.state = State::Complete(0);
                    }
                }
                Ok(true)
            }
        }
    }

    /// Gives back the bits of the sample in hand, to be taken once more with those that follow them. There are none if no short code has
    /// begun.
    pub(crate) fn take_back(&mut self) -> Chunk
        requires { (p : CodingParameters) × (given : List Bool) × IsReading p given self.old }
        ensures shape { KeepsShape self.old self.new }
        ensures kept { (self.new.lines ≡ self.old.lines) × (self.new.reader.line ≡ self.old.reader.line) }
        ensures bits { GivesBack self.old self.new result }
        ensures few { length result ≤ 56 }
    {
        let State::Working = self.state else {
            return Chunk::new();
        };
        let OpenEvent::Sample(code) = self.reader.open_event else {
            return Chunk::new();
        };
        let lengths = self.reader.coder.lengths;
        match code.fed(lengths.limit, lengths.qbpp) {
            None => Chunk::new(),
            Some(chunk) => {
                self.reader.open_event = OpenEvent::NotBegun;
                chunk
            }
        }
    }

    /// Lets the clones to come share the finished lines.
    pub(crate) fn share_lines(&mut self) -> Result<(), AllocError>
        ensures shape { KeepsShape self.old self.new }
        ensures same { OnOk result (self.new ≡ self.old) }
    {
        self.lines.share(self.reader.width)
    }

    /// Counts the bits that come after the lines' code.
    fn count_bits(&mut self, chunk: &Chunk)
        ensures shape { KeepsShape self.old self.new }
        ensures bits { (self.old.state ≡ State.Working → ⊥) → TakesAllBits self.old self.new chunk.now }
    {
        if let State::Complete(extra) = self.state {
            self.state = State::Complete(extra.saturating_add(chunk.len()).min(8));
        }
    }

    /// Whether lines are still to come.
    pub(crate) fn is_working(&self) -> bool
        ensures { IsTrue result ↔ (self.now.state ≡ State.Working) }
    {
        matches!(self.state, State::Working)
    }

    /// Takes bits from the start of a chunk, an event after another, as long as there are at least `waiting` of them. If that is 0, it
    /// takes all.
    #[inline(always)]
    pub(crate) fn push_chunk(&mut self, waiting: u8, chunk: &mut Chunk) -> Result<(), AllocError>
        requires { (p : CodingParameters) × (given : List Bool) × IsReading p given self.old }
        ensures shape { KeepsShape self.old self.new }
        ensures bits { OnOk result (TakesFirst self.old chunk.old self.new chunk.new) }
        ensures few { OnOk result (length chunk.new ≤ waiting - 1) }
    {
        let fewest = waiting.max(1);
        'events: while self.is_working() {
            let place = self.lines.next_place(self.components);
            take_samples(&mut self.reader, &place, fewest.min(LOOKED_FOR), chunk)?;
            if chunk.len() < fewest {
                return Ok(());
            }
            let goes_on = self.push_event(chunk)?;
            if !goes_on {
                *chunk = Chunk::new();
                return Ok(());
            }
        }
        self.count_bits(chunk);
        *chunk = Chunk::new();
        Ok(())
    }
}
