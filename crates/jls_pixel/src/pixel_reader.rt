//! The rows of an interval, from a few bits at a time.

ghost use Rattle.std.specs.Prelude.{◌≡◌, ◌↔◌, ◌+◌, ◌<◌, ◌≤◌, ◌++◌, List, Bool, length, min, IsTrue, IfOk, IfErr, OnOk};
ghost use Rattle.jls_values.specs.Params.{CodingParameters};
ghost use Rattle.jls_pixel.specs.Reads.{Reads};
ghost use Rattle.jls_pixel.specs.RowRead.{NoRows};
ghost use Rattle.jls_pixel.specs.PieceFaults.{FaultIs};
ghost use Rattle.jls_pixel.specs.PendingBits.{bits_of};
ghost use Rattle.jls_pixel.specs.Answers.{IfYes, IfNo};
ghost use Rattle.jls_pixel.specs.SampleCodes.{parameters_of};

use crate::coder::Coder;
use crate::data_bits::DataBits;
use crate::decode::PixelFault;
use crate::event::read_event;
use crate::finished_rows::{FinishedRows, cloned_row};
use crate::pending_bits::PendingBits;
use crate::pixel::Pixel;
use std::alloc::{AllocError, Global};
use std::mem;

/// What the bits so far have come to.
#[derive(Clone, Copy)]
pub(crate) enum State {
    /// Rows are still to come.
    Working,
    /// All rows are there, and so many bits came after their code, counted up to 8.
    Complete(u8),
    /// They begin with no rows' code, whatever comes.
    NoCode,
}

impl State {
    /// The state at no bit, where so many rows are to come.
    pub(crate) fn first(rows: u32) -> State
        ensures none { rows ≡ 0 → result ≡ State.Complete 0 }
        ensures some { 0 < rows → result ≡ State.Working }
    {
        if rows == 0 {
            State::Complete(0)
        } else {
            State::Working
        }
    }
}

/// The rows of an interval that is read.
#[derive(Drop)]
pub(crate) struct PixelReader {
    pub alloc: Global,
    pub coder: Coder,
    /// RUNindex.
    pub run_index: u8,
    pub width: u16,
    pub components: u8,
    /// How many rows there are to be.
    pub count: u32,
    /// The finished rows.
    pub rows: FinishedRows,
    /// The row in work.
    pub row: Vec<Pixel>,
    /// The bits that were not read. They are fewer than an event may have, and a few more.
    pub pending: PendingBits,
    pub state: State,
}

/// So many bits and some more, counted up to 8.
fn counted_on(extra: u8, more: u8) -> u8
    ensures { result ≡ min 8 (extra + more) }
{
    extra.saturating_add(more).min(8)
}

/// An event is read once so many bits wait, and none has more. So none is begun that can't be ended.
const LONGEST_EVENT: usize = 368;

impl PixelReader {
    ghost use Rattle.jls_pixel.specs.PixelReading.{IsReading, HasTaken, TakesEvent, PushesEvent, KeepsReading, KeepsShape, pixels_left};
    ghost use Rattle.jls_pixel.specs.PixelReading.{IsReader, ForBitsOf, ForBytesOf};

    /// A second reader that was given the same bits.
    pub(crate) fn try_clone(&self) -> Result<PixelReader, AllocError>
        ensures shape { IfOk result (KeepsShape self.now) }
        ensures reading { IfOk result (KeepsReading self.now) }
    {
        Ok(PixelReader {
            alloc: self.alloc,
            coder: self.coder.to_owned(),
            run_index: self.run_index,
            width: self.width,
            components: self.components,
            count: self.count,
            rows: self.rows.try_clone()?,
            row: cloned_row(self.alloc, &self.row)?,
            pending: self.pending.try_clone()?,
            state: self.state,
        })
    }

    /// Whether rows are still to come.
    pub(crate) fn is_working(&self) -> bool
        ensures { IsTrue result ↔ (self.now.state ≡ State.Working) }
    {
        matches!(self.state, State::Working)
    }

    /// Takes the event that stands at the start of the bits that wait, and says whether one does. Where none does, nothing more is to be
    /// read.
    fn take_event(&mut self) -> Result<bool, AllocError>
        requires state { self.old.state ≡ State.Working }
        requires reading { IsReader self.old }
        ensures shape { KeepsShape self.old self.new }
        ensures rows { self.new.rows ≡ self.old.rows }
        ensures event { IfOk result (TakesEvent self.old self.new) }
        ensures columns { IfYes result (length self.old.row.items < length self.new.row.items) }
        ensures within { IfYes result (length self.new.row.items ≤ self.new.width) }
        ensures state { self.new.state ≡ self.old.state }
        ensures parameters { parameters_of self.new.coder ≡ parameters_of self.old.coder }
    {
        let place = self.rows.next_place(self.width, self.components);
        match read_event(
            &mut self.pending,
            &mut self.coder,
            self.run_index,
            &place,
            &mut self.row,
        )? {
            None => Ok(false),
            Some(next) => {
                self.run_index = next;
                Ok(true)
            }
        }
    }

    /// Adds the row in work to the finished ones, if it is whole. With the last row all are there.
    fn end_row(&mut self) -> Result<(), AllocError>
        requires state { self.old.state ≡ State.Working }
        requires taken { (p : CodingParameters) × (given : List Bool) × HasTaken p given self.old }
        ensures shape { KeepsShape self.old self.new }
        ensures reading { OnOk result ((p : CodingParameters) (given : List Bool) → HasTaken p given self.old
            → IsReading p given self.new) }
        ensures fewer { OnOk result (pixels_left self.new ≤ pixels_left self.old) }
        ensures parameters { parameters_of self.new.coder ≡ parameters_of self.old.coder }
    {
        if self.row.len() < usize::from(self.width) {
            return Ok(());
        }
        let row = mem::replace(&mut self.row, Vec::new(self.alloc));
        self.rows.push(row)?;
        if self.rows.len() == self.count as usize {
            let extra = self.pending.count_to_8();
            self.state = State::Complete(extra);
        }
        Ok(())
    }

    /// The same as `take_event`, and adds the row to the finished ones, if it is whole.
    pub(crate) fn push_event(&mut self) -> Result<bool, AllocError>
        requires state { self.old.state ≡ State.Working }
        requires reading { IsReader self.old }
        ensures shape { KeepsShape self.old self.new }
        ensures event { IfOk result (PushesEvent self.old self.new) }
        ensures fewer { IfYes result (pixels_left self.new < pixels_left self.old) }
        ensures parameters { parameters_of self.new.coder ≡ parameters_of self.old.coder }
    {
        if !self.take_event()? {
            return Ok(false);
        }
        self.end_row()?;
        Ok(true)
    }

    /// Reads events as long as so many bits wait that the next one is among them.
    fn read_waiting(&mut self) -> Result<(), AllocError>
        requires { IsReader self.old }
        ensures shape { KeepsShape self.old self.new }
        ensures reading { OnOk result (KeepsReading self.old self.new) }
    {
        'events: while self.is_working() {
            if !self.pending.has(LONGEST_EVENT) {
                return Ok(());
            }
            if !self.push_event()? {
                self.state = State::NoCode;
                return Ok(());
            }
        }
        Ok(())
    }

    /// Takes the data bits of the next byte.
    pub(crate) fn push(&mut self, next: DataBits) -> Result<(), AllocError>
        requires { IsReader self.old }
        ensures shape { KeepsShape self.old self.new }
        ensures reading { OnOk result (ForBitsOf self.old (λ p given. IsReading p (given ++ bits_of next) self.new)) }
    {
        match self.state {
            State::Working => {
                self.pending.append(next)?;
                self.read_waiting()?;
                Ok(())
            }
            State::Complete(extra) => {
                self.state = State::Complete(counted_on(extra, next.count));
                Ok(())
            }
            State::NoCode => Ok(()),
        }
    }

    /// Reads the events that are left, where no bit follows, and says whether the rows are all there.
    fn read_rest(&mut self) -> Result<bool, AllocError>
        requires { IsReader self.old }
        ensures shape { KeepsShape self.old self.new }
        ensures rows { IfYes result (KeepsReading self.old self.new) }
        ensures ended { IfYes result (self.new.state ≡ State.Working → ⊥) }
        ensures none { IfNo result (ForBitsOf self.old (λ p. NoRows p self.old.width self.old.components self.old.count)) }
    {
        'events: while self.is_working() {
            if !self.push_event()? {
                return Ok(false);
            }
        }
        Ok(true)
    }

    /// The rows that the bytes of all bits so far read as, or why there are none, where no event is left.
    fn judged(self) -> Result<FinishedRows, PixelFault>
        requires { self.state ≡ State.Working → ⊥ }
        ensures rows { ForBytesOf self (λ shape bytes. IfOk result (Reads shape bytes)) }
        ensures fault { ForBytesOf self (λ shape bytes. IfErr result (λ fault. FaultIs fault shape bytes)) }
    {
        match self.state {
            State::Working => unreachable!(),
            State::NoCode => Err(PixelFault::Broken),
            State::Complete(extra) => {
                if extra > 7 {
                    Err(PixelFault::Long)
                } else {
                    Ok(self.rows)
                }
            }
        }
    }

    /// The same, after the events that are left.
    pub(crate) fn into_rows(mut self) -> Result<FinishedRows, PixelFault>
        requires { IsReader self }
        ensures rows { ForBytesOf self (λ shape bytes. IfOk result (Reads shape bytes)) }
        ensures fault { ForBytesOf self (λ shape bytes. IfErr result (λ fault. FaultIs fault shape bytes)) }
    {
        match self.read_rest() {
            Err(AllocError) => Err(PixelFault::OutOfMemory),
            Ok(found) => {
                if found {
                    self.judged()
                } else {
                    Err(PixelFault::Broken)
                }
            }
        }
    }
}
