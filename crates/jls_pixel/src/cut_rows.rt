//! The rows that stand whole where the bits of an interval break off.

ghost use Rattle.std.specs.Prelude.{◌≡◌, IfOk};
ghost use Rattle.jls_pixel.specs.Answers.{IfYes, IfNo};
ghost use Rattle.jls_pixel.specs.PixelReading.{KeepsShape, IsReader, ForBitsOf, ForBytesOf};
ghost use Rattle.jls_pixel.specs.CutRows.{IsCut, CutsNothing, RestEndIs};
ghost use Rattle.jls_pixel.specs.CutEnds.{CutEndIs};

use crate::cut_end::PixelCutEnd;
use crate::cut_event::event_is_cut;
use crate::decode::PixelFault;
use crate::finished_rows::FinishedRows;
use crate::pixel_reader::{PixelReader, State};
use std::alloc::AllocError;

/// What the bits of an interval come to, where no bit follows.
#[derive(Clone, Copy)]
pub(crate) enum RestEnd {
    /// No row is to come, or none can.
    Complete,
    /// They are the first ones, and not all, of the code of some rows.
    Cut,
    /// They are neither the code of any rows, with bits after it or none, nor its first bits.
    Broken,
}

impl PixelReader {
    /// Whether the bits that wait are the first ones, and not all, of an event that can come next.
    fn is_cut(&self) -> Result<bool, AllocError>
        requires state { self.now.state ≡ State.Working }
        requires reading { IsReader self.now }
        ensures yes { IfYes result (ForBitsOf self.now (λ p given. IsCut p given self.now)) }
        ensures no { IfNo result (ForBitsOf self.now (λ p given. CutsNothing p self.now)) }
    {
        let place = self.rows.next_place(self.width, self.components);
        let mut pending = self.pending.try_clone()?;
        let mut coder = self.coder.to_owned();
        event_is_cut(
            self.alloc,
            &mut pending,
            &mut coder,
            self.run_index,
            &place,
            &self.row,
        )
    }

    /// Reads the events that are left, where no bit follows, and says what the bits come to.
    fn read_to_end(&mut self) -> Result<RestEnd, AllocError>
        requires { IsReader self.old }
        ensures shape { KeepsShape self.old self.new }
        ensures end { IfOk result (λ end. ForBitsOf self.old (λ p given. RestEndIs p given self.new end)) }
    {
        'events: while self.is_working() {
            if self.is_cut()? {
                return Ok(RestEnd::Cut);
            }
            if !self.push_event()? {
                return Ok(RestEnd::Broken);
            }
        }
        Ok(RestEnd::Complete)
    }

    /// What the bytes of all bits so far give, where no event is left.
    fn judged_cut(self) -> PixelCutEnd
        requires { self.state ≡ State.Working → ⊥ }
        ensures { ForBytesOf self (λ shape bytes. CutEndIs shape bytes result) }
    {
        match self.state {
            State::Working => unreachable!(),
            State::NoCode => {
                PixelCutEnd::Head(FinishedRows::new(self.alloc), PixelFault::Broken)
            }
            State::Complete(extra) => {
                if extra > 7 {
                    PixelCutEnd::Head(FinishedRows::new(self.alloc), PixelFault::Long)
                } else {
                    PixelCutEnd::Whole(self.rows)
                }
            }
        }
    }

    /// The same, after the events that are left.
    pub(crate) fn into_cut_end(mut self) -> Result<PixelCutEnd, AllocError>
        requires { IsReader self }
        ensures { ForBytesOf self (λ shape bytes. IfOk result (CutEndIs shape bytes)) }
    {
        match self.read_to_end()? {
            RestEnd::Complete => Ok(self.judged_cut()),
            RestEnd::Cut => Ok(PixelCutEnd::Head(self.rows, PixelFault::Broken)),
            RestEnd::Broken => Ok(PixelCutEnd::Head(
                FinishedRows::new(self.alloc),
                PixelFault::Broken,
            )),
        }
    }
}
