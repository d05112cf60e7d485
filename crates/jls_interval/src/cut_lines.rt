//! The lines that stand whole where the bits of an interval break off.

ghost use Rattle.std.specs.Prelude.{◌≡◌, true, false, Bool, List, []};
ghost use Rattle.jls_values.specs.Params.{CodingParameters};
ghost use Rattle.jls_interval.specs.Lines.{interval_shape};
ghost use Rattle.jls_interval.specs.Decoding.{IsReading};
ghost use Rattle.jls_interval.specs.Heads.{IsHead};

use crate::cut_event::event_goes_on;
use crate::finished_lines::FinishedLines;
use crate::interval_reader::IntervalReader;

impl IntervalReader {
    /// Whether the bits so far are the first ones, and not all, of the code of some lines.
    fn is_cut(&self) -> bool
        requires { (p : CodingParameters) × (given : List Bool) × IsReading p given self.now }
        ensures yes { result ≡ true → (p : CodingParameters) (given : List Bool) → IsReading p given self.now
            → IsHead (interval_shape p self.now.reader.width self.now.components self.now.count) given
            self.now.lines }
        ensures no { result ≡ false → (p : CodingParameters) (given : List Bool) → IsReading p given self.now
            → IsHead (interval_shape p self.now.reader.width self.now.components self.now.count) given [] }
    {
        if !self.is_working() {
            return false;
        }
        let place = self.lines.next_place(self.components);
        event_goes_on(&self.reader, &place)
    }

    /// The head of the bits so far.
    pub(crate) fn into_head(self) -> FinishedLines
        requires { (p : CodingParameters) × (given : List Bool) × IsReading p given self }
        ensures { (p : CodingParameters) (given : List Bool) → IsReading p given self
            → IsHead (interval_shape p self.reader.width self.components self.count) given result }
    {
        let is_cut = self.is_cut();
        let IntervalReader { alloc, lines, .. } = self;
        if is_cut {
            return lines;
        }
        FinishedLines::new(alloc)
    }
}
