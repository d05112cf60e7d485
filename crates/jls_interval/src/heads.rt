//! The laws of heads: the lines that stand whole where bits break off. Each is a function that does nothing and whose
//! contract is the law.

ghost use Rattle.jls_interval.specs.CutEvents.{CutEventsGoOn};
ghost use Rattle.jls_interval.specs.Heads.{HeadsAreOne, HeadsAreFinishedLines, ReadPiecesHaveNone};

/// Bits have at most one head: it doesn't depend on the lines in whose code they break off.
pub fn heads_are_one()
    ensures { HeadsAreOne }
{}

/// If bits are those of whole events and then cut an event, their head is the lines that were finished before that event.
pub fn heads_are_finished_lines()
    ensures { HeadsAreFinishedLines }
{}

/// A piece that reads as an interval's lines has an empty head.
pub fn read_pieces_have_no_head()
    ensures { ReadPiecesHaveNone }
{}

/// Bits after whole events may cut an event that can come next. They do if and only if lines are still to come and the bits are one of
/// these. In regular mode they are a proper prefix of the code of some error. In run mode they are ones for full blocks, with columns
/// left after these. Or they are a count of columns whose least continuation is below the columns left. Or they are a whole count below
/// the columns left, and a proper prefix of the code of some error. That error is not the one of the run's own value.
pub fn cut_events_go_on()
    ensures { CutEventsGoOn }
{}
