//! The laws of an interval's code. Each is a function that does nothing and whose contract is the law.

ghost use Rattle.jls_interval.specs.Laws.{PartedOnce, NeighboursAgree, FullBlocksFit, GrowthEndsInLines, LinesGrow, EventsAreApart};
ghost use Rattle.jls_interval.specs.Laws.{EventsHaveBits, CodesAreApart, PiecesReadOnce, BrokenBeginsWithNone, CutsAreExact};

/// The columns of finished lines are parted into events in exactly one way.
pub fn lines_are_parted_once()
    ensures { PartedOnce }
{}

/// The neighbours of a place in finished lines, by L(y, x), are those that a coder finds. It finds them from the two lines of the
/// component above, and from the samples of the line so far.
pub fn neighbours_agree()
    ensures { NeighboursAgree }
{}

/// A run has as many full blocks as fit into its columns, and one more would not fit.
pub fn full_blocks_fit()
    ensures { FullBlocksFit }
{}

/// Lines that grow event by event until none can come next are whole lines, and the events are
/// those that they are parted into.
pub fn growth_ends_in_lines()
    ensures { GrowthEndsInLines }
{}

/// The events of any lines lead, one after another, from the start to these lines.
pub fn lines_grow()
    ensures { LinesGrow }
{}

/// After the same earlier events, of two different events that can come next neither's bits begin the
/// other's.
pub fn events_are_apart()
    ensures { EventsAreApart }
{}

/// Every event that can come next in a line that isn't whole has at least one bit.
pub fn events_have_bits()
    ensures { EventsHaveBits }
{}

/// Of the codes of two different lists of lines, of the same number and width, neither begins the other.
pub fn codes_are_apart()
    ensures { CodesAreApart }
{}

/// A piece reads as at most one list of lines, and no piece that reads is also too long.
pub fn pieces_read_once()
    ensures { PiecesReadOnce }
{}

/// A piece is broken exactly where it does not begin with the code of any lines.
pub fn broken_pieces_begin_with_no_code()
    ensures { BrokenBeginsWithNone }
{}

/// Bits are a proper prefix of the code of some lines if and only if they are this. They are the bits of whole first events, and then a
/// proper prefix of the bits of one event that can come next.
pub fn cuts_are_exact()
    ensures { CutsAreExact }
{}
