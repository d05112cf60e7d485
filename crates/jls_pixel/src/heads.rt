//! The laws of heads: the rows that stand whole where bits break off. Each is a function that does nothing and whose contract is the
//! law.

ghost use Rattle.jls_pixel.specs.Heads.{CutsAreExact, HeadsAreOne, HeadsAreFinishedRows, ReadPiecesHaveNone};

/// Bits are a proper prefix of the code of some rows if and only if they are this. They are the bits of whole first events, and then a
/// proper prefix of the bits of one event that can come next.
pub fn pixel_cuts_are_exact()
    ensures { CutsAreExact }
{}

/// Bits have at most one head: it doesn't depend on the rows in whose code they break off.
pub fn pixel_heads_are_one()
    ensures { HeadsAreOne }
{}

/// If bits are those of whole events and then cut an event, their head is the rows that were finished before that event.
pub fn pixel_heads_are_finished_rows()
    ensures { HeadsAreFinishedRows }
{}

/// A piece that reads as an interval's rows has an empty head.
pub fn read_pixel_pieces_have_no_head()
    ensures { ReadPiecesHaveNone }
{}
