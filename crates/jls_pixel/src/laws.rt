//! The laws of the code of an interval by sample. Each is a function that does nothing and whose contract is the law.

ghost use Rattle.jls_pixel.specs.Laws.{RowsGrow, GrowthEndsInRows, EventsAreApart, EventsHaveBits, CodesAreApart};
ghost use Rattle.jls_pixel.specs.Laws.{PiecesReadOnce, BrokenBeginsWithNone};

/// The events of any rows lead, one after another, from the start to these rows.
pub fn rows_grow()
    ensures { RowsGrow }
{}

/// Rows that grow event by event until none can come next are whole rows, and the events are those
/// that they are parted into.
pub fn growth_ends_in_rows()
    ensures { GrowthEndsInRows }
{}

/// After the same earlier events, of two different events that can come next neither's bits begin the
/// other's.
pub fn pixel_events_are_apart()
    ensures { EventsAreApart }
{}

/// Every event that can come next in a row that isn't whole has at least one bit.
pub fn pixel_events_have_bits()
    ensures { EventsHaveBits }
{}

/// Of the codes of two different lists of rows, of the same number and width, neither begins the other.
pub fn pixel_codes_are_apart()
    ensures { CodesAreApart }
{}

/// A piece reads as at most one list of rows, and no piece that reads is also too long.
pub fn pixel_pieces_read_once()
    ensures { PiecesReadOnce }
{}

/// A piece is broken exactly where it does not begin with the code of any rows.
pub fn broken_pixel_pieces_begin_with_no_code()
    ensures { BrokenBeginsWithNone }
{}
