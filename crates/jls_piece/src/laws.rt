//! The laws of the code of a piece. Each is a function that does nothing and whose contract is the law.

ghost use Rattle.jls_piece.specs.Lines.{RowsHaveLines, LinesHaveRows, RowsAreOne};
ghost use Rattle.jls_piece.specs.Laws.{CodesAreApart, FirstCodesBegin, CodesHaveBits, PiecesReadOnce, BrokenBeginsWithNone};
ghost use Rattle.jls_piece.specs.Heads.{HeadsAreOne, ReadPiecesHaveNone};
ghost use Rattle.jls_piece.specs.Kinds.{LinePiecesAreIntervals, PixelPiecesAreIntervals};

/// The lines of rows of pixels are so many lines of the same width.
pub fn rows_have_lines()
    ensures { RowsHaveLines }
{}

/// Each list of lines of whole rows is that of some rows.
pub fn lines_have_rows()
    ensures { LinesHaveRows }
{}

/// No two lists of rows have the same lines.
pub fn rows_are_one()
    ensures { RowsAreOne }
{}

/// By line a piece is an interval of `jls_interval`: it reads as the same lines, and has the same heads.
pub fn line_pieces_are_intervals()
    ensures { LinePiecesAreIntervals }
{}

/// By sample a piece is an interval of `jls_pixel`: it reads as the lines of the same rows, and has their heads.
pub fn pixel_pieces_are_intervals()
    ensures { PixelPiecesAreIntervals }
{}

/// Of the codes of two different lists of lines, of one shape, neither begins the other.
pub fn piece_codes_are_apart()
    ensures { CodesAreApart }
{}

/// The code of first lines begins the code of all.
pub fn piece_first_codes_begin()
    ensures { FirstCodesBegin }
{}

/// The code of some lines, at least one, has a bit. So no piece of no byte reads as them.
pub fn piece_codes_have_bits()
    ensures { CodesHaveBits }
{}

/// A piece reads as at most one list of lines, and no piece that reads is also too long.
pub fn piece_reads_once()
    ensures { PiecesReadOnce }
{}

/// A piece is broken exactly where it does not begin with the code of any lines.
pub fn broken_piece_begins_with_no_code()
    ensures { BrokenBeginsWithNone }
{}

/// Bits have at most one head.
pub fn piece_heads_are_one()
    ensures { HeadsAreOne }
{}

/// A piece that reads has an empty head.
pub fn read_piece_has_no_head()
    ensures { ReadPiecesHaveNone }
{}
