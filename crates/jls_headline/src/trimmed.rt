//! The laws of trimmed pieces. Each is a function that does nothing and whose contract is the law.

ghost use Rattle.jls_headline.specs.LostIntervalLaws.{TrimmedPiecesAreHarmless, TrimmedCopiesAreDamaged};
ghost use Rattle.jls_headline.specs.LostIntervalLaws.{TrimmedPiecesHaveHeads, TrimmedPiecesHavePictureLines};

/// A law: a truncated or extended piece reads as the picture's lines or as none. If it lacks a bit of their code, its head is the lines
/// that are complete. Otherwise its head is empty.
pub fn trimmed_pieces_are_harmless()
    ensures lines { TrimmedPiecesAreHarmless }
    ensures heads { TrimmedPiecesHaveHeads }
    ensures first_lines { TrimmedPiecesHavePictureLines }
{}

/// A law: a copy with the picture's frame that has only been trimmed and lost intervals, fewer than eight in a row, is a damaged copy. So
/// nothing has to be assumed of what its pieces read as.
pub fn trimmed_copies_are_damaged()
    ensures { TrimmedCopiesAreDamaged }
{}
