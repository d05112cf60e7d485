//! The laws of copies that have lost intervals. Each is a function that does nothing and whose contract is the law.

ghost use Rattle.jls_headline.specs.LostIntervalLaws.{NumbersComeBack, NumberedPiecesGive, SurvivingLinesAreGiven};
ghost use Rattle.jls_headline.specs.LostIntervalLaws.{DamagedCopiesGiveExactly, DamagedCopiesGiveNoOther};

/// A law: let fewer than eight restart markers in a row be lost, and every marker that is seen be a true one. Then the pieces of a copy's
/// scan data get the numbers that they have in the picture. None is beyond the last interval. So a scan gives exactly what its pieces have
/// as these intervals.
pub fn numbers_come_back()
    ensures numbers { NumbersComeBack }
    ensures gives { NumberedPiecesGive }
{}

/// A law: a damaged copy gives exactly the lines that survive in it. So whatever it gives is a line of the picture.
pub fn damaged_copies_give_the_picture()
    ensures exactly { DamagedCopiesGiveExactly }
    ensures no_other { DamagedCopiesGiveNoOther }
{}

/// A law: a line that survives in a copy is given by it, whatever its other pieces read as.
pub fn surviving_lines_are_given()
    ensures { SurvivingLinesAreGiven }
{}
