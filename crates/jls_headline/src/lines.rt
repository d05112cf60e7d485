//! One line by itself, however the other lines fare. Each law is a function that does nothing and whose contract is the law.

ghost use Rattle.jls_headline.specs.LineLaws.{StationsTellOfLines, UnnamedLinesHaveOneReading, UnnamedLinesAreThePicture};
ghost use Rattle.jls_headline.specs.LineLaws.{NeverAnotherPicture, DamagedAtSaysNoOther, DamagedIsDamagedAtEach, TrimmedAtIsDamagedAt};

/// A law: what a station tells of one line of a picture. If no copy gives another reading of the line than the picture's, the line is
/// missing, or settled as the picture's; it is settled if some copy gives it. If the line survives in one copy, whatever the others are, it
/// is among the readings, and where the line is settled it is the picture's. A line that the report doesn't name has one reading.
pub fn lines_are_reported()
    ensures stations { StationsTellOfLines }
    ensures unnamed { UnnamedLinesHaveOneReading }
    ensures unnamed_survives { UnnamedLinesAreThePicture }
{}

/// A law: let every line of a picture survive in some copy that was read for a station. Any other copies may have been read, and damaged
/// intervals may read as anything. Then not every line of the station is settled, or they are that picture.
pub fn never_another_picture()
    ensures { NeverAnotherPicture }
{}

/// A law: restart markers number the pieces of a copy with the picture's frame, and no piece gives another reading of one line than the
/// picture's. Then the copy gives none. A damaged copy is such a copy at each line. So is one with the picture's frame whose pieces that
/// have the row stand under true headers and were only truncated or extended.
pub fn damaged_copies_say_no_other()
    ensures at_line { DamagedAtSaysNoOther }
    ensures at_each { DamagedIsDamagedAtEach }
    ensures trimmed { TrimmedAtIsDamagedAt }
{}
