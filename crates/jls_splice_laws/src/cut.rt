//! The law of the cut file. It is a function that does nothing and whose contract is the law.

ghost use Rattle.jls_splice_laws.specs.CutLaws.{CutLinesAreThePicture, CutsAreHeld, SoughtFilesBeginWithTheCut};
ghost use Rattle.jls_splice_laws.specs.CutLaws.{WholeFilesBeginWithTheirLines};

use crate::settled::whole_files_survive;
use jls_copy::prefixes_keep_readings_under;

/// A law: assume that each other choice of ways for the first parts is dead. Assume also that an undamaged file has, at each of these
/// parts, what some copy has there, and no sample above the ceiling. Then the file begins with the cut file. Each reading that the cut
/// file gives is a line of the file's picture, and among the readings of a station that took it. So where such a line is settled, it is
/// the picture's.
pub fn cut_lines_are_the_picture()
    ensures begins { SoughtFilesBeginWithTheCut }
    ensures lines { WholeFilesBeginWithTheirLines }
    ensures held { CutsAreHeld }
    ensures all { CutLinesAreThePicture }
{
    whole_files_survive();
    prefixes_keep_readings_under();
}
