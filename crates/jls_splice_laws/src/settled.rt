//! What survives in an undamaged file, and what the files taken settle. Each law is a function that does nothing and whose contract is the
//! law.

ghost use Rattle.jls_splice_laws.specs.SpliceLaws.{FaultlessSplicesAreTaken, SearchedFilesAreTaken, SearchedSplicesGiveNoOther};
ghost use Rattle.jls_splice_laws.specs.SpliceLaws.{SplicesGiveNoOther, WholeSplicesGiveNoOther};
ghost use Rattle.jls_splice_laws.specs.WholeFiles.{FilesByLineAreWhole, WholeFilesAreFaultless, WholeFilesSurvive};

use jls_headline::{never_another_picture, same_copies_give_the_picture};
use jls_search::searches_come_to_each_splice;

/// A law: each line of a picture survives in a file by line that reads as it and has no faulty piece. If no fault of its headers ended it
/// either, it is undamaged under the wide profile too. An undamaged file, by line or by sample, is a file without a fault.
pub fn whole_files_survive()
    ensures lines { WholeFilesSurvive }
    ensures faultless { WholeFilesAreFaultless }
    ensures by_line { FilesByLineAreWhole }
{}

/// A law: where the tries of the search were enough, each splice that is sought is among the files taken. What is taken of what
/// `search` of jls_search came to over the copies are files taken.
pub fn faultless_splices_are_taken()
    ensures taken { FaultlessSplicesAreTaken }
    ensures searched { SearchedFilesAreTaken }
{
    searches_come_to_each_splice();
}

/// A law: a station for which public calls read the files taken as copies holds exactly their readings. Where every line of a picture
/// survives in them, it settles that picture or none. Let an undamaged file within the ceiling be a splice of the copies. If the tries of
/// the search are enough, it is taken. A station that took the files under the wide profile settles its picture and no other. So does one
/// for which they were read as copies, if that file is by line.
pub fn splices_give_no_other()
    ensures surviving { SplicesGiveNoOther }
    ensures all { WholeSplicesGiveNoOther }
    ensures searched { SearchedSplicesGiveNoOther }
{
    never_another_picture();
    same_copies_give_the_picture();
    searches_come_to_each_splice();
}
