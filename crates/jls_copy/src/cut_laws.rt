//! The laws of scan data. Each is a function that does nothing and whose contract is the law.

ghost use Rattle.jls_copy.specs.CutLaws.{OneCut, UnitsAreCut, NumbersAreLeast, LostMarksAreBridged, MarksBeyondChangeNothing};

/// A law: bytes that begin where scan data does are cut into pieces and marks in exactly one way (T.81 B.1.1.2, B.2.1).
pub fn scan_data_has_one_cut()
    ensures { OneCut }
{}

/// A law of a unit of a course. Its pieces and marks are those of this cut of its scan data and what follows. So the pieces of a course, of
/// which `CopyReads` speaks, are the pieces that scan data is cut into.
pub fn units_are_cut()
    ensures { UnitsAreCut }
{}

/// A law: a restart marker gives a number to the piece after it. It is the least one above the number given last that fits the marker.
pub fn numbers_are_least()
    ensures { NumbersAreLeast }
{}

/// A law of lists of marks. Fewer than eight restart markers in a row are lost, and every marker that is seen is a true one. Then those
/// that are left give the pieces after them the numbers that these have in the undamaged picture. That the pieces of a copy get these
/// numbers is a law of the crate `jls_headline`.
pub fn lost_marks_are_bridged()
    ensures { LostMarksAreBridged }
{}

/// A law of lists of marks: a mark whose number is beyond the last interval gives that number to the piece after it. It leaves the
/// numbers of all later pieces as they were without it.
pub fn marks_beyond_change_nothing()
    ensures { MarksBeyondChangeNothing }
{}
