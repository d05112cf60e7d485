//! The laws of copies. Each is a function that changes nothing and whose contract is the law.

ghost use Rattle.jls_copy_laws.specs.SegmentLaws.{SegmentsSetTheHeaders};
ghost use Rattle.jls_copy_laws.specs.CopyLaws.{ScansAreOfTheCourse, OneListOfScans, ReadingsAreOfTheCourse};

use jls_copy::every_copy_has_a_course;

/// A law: strict headers in their ranges take a marker segment exactly where it is without fault. It leaves and begins what `Sets` says.
pub fn segments_set_the_headers()
    ensures { SegmentsSetTheHeaders }
{}

/// A law: the scans that bytes have are those of their course, if it takes a frame. They have one list of scans at most.
pub fn scans_are_of_the_course()
    ensures scans { ScansAreOfTheCourse }
    ensures one { OneListOfScans }
{
    every_copy_has_a_course();
}

/// A law: the readings that a copy gives are those that its course gives, by the numbers that the reader of copies gives its pieces.
pub fn readings_are_of_the_course()
    ensures { ReadingsAreOfTheCourse }
{}
