//! A law of the scans of a course: a function that does nothing and whose contract is the law.

ghost use Rattle.jls_headline.specs.ScanLaws.{ScansAreOfTheFrame};

/// A law: the frame of a copy is a shape, and each scan of the copy is in its ranges and of that frame.
pub fn scans_are_of_the_frame()
    ensures { ScansAreOfTheFrame }
{}
