//! The laws of a copy's course. Each is a function that does nothing and whose contract is the law.

ghost use Rattle.jls_copy.specs.CourseLaws.{OneCourse, SomeCourse};
ghost use Rattle.jls_copy.specs.TellingLaws.{EndsStandAtTheirOffsets, PiecesStandAtTheirOffsets};

/// A law: a list of bytes, as a whole copy, has one course at most.
pub fn copies_have_one_course()
    ensures { OneCourse }
{}

/// A law: every list of bytes, as a whole copy, has a course: with the law above exactly one.
pub fn every_copy_has_a_course()
    ensures { SomeCourse }
{}

/// A law: the bytes of each piece of a course stand in the copy, and as many bytes before them as its offset says.
pub fn pieces_stand_at_their_offsets()
    ensures { PiecesStandAtTheirOffsets }
{}

/// A law: where a copy ends at EOI, its end's offset is that of the byte 0xFF before the code. Where it ends with the input, it is the
/// input's length. At a fault of a marker it is that of the last byte 0xFF before its code. Where no marker stands, it is that of the byte
/// there. Where the input ends too early, it is the input's length.
pub fn ends_stand_at_their_offsets()
    ensures { EndsStandAtTheirOffsets }
{}
