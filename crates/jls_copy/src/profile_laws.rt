//! The laws of a copy under each profile: those of `course_laws` and `copy_laws`, which are of the strict one. Each is a function that does
//! nothing and whose contract is the law.

ghost use Rattle.jls_copy.specs.CopyLaws.{BytesDecideUnder, FinalEndsStayUnder, OtherEndsChangeUnder};
ghost use Rattle.jls_copy.specs.CourseLaws.{OneCourseUnder, SomeCourseUnder, StrictPiecesAreByLine};
ghost use Rattle.jls_copy.specs.InHand.{PrefixesGoOnUnder};
ghost use Rattle.jls_copy.specs.Prefixes.{PrefixesKeepReadingsUnder, PrefixesSettlePiecesUnder, PrefixesStayBrokenUnder};
ghost use Rattle.jls_copy.specs.TellingLaws.{EndsStandAtTheirOffsetsUnder, PiecesStandAtTheirOffsetsUnder, RecordsAreOfFaultyPiecesUnder};
ghost use Rattle.jls_marker.specs.declared.profile.Profile.{Profile};

/// A law: under each profile, what a copy gives, or that it gives no picture and why, is determined by its bytes.
pub fn bytes_decide_under()
    ensures { (profile : Profile) → BytesDecideUnder profile }
{}

/// A law, under each profile, of a course that ends at EOI or at a fault other than `Ended`. Bytes after the copy leave it as it is.
pub fn final_ends_stay_under()
    ensures { (profile : Profile) → FinalEndsStayUnder profile }
{}

/// A law: under each profile, each other end is the input's, and any bytes after the copy change it.
pub fn other_ends_change_under()
    ensures { (profile : Profile) → OtherEndsChangeUnder profile }
{}

/// A law: under each profile, each piece of a copy's course reads as the lines of its interval, or it has a record.
pub fn records_are_of_faulty_pieces_under()
    ensures { (profile : Profile) → RecordsAreOfFaultyPiecesUnder profile }
{}

/// A law, under each profile, of a piece in hand that is broken whatever follows. Each list of bytes that begins so has a faulty piece
/// there.
pub fn prefixes_stay_broken_under()
    ensures { (profile : Profile) → PrefixesStayBrokenUnder profile }
{}

/// A law: under each profile, what some bytes give, each longer list gives too, if each of its pieces reads as lines.
pub fn prefixes_keep_readings_under()
    ensures { (profile : Profile) → PrefixesKeepReadingsUnder profile }
{}

/// A law: under each profile, what begins before the piece in hand is settled.
pub fn prefixes_settle_pieces_under()
    ensures { (profile : Profile) → PrefixesSettlePiecesUnder profile }
{}

/// A law, under each profile, on a piece in hand that begins with the code of some lines. Each longer list of bytes has a piece of that
/// interval there. If that piece has data bits, it begins with the code of the same lines.
pub fn prefixes_go_on_under()
    ensures { (profile : Profile) → PrefixesGoOnUnder profile }
{}

/// A law: under each profile, a list of bytes, as a whole copy, has one course at most.
pub fn copies_have_one_course_under()
    ensures { (profile : Profile) → OneCourseUnder profile }
{}

/// A law: under each profile, every list of bytes, as a whole copy, has a course.
pub fn every_copy_has_a_course_under()
    ensures { (profile : Profile) → SomeCourseUnder profile }
{}

/// A law: under each profile, the bytes of each piece of a course stand in the copy, at the offset of the piece.
pub fn pieces_stand_at_their_offsets_under()
    ensures { (profile : Profile) → PiecesStandAtTheirOffsetsUnder profile }
{}

/// A law: under each profile, what an end and its fault say is found at the end's offset.
pub fn ends_stand_at_their_offsets_under()
    ensures { (profile : Profile) → EndsStandAtTheirOffsetsUnder profile }
{}

/// A law: no piece of a strict course is of a scan that is interleaved by sample.
pub fn strict_pieces_are_by_line()
    ensures { StrictPiecesAreByLine }
{}
