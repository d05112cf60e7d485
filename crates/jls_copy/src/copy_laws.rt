//! The laws of what a copy gives. Each is a function that does nothing and whose contract is the law.

ghost use Rattle.jls_copy.specs.CopyLaws.{BytesDecide, FinalEndsStay, OtherEndsChange};
ghost use Rattle.jls_copy.specs.InHand.{PrefixesGoOn};
ghost use Rattle.jls_copy.specs.Prefixes.{PrefixesKeepReadings, PrefixesSettlePieces, PrefixesStayBroken};
ghost use Rattle.jls_copy.specs.TellingLaws.{RecordsAreOfFaultyPieces};

/// A law: what a copy gives, or that it gives no picture and why, is determined by its bytes.
pub fn bytes_decide()
    ensures { BytesDecide }
{}

/// A law: bytes after a copy leave its course as it is, if the course ends at EOI or at a fault. The fault `Ended`, of an input that
/// ends too early, is excepted.
pub fn final_ends_stay()
    ensures { FinalEndsStay }
{}

/// A law: each other end is the input's, and any bytes after the copy change it.
pub fn other_ends_change()
    ensures { OtherEndsChange }
{}

/// A law: each piece of a copy's course reads as the lines of its interval, or it has a record. A record has the scan, the number and the
/// offset of the piece, and why it doesn't read. No other record is counted. The first 4,096 of these records are those that are reported.
pub fn records_are_of_faulty_pieces()
    ensures { RecordsAreOfFaultyPieces }
{}

/// A law: where the piece in hand is broken whatever follows, each list of bytes that begins so has a faulty piece there.
pub fn prefixes_stay_broken()
    ensures { PrefixesStayBroken }
{}

/// A law: what some bytes give, each list of bytes that begins with them gives too, if each of its pieces reads as lines.
pub fn prefixes_keep_readings()
    ensures { PrefixesKeepReadings }
{}

/// A law on the pieces before an offset, where the piece in hand begins at the offset or after it. Each list of bytes that begins so has
/// the same of them, up to what they read as. Both have a frame, and end at the offset or after it.
pub fn prefixes_settle_pieces()
    ensures { PrefixesSettlePieces }
{}

/// A law on a piece in hand that begins with the code of some lines. Each list of bytes that begins so has a piece of that interval there.
/// If that piece has data bits, it begins with the code of the same lines.
pub fn prefixes_go_on()
    ensures { PrefixesGoOn }
{}
