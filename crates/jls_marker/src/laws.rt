//! The laws of marker segments and of the state of the headers. Each is a function that does nothing and whose contract is the law.

ghost use Rattle.jls_marker.specs.HeaderLaws.{FrameStays, HeadersStayInRange, ScansBegin, ScansAreInRange, OthersCountNone, NeverEnded};
ghost use Rattle.jls_marker.specs.HeaderLaws.{IntervalsPartTheLines, SegmentsSetTheirOwn, ScansHaveWhatIsInForce};
ghost use Rattle.jls_marker.specs.ProfileLaws.{ProfilesStay, NewHeadersAreInRange, StrictHeadersHaveNoneBySample, ScansBySampleHaveSeveral};
ghost use Rattle.jls_marker.specs.ProfileLaws.{WideHeadersTakeAlike, WideHeadersTakeMoreBySample};
ghost use Rattle.jls_marker.specs.SegmentLaws.{LayoutsAreRead, PayloadsAreRead, WrittenReadsBack, UnknownCodes};
ghost use Rattle.jls_marker.specs.SegmentLaws.{PayloadsAreReadUnder, WrittenReadsBackUnder, UnknownCodesUnder};
ghost use Rattle.jls_marker.specs.declared.profile.Profile.{Profile};

/// A payload has one layout of its segment at most, and that is the one that is read.
pub fn layouts_are_read()
    ensures { LayoutsAreRead }
{}

/// A payload is read as a segment exactly where it is a payload of this segment: where its layout holds and no test fails.
pub fn payloads_are_read()
    ensures { PayloadsAreRead }
{}

/// What is written of a segment reads as this segment.
pub fn written_reads_back()
    ensures { WrittenReadsBack }
{}

/// A code is unknown exactly where it has no segment.
pub fn unknown_codes()
    ensures { UnknownCodes }
{}

/// A frame that was taken stays.
pub fn frame_stays()
    ensures { FrameStays }
{}

/// A scan begins under a frame alone, is one of that frame, and changes nothing but the number of scans, by one.
pub fn scans_begin()
    ensures { ScansBegin }
{}

/// Headers are in their ranges before the first segment, and after each that is taken, if its payload consists of bytes.
pub fn headers_stay_in_range()
    ensures { HeadersStayInRange }
{}

/// A scan that begins is in its ranges, if the headers before it are in theirs and the payload consists of bytes.
pub fn scans_are_in_range()
    ensures { ScansAreInRange }
{}

/// No other segment counts as a scan.
pub fn others_count_none()
    ensures { OthersCountNone }
{}

/// A whole segment is never refused as one that ends too early.
pub fn never_ended()
    ensures { NeverEnded }
{}

/// The restart intervals of a scan part its lines. Each line is a row of exactly one interval, and each row of an interval is a line.
pub fn intervals_part_the_lines()
    ensures { IntervalsPartTheLines }
{}

/// After a DRI that is taken, the restart interval is its own. After an LSE of ID 1 the preset values are its own, and after a SOF the
/// frame is. Otherwise each of these is what it was.
pub fn segments_set_their_own()
    ensures { SegmentsSetTheirOwn }
{}

/// A scan that begins has the components that its header names, by their places in the frame. Its parameters and its restart interval are
/// those in force before it.
pub fn scans_have_what_is_in_force()
    ensures { ScansHaveWhatIsInForce }
{}

/// Under each profile, a payload is read as a segment exactly where it is a payload of this segment.
pub fn payloads_are_read_under()
    ensures { (profile : Profile) → PayloadsAreReadUnder profile }
{}

/// Under each profile, what is written of a segment of the profile reads as this segment.
pub fn written_reads_back_under()
    ensures { (profile : Profile) → WrittenReadsBackUnder profile }
{}

/// Under each profile, a code is unknown exactly where it has no segment.
pub fn unknown_codes_under()
    ensures { (profile : Profile) → UnknownCodesUnder profile }
{}

/// No segment changes the profile.
pub fn profiles_stay()
    ensures { ProfilesStay }
{}

/// Headers are in their ranges before the first segment, under each profile.
pub fn new_headers_are_in_range()
    ensures { NewHeadersAreInRange }
{}

/// Strict headers begin no scan that is interleaved by sample.
pub fn strict_headers_have_none_by_sample()
    ensures { StrictHeadersHaveNoneBySample }
{}

/// A scan that is interleaved by sample has two components or more, if its payload consists of bytes.
pub fn scans_by_sample_have_several()
    ensures { ScansBySampleHaveSeveral }
{}

/// A segment that strict headers take is taken by wide ones, which are otherwise the same, and leaves them otherwise the same.
pub fn wide_headers_take_alike()
    ensures { WideHeadersTakeAlike }
{}

/// A segment that wide headers take begins a scan by sample, or strict ones take it, and it leaves them otherwise the same.
pub fn wide_headers_take_more_by_sample()
    ensures { WideHeadersTakeMoreBySample }
{}
