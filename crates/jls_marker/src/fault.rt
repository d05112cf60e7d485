//! Why headers end a copy.

use thiserror::Error;

/// What is wrong with a marker, with its segment, or with a segment at its place. `number` gives the number of each, which reports
/// print. `read_segment`, `ScanHead::new` and `Headers::accept` say which they answer, and in which order.
#[derive(Clone, Copy, Debug, PartialEq, Eq, Error)]
pub enum MarkerFault {
    /// A length below 2, a payload that hasn't the layout of its segment, or a scan header without one to four components.
    #[error("bad length")]
    Length = 1,
    /// The frame header's precision, size or identifiers are none that `Shape` takes.
    #[error("bad shape")]
    BadShape,
    /// A component of the frame is subsampled.
    #[error("a component is subsampled")]
    Sampling,
    /// A scan or the end of the image before the frame.
    #[error("no frame")]
    NoFrame,
    /// A frame after the frame.
    #[error("a second frame")]
    SecondFrame,
    /// NEAR isn't 0.
    #[error("not lossless")]
    Lossy,
    /// ILV is 0 with more than one component, or above 1. Under the wide profile it may be 2 with more than one component.
    #[error("interleave mode not supported")]
    Interleave,
    /// A component of the scan has a mapping table.
    #[error("a mapping table")]
    MappingTable,
    /// Al isn't 0.
    #[error("a point transform")]
    PointTransform,
    /// The scan has a component that isn't in the frame.
    #[error("unknown component")]
    UnknownComponent,
    /// The scan has a component twice.
    #[error("a component stands twice")]
    RepeatedComponent,
    /// The preset parameters in force at a scan are out of range at the precision of the frame.
    #[error("preset parameters out of range")]
    BadParams,
    /// An LSE segment of an ID other than 1, 2 and 3.
    #[error("unknown kind of preset parameters")]
    LseId,
    /// The code of a marker that is not EOI and has no segment in this project. A second SOI is one, and so is a restart marker outside of
    /// scan data.
    #[error("unknown marker")]
    UnknownMarker,
    /// A restart interval of the scan has more than 2^28 samples.
    #[error("a restart interval is too large")]
    IntervalTooLarge,
    /// The seventeenth scan.
    #[error("too many scans")]
    TooManyScans,
    /// A byte other than FF where a marker must be.
    #[error("no marker")]
    NoMarker,
    /// The first marker isn't SOI, or the input begins with a byte other than FF. Fill bytes may stand before SOI.
    #[error("no start of image")]
    NoSoi,
    /// The input ends before SOI is whole, inside a marker or a segment, or, before a frame was taken, where a marker may begin. The
    /// empty input is one of them.
    #[error("the input ends too early")]
    Ended,
}

impl MarkerFault {
    ghost use Rattle.std.specs.Prelude.{◌≡◌};
    ghost use Rattle.jls_marker.specs.Faults.{fault_number};

    /// The fault's number, from 1 to 19 in the order of the cases.
    pub fn number(self) -> u8
        ensures { result ≡ fault_number self }
    {
        self as u8
    }
}
