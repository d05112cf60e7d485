//! Marker segments.

use crate::scan_head::ScanHead;
use jls_values::Shape;

/// What a marker segment says.
#[derive(PartialEq, Eq, Drop)]
pub enum Segment {
    /// SOF55, the frame header: the shape of the picture (ITU-T T.87, C.2.2).
    Frame(Shape),
    /// SOS, the scan header, which scan data follows (ITU-T T.87, C.2.3).
    Scan(ScanHead),
    /// LSE of ID 1: the preset coding parameters as they stand there, where 0 asks for the default (ITU-T T.87, C.2.4.1.1).
    Preset {
        maxval: u16,
        t1: u16,
        t2: u16,
        t3: u16,
        reset: u16,
    },
    /// DRI: the number of rows of a restart interval, where 0 says that there are no restart markers (ITU-T T.81, B.2.4.4;
    /// ITU-T T.87, C.2.5).
    Restart(u32),
    /// A segment that says nothing to this reader, by the code of its marker. It is APP0 to APP15, COM, or LSE of the IDs 2 and 3.
    Skipped(u8),
}
