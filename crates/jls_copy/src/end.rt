//! Where a copy ends.

use jls_marker::MarkerFault;

/// Where a copy ends. Offsets are counts of bytes from the input's start.
#[derive(Clone, Copy, Debug, PartialEq, Eq)]
pub enum End {
    /// At EOI: the offset of the last byte 0xFF before its code.
    Eoi(u64),
    /// With the input, in scan data or where a marker may begin: the input's length.
    Input(u64),
    /// At a fault of the headers, with the fault's offset. It is that of the last byte 0xFF before the marker's code. Where no marker
    /// stands, it is that of the byte there. Where the input ends too early, it is the input's length.
    Header(MarkerFault, u64),
}
