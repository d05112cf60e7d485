//! Which scans are read.

/// Which scans are read, by the value of ILV in their headers (ITU-T T.87, C.2.3). Everything else is read alike.
#[derive(Clone, Copy, Debug, PartialEq, Eq)]
pub enum Profile {
    /// Scans of one component (ILV 0 or 1), and scans that are interleaved by line (ILV 1).
    Strict,
    /// These, and scans of two components or more that are interleaved by sample (ILV 2).
    Wide,
}
