//! The piece of scan data that a reader has in hand.

use jls_marker::ScanPlan;

/// The piece of scan data in hand, whose bytes so far begin with the code of some lines.
#[derive(Drop)]
pub struct PieceInHand {
    /// Its scan.
    pub plan: ScanPlan,
    /// Its number among the restart intervals of the scan, from 0.
    pub interval: u32,
    /// The offset of its first byte.
    pub offset: u64,
    /// The first lines of the interval, row by row and in a row by component. By line they may end inside a row.
    pub lines: Vec<Vec<u16>>,
}
