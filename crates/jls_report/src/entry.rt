//! The entries of a report.

/// What a report says of lines that aren't settled. A component is named by its index in the frame.
#[derive(Clone, Copy, Debug, PartialEq, Eq)]
pub enum ReportEntry {
    /// The lines from `first` to `last` have no reading. The lines next to them have readings, or there are none.
    Missing {
        component: u8,
        first: u16,
        last: u16,
    },
    /// The line has so many readings, two or more.
    Disputed {
        component: u8,
        line: u16,
        readings: usize,
    },
}
