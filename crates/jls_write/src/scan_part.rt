//! A scan of a file in work.

ghost use Rattle.jls_write.specs.Parts.{scan_from};
ghost use Rattle.jls_write.specs.Parts as parts;
ghost use Rattle.jls_write.specs.Options as written;
ghost use Rattle.jls_values.specs.Shape.{IsShape};
ghost use Rattle.jls_marker.specs.Scan.{intervals, first_row, row_count};
ghost use Rattle.std.specs.Prelude.{◌≡◌, ◌+◌, ◌<◌, ◌≤◌};

use crate::options::Options;
use crate::picture::Picture;

/// How many scans a picture is written as.
pub(crate) fn scan_count(picture: &Picture<'_>, options: &Options) -> u8
    ensures value { result ≡ parts.scan_count picture.now options.now }
    ensures ranges { IsShape picture.now.shape }
{
    let components = picture.shape().ids().len() as u8;
    if options.line() { 1 } else { components }
}

/// How many components each scan of a picture has.
pub(crate) fn components_of_scan(picture: &Picture<'_>, options: &Options) -> u8
    ensures { result ≡ written.components_of_scan picture.now.shape options.now }
{
    options.components_of_scan(picture.shape())
}

/// The scan of `count` components of a picture, from the one with the index `first` on.
#[derive(Clone, Copy)]
pub(crate) struct ScanPart<'a, 'b> {
    pub picture: &'a Picture<'b>,
    pub options: Options,
    pub first: u8,
    pub count: u8,
}

impl<'a, 'b> ScanPart<'a, 'b> {
    /// How many restart intervals the scan has.
    pub(crate) fn intervals(&self) -> u32
        ensures value { result ≡ intervals (scan_from self.now.picture.now self.now.options self.now.first self.now.count) }
        ensures few { result ≤ 65535 }
    {
        let height = u32::from(self.picture.shape().height());
        let rows = u32::from(self.options.restart_interval());
        if rows == 0 { 1 } else { height.div_ceil(rows) }
    }

    /// The first row of an interval, and the row after its last.
    pub(crate) fn row_range(&self, interval: u32) -> (u16, u16)
        requires { interval < intervals (scan_from self.now.picture.now self.now.options self.now.first self.now.count) }
        ensures first { result.0 ≡ first_row (scan_from self.now.picture.now self.now.options self.now.first self.now.count) interval }
        ensures end { result.1
            ≡ result.0 + row_count (scan_from self.now.picture.now self.now.options self.now.first self.now.count) interval }
        ensures within { result.1 ≤ self.now.picture.now.shape.height }
    {
        let height = u32::from(self.picture.shape().height());
        let rows = u32::from(self.options.restart_interval());
        let first = interval * rows;
        let count = if rows == 0 {
            height
        } else {
            rows.min(height - first)
        };
        (first as u16, (first + count) as u16)
    }
}
