//! Scans and their restart intervals.

use arrayvec::ArrayVec;
use jls_values::{Params, Shape};
use std::marker::Model;

/// A scan that has begun: its components, the parameters in force, and how its rows are parted into restart intervals. A row is
/// one line of each component.
#[derive(Drop)]
pub struct ScanPlan {
    components: ArrayVec<u8, 4>,
    params: Params,
    width: u16,
    height: u16,
    restart_interval: u32,
    by_sample: bool,
}

impl Model for ScanPlan {
    ghost use Rattle.jls_marker.specs.Scan.{Scan, IsScan};

    ghost Value = { Scan };

    ghost view = { λ s. record {
      components = s.components.items;
      params = s.params;
      width = s.width;
      height = s.height;
      restart_interval = s.restart_interval;
      by_sample = s.by_sample;
    } };

    ghost invariant = { λ s. IsScan (record {
      components = s.components.items;
      params = s.params;
      width = s.width;
      height = s.height;
      restart_interval = s.restart_interval;
      by_sample = s.by_sample;
    }) };
}

impl ScanPlan {
    ghost use Rattle.std.specs.Prelude.{◌≡◌, ◌<◌, ◌≤◌, ◌*◌, ◌^◌, length};
    ghost use Rattle.std.specs.List.{AllByRecursion};
    ghost use Rattle.jls_values.specs.Params.{AreCodingParameters};
    ghost use Rattle.jls_marker.specs.Scan.{IsScan, first_row, row_count, intervals, scan_by};

    /// The scan of these components of a frame, none of whose intervals has more than 2^28 samples. The restart interval is in rows; with 0
    /// the scan is one interval (T.87 C.2.5). `by_sample` says whether the components are interleaved by sample.
    pub(crate) fn new(
        frame: &Shape,
        components: ArrayVec<u8, 4>,
        params: Params,
        restart_interval: u32,
        by_sample: bool,
    ) -> ScanPlan
        requires params { AreCodingParameters params }
        requires at_least { 1 ≤ length components.items }
        requires at_most { length components.items ≤ 4 }
        requires bytes { AllByRecursion (λ c. c < 256) components.items }
        requires samples { frame.now.width * length components.items
            * row_count (scan_by by_sample frame.now components.items params restart_interval) 0 ≤ 2 ^ 28 }
        ensures { result ≡ scan_by by_sample frame.now components.items params restart_interval }
    {
        ScanPlan {
            components,
            params,
            width: frame.width(),
            height: frame.height(),
            restart_interval,
            by_sample,
        }
    }

    /// A second plan of the same scan. It takes no memory.
    pub fn to_owned(&self) -> ScanPlan
        ensures { result ≡ self.now }
    {
        ScanPlan {
            components: ArrayVec::try_from(self.components.as_slice()).unwrap(),
            params: self.params,
            width: self.width,
            height: self.height,
            restart_interval: self.restart_interval,
            by_sample: self.by_sample,
        }
    }

    /// The components of the scan in the order in which they take turns, as indices in the frame, from 0.
    pub fn components(&self) -> &[u8]
        ensures value { result.now ≡ self.now.components }
        ensures ranges { IsScan self.now }
    {
        &self.components
    }

    /// The coding parameters in force.
    pub fn params(&self) -> Params
        ensures value { result ≡ self.now.params }
        ensures ranges { IsScan self.now }
    {
        self.params
    }

    /// Samples in a line.
    pub fn width(&self) -> u16
        ensures value { result ≡ self.now.width }
        ensures ranges { IsScan self.now }
    {
        self.width
    }

    /// Whether the components are interleaved by sample (ILV 2).
    pub fn by_sample(&self) -> bool
        ensures value { result ≡ self.now.by_sample }
        ensures ranges { IsScan self.now }
    {
        self.by_sample
    }

    /// How many restart intervals the scan has, from 1 to 65,535.
    pub fn intervals(&self) -> u32
        ensures value { result ≡ intervals self.now }
        ensures ranges { IsScan self.now }
    {
        let height = u32::from(self.height);
        if self.restart_interval == 0 {
            1
        } else {
            height.div_ceil(self.restart_interval)
        }
    }

    /// The first row of an interval, and how many rows it has. The last interval may have fewer than the others.
    pub fn rows(&self, interval: u32) -> (u16, u16)
        requires { interval < intervals self.now }
        ensures first { result.0 ≡ first_row self.now interval }
        ensures count { result.1 ≡ row_count self.now interval }
        ensures ranges { IsScan self.now }
    {
        let height = u32::from(self.height);
        let first = interval * self.restart_interval;
        let count = if self.restart_interval == 0 {
            height
        } else {
            self.restart_interval.min(height - first)
        };
        (first as u16, count as u16)
    }
}
