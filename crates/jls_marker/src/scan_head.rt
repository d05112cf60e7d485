//! Scan headers.

use crate::fault::MarkerFault;
use arrayvec::ArrayVec;
use jls_values::has_repeat;
use std::marker::Model;

/// A scan header of lossless coding (ITU-T T.87, C.2.3). It has the identifiers of the scan's components, in the order in which they take
/// turns. It says whether they are interleaved by line or by sample.
#[derive(PartialEq, Eq, Drop)]
pub struct ScanHead {
    ids: ArrayVec<u8, 4>,
    line: bool,
    by_sample: bool,
}

impl Model for ScanHead {
    ghost use Rattle.jls_marker.specs.ScanSelection.{ScanSelection, IsScanSelection};

    ghost Value = { ScanSelection };

    ghost view = { λ h. record { ids = h.ids.items; line = h.line; by_sample = h.by_sample } };

    ghost invariant = { λ h. IsScanSelection (record { ids = h.ids.items; line = h.line; by_sample = h.by_sample }) };

    ghost inverse = { λ s. record { ids = record { items = s.ids }; line = s.line; by_sample = s.by_sample } };
}

impl ScanHead {
    ghost use Rattle.std.specs.Prelude.{◌≡◌, ◌≤◌, ◌<◌, false, true, length};
    ghost use Rattle.jls_values.specs.Shape.{has_repeat};
    ghost use Rattle.jls_marker.specs.ScanSelection.{IsScanSelection, selection_of, sample_selection_of};

    /// The header of a scan of these components, not interleaved by sample. The refusals come in this order. `Length` comes if there
    /// aren't one to four, and `RepeatedComponent` if one stands twice. `Interleave` comes if there is more than one and they aren't
    /// interleaved by line.
    pub fn new(ids: &[u8], line: bool) -> Result<ScanHead, MarkerFault>
        ensures { result ≡ selection_of ids.now line }
    {
        if ids.is_empty() || ids.len() > 4 {
            return Err(MarkerFault::Length);
        }
        if has_repeat(ids) {
            return Err(MarkerFault::RepeatedComponent);
        }
        if ids.len() > 1 && !line {
            return Err(MarkerFault::Interleave);
        }
        Ok(ScanHead::of(ids, line, false))
    }

    /// The header of a scan of these components that is interleaved by sample. The refusals come in this order. `Length` comes if there
    /// aren't one to four, and `RepeatedComponent` if one stands twice. `Interleave` comes if there is only one.
    pub fn new_by_sample(ids: &[u8]) -> Result<ScanHead, MarkerFault>
        ensures { result ≡ sample_selection_of ids.now }
    {
        if ids.is_empty() || ids.len() > 4 {
            return Err(MarkerFault::Length);
        }
        if has_repeat(ids) {
            return Err(MarkerFault::RepeatedComponent);
        }
        if ids.len() == 1 {
            return Err(MarkerFault::Interleave);
        }
        Ok(ScanHead::of(ids, false, true))
    }

    /// The header of a scan of these components.
    pub(crate) fn of(ids: &[u8], line: bool, by_sample: bool) -> ScanHead
        requires at_least { 1 ≤ length ids.now }
        requires at_most { length ids.now ≤ 4 }
        requires differ { has_repeat ids.now ≡ false }
        requires interleaved { 1 < length ids.now → by_sample ≡ false → line ≡ true }
        requires not_both { by_sample ≡ true → line ≡ false }
        requires several { by_sample ≡ true → 1 < length ids.now }
        ensures { result ≡ record { ids = ids.now; line = line; by_sample = by_sample } }
    {
        ScanHead {
            ids: ArrayVec::try_from(ids).unwrap(),
            line,
            by_sample,
        }
    }

    /// The identifiers of the components, in the order of the scan.
    pub fn ids(&self) -> &[u8]
        ensures value { result.now ≡ self.now.ids }
        ensures ranges { IsScanSelection self.now }
    {
        &self.ids
    }

    /// Whether ILV is 1, interleaved by line. A scan of one component is coded alike with 0.
    pub fn line(&self) -> bool
        ensures { result ≡ self.now.line }
    {
        self.line
    }

    /// Whether ILV is 2, interleaved by sample. Such a scan has more than one component.
    pub fn by_sample(&self) -> bool
        ensures value { result ≡ self.now.by_sample }
        ensures ranges { IsScanSelection self.now }
    {
        self.by_sample
    }
}
