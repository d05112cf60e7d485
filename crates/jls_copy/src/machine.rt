//! A copy, byte after byte.

ghost use Rattle.std.specs.Prelude.{◌≡◌, ◌+◌, ◌^◌, ◌∷◌, [], ◌<◌, ◌≤◌, ℕ, OnOk, IfOk, IfSome, true, Some, List, length};
ghost use Rattle.jls_copy.specs.ReaderState as state;
ghost use Rattle.jls_copy.specs.Machine.{IsMachine, IsWholeSegment, Takes, state_of};
ghost use Rattle.jls_copy.specs.Findings.{AddsBy, AddsCut, HoldsShape};
ghost use Rattle.jls_values.specs.Shape.{PictureShape};
ghost use Rattle.jls_copy.specs.Sound.{IsPlace, IsOpenPiece, IsOfFrame};
ghost use Rattle.jls_copy.specs.declared.place.CopyPosition.TheVariants.{Start, AtMarker, InPayload};
ghost use Rattle.jls_copy.specs.declared.piece.ClosedBy.TheVariants.{Marker};

use crate::end::End;
use crate::fill::fill_len;
use crate::findings::Findings;
use crate::piece::ClosedBy;
use crate::place::CopyPosition;
use crate::scan::{OpenScan, ScanStep};
use jls_marker::codes::{EOI, SOI};
use jls_marker::{Headers, MarkerFault, has_segment};
use std::alloc::{AllocError, Global};

/// What is kept of a copy between one byte and the next.
#[derive(Drop)]
pub(crate) struct Machine {
    pub(crate) alloc: Global,
    /// How many bytes were fed.
    pub(crate) count: u64,
    pub(crate) place: CopyPosition,
    pub(crate) headers: Headers,
    /// The payload of a segment that isn't whole.
    pub(crate) payload: Vec<u8>,
    pub(crate) findings: Findings,
}

/// Takes what the piece in hand of a scan gives, which is closed so. The piece that stays was fed nothing.
fn close(
    alloc: Global,
    headers: &Headers,
    findings: &mut Findings,
    scan: &mut OpenScan,
    by: ClosedBy,
) -> Result<(), AllocError>
    requires count { findings.old.record_count < 2 ^ 63 }
    requires sound { IsOpenPiece scan.old.plan scan.old.piece }
    requires scan { IsOfFrame headers.now.frame scan.old.plan }
    requires held { (shape : PictureShape) → headers.now.frame ≡ Some shape → HoldsShape findings.old.partial shape }
    ensures rest { scan.new ≡ record scan.old { piece = scan.new.piece } }
    ensures found { OnOk result (AddsBy by headers.now.frame (state.found scan.old ∷ []) findings.old findings.new) }
{
    let fed = scan.close();
    match headers.shape() {
        None => unreachable!(),
        Some(shape) => match by {
            ClosedBy::Marker => findings.close(alloc, shape, &scan.plan, fed),
            ClosedBy::Input => findings.close_cut(alloc, shape, &scan.plan, fed),
        },
    }
}

/// Takes what the piece in hand of a scan gives, which a marker closes.
fn close_at_marker(
    alloc: Global,
    headers: &Headers,
    findings: &mut Findings,
    scan: &mut OpenScan,
) -> Result<(), AllocError>
    requires count { findings.old.record_count < 2 ^ 63 }
    requires sound { IsOpenPiece scan.old.plan scan.old.piece }
    requires scan { IsOfFrame headers.now.frame scan.old.plan }
    requires held { (shape : PictureShape) → headers.now.frame ≡ Some shape → HoldsShape findings.old.partial shape }
    ensures rest { scan.new ≡ record scan.old { piece = scan.new.piece } }
    ensures found { OnOk result (AddsBy Marker headers.now.frame (state.found scan.old ∷ []) findings.old findings.new) }
{
    close(alloc, headers, findings, scan, ClosedBy::Marker)
}

/// The size of the segment with which these bytes begin, where its marker has one FF and all its bytes are there. The size counts the
/// payload and the two bytes of the length.
fn whole_segment_size(bytes: &[u8]) -> Option<u16>
    ensures { IfSome result (IsWholeSegment bytes.now) }
{
    let [0xff, code, high, low, rest @ ..] = bytes else {
        return None;
    };
    let size = u16::from_be_bytes([*high, *low]);
    if has_segment(*code) && size >= 2 && rest.len() + 2 >= usize::from(size) {
        Some(size)
    } else {
        None
    }
}

impl Machine {
    /// A second machine that was fed the same bytes.
    pub(crate) fn try_clone(&self) -> Result<Machine, AllocError>
        ensures state { IfOk result (λ clone. state_of clone ≡ state_of self.now) }
        ensures picture { IfOk result (λ clone. clone.findings.partial ≡ self.now.findings.partial) }
        ensures records { IfOk result (λ clone. clone.findings.records.items ≡ self.now.findings.records.items) }
        ensures record_count { IfOk result (λ clone. clone.findings.record_count ≡ self.now.findings.record_count) }
    {
        let place = self.place.try_clone()?;
        let payload = Vec::from_slice(self.alloc, &self.payload)?;
        let findings = self.findings.try_clone(self.alloc)?;
        Ok(Machine {
            alloc: self.alloc,
            count: self.count,
            place,
            headers: self.headers.to_owned(),
            payload,
            findings,
        })
    }

    /// Takes a byte before SOI.
    fn step_at_start(&mut self, fill: bool, byte: u8)
        requires { fill ≡ true → 1 ≤ self.old.count }
        ensures { self.new ≡ record self.old { place = state.from_start fill self.old.count byte } }
    {
        if byte == 0xff {
            self.place = CopyPosition::Start(true);
        } else if !fill {
            self.place = CopyPosition::Done(End::Header(MarkerFault::NoSoi, self.count));
        } else if byte == SOI {
            self.place = CopyPosition::AtMarker(false);
        } else {
            self.place = CopyPosition::Done(End::Header(MarkerFault::NoSoi, self.count - 1));
        }
    }

    /// Takes a byte where a marker may begin.
    fn step_at_marker(&mut self, fill: bool, has_frame: bool, byte: u8)
        requires { fill ≡ true → 1 ≤ self.old.count }
        ensures { self.new ≡ record self.old { place = state.from_marker fill has_frame self.old.count byte } }
    {
        if byte == 0xff {
            self.place = CopyPosition::AtMarker(true);
            return;
        }
        if !fill {
            self.place = CopyPosition::Done(End::Header(MarkerFault::NoMarker, self.count));
            return;
        }
        let marker = self.count - 1;
        if byte == EOI {
            if has_frame {
                self.place = CopyPosition::Done(End::Eoi(marker));
            } else {
                self.place = CopyPosition::Done(End::Header(MarkerFault::NoFrame, marker));
            }
        } else if has_segment(byte) {
            self.place = CopyPosition::AtLength { marker, code: byte };
        } else {
            self.place = CopyPosition::Done(End::Header(MarkerFault::UnknownMarker, marker));
        }
    }

    /// Takes the segment whose payload is whole. `marker` is the offset of its marker, and `before_last` that of its last byte.
    fn take_segment(&mut self, marker: u64, code: u8, before_last: u64)
        requires { before_last < 2 ^ 63 }
        ensures place { self.new.place ≡ (state.with_segment before_last self.old.headers self.old.payload.items marker code).place }
        ensures headers { self.new.headers
            ≡ (state.with_segment before_last self.old.headers self.old.payload.items marker code).headers }
        ensures count { self.new.count ≡ self.old.count }
        ensures payload { self.new.payload.items ≡ self.old.payload.items }
        ensures findings { self.new.findings ≡ self.old.findings }
        ensures sound { (payload : List ℕ) → IsPlace self.new.headers.frame self.new.place payload }
    {
        let index = self.headers.scans();
        match self.headers.take(code, &self.payload) {
            Err(fault) => {
                self.place = CopyPosition::Done(End::Header(fault, marker));
            }
            Ok(None) => {
                self.place = CopyPosition::AtMarker(false);
            }
            Ok(Some(plan)) => {
                let scan = OpenScan::open(self.alloc, index, plan, before_last + 1);
                self.place = CopyPosition::InScan(scan);
            }
        }
    }

    /// Takes the first of these bytes before SOI, or all fill among them, and says how many.
    fn take_at_start(&mut self, fill: bool, bytes: &[u8]) -> usize
        requires some { 0 < length bytes.now }
        requires following { fill ≡ true → 1 ≤ self.old.count }
        requires place { self.old.place ≡ Start fill }
        requires header_bytes { length self.old.payload.items ≤ 65535 }
        ensures { Takes self.old bytes.now self.new result }
    {
        if fill {
            let count = fill_len(bytes);
            if count > 0 {
                return count;
            }
        }
        self.step_at_start(fill, bytes[0]);
        1
    }

    /// Takes the first of these bytes where a marker may begin, or all fill among them, or a whole segment, and says how many.
    fn take_at_marker(&mut self, fill: bool, bytes: &[u8]) -> Result<usize, AllocError>
        requires some { 0 < length bytes.now }
        requires few { self.old.count + length bytes.now < 2 ^ 63 }
        requires following { 1 ≤ self.old.count }
        requires place { self.old.place ≡ AtMarker fill }
        requires header_bytes { length self.old.payload.items ≤ 65535 }
        ensures { IfOk result (Takes self.old bytes.now self.new) }
    {
        if let Some(size) = whole_segment_size(bytes) {
            let end = usize::from(size) + 2;
            self.payload.clear();
            self.payload.extend_from_slice(&bytes[4..end])?;
            self.take_segment(self.count, bytes[1], self.count + end as u64 - 1);
            return Ok(end);
        }
        if fill {
            let count = fill_len(bytes);
            if count > 0 {
                return Ok(count);
            }
        }
        let has_frame = self.headers.shape().is_some();
        self.step_at_marker(fill, has_frame, bytes[0]);
        Ok(1)
    }

    /// Begins the payload of a segment whose length was read. One without a payload is taken.
    #[tactic(auto, using(crate::proofs::Kept::length_keeps))]
    fn length_known(&mut self, marker: u64, code: u8, size: u16)
        requires { self.old.count < 2 ^ 63 }
        ensures place { self.new.place ≡ (state.length_known self.old.count self.old.headers marker code size).place }
        ensures headers { self.new.headers ≡ (state.length_known self.old.count self.old.headers marker code size).headers }
        ensures count { self.new.count ≡ self.old.count }
        ensures payload { self.new.payload.items ≡ (state.length_known self.old.count self.old.headers marker code size).payload }
        ensures header_bytes { length self.new.payload.items ≤ 65535 }
        ensures findings { self.new.findings ≡ self.old.findings }
        ensures sound { IsPlace self.new.headers.frame self.new.place self.new.payload.items }
    {
        self.payload.clear();
        if size < 2 {
            self.place = CopyPosition::Done(End::Header(MarkerFault::Length, marker));
        } else if size == 2 {
            self.take_segment(marker, code, self.count);
        } else {
            self.place = CopyPosition::InPayload { marker, code, size };
        }
    }

    /// Takes bytes of a payload, up to its end at most, and says how many. A segment that is whole then is taken.
    fn take_in_payload(
        &mut self,
        marker: u64,
        code: u8,
        size: u16,
        bytes: &[u8],
    ) -> Result<usize, AllocError>
        requires some { 0 < length bytes.now }
        requires few { self.old.count + length bytes.now < 2 ^ 63 }
        requires place { self.old.place ≡ InPayload marker code size }
        requires sound { length self.old.payload.items + 2 < size }
        ensures { IfOk result (Takes self.old bytes.now self.new) }
    {
        let lacking = usize::from(size) - 2 - self.payload.len();
        let count = lacking.min(bytes.len());
        self.payload.extend_from_slice(&bytes[..count])?;
        if count < lacking {
            return Ok(count);
        }
        self.take_segment(marker, code, self.count + count as u64 - 1);
        Ok(count)
    }

    /// Takes the first of these bytes, or as many as can be taken at once, and says how many. All is done but their count.
    pub(crate) fn take(&mut self, bytes: &[u8]) -> Result<usize, AllocError>
        requires some { 0 < length bytes.now }
        requires few { self.old.count + length bytes.now < 2 ^ 63 }
        requires machine { IsMachine self.old }
        ensures { IfOk result (Takes self.old bytes.now self.new) }
    {
        match &mut self.place {
            CopyPosition::Start(fill) => {
                let fill = *fill;
                Ok(self.take_at_start(fill, bytes))
            }
            CopyPosition::AtMarker(fill) => {
                let fill = *fill;
                self.take_at_marker(fill, bytes)
            }
            CopyPosition::AtLength { marker, code } => {
                let (marker, code, high) = (*marker, *code, bytes[0]);
                self.place = CopyPosition::InLength { marker, code, high };
                Ok(1)
            }
            CopyPosition::InLength { marker, code, high } => {
                let (marker, code, high) = (*marker, *code, *high);
                let size = u16::from_be_bytes([high, bytes[0]]);
                self.length_known(marker, code, size);
                Ok(1)
            }
            CopyPosition::InPayload { marker, code, size } => {
                let (marker, code, size) = (*marker, *code, *size);
                self.take_in_payload(marker, code, size, bytes)
            }
            CopyPosition::InScan(scan) => match scan.take(bytes)? {
                ScanStep::Data(count) => Ok(count),
                ScanStep::Restart(mark) => {
                    close_at_marker(self.alloc, &self.headers, &mut self.findings, scan)?;
                    scan.begin(self.alloc, mark, self.count + 1);
                    Ok(1)
                }
                ScanStep::End => {
                    close_at_marker(self.alloc, &self.headers, &mut self.findings, scan)?;
                    self.step_at_marker(true, true, bytes[0]);
                    Ok(1)
                }
            },
            CopyPosition::Done(_) => Ok(bytes.len()),
        }
    }

    /// The input ends. Where it does is the answer.
    pub(crate) fn finish(&mut self) -> Result<End, AllocError>
        requires { IsMachine self.old }
        ensures end { IfOk result (λ e. e ≡ state.end_at self.old.place self.old.count) }
        ensures found { OnOk result (AddsCut self.old.headers.frame (state.closed_at_end self.old.place)
            self.old.findings self.new.findings) }
        ensures headers { OnOk result (self.new.headers ≡ self.old.headers) }
    {
        match &mut self.place {
            CopyPosition::Start(_) | CopyPosition::AtMarker(true) => Ok(End::Header(
                MarkerFault::Ended,
                self.count,
            )),
            CopyPosition::AtMarker(false) => Ok(End::Input(self.count)),
            CopyPosition::AtLength { .. }
            | CopyPosition::InLength { .. }
            | CopyPosition::InPayload { .. } => { Ok(End::Header(MarkerFault::Ended, self.count)) }
            CopyPosition::InScan(scan) => {
                close(
                    self.alloc,
                    &self.headers,
                    &mut self.findings,
                    scan,
                    ClosedBy::Input,
                )?;
                Ok(End::Input(self.count))
            }
            CopyPosition::Done(end) => Ok(*end),
        }
    }
}
