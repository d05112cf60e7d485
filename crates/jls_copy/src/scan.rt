//! Scan data, byte after byte.

ghost use Rattle.std.specs.Prelude.{◌≡◌, ◌+◌, ◌-◌, ◌^◌, ◌<◌, ◌≤◌, ◌∷◌, [], ◌++◌, IfOk, length, slice_index};
ghost use Rattle.jls_copy.specs.Numbers.{next_number as number_rule, number_after};
ghost use Rattle.jls_copy.specs.ScanData.{is_restart_code as restart_code, ends_scan_data as end_code};
ghost use Rattle.jls_copy.specs.ReaderState as state;
ghost use Rattle.jls_copy.specs.declared.scan.ByteClass.TheVariants.{Mark};
ghost use Rattle.jls_copy.specs.declared.scan.Held.TheVariants.{Nothing, One};
ghost use Rattle.jls_copy.specs.Sound.{IsOpenScan};
ghost use Rattle.jls_copy.specs.Stretch.{TakesStep};
ghost use Rattle.jls_marker.specs.Scan.{intervals};

use crate::cut_search::stretch_len;
use crate::piece::{FedPiece, OpenPiece};
use jls_marker::ScanPlan;
use jls_marker::codes::{APP0, APP15, COM, DRI, EOI, LSE, RST0, RST7, SOS};
use std::alloc::{AllocError, Global};

/// How many FF bytes stand at the end of what was fed.
#[derive(Clone, Copy)]
pub(crate) enum Held {
    Nothing,
    One,
    More,
}

/// What a byte of scan data does that stands after FF bytes.
#[derive(Clone, Copy)]
pub(crate) enum ByteClass {
    /// It may be fill.
    Fill,
    /// It closes a piece.
    Mark,
    /// It ends the scan data.
    Stop,
    /// It belongs to the piece.
    Data,
}

/// What came of bytes of scan data.
#[derive(Clone, Copy)]
pub(crate) enum ScanStep {
    /// So many were taken.
    Data(usize),
    /// The first is the code of RSTm, which closes the piece.
    Restart(u8),
    /// The first is the code of a marker that ends the scan data.
    End,
}

/// A scan whose data is fed byte after byte.
#[derive(Drop)]
pub(crate) struct OpenScan {
    pub(crate) index: u8,
    pub(crate) plan: ScanPlan,
    /// The number given last.
    pub(crate) last: u32,
    pub(crate) held: Held,
    /// The offset of the piece.
    pub(crate) offset: u64,
    pub(crate) piece: OpenPiece,
}

/// Whether the code is that of RST0 to RST7.
fn is_restart_code(code: u8) -> bool
    ensures { result ≡ restart_code code }
{
    code >= RST0 && code <= RST7
}

/// Whether a marker with this code ends scan data.
fn ends_scan_data(code: u8) -> bool
    ensures { result ≡ end_code code }
{
    code == EOI
        || code == SOS
        || code == DRI
        || code == LSE
        || code == COM
        || (code >= APP0 && code <= APP15)
}

/// What a byte of scan data does after FF bytes.
fn class_after(byte: u8) -> ByteClass
    ensures class { result ≡ state.class_of One byte }
    ensures mark { result ≡ Mark → (0xD0 ≤ byte) × (byte ≤ 0xD7) }
{
    if byte == 0xff {
        ByteClass::Fill
    } else if is_restart_code(byte) {
        ByteClass::Mark
    } else if ends_scan_data(byte) {
        ByteClass::Stop
    } else {
        ByteClass::Data
    }
}

/// The number of the piece after RSTm, where `last` was given last.
fn next_number(last: u32, mark: u8) -> u32
    requires mark { mark < 8 }
    requires last { last < 2 ^ 16 }
    ensures value { result ≡ number_rule last mark }
    ensures at_most { result ≤ last + 8 }
{
    last + 1 + (u32::from(mark) + 8 - last % 8) % 8
}

impl OpenScan {
    /// The scan at its first piece.
    pub(crate) fn open(alloc: Global, index: u8, plan: ScanPlan, offset: u64) -> OpenScan
        ensures opened { result ≡ state.scan_opened index plan offset }
        ensures sound { IsOpenScan result }
    {
        let piece = OpenPiece::open(alloc, &plan, 0);
        OpenScan {
            index,
            plan,
            last: 0,
            held: Held::Nothing,
            offset,
            piece,
        }
    }

    /// A second scan that was fed the same bytes.
    pub(crate) fn try_clone(&self) -> Result<OpenScan, AllocError>
        ensures { IfOk result (λ clone. clone ≡ self.now) }
    {
        let piece = self.piece.try_clone()?;
        Ok(OpenScan {
            index: self.index,
            plan: self.plan.to_owned(),
            last: self.last,
            held: self.held,
            offset: self.offset,
            piece,
        })
    }

    /// Takes the first of these bytes after FF bytes. If it is data, the piece is fed these FF bytes with it, which is `fed`.
    fn take_after(&mut self, bytes: &[u8], fed: &[u8]) -> Result<ScanStep, AllocError>
        requires some { 0 < length bytes.now }
        requires held { self.old.held ≡ Nothing → ⊥ }
        requires fed { fed.now ≡ state.held_bytes self.old.held ++ slice_index bytes.now 0 ∷ [] }
        ensures { IfOk result (λ step. TakesStep self.old bytes.now self.new step) }
    {
        match class_after(bytes[0]) {
            ByteClass::Fill => {
                self.held = Held::More;
                Ok(ScanStep::Data(1))
            }
            ByteClass::Data => {
                self.held = Held::Nothing;
                match &mut self.piece {
                    OpenPiece::Within(_, decoder) => decoder.push_all(fed)?,
                    OpenPiece::Beyond(_) => {}
                }
                Ok(ScanStep::Data(1))
            }
            ByteClass::Mark => Ok(ScanStep::Restart(bytes[0] - RST0)),
            ByteClass::Stop => Ok(ScanStep::End),
        }
    }

    /// Takes the first of these bytes, or as many as the piece can be fed at once, and says what came of them. The code of a marker is
    /// left to the caller, since it closes the piece.
    pub(crate) fn take(&mut self, bytes: &[u8]) -> Result<ScanStep, AllocError>
        requires { 0 < length bytes.now }
        ensures { IfOk result (λ step. TakesStep self.old bytes.now self.new step) }
    {
        match self.held {
            Held::Nothing => {
                let count = stretch_len(bytes);
                if count == 0 {
                    self.held = Held::One;
                    return Ok(ScanStep::Data(1));
                }
                match &mut self.piece {
                    OpenPiece::Within(_, decoder) => decoder.push_all(&bytes[..count])?,
                    OpenPiece::Beyond(_) => {}
                }
                Ok(ScanStep::Data(count))
            }
            Held::One => self.take_after(bytes, &[0xff, bytes[0]]),
            Held::More => self.take_after(bytes, &[0xff, 0xff, bytes[0]]),
        }
    }

    /// Gives the piece as it was fed. What stays of it was fed nothing.
    pub(crate) fn close(&mut self) -> FedPiece
        ensures fed { result ≡ record { scan = self.old.index; offset = self.old.offset; piece = self.old.piece } }
        ensures rest { self.new ≡ record self.old { piece = self.new.piece } }
    {
        FedPiece {
            scan: self.index,
            offset: self.offset,
            piece: self.piece.take(),
        }
    }

    /// Begins the piece after RSTm at this offset.
    pub(crate) fn begin(&mut self, alloc: Global, mark: u8, offset: u64)
        requires mark { mark < 8 }
        requires last { self.old.last < intervals self.old.plan }
        ensures scan { self.new ≡ state.scan_after self.old (number_after (intervals self.old.plan) self.old.last mark) offset }
        ensures sound { IsOpenScan self.new }
    {
        let count = self.plan.intervals();
        let number = next_number(self.last, mark);
        self.piece = OpenPiece::open(alloc, &self.plan, number);
        if number < count {
            self.last = number;
        }
        self.held = Held::Nothing;
        self.offset = offset;
    }
}
