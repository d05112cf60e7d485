//! What a copy gives: readings, and records of faulty pieces.

ghost use Rattle.std.specs.Prelude.{◌≡◌, ◌≢◌, ◌+◌, ◌*◌, ◌^◌, ◌≤◌, ◌<◌, ◌∷◌, [], ℕ, IfOk, OnOk, length, map, take, Some, None};
ghost use Rattle.jls_copy.specs.Findings.{with_readings, picture_of, HoldsShape, kept_with, Adds, AddsCut, IsKindOf};
ghost use Rattle.jls_copy.specs.Fits.{FitFrom};
ghost use Rattle.jls_partial.specs.InsertFaults.{reading_fault};
ghost use Rattle.jls_partial.specs.Partial.{with_reading};
ghost use Rattle.jls_copy.specs.Pieces.{placed};
ghost use Rattle.jls_interval.specs.Lines.{AreLines};
ghost use Rattle.jls_marker.specs.Scan.{IsScanOf, intervals, first_row, row_count};
ghost use Rattle.jls_copy.specs.ReaderState.{piece_found};
ghost use Rattle.jls_copy.specs.Sound.{IsOpenPiece};

use crate::piece::{FedPiece, OpenPiece, PieceKind, PieceRecord};
use jls_interval::PieceFault;
use jls_marker::ScanPlan;
use jls_partial::{InsertFault, Partial};
use jls_piece::{FinishedLines, PieceCutEnd};
use jls_values::{Merge, MergeFault, Shape};
use std::alloc::{AllocError, Global};

/// How many records are kept.
const MOST_RECORDS: usize = 4096;

/// The readings, the first records, and how many pieces are faulty.
#[derive(Drop)]
pub(crate) struct Findings {
    pub(crate) partial: Option<Partial>,
    pub(crate) records: Vec<PieceRecord>,
    pub(crate) record_count: u64,
    /// How many samples the taken lines had, for a strategy only.
    pub(crate) samples: u64,
}

/// A second picture with the same readings.
fn cloned_picture(alloc: Global, partial: &Partial) -> Result<Partial, AllocError>
    ensures { IfOk result (λ clone. clone ≡ partial.now) }
{
    let mut clone = Partial::empty(alloc, partial.shape().to_owned());
    match clone.merge(partial) {
        Ok(()) => Ok(clone),
        Err(MergeFault::OutOfMemory) => Err(AllocError),
        Err(MergeFault::ShapeDiffers) => unreachable!(),
    }
}

/// Takes a line that fits into the picture.
fn take_line(partial: &mut Partial, component: u8, row: u16, line: &[u16]) -> Result<(), AllocError>
    requires { reading_fault partial.old.shape component row line.now ≡ None }
    ensures { OnOk result (partial.new ≡ with_reading partial.old component row line.now) }
{
    match partial.insert(component, row, line) {
        Ok(_) => Ok(()),
        Err(InsertFault::OutOfMemory) => Err(AllocError),
        Err(_) => unreachable!(),
    }
}

/// Takes the lines of an interval whose first row this is. The memory of each is given back once it is taken.
fn take_lines(
    partial: &mut Partial,
    components: &[u8],
    first_row: u16,
    lines: Vec<Vec<u16>>,
) -> Result<(), AllocError>
    requires { FitFrom partial.old.shape components.now first_row 0 (map (λ line. line.items) lines.items) }
    ensures { OnOk result (partial.new
        ≡ with_readings partial.old (placed components.now first_row 0 (map (λ line. line.items) lines.items))) }
{
    let mut row = first_row;
    let mut place = 0;
    for line in lines {
        take_line(partial, components[place], row, &line)?;
        place += 1;
        if place == components.len() {
            place = 0;
            row += 1;
        }
    }
    Ok(())
}

/// The kind of a fault of a piece.
fn kind_of(fault: PieceFault) -> PieceKind
    requires { fault ≢ PieceFault.OutOfMemory }
    ensures { IsKindOf fault result }
{
    match fault {
        PieceFault::Long => PieceKind::Long,
        PieceFault::Broken => PieceKind::Broken,
        PieceFault::OutOfMemory => unreachable!(),
    }
}

impl Findings {
    /// Second findings of the same readings and records.
    pub(crate) fn try_clone(&self, alloc: Global) -> Result<Findings, AllocError>
        ensures picture { IfOk result (λ clone. clone.partial ≡ self.now.partial) }
        ensures records { IfOk result (λ clone. clone.records.items ≡ self.now.records.items) }
        ensures count { IfOk result (λ clone. clone.record_count ≡ self.now.record_count) }
    {
        let partial = match &self.partial {
            None => None,
            Some(partial) => Some(cloned_picture(alloc, partial)?),
        };
        Ok(Findings {
            partial,
            records: Vec::from_slice(alloc, &self.records)?,
            record_count: self.record_count,
            samples: self.samples,
        })
    }

    /// Keeps a record, if there is room for it, and counts it.
    fn note(&mut self, entry: PieceRecord) -> Result<(), AllocError>
        requires { self.old.record_count < 2 ^ 63 }
        ensures partial { OnOk result (self.new.partial ≡ self.old.partial) }
        ensures records { OnOk result (self.new.records.items ≡ kept_with self.old.records.items (entry ∷ [])) }
        ensures count { OnOk result (self.new.record_count ≡ self.old.record_count + 1) }
    {
        if self.records.len() < MOST_RECORDS {
            self.records.push(entry)?;
        }
        self.record_count += 1;
        Ok(())
    }

    /// Takes the first lines of an interval of a scan, or all.
    fn take(
        &mut self,
        alloc: Global,
        shape: &Shape,
        plan: &ScanPlan,
        interval: u32,
        lines: FinishedLines,
    ) -> Result<(), AllocError>
        requires interval { interval < intervals plan.now }
        requires scan { IsScanOf shape.now plan.now }
        requires lines { (count : ℕ) × (count ≤ row_count plan.now interval * length plan.now.components)
            × AreLines plan.now.params plan.now.width count lines }
        requires held { HoldsShape self.old.partial shape.now }
        ensures picture { OnOk result (self.new.partial ≡ Some (with_readings (picture_of shape.now self.old.partial)
            (placed plan.now.components (first_row plan.now interval) 0 lines))) }
        ensures records { OnOk result (self.new.records.items ≡ self.old.records.items) }
        ensures count { OnOk result (self.new.record_count ≡ self.old.record_count) }
    {
        let (first_row, _) = plan.rows(interval);
        let mut partial = match self.partial.take() {
            None => Partial::empty(alloc, shape.to_owned()),
            Some(partial) => partial,
        };
        // The lines are held already, so this asks for no more than what the bytes gave.
        partial.reserve(lines.len() as u32)?;
        let samples = (lines.len() as u64).saturating_mul(u64::from(plan.width()));
        take_lines(
            &mut partial,
            plan.components(),
            first_row,
            lines.into_vecs()?,
        )?;
        self.partial = Some(partial);
        self.samples = self.samples.saturating_add(samples);
        Ok(())
    }

    /// Takes what a whole piece of a scan gives.
    pub(crate) fn close(
        &mut self,
        alloc: Global,
        shape: &Shape,
        plan: &ScanPlan,
        fed: FedPiece,
    ) -> Result<(), AllocError>
        requires count { self.old.record_count < 2 ^ 63 }
        requires sound { IsOpenPiece plan.now fed.piece }
        requires scan { IsScanOf shape.now plan.now }
        requires held { HoldsShape self.old.partial shape.now }
        ensures { OnOk result (Adds (Some shape.now) (piece_found fed.scan plan.now fed.offset fed.piece ∷ []) self.old self.new) }
    {
        let FedPiece {
            scan,
            offset,
            piece,
        } = fed;
        match piece {
            OpenPiece::Beyond(interval) => self.note(PieceRecord {
                scan,
                interval,
                offset,
                kind: PieceKind::Beyond,
            }),
            OpenPiece::Within(interval, decoder) => match decoder.finish() {
                Ok(lines) => self.take(alloc, shape, plan, interval, lines),
                Err(PieceFault::OutOfMemory) => Err(AllocError),
                Err(fault) => self.note(PieceRecord {
                    scan,
                    interval,
                    offset,
                    kind: kind_of(fault),
                }),
            },
        }
    }

    /// Takes the lines of a head, and the record of its piece.
    fn take_head(
        &mut self,
        alloc: Global,
        shape: &Shape,
        plan: &ScanPlan,
        head: FinishedLines,
        entry: PieceRecord,
    ) -> Result<(), AllocError>
        requires count { self.old.record_count < 2 ^ 63 }
        requires interval { entry.interval < intervals plan.now }
        requires scan { IsScanOf shape.now plan.now }
        requires lines { (count : ℕ) × (count ≤ row_count plan.now entry.interval * length plan.now.components)
            × AreLines plan.now.params plan.now.width count head }
        requires held { HoldsShape self.old.partial shape.now }
        ensures picture { OnOk result (self.new.partial ≡ Some (with_readings (picture_of shape.now self.old.partial)
            (placed plan.now.components (first_row plan.now entry.interval) 0 head))) }
        ensures records { OnOk result (self.new.records.items ≡ kept_with self.old.records.items (entry ∷ [])) }
        ensures count { OnOk result (self.new.record_count ≡ self.old.record_count + 1) }
    {
        self.take(alloc, shape, plan, entry.interval, head)?;
        self.note(entry)
    }

    /// Takes what the piece of a scan gives that the input's end closes: where it gives no lines, those of its head.
    pub(crate) fn close_cut(
        &mut self,
        alloc: Global,
        shape: &Shape,
        plan: &ScanPlan,
        fed: FedPiece,
    ) -> Result<(), AllocError>
        requires count { self.old.record_count < 2 ^ 63 }
        requires sound { IsOpenPiece plan.now fed.piece }
        requires scan { IsScanOf shape.now plan.now }
        requires held { HoldsShape self.old.partial shape.now }
        ensures { OnOk result (AddsCut (Some shape.now) (piece_found fed.scan plan.now fed.offset fed.piece ∷ []) self.old self.new) }
    {
        // For the proof alone: the contract of `width` says that the plan is of a scan.
        let _width = plan.width();
        let FedPiece {
            scan,
            offset,
            piece,
        } = fed;
        match piece {
            OpenPiece::Beyond(interval) => self.note(PieceRecord {
                scan,
                interval,
                offset,
                kind: PieceKind::Beyond,
            }),
            OpenPiece::Within(interval, decoder) => match decoder.finish_cut()? {
                PieceCutEnd::Whole(lines) => self.take(alloc, shape, plan, interval, lines),
                PieceCutEnd::Head(head, fault) => {
                    let entry = PieceRecord {
                        scan,
                        interval,
                        offset,
                        kind: kind_of(fault),
                    };
                    self.take_head(alloc, shape, plan, head, entry)
                }
            },
        }
    }
}
