//! The lines of a piece, from bytes that come a few at a time.

ghost use Rattle.std.specs.Prelude.{◌≡◌, ◌<◌, ◌++◌, ℕ, List, true, None, Err, IsSome, OnOk, OnErr};
ghost use Rattle.std.specs.Prelude.{IsErr, IfOk, IfSome, IfNone, MatchOption, MatchResult};
ghost use Rattle.std.specs.Option.{option_map};
ghost use Rattle.jls_interval.specs.declared.decode_piece.PieceFault.TheVariants as PieceFault;
ghost use Rattle.jls_pixel.specs.PixelBytes.{pixels_asked};
ghost use Rattle.jls_piece.specs.Lines.{pixel_piece, lines_of};
ghost use Rattle.jls_piece.specs.Reads.{Reads, ReadsNoMore};
ghost use Rattle.jls_piece.specs.PieceFaults.{OutcomeIs, line_fault};
ghost use Rattle.jls_piece.specs.CutEnds.{CutEndIs, cut_of_line};
ghost use Rattle.jls_piece.specs.PieceBytes.{unfed, piece_asked};

use crate::cut_end::PieceCutEnd;
use crate::finished_lines::FinishedLines;
use crate::planned_piece::PlannedPiece;
use crate::row_lines::row_lines;
use jls_interval::{IntervalDecoder, PieceFault};
use jls_pixel::{FinishedRows, PixelCutEnd, PixelDecoder, PixelFault};
use std::alloc::{AllocError, Global};
use std::marker::Model;

/// A decoder of either kind. Both have about the same size, so that neither pays for the other.
#[derive(Drop)]
pub(crate) enum KindOfDecoder {
    ByLine(IntervalDecoder),
    /// By sample, with the number of components.
    BySample(u8, PixelDecoder),
}

/// Reads a piece whose bytes come a few at a time, by line or by sample. A contract sees the shape of the piece and the bytes so far. Once
/// memory is refused, every call answers that, and no bytes are seen any more. By line each call does what that of `IntervalDecoder` does.
#[derive(Drop)]
pub struct PieceDecoder {
    alloc: Global,
    kind: KindOfDecoder,
}

impl Model for PieceDecoder {
    ghost use Rattle.jls_piece.specs.PieceBytes.{PieceBytes, bytes_given, HasComponents};

    ghost Value = { PieceBytes };

    ghost view = { λ d. bytes_given d.kind };

    ghost invariant = { λ d. HasComponents d.kind };
}

/// A fault of rows as one of lines.
fn line_fault(fault: PixelFault) -> PieceFault
    ensures { result ≡ line_fault fault }
{
    match fault {
        PixelFault::Long => PieceFault::Long,
        PixelFault::Broken => PieceFault::Broken,
        PixelFault::OutOfMemory => PieceFault::OutOfMemory,
    }
}

/// The lines of finished rows.
fn finished_lines(
    alloc: Global,
    components: u8,
    rows: FinishedRows,
) -> Result<FinishedLines, AllocError>
    ensures { IfOk result (λ lines. lines ≡ lines_of components rows) }
{
    let lines = row_lines(alloc, components, rows.into_vecs()?)?;
    Ok(FinishedLines::by_sample(lines))
}

/// The lines that a decoder by sample has read, or why there are none.
fn read_lines(
    alloc: Global,
    components: u8,
    decoder: PixelDecoder,
) -> Result<FinishedLines, PieceFault>
    requires components { components ≡ decoder.components }
    requires some { 0 < components }
    ensures outcome { MatchOption decoder.bytes (result ≡ Err PieceFault.OutOfMemory)
        (λ bytes. OutcomeIs (pixel_piece (pixels_asked decoder)) bytes result) }
    ensures read { IfSome decoder.bytes (λ bytes. (lines : List (List ℕ)) → Reads (pixel_piece (pixels_asked decoder)) bytes lines
        → MatchResult result (λ found. found ≡ lines) (λ fault. fault ≡ PieceFault.OutOfMemory)) }
{
    match decoder.finish() {
        Err(fault) => Err(line_fault(fault)),
        Ok(rows) => match finished_lines(alloc, components, rows) {
            Err(AllocError) => Err(PieceFault::OutOfMemory),
            Ok(lines) => Ok(lines),
        },
    }
}

/// The end of a piece by line, over lines of either kind.
fn line_cut_end(end: jls_interval::CutEnd) -> PieceCutEnd
    ensures { result ≡ cut_of_line end }
{
    match end {
        jls_interval::CutEnd::Whole(lines) => PieceCutEnd::Whole(FinishedLines::by_line(lines)),
        jls_interval::CutEnd::Head(lines, fault) => {
            PieceCutEnd::Head(FinishedLines::by_line(lines), fault)
        }
    }
}

/// The lines that a decoder by sample gives where the input ends.
fn cut_lines(
    alloc: Global,
    components: u8,
    decoder: PixelDecoder,
) -> Result<PieceCutEnd, AllocError>
    requires components { components ≡ decoder.components }
    requires some { 0 < components }
    ensures refused { IfNone decoder.bytes (IsErr result) }
    ensures cut_end { IfSome decoder.bytes (λ bytes. IfOk result (CutEndIs (pixel_piece (pixels_asked decoder)) bytes)) }
{
    match decoder.finish_cut()? {
        PixelCutEnd::Whole(rows) => Ok(PieceCutEnd::Whole(finished_lines(
            alloc, components, rows,
        )?)),
        PixelCutEnd::Head(rows, fault) => {
            let lines = finished_lines(alloc, components, rows)?;
            Ok(PieceCutEnd::Head(lines, line_fault(fault)))
        }
    }
}

impl PieceDecoder {
    /// A decoder that was given nothing. It takes no memory yet.
    pub fn new(alloc: Global, planned: PlannedPiece) -> PieceDecoder
        ensures { result ≡ unfed planned }
    {
        let PlannedPiece {
            params,
            width,
            components,
            rows,
            by_sample,
        } = planned;
        if by_sample {
            let decoder = PixelDecoder::new(alloc, &params, width, components, rows);
            PieceDecoder {
                alloc,
                kind: KindOfDecoder::BySample(components, decoder),
            }
        } else {
            let decoder = IntervalDecoder::new(alloc, &params, width, components, rows);
            PieceDecoder {
                alloc,
                kind: KindOfDecoder::ByLine(decoder),
            }
        }
    }

    /// A second decoder that was given the same bytes. A refused decoder has a refused clone. The only refusal is out of memory.
    pub fn try_clone(&self) -> Result<PieceDecoder, AllocError>
        ensures { IfOk result (λ clone. clone ≡ self.now) }
    {
        match &self.kind {
            KindOfDecoder::ByLine(decoder) => {
                let clone = decoder.try_clone()?;
                Ok(PieceDecoder {
                    alloc: self.alloc,
                    kind: KindOfDecoder::ByLine(clone),
                })
            }
            KindOfDecoder::BySample(components, decoder) => {
                let clone = decoder.try_clone()?;
                Ok(PieceDecoder {
                    alloc: self.alloc,
                    kind: KindOfDecoder::BySample(*components, clone),
                })
            }
        }
    }

    /// Takes the next bytes, one after another. The only refusal is out of memory, which is for good.
    pub fn push_all(&mut self, more: &[u8]) -> Result<(), AllocError>
        ensures ok { OnOk result (self.new ≡ record self.old { bytes = option_map (λ bytes. bytes ++ more.now) self.old.bytes }) }
        ensures taken { OnOk result (IsSome self.old.bytes) }
        ensures err { OnErr result (self.new ≡ record self.old { bytes = None }) }
    {
        match &mut self.kind {
            KindOfDecoder::ByLine(decoder) => decoder.push_all(more),
            KindOfDecoder::BySample(_, decoder) => decoder.push_all(more),
        }
    }

    /// How many samples were read so far, for strategies that compare decoders. Nothing is promised of the number. It takes no memory.
    pub fn samples_read(&self) -> u64 {
        match &self.kind {
            KindOfDecoder::ByLine(decoder) => decoder.samples_read(),
            KindOfDecoder::BySample(_, decoder) => decoder.samples_read(),
        }
    }

    /// Whether the bytes so far are known to read as no lines, whatever follows. `false` says nothing. No memory is taken.
    pub fn reads_no_more(&self) -> bool
        ensures { result ≡ true → IfSome self.now.bytes (λ bytes. ReadsNoMore (piece_asked self.now) bytes) }
    {
        match &self.kind {
            KindOfDecoder::ByLine(decoder) => decoder.reads_no_more(),
            KindOfDecoder::BySample(_, decoder) => decoder.reads_no_more(),
        }
    }

    /// The lines that the bytes read as, or why there are none. If a push was refused the answer is out of memory. Otherwise it can be so
    /// only by sample, where the last samples are read and the lines are made here. The whole piece is judged, also after its last line. At
    /// most seven bits may follow the code, of any value, which is this project's choice. A byte of 0x80 or more after 0xFF makes the piece
    /// broken, wherever it is (ITU-T T.87, A.1).
    pub fn finish(self) -> Result<FinishedLines, PieceFault>
        ensures outcome { MatchOption self.bytes (result ≡ Err PieceFault.OutOfMemory)
            (λ bytes. OutcomeIs (piece_asked self) bytes result) }
        ensures read { IfSome self.bytes (λ bytes. (lines : List (List ℕ)) → Reads (piece_asked self) bytes lines
            → MatchResult result (λ found. found ≡ lines) (λ fault. (self.by_sample ≡ true) × (fault ≡ PieceFault.OutOfMemory))) }
    {
        let PieceDecoder { alloc, kind } = self;
        match kind {
            KindOfDecoder::ByLine(decoder) => match decoder.finish() {
                Ok(lines) => Ok(FinishedLines::by_line(lines)),
                Err(fault) => Err(fault),
            },
            KindOfDecoder::BySample(components, decoder) => {
                read_lines(alloc, components, decoder)
            }
        }
    }
    /// What the bytes give if the input ends after them: the lines that they read as. If they read as none, it is the fault that `finish`
    /// would answer, with the lines of their head. The only refusal is out of memory, if a push was refused. By sample it can also come
    /// here, where the last samples are read and the lines are made. By line no memory is taken.
    pub fn finish_cut(self) -> Result<PieceCutEnd, AllocError>
        ensures refused { IfNone self.bytes (IsErr result) }
        ensures cut_end { IfSome self.bytes (λ bytes. MatchResult result
            (λ end. CutEndIs (piece_asked self) bytes end) (λ _. self.by_sample ≡ true)) }
    {
        let PieceDecoder { alloc, kind } = self;
        match kind {
            KindOfDecoder::ByLine(decoder) => Ok(line_cut_end(decoder.finish_cut()?)),
            KindOfDecoder::BySample(components, decoder) => cut_lines(alloc, components, decoder),
        }
    }
}
