//! The decoder of a piece, in a place that doesn't move.

ghost use Rattle.std.specs.Prelude.{◌≡◌, ◌*◌, OnOk, IfOk, IfSome, IfNone, IsErr, true, MatchOption, MatchResult, Err, map};
ghost use Rattle.jls_piece.specs.Reads.{ReadsNoMore};
ghost use Rattle.jls_piece.specs.PieceFaults.{OutcomeIs};
ghost use Rattle.jls_piece.specs.CutEnds.{CutEndIs};
ghost use Rattle.jls_interval.specs.declared.decode_piece.PieceFault.TheVariants as PieceFault;
ghost use Rattle.jls_piece.specs.PieceBytes.{piece_asked, unfed};
ghost use Rattle.jls_copy.specs.InHand.{AreFirst};
ghost use Rattle.jls_copy.specs.ReaderState.{with_bytes};

use jls_interval::PieceFault;
use jls_piece::{FinishedLines, PieceCutEnd, PlannedPiece};
use std::alloc::{AllocError, Global};
use std::marker::Model;

/// A decoder on the heap that was fed these bytes.
#[inline(never)]
fn decoder_with(
    alloc: Global,
    planned: PlannedPiece,
    bytes: &[u8],
) -> Result<Box<jls_piece::PieceDecoder>, AllocError>
    ensures { IfOk result (λ made. made.value ≡ with_bytes (unfed planned) bytes.now) }
{
    let mut made = Box::new(alloc, jls_piece::PieceDecoder::new(alloc, planned))?;
    made.push_all(bytes)?;
    Ok(made)
}

/// A decoder that is made at the first byte of its piece, since there can be many empty pieces. It has some 6,000 bytes and stands on
/// the heap: what has it in hand is moved with many a byte. A contract sees the decoder.
#[derive(Drop)]
pub(crate) struct PieceDecoder {
    alloc: Global,
    planned: PlannedPiece,
    /// None before the first byte.
    made: Option<Box<jls_piece::PieceDecoder>>,
}

impl Model for PieceDecoder {
    ghost use Rattle.jls_piece.specs.PieceBytes.{PieceBytes};
    ghost use Rattle.jls_copy.specs.PieceDecoder.{made_or_unfed};

    ghost Value = { PieceBytes };

    ghost view = { λ d. made_or_unfed d.made d.planned };
}

impl PieceDecoder {
    /// A decoder that was fed nothing. It takes no memory yet.
    pub(crate) fn new(alloc: Global, planned: PlannedPiece) -> PieceDecoder
        ensures { result ≡ unfed planned }
    {
        PieceDecoder {
            alloc,
            planned,
            made: None,
        }
    }

    /// The decoder as it was fed. What stays was fed nothing.
    pub(crate) fn take(&mut self) -> PieceDecoder
        ensures { result ≡ self.old }
    {
        PieceDecoder {
            alloc: self.alloc,
            planned: self.planned,
            made: self.made.take(),
        }
    }

    /// A second decoder that was fed the same bytes. It takes memory only if there are some.
    pub(crate) fn try_clone(&self) -> Result<PieceDecoder, AllocError>
        ensures { IfOk result (λ clone. clone ≡ self.now) }
    {
        let made = match &self.made {
            None => None,
            Some(decoder) => Some(Box::new(self.alloc, decoder.try_clone()?)?),
        };
        Ok(PieceDecoder {
            alloc: self.alloc,
            planned: self.planned,
            made,
        })
    }

    /// Takes bytes of the piece in turn. After want of memory the decoder stays refused.
    pub(crate) fn push_all(&mut self, bytes: &[u8]) -> Result<(), AllocError>
        ensures { OnOk result (self.new ≡ with_bytes self.old bytes.now) }
    {
        match &mut self.made {
            Some(decoder) => decoder.push_all(bytes),
            None => {
                if !bytes.is_empty() {
                    self.made = Some(decoder_with(self.alloc, self.planned, bytes)?);
                }
                Ok(())
            }
        }
    }

    /// Whether the piece is faulty whatever bytes follow. `false` says nothing.
    pub(crate) fn reads_no_more(&self) -> bool
        ensures { result ≡ true → IfSome self.now.bytes
            (λ bytes. ReadsNoMore (piece_asked self.now) bytes) }
    {
        match &self.made {
            Some(decoder) => decoder.reads_no_more(),
            None => false,
        }
    }

    /// How many samples were read so far. Nothing is promised of the number.
    pub(crate) fn samples_read(&self) -> u64 {
        match &self.made {
            Some(decoder) => decoder.samples_read(),
            None => 0,
        }
    }

    /// The lines of the piece, or why it has none.
    pub(crate) fn finish(self) -> Result<FinishedLines, PieceFault>
        ensures outcome { MatchOption self.bytes (result ≡ Err PieceFault.OutOfMemory)
            (λ bytes. OutcomeIs (piece_asked self) bytes result) }
    {
        match self.made {
            Some(decoder) => Box::into_inner(decoder).finish(),
            None => Err(PieceFault::Broken),
        }
    }

    /// The lines of a piece that the input's end cuts off, or those that stand whole before the cut. Only by sample can memory be refused
    /// here, if it was not before.
    pub(crate) fn finish_cut(self) -> Result<PieceCutEnd, AllocError>
        ensures refused { IfNone self.bytes (IsErr result) }
        ensures cut_end { IfSome self.bytes (λ bytes. MatchResult result
            (λ end. CutEndIs (piece_asked self) bytes end) (λ _. self.by_sample ≡ true)) }
    {
        match self.made {
            Some(decoder) => Box::into_inner(decoder).finish_cut(),
            None => jls_piece::PieceDecoder::new(self.alloc, self.planned).finish_cut(),
        }
    }

    /// The lines of the piece, or those that stand whole before its end.
    pub(crate) fn first_lines(self) -> Result<Vec<Vec<u16>>, AllocError>
        ensures { IfSome self.bytes (λ bytes. IfOk result
            (λ lines. AreFirst (piece_asked self) bytes (map (λ line. line.items) lines.items))) }
    {
        match self.finish_cut()? {
            PieceCutEnd::Whole(lines) => lines.into_vecs(),
            PieceCutEnd::Head(lines, _) => lines.into_vecs(),
        }
    }
}
