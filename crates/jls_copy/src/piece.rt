//! Pieces of scan data.

ghost use Rattle.std.specs.Prelude.{◌≡◌, ◌<◌, ◌^◌, true, IfOk};
ghost use Rattle.jls_copy.specs.Prefixes.{OpenReadsNoMore};
ghost use Rattle.jls_marker.specs.Scan.{intervals};
ghost use Rattle.jls_copy.specs.Numbers.{numbered};
ghost use Rattle.jls_copy.specs.ReaderState.{piece_opened};
ghost use Rattle.jls_copy.specs.Sound.{IsOpenPiece};

use crate::piece_decoder::PieceDecoder;
use jls_marker::ScanPlan;
use jls_piece::PlannedPiece;
use std::alloc::{AllocError, Global};

/// Why a piece of scan data doesn't read as the lines of its interval.
#[derive(Clone, Copy, Debug, PartialEq, Eq)]
pub enum PieceKind {
    /// It reads as no lines and is not too long. Its data bits begin with the code of no lines, or a byte of 0x80 or more follows 0xFF in
    /// it.
    Broken,
    /// More than seven bits follow the code of lines.
    Long,
    /// Its number is beyond the last interval.
    Beyond,
}

/// A piece of scan data that didn't read as the lines of its interval. If the input's end cut it off, its first lines may be
/// readings still.
#[derive(Clone, Copy, Debug, PartialEq, Eq)]
pub struct PieceRecord {
    /// The scan of the copy, counted from 0.
    pub scan: u8,
    /// Its number among the restart intervals of the scan, from 0. For `Beyond` it is the number that the restart marker before the piece
    /// stands for. It is at or above the number of intervals, and was not given.
    pub interval: u32,
    /// The offset of its first byte.
    pub offset: u64,
    pub kind: PieceKind,
}

/// A piece that is fed byte after byte, under its number.
#[derive(Drop)]
pub(crate) enum OpenPiece {
    Within(u32, PieceDecoder),
    Beyond(u32),
}

/// What closes a piece.
#[derive(Clone, Copy)]
pub(crate) enum ClosedBy {
    /// A restart marker, or one that ends scan data.
    Marker,
    /// The input's end.
    Input,
}

/// A piece that was fed all its bytes: the scan of the copy, counted from 0, and the offset of its first byte.
#[derive(Drop)]
pub(crate) struct FedPiece {
    pub(crate) scan: u8,
    pub(crate) offset: u64,
    pub(crate) piece: OpenPiece,
}

impl OpenPiece {
    /// The piece of this number, fed nothing.
    pub(crate) fn open(alloc: Global, plan: &ScanPlan, number: u32) -> OpenPiece
        requires { number < 2 ^ 17 }
        ensures opened { result ≡ piece_opened plan.now (numbered (intervals plan.now) number) }
        ensures sound { IsOpenPiece plan.now result }
    {
        if number >= plan.intervals() {
            return OpenPiece::Beyond(number);
        }
        let (_, rows) = plan.rows(number);
        let params = plan.params();
        // For the proof alone: the contract of `maxval` says that the parameters are in their ranges.
        let _maxval = params.maxval();
        let planned = PlannedPiece {
            params,
            width: plan.width(),
            components: plan.components().len() as u8,
            rows: u32::from(rows),
            by_sample: plan.by_sample(),
        };
        OpenPiece::Within(number, PieceDecoder::new(alloc, planned))
    }

    /// The piece as it was fed. What stays was fed nothing.
    pub(crate) fn take(&mut self) -> OpenPiece
        ensures { result ≡ self.old }
    {
        match self {
            OpenPiece::Within(number, decoder) => OpenPiece::Within(*number, decoder.take()),
            OpenPiece::Beyond(number) => OpenPiece::Beyond(*number),
        }
    }

    /// A second piece of this number that was fed the same bytes.
    pub(crate) fn try_clone(&self) -> Result<OpenPiece, AllocError>
        ensures { IfOk result (λ clone. clone ≡ self.now) }
    {
        match self {
            OpenPiece::Within(number, decoder) => {
                Ok(OpenPiece::Within(*number, decoder.try_clone()?))
            }
            OpenPiece::Beyond(number) => Ok(OpenPiece::Beyond(*number)),
        }
    }

    /// How many samples were read so far. Nothing is promised of the number.
    pub(crate) fn samples_read(&self) -> u64 {
        match self {
            OpenPiece::Within(_, decoder) => decoder.samples_read(),
            OpenPiece::Beyond(_) => 0,
        }
    }

    /// Whether it is known to read as no lines, whatever follows. `false` says nothing.
    pub(crate) fn reads_no_more(&self) -> bool
        ensures { result ≡ true → OpenReadsNoMore self.now }
    {
        match self {
            OpenPiece::Within(_, decoder) => decoder.reads_no_more(),
            OpenPiece::Beyond(_) => true,
        }
    }
}
