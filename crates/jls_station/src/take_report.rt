//! What is reported of a copy that was read.

ghost use Rattle.std.specs.Prelude.{◌≡◌};

use crate::input::ReadStop;
use jls_copy::{End, PieceRecord};
use std::marker::Model;

/// What is reported of a copy beside its readings. Clauses see it as what was found and how the reading stopped.
#[derive(Drop)]
pub struct TakeReport {
    pub(crate) pieces: Vec<PieceRecord>,
    pub(crate) piece_count: u64,
    pub(crate) ended: End,
    pub(crate) count: u64,
    pub(crate) stop: ReadStop,
}

impl Model for TakeReport {
    ghost use Rattle.jls_station.specs.Given.{CopyReport};
    ghost use Rattle.std.specs.Coded.{codes};

    ghost Value = { CopyReport };

    ghost coded = { Prim.hlevel codes };

    ghost view = { λ r. record {
      found = record { pieces = r.pieces.items; piece_count = r.piece_count; ended = r.ended; count = r.count };
      stop = r.stop;
    } };
}

impl TakeReport {
    /// The first 4,096 pieces of scan data that didn't read as the lines of their intervals, in the order of the copy.
    pub fn pieces(&self) -> &[PieceRecord]
        ensures { result.now ≡ self.now.found.pieces }
    {
        &self.pieces
    }

    /// How many pieces didn't read as the lines of their intervals, those that are not kept among them.
    pub fn piece_count(&self) -> u64
        ensures { result ≡ self.now.found.piece_count }
    {
        self.piece_count
    }

    /// Where the copy ended.
    pub fn ended(&self) -> End
        ensures { result ≡ self.now.found.ended }
    {
        self.ended
    }

    /// How many bytes of the copy were read, also those after its end.
    pub fn count(&self) -> u64
        ensures { result ≡ self.now.found.count }
    {
        self.count
    }

    /// How the reading of the copy stopped. `Whole` is the source's end, or the copy's, after which no byte is asked for.
    pub fn stop(&self) -> ReadStop
        ensures { result ≡ self.now.stop }
    {
        self.stop
    }
}
