//! One copy of a picture, fed in slices of any size.

ghost use Rattle.std.specs.Prelude.{◌≡◌, ◌+◌, ◌-◌, ◌≤◌, ◌<◌, ◌^◌, [], length, Some, None, IfSome, OnOk, OnErr, IsOk, IsSome};
ghost use Rattle.std.specs.Prelude.{IsErr, IfOk, IfErr, IfNone, take, true, map};
ghost use Rattle.jls_copy.specs.InHand.{IsInHand};
ghost use Rattle.jls_copy.specs.Prefixes.{IsPast, IsPieceBroken, StaysFaulty};
ghost use Rattle.jls_copy.specs.ReadCopy.{after};
ghost use Rattle.jls_copy.specs.Conclusion as reader;
ghost use Rattle.jls_copy.specs.CopyReads as copy;
ghost use Rattle.jls_copy.specs.CopyReads.{CopyReads, CopyGivesNone, IsDone};
ghost use Rattle.jls_copy.specs.Findings.{picture_of};
ghost use Rattle.jls_copy.specs.declared.reader.CopyFault.TheVariants as CopyFault;
ghost use Rattle.jls_values.specs.Shape.{PictureShape};

use crate::end::End;
use crate::findings::Findings;
use crate::machine::Machine;
use crate::piece::PieceRecord;
use crate::piece_in_hand::PieceInHand;
use crate::place::CopyPosition;
use crate::profile_reader::ProfileReader;
use jls_marker::{MarkerFault, Profile};
use jls_partial::Partial;
use std::alloc::{AllocError, Global};
use std::marker::Model;
use thiserror::Error;

/// Why a copy gives nothing.
#[derive(Clone, Copy, Debug, PartialEq, Eq, Error)]
pub enum CopyFault {
    /// No frame was taken: the fault that ended the copy, and its offset.
    #[error("no picture: {0} at offset {1}")]
    NoPicture(MarkerFault, u64),
    /// Memory was refused, in a `feed` or in `finish`. Nothing is said of the copy.
    #[error("out of memory")]
    OutOfMemory,
}

/// What a copy gave: its readings, and why they are no more.
#[derive(Drop)]
pub struct CopyRead {
    partial: Partial,
    pieces: Vec<PieceRecord>,
    piece_count: u64,
    ended: End,
}

impl Model for CopyRead {
    ghost use Rattle.jls_copy.specs.ReadCopy.{ReadCopy};
    ghost use Rattle.jls_partial.specs.Partial.{coded_partial};
    ghost use Rattle.std.specs.Coded.{codes};

    ghost Value = { ReadCopy };

    ghost coded = { Prim.hlevel (codes, coded_partial) };

    ghost view = { λ r. record { partial = r.partial; pieces = r.pieces.items; piece_count = r.piece_count; ended = r.ended } };
}

impl CopyRead {
    /// The readings, as a partial picture of the frame's shape.
    pub fn partial(&self) -> &Partial
        ensures { result.now ≡ self.now.partial }
    {
        &self.partial
    }

    /// The readings alone.
    pub fn into_partial(self) -> Partial
        ensures { result ≡ self.partial }
    {
        let Self { partial, .. } = self;
        partial
    }

    /// The readings, and the records of the first 4,096 faulty pieces.
    pub fn into_parts(self) -> (Partial, Vec<PieceRecord>)
        ensures partial { result.0 ≡ self.partial }
        ensures pieces { result.1.items ≡ self.pieces }
    {
        let Self {
            partial,
            pieces,
            ..
        } = self;
        (partial, pieces)
    }

    /// The first 4,096 pieces of scan data that didn't read as the lines of their intervals, in the order of the copy.
    pub fn pieces(&self) -> &[PieceRecord]
        ensures { result.now ≡ self.now.pieces }
    {
        &self.pieces
    }

    /// How many pieces didn't read as the lines of their intervals, those that are not kept among them.
    pub fn piece_count(&self) -> u64
        ensures { result ≡ self.now.piece_count }
    {
        self.piece_count
    }

    /// Where the copy ended.
    pub fn ended(&self) -> End
        ensures { result ≡ self.now.ended }
    {
        self.ended
    }
}

/// Reads one copy as its bytes come, in slices of any size, under the strict profile. A scan that is interleaved by sample ends the copy. A
/// contract sees the bytes fed, or `None` after a refused `feed`.
#[derive(Drop)]
pub struct CopyReader {
    reader: ProfileReader,
}

impl Model for CopyReader {
    ghost use Rattle.std.specs.Prelude.{◌≡◌, ℕ, List, Option};
    ghost use Rattle.jls_marker.specs.declared.profile.Profile.TheVariants.{Strict};

    ghost Value = { Option (List ℕ) };

    ghost view = { λ r. r.reader.bytes };

    ghost invariant = { λ r. r.reader.profile ≡ Strict };
}

impl CopyReader {
    /// A reader that was fed nothing.
    pub fn new(alloc: Global) -> CopyReader
        ensures { result ≡ Some [] }
    {
        CopyReader {
            reader: ProfileReader::new(alloc, Profile::Strict),
        }
    }

    /// A second reader that was fed the same bytes. Each of the two can then be fed on by itself. A refused reader has a refused clone.
    /// The only refusal of this call is out of memory.
    pub fn try_clone(&self) -> Result<CopyReader, AllocError>
        ensures { IfOk result (λ clone. clone ≡ self.now) }
    {
        let reader = self.reader.try_clone()?;
        Ok(CopyReader { reader })
    }

    /// How many bytes were fed, also those after the copy's end. After a refused `feed` nothing is promised of the answer.
    pub fn fed(&self) -> u64
        ensures { IfSome self.now (λ bytes. result ≡ length bytes) }
    {
        self.reader.fed()
    }

    /// How many samples were read so far: those of the taken lines of finished pieces, and those of the piece in hand. This is for
    /// strategies that compare readers, and nothing is promised of the number. It takes no memory.
    pub fn samples_read(&self) -> u64 {
        self.reader.samples_read()
    }

    /// Takes the next slice of the copy, which may be empty. All slices together may have 2^63 - 1 bytes at most. Bytes after the
    /// copy's end are counted, and otherwise ignored. The only refusal is out of memory. After it every further `feed` is refused too,
    /// and `finish` answers `OutOfMemory`.
    pub fn feed(&mut self, slice: &[u8]) -> Result<(), AllocError>
        requires { IfSome self.old (λ bytes. length bytes + length slice.now ≤ 2 ^ 63 - 1) }
        ensures ok { OnOk result (self.new ≡ after self.old slice.now) }
        ensures err { OnErr result (self.new ≡ None) }
        ensures not_refused { IsOk result → IsSome self.old }
    {
        self.reader.feed(slice)
    }

    /// Whether EOI was met, or a fault of the headers other than `Ended`: then further bytes are counted, and otherwise ignored. After
    /// a refused `feed` nothing is promised of the answer.
    pub fn is_done(&self) -> bool
        ensures { IfSome self.now (λ bytes. IsDone bytes result) }
    {
        self.reader.is_done()
    }

    /// Whether the piece in hand is known to be broken, whatever follows. If so, each list of bytes that begins with those fed so far has
    /// a faulty piece there (`prefixes_stay_broken`). `false` says nothing. No memory is taken.
    pub fn is_piece_broken(&self) -> bool
        ensures { result ≡ true → IfSome self.now (λ bytes. IsPieceBroken bytes) }
    {
        self.reader.is_piece_broken()
    }

    /// Whether a piece that a marker closed is faulty. If so, each list of bytes that begins with those fed so far has a faulty piece.
    /// `false` says nothing. No memory is taken.
    pub fn has_faulty_piece(&self) -> bool
        ensures { result ≡ true → IfSome self.now (λ bytes. StaysFaulty bytes) }
    {
        self.reader.has_faulty_piece()
    }

    /// Whether the piece in hand begins at this offset, or after it. If so, no byte more changes what the pieces before the offset read as
    /// (`prefixes_settle_pieces`). `false` says nothing. No memory is taken.
    pub fn is_past(&self, offset: u64) -> bool
        ensures { result ≡ true → IfSome self.now (λ bytes. IsPast offset bytes) }
    {
        self.reader.is_past(offset)
    }

    /// The piece of scan data in hand, if its bytes so far begin with the code of one line at least of its interval. Each longer list of
    /// bytes has a piece of that interval there (`prefixes_go_on`). `None` says nothing. The only refusal is out of memory, and the reader
    /// stays as it is.
    pub fn piece_in_hand(&self) -> Result<Option<PieceInHand>, AllocError>
        ensures { IfOk result (λ found. IfSome found (λ p. IfSome self.now
            (λ bytes. IsInHand bytes p.plan p.interval p.offset (map (λ line. line.items) p.lines.items)))) }
    {
        self.reader.piece_in_hand()
    }

    /// What the copy gave, if the input ends here. `NoPicture` comes if no frame was taken. It has the fault that ended the copy, and its
    /// offset. If the input ended where a marker may begin, it has `Ended` and the input's length. `OutOfMemory` comes if a `feed` was
    /// refused, or if memory runs out for the last piece.
    pub fn finish(self) -> Result<CopyRead, CopyFault>
        ensures read { IfOk result (λ read. IfSome self (λ bytes. CopyReads bytes read)) }
        ensures none { IfErr result (λ fault. IfSome self (λ bytes. CopyGivesNone bytes fault)) }
        ensures refused { IfNone self (IfErr result (λ fault. fault ≡ CopyFault.OutOfMemory) × IsErr result) }
    {
        self.reader.finish()
    }
}

/// Whether no byte more changes anything.
pub(crate) fn is_final(place: &CopyPosition) -> bool
    ensures { result ≡ reader.is_final place.now }
{
    match place {
        CopyPosition::Done(_) => true,
        _ => false,
    }
}

/// The first fault, where no frame was taken.
fn no_picture(ended: End) -> CopyFault
    ensures { result ≡ copy.no_picture ended }
{
    match ended {
        End::Eoi(offset) => CopyFault::NoPicture(MarkerFault::NoFrame, offset),
        End::Input(offset) => CopyFault::NoPicture(MarkerFault::Ended, offset),
        End::Header(fault, offset) => CopyFault::NoPicture(fault, offset),
    }
}

/// What a machine at its end holds.
pub(crate) fn conclude(machine: Machine, ended: End) -> Result<CopyRead, CopyFault>
    ensures read { IfOk result
        (λ read. (shape : PictureShape) × (machine.headers.frame ≡ Some shape) × (read.partial ≡ picture_of shape machine.findings.partial)
        × (read.pieces ≡ machine.findings.records.items) × (read.piece_count ≡ machine.findings.record_count) × (read.ended ≡ ended)) }
    ensures none { IfErr result (λ fault. (machine.headers.frame ≡ None) × (fault ≡ copy.no_picture ended)) }
{
    let Machine {
        alloc,
        count: _,
        place: _,
        headers,
        payload: _,
        findings,
    } = machine;
    let Findings {
        partial,
        records,
        record_count,
        ..
    } = findings;
    match headers.shape() {
        None => Err(no_picture(ended)),
        Some(shape) => {
            let partial = match partial {
                Some(partial) => partial,
                None => Partial::empty(alloc, shape.to_owned()),
            };
            Ok(CopyRead {
                partial,
                pieces: records,
                piece_count: record_count,
                ended,
            })
        }
    }
}
