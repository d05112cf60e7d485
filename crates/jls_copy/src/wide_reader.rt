//! One copy of a picture under the wide profile, fed in slices of any size.

ghost use Rattle.std.specs.Prelude.{◌≡◌, ◌+◌, ◌-◌, ◌≤◌, ◌^◌, [], length, Some, None, IfSome, OnOk, OnErr, IsOk, IsSome, IsErr, IfOk};
ghost use Rattle.std.specs.Prelude.{IfErr, IfNone, true, map};
ghost use Rattle.jls_copy.specs.InHand.{IsInHandUnder};
ghost use Rattle.jls_copy.specs.Prefixes.{IsPastUnder, IsPieceBrokenUnder, StaysFaultyUnder};
ghost use Rattle.jls_copy.specs.ReadCopy.{after};
ghost use Rattle.jls_copy.specs.CopyReads.{CopyReadsUnder, CopyGivesNoneUnder, IsDoneUnder};
ghost use Rattle.jls_copy.specs.declared.reader.CopyFault.TheVariants as CopyFault;
ghost use Rattle.jls_marker.specs.declared.profile.Profile.TheVariants.{Wide};

use crate::piece_in_hand::PieceInHand;
use crate::profile_reader::ProfileReader;
use crate::reader::{CopyFault, CopyRead};
use jls_marker::Profile;
use std::alloc::{AllocError, Global};
use std::marker::Model;

/// Reads one copy as its bytes come, in slices of any size, under the wide profile: scans by line and by sample. A contract sees the bytes
/// fed, or `None` after a refused `feed`.
#[derive(Drop)]
pub struct WideReader {
    reader: ProfileReader,
}

impl Model for WideReader {
    ghost use Rattle.std.specs.Prelude.{◌≡◌, ℕ, List, Option};
    ghost use Rattle.jls_marker.specs.declared.profile.Profile.TheVariants.{Wide};

    ghost Value = { Option (List ℕ) };

    ghost view = { λ r. r.reader.bytes };

    ghost invariant = { λ r. r.reader.profile ≡ Wide };
}

impl WideReader {
    /// A reader that was fed nothing.
    pub fn new(alloc: Global) -> WideReader
        ensures { result ≡ Some [] }
    {
        WideReader {
            reader: ProfileReader::new(alloc, Profile::Wide),
        }
    }

    /// A second reader that was fed the same bytes. Each of the two can then be fed on by itself. A refused reader has a refused clone.
    /// The only refusal of this call is out of memory.
    pub fn try_clone(&self) -> Result<WideReader, AllocError>
        ensures { IfOk result (λ clone. clone ≡ self.now) }
    {
        let reader = self.reader.try_clone()?;
        Ok(WideReader { reader })
    }

    /// How many bytes were fed, also those after the copy's end. After a refused `feed` nothing is promised of the answer.
    pub fn fed(&self) -> u64
        ensures { IfSome self.now (λ bytes. result ≡ length bytes) }
    {
        self.reader.fed()
    }

    /// How many samples were read so far: those of the taken lines of finished pieces, and those of the piece in hand. This is for
    /// strategies that compare readers, and nothing is promised of the number. It takes no memory.
    pub fn samples_read(&self) -> u64 {
        self.reader.samples_read()
    }

    /// Takes the next slice of the copy, which may be empty. All slices together may have 2^63 - 1 bytes at most. Bytes after the
    /// copy's end are counted, and otherwise ignored. The only refusal is out of memory. After it every further `feed` is refused too,
    /// and `finish` answers `OutOfMemory`.
    pub fn feed(&mut self, slice: &[u8]) -> Result<(), AllocError>
        requires { IfSome self.old (λ bytes. length bytes + length slice.now ≤ 2 ^ 63 - 1) }
        ensures ok { OnOk result (self.new ≡ after self.old slice.now) }
        ensures err { OnErr result (self.new ≡ None) }
        ensures not_refused { IsOk result → IsSome self.old }
    {
        self.reader.feed(slice)
    }

    /// Whether EOI was met, or a fault of the headers other than `Ended`: then further bytes are counted, and otherwise ignored. After
    /// a refused `feed` nothing is promised of the answer.
    pub fn is_done(&self) -> bool
        ensures { IfSome self.now (λ bytes. IsDoneUnder Wide bytes result) }
    {
        self.reader.is_done()
    }

    /// Whether the piece in hand is known to be broken, whatever follows. If so, each list of bytes that begins with those fed so far has
    /// a faulty piece there (`prefixes_stay_broken_under`). `false` says nothing. No memory is taken.
    pub fn is_piece_broken(&self) -> bool
        ensures { result ≡ true → IfSome self.now (λ bytes. IsPieceBrokenUnder Wide bytes) }
    {
        self.reader.is_piece_broken()
    }

    /// Whether a piece that a marker closed is faulty. If so, each list of bytes that begins with those fed so far has a faulty piece.
    /// `false` says nothing. No memory is taken.
    pub fn has_faulty_piece(&self) -> bool
        ensures { result ≡ true → IfSome self.now (λ bytes. StaysFaultyUnder Wide bytes) }
    {
        self.reader.has_faulty_piece()
    }

    /// Whether the piece in hand begins at this offset, or after it. If so, no byte more changes what the pieces before the offset read as
    /// (`prefixes_settle_pieces_under`). `false` says nothing. No memory is taken.
    pub fn is_past(&self, offset: u64) -> bool
        ensures { result ≡ true → IfSome self.now (λ bytes. IsPastUnder Wide offset bytes) }
    {
        self.reader.is_past(offset)
    }

    /// The piece of scan data in hand, if its bytes so far begin with the code of one line at least of its interval. Each longer list of
    /// bytes has a piece of that interval there (`prefixes_go_on_under`). `None` says nothing. The only refusal is out of memory, and the
    /// reader stays as it is.
    pub fn piece_in_hand(&self) -> Result<Option<PieceInHand>, AllocError>
        ensures { IfOk result (λ found. IfSome found (λ p. IfSome self.now
            (λ bytes. IsInHandUnder Wide bytes p.plan p.interval p.offset (map (λ line. line.items) p.lines.items)))) }
    {
        self.reader.piece_in_hand()
    }

    /// What the copy gave, if the input ends here. `NoPicture` comes if no frame was taken. It has the fault that ended the copy, and its
    /// offset. If the input ended where a marker may begin, it has `Ended` and the input's length. `OutOfMemory` comes if a `feed` was
    /// refused, or if memory runs out for the last piece.
    pub fn finish(self) -> Result<CopyRead, CopyFault>
        ensures read { IfOk result (λ read. IfSome self (λ bytes. CopyReadsUnder Wide bytes read)) }
        ensures none { IfErr result (λ fault. IfSome self (λ bytes. CopyGivesNoneUnder Wide bytes fault)) }
        ensures refused { IfNone self (IfErr result (λ fault. fault ≡ CopyFault.OutOfMemory) × IsErr result) }
    {
        self.reader.finish()
    }
}
