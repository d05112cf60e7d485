//! One copy of a picture under a profile, fed in slices of any size.

ghost use Rattle.std.specs.Prelude.{◌≡◌, ◌+◌, ◌-◌, ◌≤◌, ◌^◌, [], length, Some, None, IfSome, OnOk, OnErr, IsOk, IsSome, IsErr, IfOk};
ghost use Rattle.std.specs.Prelude.{IfErr, IfNone, true, map};
ghost use Rattle.jls_copy.specs.InHand.{IsInHandUnder};
ghost use Rattle.jls_copy.specs.Prefixes.{IsPastUnder, IsPieceBrokenUnder, StaysFaultyUnder};
ghost use Rattle.jls_copy.specs.ReadCopy.{after};
ghost use Rattle.jls_copy.specs.CopyReads.{CopyReadsUnder, CopyGivesNoneUnder, IsDoneUnder};
ghost use Rattle.jls_copy.specs.declared.reader.CopyFault.TheVariants as CopyFault;

use crate::findings::Findings;
use crate::machine::Machine;
use crate::piece_in_hand::PieceInHand;
use crate::place::CopyPosition;
use crate::reader::{CopyFault, CopyRead, conclude, is_final};
use jls_bits::PushedBytes;
use jls_marker::{Headers, Profile};
use std::alloc::{AllocError, Global};
use std::marker::Model;

/// Reads one copy as its bytes come, in slices of any size, under a profile. A contract sees the profile, and the bytes fed, or `None`
/// after a refused `feed`.
#[derive(Drop)]
pub struct ProfileReader {
    profile: Profile,
    bytes: PushedBytes,
    machine: Machine,
    failed: bool,
}

impl Model for ProfileReader {
    ghost use Rattle.std.specs.Prelude.{Some, None, if◌then◌else◌};
    ghost use Rattle.jls_copy.specs.ReadCopy.{ReaderBytes};
    ghost use Rattle.jls_copy.specs.Reader.{IsReader};

    ghost Value = { ReaderBytes };

    ghost view = { λ r. record { profile = r.profile; bytes = if r.failed then None else Some r.bytes.list } };

    ghost invariant = { λ r. IsReader r.profile r.failed r.machine r.bytes.list };
}

impl ProfileReader {
    /// A reader under this profile that was fed nothing.
    pub fn new(alloc: Global, profile: Profile) -> ProfileReader
        ensures { result ≡ record { profile = profile; bytes = Some [] } }
    {
        ProfileReader {
            profile,
            bytes: PushedBytes::new(),
            machine: Machine {
                alloc,
                count: 0,
                place: CopyPosition::Start(false),
                headers: Headers::under(profile),
                payload: Vec::new(alloc),
                findings: Findings {
                    partial: None,
                    records: Vec::new(alloc),
                    record_count: 0,
                    samples: 0,
                },
            },
            failed: false,
        }
    }

    /// A second reader that was fed the same bytes. Each of the two can then be fed on by itself. A refused reader has a refused clone.
    /// The only refusal of this call is out of memory.
    pub fn try_clone(&self) -> Result<ProfileReader, AllocError>
        ensures { IfOk result (λ clone. clone ≡ self.now) }
    {
        if self.failed {
            let mut refused = ProfileReader::new(self.machine.alloc, self.profile);
            refused.failed = true;
            return Ok(refused);
        }
        let machine = self.machine.try_clone()?;
        Ok(ProfileReader {
            profile: self.profile,
            bytes: self.bytes.to_owned(),
            machine,
            failed: false,
        })
    }

    /// The profile.
    pub fn profile(&self) -> Profile
        ensures { result ≡ self.now.profile }
    {
        self.profile
    }

    /// How many bytes were fed, also those after the copy's end. After a refused `feed` nothing is promised of the answer.
    pub fn fed(&self) -> u64
        ensures { IfSome self.now.bytes (λ bytes. result ≡ length bytes) }
    {
        self.machine.count
    }

    /// How many samples were read so far: those of the taken lines of finished pieces, and those of the piece in hand. This is for
    /// strategies that compare readers, and nothing is promised of the number. It takes no memory.
    pub fn samples_read(&self) -> u64 {
        let in_hand = self.machine.place.samples_read();
        self.machine.findings.samples.saturating_add(in_hand)
    }

    /// Takes the next slice of the copy, which may be empty. All slices together may have 2^63 - 1 bytes at most. Bytes after the
    /// copy's end are counted, and otherwise ignored. The only refusal is out of memory. After it every further `feed` is refused too,
    /// and `finish` answers `OutOfMemory`.
    pub fn feed(&mut self, slice: &[u8]) -> Result<(), AllocError>
        requires { IfSome self.old.bytes (λ bytes. length bytes + length slice.now ≤ 2 ^ 63 - 1) }
        ensures ok { OnOk result (self.new ≡ record self.old { bytes = after self.old.bytes slice.now }) }
        ensures err { OnErr result (self.new ≡ record self.old { bytes = None }) }
        ensures not_refused { IsOk result → IsSome self.old.bytes }
    {
        if self.failed {
            return Err(AllocError);
        }
        let mut at = 0;
        while at < slice.len() {
            let rest = &slice[at..];
            let Ok(count) = self.machine.take(rest) else {
                self.failed = true;
                return Err(AllocError);
            };
            self.machine.count += count as u64;
            self.bytes.note_all(&rest[..count]);
            at += count;
        }
        Ok(())
    }

    /// Whether EOI was met, or a fault of the headers other than `Ended`: then further bytes are counted, and otherwise ignored. After
    /// a refused `feed` nothing is promised of the answer.
    pub fn is_done(&self) -> bool
        ensures { IfSome self.now.bytes (λ bytes. IsDoneUnder self.now.profile bytes result) }
    {
        is_final(&self.machine.place)
    }

    /// Whether the piece in hand is known to be broken, whatever follows. If so, each list of bytes that begins with those fed so far has
    /// a faulty piece there (`prefixes_stay_broken_under`). `false` says nothing. No memory is taken.
    pub fn is_piece_broken(&self) -> bool
        ensures { result ≡ true → IfSome self.now.bytes (λ bytes. IsPieceBrokenUnder self.now.profile bytes) }
    {
        if self.failed {
            return false;
        }
        self.machine.place.reads_no_more()
    }

    /// Whether a piece that a marker closed is faulty. If so, each list of bytes that begins with those fed so far has a faulty piece.
    /// `false` says nothing. No memory is taken.
    pub fn has_faulty_piece(&self) -> bool
        ensures { result ≡ true → IfSome self.now.bytes (λ bytes. StaysFaultyUnder self.now.profile bytes) }
    {
        if self.failed {
            return false;
        }
        self.machine.findings.record_count != 0
    }

    /// Whether the piece in hand begins at this offset, or after it. If so, no byte more changes what the pieces before the offset read as
    /// (`prefixes_settle_pieces_under`). `false` says nothing. No memory is taken.
    pub fn is_past(&self, offset: u64) -> bool
        ensures { result ≡ true → IfSome self.now.bytes (λ bytes. IsPastUnder self.now.profile offset bytes) }
    {
        if self.failed {
            return false;
        }
        self.machine.place.is_past(offset)
    }

    /// The piece of scan data in hand, if its bytes so far begin with the code of one line at least of its interval. Each longer list of
    /// bytes has a piece of that interval there (`prefixes_go_on_under`). `None` says nothing. The only refusal is out of memory, and the
    /// reader stays as it is.
    pub fn piece_in_hand(&self) -> Result<Option<PieceInHand>, AllocError>
        ensures { IfOk result (λ found. IfSome found (λ p. IfSome self.now.bytes
            (λ bytes. IsInHandUnder self.now.profile bytes p.plan p.interval p.offset (map (λ line. line.items) p.lines.items)))) }
    {
        if self.failed {
            return Ok(None);
        }
        self.machine.place.piece_in_hand()
    }

    /// What the copy gave, if the input ends here. `NoPicture` comes if no frame was taken. It has the fault that ended the copy, and its
    /// offset. If the input ended where a marker may begin, it has `Ended` and the input's length. `OutOfMemory` comes if a `feed` was
    /// refused, or if memory runs out for the last piece.
    pub fn finish(self) -> Result<CopyRead, CopyFault>
        ensures read { IfOk result (λ read. IfSome self.bytes (λ bytes. CopyReadsUnder self.profile bytes read)) }
        ensures none { IfErr result (λ fault. IfSome self.bytes (λ bytes. CopyGivesNoneUnder self.profile bytes fault)) }
        ensures refused { IfNone self.bytes (IfErr result (λ fault. fault ≡ CopyFault.OutOfMemory) × IsErr result) }
    {
        let Self {
            profile: _,
            bytes: _,
            mut machine,
            failed,
        } = self;
        if failed {
            return Err(CopyFault::OutOfMemory);
        }
        match machine.finish() {
            Err(AllocError) => Err(CopyFault::OutOfMemory),
            Ok(ended) => conclude(machine, ended),
        }
    }
}
