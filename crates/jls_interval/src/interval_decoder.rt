//! The lines of an interval, from bytes that come a few at a time.

ghost use Rattle.std.specs.Prelude.{◌≡◌, ℕ, ◌*◌, ◌^◌, ◌<◌, ◌≤◌, ◌++◌, ◌+◌, true, false, [], ◌∷◌, Bool, List, length, Some, None, IsSome};
ghost use Rattle.std.specs.Prelude.{IsErr, OnOk, OnErr, IfOk, IfSome, IfNone, MatchOption, MatchResult};
ghost use Rattle.std.specs.Option.{option_map};
ghost use Rattle.jls_bits.specs.Bits.{bits_read, is_whole};
ghost use Rattle.std.specs.List.{AllByRecursion};
ghost use Rattle.jls_values.specs.Params.{AreCodingParameters, CodingParameters};
ghost use Rattle.jls_interval.specs.Reads.{Reads, ReadsNoMore};
ghost use Rattle.jls_interval.specs.PieceFaults.{OutcomeIs};
ghost use Rattle.jls_interval.specs.CutEnds.{CutEndIs};
ghost use Rattle.jls_interval.specs.Decoding.{GivesBack, KeepsShape, IsReading};
ghost use Rattle.jls_interval.specs.IntervalBytes.{IsReadingOf, ReadsBefore, HasLengths, interval_asked};

use crate::coder::Coder;
use crate::cut_end::CutEnd;
use crate::decode_piece::PieceFault;
use crate::finished_lines::FinishedLines;
use crate::interval_reader::{IntervalReader, State};
use crate::line_reader::{LineReader, OpenEvent};
use jls_bits::{Chunk, Unstuffer};
use jls_values::Params;
use std::alloc::{AllocError, Global};
use std::marker::Model;

/// Appends the data bits of a byte to a chunk, and says whether none of the bytes so far ends the data.
fn append_byte(unstuffer: &mut Unstuffer, byte: u8, chunk: &mut Chunk) -> bool
    requires { length chunk.old ≤ 56 }
    ensures pushed { unstuffer.new ≡ unstuffer.old ++ byte ∷ [] }
    ensures whole { result ≡ is_whole unstuffer.new }
    ensures bits { (given : List Bool) → is_whole unstuffer.new ≡ true
        → bits_read unstuffer.old ≡ given ++ chunk.old → bits_read unstuffer.new ≡ given ++ chunk.new }
    ensures few { length chunk.new ≤ length chunk.old + 8 }
{
    match unstuffer.push(byte) {
        None => false,
        Some((value, count)) => {
            chunk.append(value, count);
            true
        }
    }
}

/// Appends the data bits of bytes to a chunk that has room for them. The answer is whether none of the bytes so far ends the data.
fn append_bytes(unstuffer: &mut Unstuffer, bytes: &[u8], chunk: &mut Chunk) -> bool
    requires some { 0 < length bytes.now }
    requires room { length chunk.old + 8 * length bytes.now ≤ 64 }
    ensures pushed { unstuffer.new ≡ unstuffer.old ++ bytes.now }
    ensures are_bytes { AllByRecursion (λ x. x < 256) unstuffer.old → AllByRecursion (λ x. x < 256) unstuffer.new }
    ensures whole { result ≡ is_whole unstuffer.new }
    ensures bits { (given : List Bool) → is_whole unstuffer.new ≡ true
        → bits_read unstuffer.old ≡ given ++ chunk.old → bits_read unstuffer.new ≡ given ++ chunk.new }
{
    let mut whole = false;
    for byte in bytes {
        whole = append_byte(unstuffer, *byte, chunk);
    }
    whole
}

/// Events are taken from a chunk as long as it has so many bits. Fewer bits wait for the next bytes, since an event whose bits are all
/// there is read in one go.
const WAITING: u8 = 32;

/// Gives back the bits of the sample in hand, where no byte so far ends the data: else none.
fn take_back(ended: bool, reader: &mut IntervalReader) -> Chunk
    requires { ended ≡ false → (p : CodingParameters) × (given : List Bool) × IsReading p given reader.old }
    ensures shape { KeepsShape reader.old reader.new }
    ensures kept { (reader.new.lines ≡ reader.old.lines) × (reader.new.reader.line ≡ reader.old.reader.line) }
    ensures bits { ended ≡ false → GivesBack reader.old reader.new result }
    ensures few { length result ≤ 56 }
{
    if ended {
        Chunk::new()
    } else {
        reader.take_back()
    }
}

/// Takes the next bytes after the bits of a chunk, and says whether none of the bytes so far ends the data.
fn push_bytes(
    unstuffer: &mut Unstuffer,
    reader: &mut IntervalReader,
    given_back: Chunk,
    bytes: &[u8],
) -> Result<bool, AllocError>
    requires some { 0 < length bytes.now }
    requires room { length given_back ≤ 56 }
    requires reading { (p : CodingParameters) × ReadsBefore p unstuffer.old given_back reader.old }
    requires lengths { HasLengths unstuffer.old reader.old }
    ensures shape { KeepsShape reader.old reader.new }
    ensures are_bytes { AllByRecursion (λ x. x < 256) unstuffer.old → AllByRecursion (λ x. x < 256) unstuffer.new }
    ensures pushed { OnOk result (unstuffer.new ≡ unstuffer.old ++ bytes.now) }
    ensures whole { IfOk result (λ whole. whole ≡ is_whole unstuffer.new) }
    ensures reading { OnOk result ((p : CodingParameters) → ReadsBefore p unstuffer.old given_back reader.old
        → IsReadingOf p unstuffer.new reader.new) }
    ensures lengths { OnOk result (HasLengths unstuffer.new reader.new) }
{
    let mut chunk = given_back;
    let mut whole = false;
    let mut at = 0;
    while at < bytes.len() {
        let room = usize::from((64 - chunk.len()) / 8);
        let end = at + (bytes.len() - at).min(room);
        whole = append_bytes(unstuffer, &bytes[at..end], &mut chunk);
        at = end;
        if whole {
            let waiting = if at < bytes.len() { WAITING } else { 0 };
            reader.push_chunk(waiting, &mut chunk)?;
        } else {
            chunk = Chunk::new();
        }
    }
    reader.share_lines()?;
    Ok(whole)
}

/// Reads an interval whose bytes come a few at a time, and keeps none of them: only its lines so far. A contract sees the shape of the
/// interval and the bytes so far. Once memory is refused, every call answers that, and no bytes are seen any more. Until then an
/// invariant bounds what it keeps: one line in work, and at most eight finished lines for each byte pushed. It never has more lines than
/// the interval, and each has exactly its width. Width times components times rows is at most 2^28. These are lengths, not capacities.
#[derive(Drop)]
pub struct IntervalDecoder {
    params: Params,
    rows: u32,
    unstuffer: Unstuffer,
    reader: IntervalReader,
    /// Whether a byte of 0x80 or more followed 0xFF.
    ended: bool,
    /// Whether memory was refused.
    refused: bool,
}

impl Model for IntervalDecoder {
    ghost use Rattle.jls_interval.specs.IntervalBytes.{IntervalBytes, bytes_of, IsDecoder};

    ghost Value = { IntervalBytes };

    ghost view = { λ d. record {
      parameters = d.params;
      width = d.reader.reader.width;
      components = d.reader.components;
      rows = d.rows;
      bytes = bytes_of d.refused d.unstuffer;
    } };

    ghost invariant = { λ d. IsDecoder d.params d.rows d.unstuffer d.ended d.refused d.reader };
}

impl IntervalDecoder {
    ghost use Rattle.jls_interval.specs.IntervalBytes.{IntervalBytes};

    /// A decoder of no byte, for lines of `width` samples, row by row, and in a row by component. It takes no
    /// memory yet.
    pub fn new(
        alloc: Global,
        params: &Params,
        width: u16,
        components: u8,
        rows: u32,
    ) -> IntervalDecoder
        requires width { 1 ≤ width }
        requires components_at_least { 1 ≤ components }
        requires components_at_most { components ≤ 4 }
        requires rows { 1 ≤ rows }
        requires samples { width * components * rows ≤ 2 ^ 28 }
        ensures { result ≡ record { parameters = params.now; width = width; components = components; rows = rows; bytes = Some [] } }
    {
        let _maxval = params.maxval();
        IntervalDecoder {
            params: *params,
            rows,
            unstuffer: Unstuffer::new(),
            reader: IntervalReader {
                alloc,
                reader: LineReader {
                    coder: Coder::new(params),
                    width: usize::from(width),
                    line: Vec::new(alloc),
                    open_event: OpenEvent::NotBegun,
                },
                components: usize::from(components),
                count: rows as usize * usize::from(components),
                lines: FinishedLines::new(alloc),
                state: State::Working,
            },
            ended: false,
            refused: false,
        }
    }

    /// A second decoder that was given the same bytes. A refused decoder has a refused clone. The only refusal is out of memory.
    pub fn try_clone(&self) -> Result<IntervalDecoder, AllocError>
        ensures { IfOk result (λ clone. clone ≡ self.now) }
    {
        let reader = self.reader.try_clone()?;
        Ok(IntervalDecoder {
            params: self.params,
            rows: self.rows,
            unstuffer: self.unstuffer.to_owned(),
            reader,
            ended: self.ended,
            refused: self.refused,
        })
    }

    /// Takes the next byte. The only refusal is out of memory, which is for good.
    pub fn push(&mut self, byte: u8) -> Result<(), AllocError>
        ensures ok { OnOk result (self.new ≡ record self.old { bytes = option_map (λ bytes. bytes ++ byte ∷ []) self.old.bytes }) }
        ensures taken { OnOk result (IsSome self.old.bytes) }
        ensures err { OnErr result (self.new ≡ record self.old { bytes = None }) }
    {
        self.push_all(&[byte])
    }

    /// Takes the next bytes, one after another. The only refusal is out of memory, which is for good.
    pub fn push_all(&mut self, more: &[u8]) -> Result<(), AllocError>
        ensures ok { OnOk result (self.new ≡ record self.old { bytes = option_map (λ bytes. bytes ++ more.now) self.old.bytes }) }
        ensures taken { OnOk result (IsSome self.old.bytes) }
        ensures err { OnErr result (self.new ≡ record self.old { bytes = None }) }
    {
        if self.refused {
            return Err(AllocError);
        }
        if more.is_empty() {
            return Ok(());
        }
        let given_back = take_back(self.ended, &mut self.reader);
        match push_bytes(&mut self.unstuffer, &mut self.reader, given_back, more) {
            Ok(whole) => {
                self.ended = !whole;
                Ok(())
            }
            Err(AllocError) => {
                self.refused = true;
                Err(AllocError)
            }
        }
    }

    /// How many samples were read so far: those of the finished lines, and those of the line in work. This is for strategies that
    /// compare decoders, and nothing is promised of the number. It takes no memory.
    pub fn samples_read(&self) -> u64 {
        let reader = &self.reader.reader;
        let finished = (self.reader.lines.len() as u64).saturating_mul(reader.width as u64);
        finished.saturating_add(reader.line.len() as u64)
    }

    /// Whether the bytes so far are known to read as no lines, whatever follows. `false` says nothing. No memory is taken.
    pub fn reads_no_more(&self) -> bool
        ensures { result ≡ true → IfSome self.now.bytes
            (λ bytes. ReadsNoMore (interval_asked self.now) bytes) }
    {
        if self.refused {
            return false;
        }
        if self.ended {
            return true;
        }
        match self.reader.state {
            State::Working => false,
            State::NoCode => true,
            State::Complete(extra) => extra > 7,
        }
    }

    /// The lines that the bytes read as, or why there are none.
    fn outcome(self) -> Result<FinishedLines, PieceFault>
        ensures in_range { AreCodingParameters self.parameters }
        ensures width { 0 < self.width }
        ensures outcome { MatchOption self.bytes (result ≡ Err PieceFault.OutOfMemory)
            (λ bytes. OutcomeIs (interval_asked self) bytes result) }
    {
        if self.refused {
            return Err(PieceFault::OutOfMemory);
        }
        if self.ended {
            return Err(PieceFault::Broken);
        }
        let IntervalDecoder { reader, .. } = self;
        let IntervalReader { lines, state, .. } = reader;
        match state {
            State::Working => Err(PieceFault::Broken),
            State::NoCode => Err(PieceFault::Broken),
            State::Complete(extra) => {
                if extra > 7 {
                    Err(PieceFault::Long)
                } else {
                    Ok(lines)
                }
            }
        }
    }

    /// The lines that the bytes read as, or why there are none. If a push was refused the answer is out of memory, and otherwise it
    /// never is. The whole piece is judged, also after its last line. At most seven bits may follow the code, of any value, which is
    /// this project's choice. A byte of 0x80 or more after 0xFF makes the piece broken, wherever it is (ITU-T T.87, A.1).
    pub fn finish(self) -> Result<FinishedLines, PieceFault>
        ensures outcome { MatchOption self.bytes (result ≡ Err PieceFault.OutOfMemory)
            (λ bytes. OutcomeIs (interval_asked self) bytes result) }
        ensures read { IfSome self.bytes (λ bytes. (lines : List (List ℕ))
            → Reads (interval_asked self) bytes lines → MatchResult result (λ found. found ≡ lines) (λ fault. ⊥)) }
    {
        self.outcome()
    }

    /// What the bytes give if the input ends after them: the lines that they read as. If they read as none, it is the fault that
    /// `finish` would answer, with the lines of their head. The only refusal is out of memory, if a push was refused. No memory is
    /// taken.
    pub fn finish_cut(self) -> Result<CutEnd, AllocError>
        ensures refused { IfNone self.bytes (IsErr result) }
        ensures cut_end { IfSome self.bytes (λ bytes. MatchResult result
            (λ end. CutEndIs (interval_asked self) bytes end) (λ _. ⊥)) }
    {
        if self.refused {
            return Err(AllocError);
        }
        let IntervalDecoder { ended, reader, .. } = self;
        if ended {
            let none = FinishedLines::new(reader.alloc);
            return Ok(CutEnd::Head(none, PieceFault::Broken));
        }
        match reader.state {
            State::Working => Ok(CutEnd::Head(reader.into_head(), PieceFault::Broken)),
            State::NoCode => Ok(CutEnd::Head(reader.into_head(), PieceFault::Broken)),
            State::Complete(extra) => {
                if extra <= 7 {
                    let IntervalReader { lines, .. } = reader;
                    return Ok(CutEnd::Whole(lines));
                }
                Ok(CutEnd::Head(reader.into_head(), PieceFault::Long))
            }
        }
    }
}
