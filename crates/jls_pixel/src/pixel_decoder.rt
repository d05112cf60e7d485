//! The rows of an interval, from bytes that come a few at a time.

ghost use Rattle.std.specs.Prelude.{◌≡◌, ◌≤◌, ◌++◌, true, [], ◌∷◌, false, List, ℕ, Some, None, Err, IsSome, OnOk, OnErr, IfOk};
ghost use Rattle.std.specs.Prelude.{IfErr, IfSome, IfNone, IsErr, MatchResult};
ghost use Rattle.std.specs.Option.{option_map};
ghost use Rattle.jls_pixel.specs.Reads.{Reads, ReadsNoMore};
ghost use Rattle.jls_pixel.specs.PieceFaults.{FaultIs};
ghost use Rattle.jls_pixel.specs.PixelBytes.{pixels_asked};
ghost use Rattle.jls_pixel.specs.CutEnds.{CutEndIs};

use crate::coder::Coder;
use crate::cut_end::PixelCutEnd;
use crate::data_bits::DataBits;
use crate::decode::PixelFault;
use crate::finished_rows::FinishedRows;
use crate::pending_bits::PendingBits;
use crate::pixel_reader::{PixelReader, State};
use jls_bits::Unstuffer;
use jls_values::Params;
use std::alloc::{AllocError, Global};
use std::marker::Model;

/// Reads an interval whose bytes come a few at a time, and keeps few of them: those that may be an event that isn't whole. A contract sees
/// the shape of the interval and the bytes so far. Once memory is refused, every call answers that, and no bytes are seen any more.
#[derive(Drop)]
pub struct PixelDecoder {
    params: Params,
    unstuffer: Unstuffer,
    reader: PixelReader,
    /// Whether a byte of 0x80 or more followed 0xFF.
    ended: bool,
    /// Whether memory was refused.
    refused: bool,
}

impl Model for PixelDecoder {
    ghost use Rattle.jls_interval.specs.IntervalBytes.{bytes_of};
    ghost use Rattle.jls_pixel.specs.PixelBytes.{PixelBytes, IsDecoder};

    ghost Value = { PixelBytes };

    ghost view = { λ d. record {
      parameters = d.params;
      width = d.reader.width;
      components = d.reader.components;
      rows = d.reader.count;
      bytes = bytes_of d.refused d.unstuffer;
    } };

    ghost invariant = { λ d. IsDecoder d.params d.unstuffer d.ended d.refused d.reader };
}

impl PixelDecoder {
    ghost use Rattle.jls_pixel.specs.PixelBytes.{PixelBytes};

    /// A decoder of no byte, for rows of `width` pixels, of `components` samples each. It takes no memory yet.
    pub fn new(
        alloc: Global,
        params: &Params,
        width: u16,
        components: u8,
        rows: u32,
    ) -> PixelDecoder
        requires width { 1 ≤ width }
        requires components { components ≤ 4 }
        ensures { result ≡ record { parameters = params.now; width = width; components = components; rows = rows; bytes = Some [] } }
    {
        let _maxval = params.maxval();
        PixelDecoder {
            params: *params,
            unstuffer: Unstuffer::new(),
            reader: PixelReader {
                alloc,
                coder: Coder::new(params),
                run_index: 0,
                width,
                components,
                count: rows,
                rows: FinishedRows::new(alloc),
                row: Vec::new(alloc),
                pending: PendingBits::new(alloc),
                state: State::first(rows),
            },
            ended: false,
            refused: false,
        }
    }

    /// A second decoder that was given the same bytes. A refused decoder has a refused clone. The only refusal is out of memory.
    pub fn try_clone(&self) -> Result<PixelDecoder, AllocError>
        ensures { IfOk result (λ clone. clone ≡ self.now) }
    {
        let reader = self.reader.try_clone()?;
        Ok(PixelDecoder {
            params: self.params,
            unstuffer: self.unstuffer.to_owned(),
            reader,
            ended: self.ended,
            refused: self.refused,
        })
    }

    /// Takes the next byte. The only refusal is out of memory, which is for good.
    pub fn push(&mut self, byte: u8) -> Result<(), AllocError>
        ensures ok { OnOk result (self.new ≡ record self.old { bytes = option_map (λ bytes. bytes ++ byte ∷ []) self.old.bytes }) }
        ensures taken { OnOk result (IsSome self.old.bytes) }
        ensures err { OnErr result (self.new ≡ record self.old { bytes = None }) }
    {
        if self.refused {
            return Err(AllocError);
        }
        match self.unstuffer.push(byte) {
            None => {
                self.ended = true;
                Ok(())
            }
            Some((value, count)) => match self.reader.push(DataBits { value, count }) {
                Ok(()) => Ok(()),
                Err(AllocError) => {
                    self.refused = true;
                    Err(AllocError)
                }
            },
        }
    }

    /// Whether a push was refused.
    fn is_refused(&self) -> bool
        ensures refused { result ≡ true → self.now.bytes ≡ None }
        ensures granted { result ≡ false → IsSome self.now.bytes }
    {
        self.refused
    }

    /// Takes the next bytes, one after another. The only refusal is out of memory, which is for good.
    pub fn push_all(&mut self, more: &[u8]) -> Result<(), AllocError>
        ensures ok { OnOk result (self.new ≡ record self.old { bytes = option_map (λ bytes. bytes ++ more.now) self.old.bytes }) }
        ensures taken { OnOk result (IsSome self.old.bytes) }
        ensures err { OnErr result (self.new ≡ record self.old { bytes = None }) }
    {
        if self.is_refused() {
            return Err(AllocError);
        }
        for byte in more {
            self.push(*byte)?;
        }
        Ok(())
    }

    /// How many samples were read so far: those of the finished rows, and those of the row in work. This is for strategies that compare
    /// decoders, and nothing is promised of the number. It takes no memory.
    pub fn samples_read(&self) -> u64 {
        let reader = &self.reader;
        let finished = (reader.rows.len() as u64).saturating_mul(u64::from(reader.width));
        let pixels = finished.saturating_add(reader.row.len() as u64);
        pixels.saturating_mul(u64::from(reader.components))
    }

    /// Whether the bytes so far are known to read as no rows, whatever follows. `false` says nothing. No memory is taken.
    pub fn reads_no_more(&self) -> bool
        ensures { result ≡ true → IfSome self.now.bytes (λ bytes. ReadsNoMore (pixels_asked self.now) bytes) }
    {
        if self.refused {
            return false;
        }
        if self.ended {
            return true;
        }
        match self.reader.state {
            State::Working => false,
            State::NoCode => true,
            State::Complete(extra) => extra > 7,
        }
    }

    /// The rows that the bytes read as, or why there are none. If a push was refused the answer is out of memory. The events that wait
    /// are read now, so that memory can be refused here too: then nothing is said of the bytes. The whole piece is judged, also after its
    /// last row. At most seven bits may follow the code, of any value, which is this project's choice. A byte of 0x80 or more after 0xFF
    /// makes the piece broken, wherever it is (ITU-T T.87, A.1).
    pub fn finish(self) -> Result<FinishedRows, PixelFault>
        ensures refused { IfNone self.bytes (result ≡ Err PixelFault.OutOfMemory) }
        ensures rows { IfSome self.bytes (λ bytes. IfOk result (Reads (pixels_asked self) bytes)) }
        ensures fault { IfSome self.bytes (λ bytes. IfErr result (λ fault. FaultIs fault (pixels_asked self) bytes)) }
        ensures read { IfSome self.bytes (λ bytes. (wanted : List (List (List ℕ))) → Reads (pixels_asked self) bytes wanted
            → MatchResult result (λ found. found ≡ wanted) (λ fault. fault ≡ PixelFault.OutOfMemory)) }
    {
        if self.refused {
            return Err(PixelFault::OutOfMemory);
        }
        if self.ended {
            return Err(PixelFault::Broken);
        }
        let PixelDecoder { reader, .. } = self;
        reader.into_rows()
    }

    /// What the bytes give if the input ends after them: the rows that they read as. If they read as none, it is the fault that
    /// `finish` would answer, with the rows of their head. The only refusal is out of memory: if a push was refused, and also here, since
    /// the events that wait are read now.
    pub fn finish_cut(self) -> Result<PixelCutEnd, AllocError>
        ensures refused { IfNone self.bytes (IsErr result) }
        ensures cut_end { IfSome self.bytes (λ bytes. IfOk result (CutEndIs (pixels_asked self) bytes)) }
    {
        if self.refused {
            return Err(AllocError);
        }
        let PixelDecoder { ended, reader, .. } = self;
        if ended {
            let none = FinishedRows::new(reader.alloc);
            return Ok(PixelCutEnd::Head(none, PixelFault::Broken));
        }
        reader.into_cut_end()
    }
}
