//! Devices made from std's readers and writers.

ghost use Rattle.std.specs.Prelude.{◌≡◌, ℕ, List, [], ◌∷◌, ◌++◌, Option, None, IfSome, OnOk, OnErr};
ghost use Rattle.std.specs.Io.KnownBytes.{Keeps, IsAtEnd};
ghost use Rattle.jls_io.specs.Asked.{AskedOnce, Request, input, output as request_output};
ghost use Rattle.jls_io.specs.Event.{opened, not_opened, created, not_created, has_input};
ghost use Rattle.jls_io.specs.Remaining.{remaining_after};

use crate::device::{Desk, DeskFault, Device, Sink, SinkFault, Source, SourceFault};
use crate::history::Noted;
use crate::ledger::Ledger;
use std::io;
use std::io::{Read, Write};

/// Inputs and outputs that are opened by their names. Reads go to the input that was opened last, and writes to the
/// output that was created last.
pub trait Open: Read + Write {
    // What the input of a name has, where it is known.
    ghost file: { Self → List ℕ → Option (List ℕ) } = { λ _ _. None };

    // The name of the output that was created last, where it is known.
    ghost output: { Self → Option (List ℕ) } = { λ _. None };

    // The names that were asked for so far, those that could not be opened or created among them, where they are known.
    ghost asked: { Self → Option (List Request) } = { λ _. None };

    /// Opens the input of this name.
    fn open_input(&mut self, name: &str) -> io::Result<()>
        ensures file { OnOk result (Keeps (file self.old name.now) (Self.remaining self.new)) }
        ensures asked { AskedOnce (input name.now) (asked self.old) (asked self.new) };

    /// Creates the output of this name, or empties it.
    fn create_output(&mut self, name: &str) -> io::Result<()>
        ensures named { OnOk result (IfSome (output self.new) (λ created. created ≡ name.now)) }
        ensures empty { OnOk result (IsAtEnd (Self.contents self.new)) }
        ensures asked { AskedOnce (request_output name.now) (asked self.old) (asked self.new) };
}

/// A device over a reader, a writer or files of std: it notes each call, with what the call gave or took.
///
/// Every error counts as a failure, an interrupted call too, and so does a write that took 0 of some bytes. Nothing is buffered, so
/// what a write took has gone to the writer. If no input is open a read gives 0 bytes, and if no output is open a write fails. Then the
/// stream is not called.
///
/// Contracts speak of what is noted. If the bytes of the stream are known, as those of a list in memory, what is noted is what they
/// lose or gain. The laws `reads_give_the_content` and `writes_are_held` say so. Names are handed on, each once (`Open`). No contract
/// says that each read and each write calls the stream only once: the code here shows it.
#[derive(Drop)]
pub struct Counted<T> {
    inner: T,
    ledger: Ledger,
}

impl<T> Device for Counted<T> {
    ghost history = { λ c. c.ledger };
}

impl<T> Counted<T> {
    /// The device over this reader or writer, which is open from the start and has no name.
    pub fn new(inner: T) -> Counted<T>
        ensures history { ⟦<Counted<T> as Device>⟧.history result ≡ opened [] ∷ created [] ∷ [] }
        ensures over { result.inner ≡ inner }
    {
        let mut counted = Counted::closed(inner);
        counted.ledger.note(Noted::Opened(""));
        counted.ledger.note(Noted::Created(""));
        counted
    }

    /// The desk over these files, of which none is open yet.
    pub fn closed(inner: T) -> Counted<T>
        ensures history { ⟦<Counted<T> as Device>⟧.history result ≡ [] }
        ensures over { result.inner ≡ inner }
    {
        Counted {
            inner,
            ledger: Ledger::new(),
        }
    }

    /// What the device is over. Its history ends here.
    pub fn into_inner(self) -> T
        ensures { result ≡ self.inner }
    {
        let Self { inner, .. } = self;
        inner
    }
}

impl<R: Read> Source for Counted<R> {
    ghost remaining = { λ c. remaining_after (has_input c.ledger) (R.remaining c.inner) };

    fn read_some(&mut self, into: &mut [u8]) -> Result<usize, SourceFault> {
        if !self.ledger.has_input() {
            self.ledger.note(Noted::Gave(into.len(), &[]));
            return Ok(0);
        }
        match self.inner.read(into) {
            Ok(n) => {
                self.ledger.note(Noted::Gave(into.len(), &into[..n]));
                Ok(n)
            }
            Err(_) => {
                self.ledger.note(Noted::ReadFailed);
                Err(SourceFault)
            }
        }
    }

    fn reads(&self) -> u64 {
        self.ledger.reads()
    }

    fn read_failures(&self) -> u64 {
        self.ledger.read_failures()
    }
}

impl<W: Write> Sink for Counted<W> {
    ghost contents = { λ c. W.contents c.inner };

    fn write_some(&mut self, bytes: &[u8]) -> Result<usize, SinkFault> {
        if self.ledger.has_output() {
            match self.inner.write(bytes) {
                Ok(n) if n > 0 || bytes.is_empty() => {
                    self.ledger.note(Noted::Took(&bytes[..n]));
                    return Ok(n);
                }
                _ => {}
            }
        }
        self.ledger.note(Noted::WriteFailed);
        Err(SinkFault)
    }

    fn write_failures(&self) -> u64 {
        self.ledger.write_failures()
    }
}

impl<F: Open> Desk for Counted<F> {
    fn open_input(&mut self, name: &str) -> Result<(), DeskFault>
        ensures opened { OnOk result (self.new.ledger ≡ self.old.ledger ++ opened name.now ∷ []) }
        ensures failed { OnErr result (self.new.ledger ≡ self.old.ledger ++ not_opened name.now ∷ []) }
        ensures file { OnOk result (Keeps (F.file self.old.inner name.now) (F.remaining self.new.inner)) }
        ensures asked { AskedOnce (input name.now) (F.asked self.old.inner) (F.asked self.new.inner) }
    {
        match self.inner.open_input(name) {
            Ok(()) => {
                self.ledger.note(Noted::Opened(name));
                Ok(())
            }
            Err(_) => {
                self.ledger.note(Noted::NotOpened(name));
                Err(DeskFault)
            }
        }
    }

    fn create_output(&mut self, name: &str) -> Result<(), DeskFault>
        ensures created { OnOk result (self.new.ledger ≡ self.old.ledger ++ created name.now ∷ []) }
        ensures failed { OnErr result (self.new.ledger ≡ self.old.ledger ++ not_created name.now ∷ []) }
        ensures named { OnOk result (IfSome (F.output self.new.inner) (λ created. created ≡ name.now)) }
        ensures empty { OnOk result (IsAtEnd (F.contents self.new.inner)) }
        ensures asked { AskedOnce (request_output name.now) (F.asked self.old.inner) (F.asked self.new.inner) }
    {
        match self.inner.create_output(name) {
            Ok(()) => {
                self.ledger.note(Noted::Created(name));
                Ok(())
            }
            Err(_) => {
                self.ledger.note(Noted::NotCreated(name));
                Err(DeskFault)
            }
        }
    }

    fn open_failures(&self) -> u64 {
        self.ledger.open_failures()
    }
}
