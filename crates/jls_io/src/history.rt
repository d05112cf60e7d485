//! The history of a device as a value that clauses read.

ghost use Rattle.std.specs.Prelude.{◌≡◌, [], ◌∷◌, ◌++◌};
ghost use Rattle.std.specs.Borrow.{ftrue};
ghost use Rattle.jls_io.specs.Event.{History, is_read, is_failed_read, is_failed_write, is_failed_opening, is_opening, is_creation};
ghost use Rattle.jls_io.specs.EventCode.{coded_history};

use std::marker::Model;

/// An event that a device notes.
#[derive(Clone, Copy, Drop)]
pub enum Noted<'a> {
    /// The input of this name was opened.
    Opened(&'a str),
    /// The input of this name was not opened.
    NotOpened(&'a str),
    /// A read into a buffer of this length gave these bytes.
    Gave(usize, &'a [u8]),
    /// A read failed.
    ReadFailed,
    /// The output of this name was created.
    Created(&'a str),
    /// The output of this name was not created.
    NotCreated(&'a str),
    /// A write took these bytes.
    Took(&'a [u8]),
    /// A write failed.
    WriteFailed,
}

impl Noted<'_> {
    ghost use Rattle.jls_io.specs.Noted.{event_of};

    /// Whether an input was opened.
    pub(crate) fn is_opening(&self) -> bool
        ensures { result ≡ is_opening (event_of self.now) }
    {
        matches!(self, Noted::Opened(_))
    }

    /// Whether an output was created.
    pub(crate) fn is_creation(&self) -> bool
        ensures { result ≡ is_creation (event_of self.now) }
    {
        matches!(self, Noted::Created(_))
    }

    /// Whether it is a read, one that failed among them.
    pub(crate) fn is_read(&self) -> bool
        ensures { result ≡ is_read (event_of self.now) }
    {
        matches!(self, Noted::Gave(_, _) | Noted::ReadFailed)
    }

    /// Whether a read failed.
    pub(crate) fn is_failed_read(&self) -> bool
        ensures { result ≡ is_failed_read (event_of self.now) }
    {
        matches!(self, Noted::ReadFailed)
    }

    /// Whether a write failed.
    pub(crate) fn is_failed_write(&self) -> bool
        ensures { result ≡ is_failed_write (event_of self.now) }
    {
        matches!(self, Noted::WriteFailed)
    }

    /// Whether an input could not be opened, or an output not created.
    pub(crate) fn is_failed_opening(&self) -> bool
        ensures { result ≡ is_failed_opening (event_of self.now) }
    {
        matches!(self, Noted::NotOpened(_) | Noted::NotCreated(_))
    }
}

/// A history that only clauses read. It has size 0, and its methods do nothing when the program runs.
#[derive(Drop)]
pub(crate) struct HistoryCell {
    pub ghost history: { History } by { coded_history },
}

const _: () = prove!(size_of::<HistoryCell>() == 0);

impl Model for HistoryCell {
    ghost also_owns = { λ _. ftrue };
}

impl HistoryCell {
    ghost use Rattle.jls_io.specs.Noted.{event_of};

    /// The history of a device to which nothing has happened yet.
    pub(crate) fn new() -> HistoryCell
        ensures { result.history ≡ [] }
    {
        HistoryCell {}
    }

    /// The history after one event more.
    fn then(&self, _event: &Noted<'_>) -> HistoryCell
        ensures { result.history ≡ self.now.history ++ event_of _event.now ∷ [] }
    {
        HistoryCell {}
    }

    /// Notes an event.
    pub(crate) fn note(&mut self, event: &Noted<'_>)
        ensures { self.new.history ≡ self.old.history ++ event_of event.now ∷ [] }
    {
        let next = HistoryCell::then(self, event);
        *self = next;
    }
}
