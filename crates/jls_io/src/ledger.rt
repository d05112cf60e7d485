//! The counts of a device, kept beside its history. A device of one's own keeps a ledger, and notes each call in it.

ghost use Rattle.std.specs.Prelude.{◌≡◌, ◌+◌, ◌-◌, ◌^◌, min, [], ◌∷◌, ◌++◌, if◌then◌else◌};

use crate::history::{HistoryCell, Noted};
use std::marker::Model;

/// What a device keeps of its history as it runs. Clauses see the whole history.
#[derive(Drop)]
pub struct Ledger {
    cell: HistoryCell,
    reads: u64,
    read_failures: u64,
    write_failures: u64,
    open_failures: u64,
    has_input: bool,
    has_output: bool,
}

impl Model for Ledger {
    ghost use Rattle.jls_io.specs.Event.{History};
    ghost use Rattle.jls_io.specs.Counts.{AreOf};

    ghost Value = { History };

    ghost view = { λ l. l.cell.history };

    ghost invariant = { λ l. AreOf l.cell.history l.reads l.read_failures l.write_failures l.open_failures l.has_input l.has_output };
}

/// One more where the event is counted. The count stops at 2^64 - 1.
fn counted(n: u64, is_counted: bool) -> u64
    ensures { result ≡ (if is_counted then min (n + 1) (2 ^ 64 - 1) else n) }
{
    if is_counted { n.saturating_add(1) } else { n }
}

impl Ledger {
    ghost use Rattle.jls_io.specs.Event.{count_of, is_read, is_failed_read, is_failed_write, is_failed_opening};
    ghost use Rattle.jls_io.specs.Event as event;
    ghost use Rattle.jls_io.specs.Noted.{event_of};

    /// The ledger of a device to which nothing has happened yet.
    pub fn new() -> Ledger
        ensures { result ≡ [] }
    {
        Ledger {
            cell: HistoryCell::new(),
            reads: 0,
            read_failures: 0,
            write_failures: 0,
            open_failures: 0,
            has_input: false,
            has_output: false,
        }
    }

    /// Notes an event.
    pub fn note(&mut self, event: Noted<'_>)
        ensures { self.new ≡ self.old ++ event_of event.entry ∷ [] }
    {
        self.cell.note(&event);
        self.reads = counted(self.reads, event.is_read());
        self.read_failures = counted(self.read_failures, event.is_failed_read());
        self.write_failures = counted(self.write_failures, event.is_failed_write());
        self.open_failures = counted(self.open_failures, event.is_failed_opening());
        self.has_input = self.has_input || event.is_opening();
        self.has_output = self.has_output || event.is_creation();
    }

    /// How many reads there were.
    pub fn reads(&self) -> u64
        ensures { result ≡ count_of is_read self.now }
    {
        self.reads
    }

    /// How many reads failed.
    pub fn read_failures(&self) -> u64
        ensures { result ≡ count_of is_failed_read self.now }
    {
        self.read_failures
    }

    /// How many writes failed.
    pub fn write_failures(&self) -> u64
        ensures { result ≡ count_of is_failed_write self.now }
    {
        self.write_failures
    }

    /// How many inputs could not be opened, and outputs not created.
    pub fn open_failures(&self) -> u64
        ensures { result ≡ count_of is_failed_opening self.now }
    {
        self.open_failures
    }

    /// Whether an input was opened.
    pub fn has_input(&self) -> bool
        ensures { result ≡ event.has_input self.now }
    {
        self.has_input
    }

    /// Whether an output was created.
    pub fn has_output(&self) -> bool
        ensures { result ≡ event.has_output self.now }
    {
        self.has_output
    }
}
