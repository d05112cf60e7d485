//! A machine whose calls are noted.

ghost use Rattle.std.specs.Prelude.{◌≡◌, ◌≤◌, ℕ, Bool, [], ◌∷◌, ◌++◌, true, false, length, take, IfOk, OnOk, OnErr};
ghost use Rattle.jls_host.specs.Disk as disk;
ghost use Rattle.jls_host.specs.Standings.{plainly, maybe_partial};

use crate::calls::{Called, CallsCell};
use crate::choice::{Kind, Standing};
use crate::machine::Machine;
use std::io;
use std::io::Write;

/// A file that is open for writing, and its number among those that were opened.
#[derive(Drop)]
pub struct Held<F> {
    pub(crate) file: F,
    pub(crate) number: u64,
}

/// A machine whose calls are noted, for contracts alone. Each method calls the machine's method of its name, once, and notes what was
/// asked and answered. No contract says that, so read this file.
#[derive(Drop)]
pub struct Recorded<M> {
    machine: M,
    pub(crate) calls: CallsCell,
    opened: u64,
}

/// What was asked of a machine before, and how many files it opened.
#[derive(Drop)]
pub(crate) struct Past {
    calls: CallsCell,
    opened: u64,
}

impl Past {
    /// Nothing was asked yet.
    pub(crate) fn new() -> Past {
        Past {
            calls: CallsCell::new(),
            opened: 0,
        }
    }
}

impl<M: Drop> Recorded<M> {
    /// A machine with this past.
    pub(crate) fn resumed(machine: M, past: Past) -> Recorded<M> {
        let Past { calls, opened } = past;
        Recorded {
            machine,
            calls,
            opened,
        }
    }

    /// The machine. What was asked of it is not noted from here on.
    pub fn into_inner(self) -> M {
        let Recorded { machine, .. } = self;
        machine
    }

    /// What was asked so far.
    pub(crate) fn into_past(self) -> Past {
        let Recorded {
            machine: _,
            calls,
            opened,
        } = self;
        Past { calls, opened }
    }
}

impl<M> Recorded<M> {
    ghost use Rattle.jls_host.specs.Recorded.{calls_of};

    /// Nothing was asked of the machine yet.
    pub fn new(machine: M) -> Recorded<M>
        ensures { calls_of result ≡ [] }
    {
        Recorded {
            machine,
            calls: CallsCell::new(),
            opened: 0,
        }
    }
}

/// Whether nothing or a regular file stands there.
fn is_plain(standing: Standing) -> bool
    ensures { result ≡ plainly standing }
{
    !matches!(standing, Standing::Other)
}

/// Whether a file of this kind may be a partial picture.
fn may_be_partial(kind: Kind) -> bool
    ensures { result ≡ maybe_partial kind }
{
    matches!(kind, Kind::Partial | Kind::Unknown)
}

impl<M: Machine> Recorded<M> {
    ghost use Rattle.jls_host.specs.Recorded.{calls_of, number_of};

    /// What stands at the name.
    pub fn standing(&mut self, name: &str) -> Standing
        ensures noted { calls_of self.new ≡ calls_of self.old ++ (disk.asks_plain name.now, plainly result) ∷ [] }
    {
        let standing = self.machine.standing(name);
        self.calls.note(&Called::Plain(name, is_plain(standing)));
        standing
    }

    /// Whether a file of this name opens for writing.
    pub fn opens(&mut self, name: &str) -> bool
        ensures noted { calls_of self.new ≡ calls_of self.old ++ (disk.looks name.now, result) ∷ [] }
    {
        let opens = self.machine.opens(name);
        self.calls.note(&Called::Looks(name, opens));
        opens
    }

    /// The kind of the file of this name, or of the one that a link leads to.
    pub fn kind(&mut self, name: &str) -> Kind
        ensures noted { calls_of self.new ≡ calls_of self.old ++ (disk.asks_partial name.now, maybe_partial result) ∷ [] }
    {
        let kind = self.machine.kind(name);
        self.calls
            .note(&Called::Partial(name, may_be_partial(kind)));
        kind
    }

    /// The permission bits of the file of this name, or of the one that a link leads to, if they are known.
    pub fn mode(&mut self, name: &str) -> Option<u32>
        ensures noted { calls_of self.new ≡ calls_of self.old ++ (disk.looks name.now, true) ∷ [] }
    {
        let mode = self.machine.mode(name);
        self.calls.note(&Called::Looks(name, true));
        mode
    }

    /// Whether the file of this name, or the one that a link leads to, was opened as an input.
    pub fn is_input(&mut self, name: &str) -> bool
        ensures noted { calls_of self.new ≡ calls_of self.old ++ (disk.asks_input name.now, result) ∷ [] }
    {
        let is_input = self.machine.is_input(name);
        self.calls.note(&Called::Input(name, is_input));
        is_input
    }

    /// Whether both names, or links of these names, lead to one file.
    pub fn are_one(&mut self, name: &str, other: &str) -> bool
        ensures noted { calls_of self.new ≡ calls_of self.old ++ (disk.asks_one name.now other.now, result) ∷ [] }
    {
        let are_one = self.machine.are_one(name, other);
        self.calls.note(&Called::One(name, other, are_one));
        are_one
    }

    /// Whether the files of these names have the same bytes.
    pub fn are_equal(&mut self, name: &str, other: &str) -> io::Result<bool>
        ensures noted { IfOk result (λ equal. calls_of self.new ≡ calls_of self.old ++ (disk.asks_equal name.now other.now, equal) ∷ []) }
        ensures failed { OnErr result (calls_of self.new ≡ calls_of self.old ++ (disk.asks_equal name.now other.now, false) ∷ []) }
    {
        match self.machine.are_equal(name, other) {
            Ok(are_equal) => {
                self.calls.note(&Called::Equal(name, other, are_equal));
                Ok(are_equal)
            }
            Err(error) => {
                self.calls.note(&Called::Equal(name, other, false));
                Err(error)
            }
        }
    }

    /// Opens the output of this name for writing, emptied.
    pub fn create(&mut self, name: &str) -> io::Result<Held<M::File>>
        ensures noted { IfOk result (λ held. calls_of self.new ≡ calls_of self.old ++ (disk.empties name.now (number_of held), true) ∷ []) }
        ensures failed { OnErr result ((i : ℕ) × (calls_of self.new ≡ calls_of self.old ++ (disk.empties name.now i, false) ∷ [])) }
    {
        let number = self.number();
        match self.machine.create(name) {
            Ok(file) => {
                self.calls.note(&Called::Empties(name, number, true));
                Ok(Held { file, number })
            }
            Err(error) => {
                self.calls.note(&Called::Empties(name, number, false));
                Err(error)
            }
        }
    }

    /// Makes a file of this name, which must not be there. It has at most these permission bits, if there are any.
    pub fn create_new(&mut self, name: &str, mode: Option<u32>) -> io::Result<Held<M::File>>
        ensures noted { IfOk result (λ held. calls_of self.new ≡ calls_of self.old ++ (disk.makes name.now (number_of held), true) ∷ []) }
        ensures failed { OnErr result ((i : ℕ) × (calls_of self.new ≡ calls_of self.old ++ (disk.makes name.now i, false) ∷ [])) }
    {
        let number = self.number();
        match self.machine.create_new(name, mode) {
            Ok(file) => {
                self.calls.note(&Called::Makes(name, number, true));
                Ok(Held { file, number })
            }
            Err(error) => {
                self.calls.note(&Called::Makes(name, number, false));
                Err(error)
            }
        }
    }

    /// Writes some of the bytes to a file that is open, and answers how many.
    pub fn write(&mut self, held: &mut Held<M::File>, bytes: &[u8]) -> io::Result<usize>
        ensures within { IfOk result (λ n. n ≤ length bytes.now) }
        ensures noted { IfOk result (λ n. calls_of self.new ≡ calls_of self.old ++
            (disk.writes (number_of held.old) (take n bytes.now), true) ∷ []) }
        ensures failed { OnErr result (calls_of self.new ≡ calls_of self.old ++ (disk.writes (number_of held.old) bytes.now, false) ∷ []) }
        ensures same { number_of held.new ≡ number_of held.old }
    {
        match held.file.write(bytes) {
            Ok(n) => {
                self.calls
                    .note(&Called::Writes(held.number, &bytes[..n], true));
                Ok(n)
            }
            Err(error) => {
                self.calls.note(&Called::Writes(held.number, bytes, false));
                Err(error)
            }
        }
    }

    /// Gives the file of this name, which is no link, a second name, which nothing has.
    pub fn link(&mut self, name: &str, second: &str) -> io::Result<()>
        ensures noted { OnOk result (calls_of self.new ≡ calls_of self.old ++ (disk.links name.now second.now, true) ∷ []) }
        ensures failed { OnErr result (calls_of self.new ≡ calls_of self.old ++ (disk.links name.now second.now, false) ∷ []) }
    {
        let linked = self.machine.link(name, second);
        self.calls
            .note(&Called::Links(name, second, linked.is_ok()));
        linked
    }

    /// Writes what the file of this name has to a file that is open.
    pub fn copy(&mut self, name: &str, to: &mut Held<M::File>) -> io::Result<()>
        ensures noted { OnOk result (calls_of self.new ≡ calls_of self.old ++ (disk.copies name.now (number_of to.old), true) ∷ []) }
        ensures failed { OnErr result (calls_of self.new ≡ calls_of self.old ++ (disk.copies name.now (number_of to.old), false) ∷ []) }
        ensures same { number_of to.new ≡ number_of to.old }
    {
        let copied = self.machine.copy(name, &mut to.file);
        self.calls
            .note(&Called::Copies(name, to.number, copied.is_ok()));
        copied
    }

    /// Gives the file these permission bits, if there are any, and has all of it stored for good.
    pub fn sync(&mut self, held: &Held<M::File>, mode: Option<u32>) -> io::Result<()>
        ensures noted { OnOk result (calls_of self.new ≡ calls_of self.old ++ (disk.syncs (number_of held.now), true) ∷ []) }
        ensures failed { OnErr result (calls_of self.new ≡ calls_of self.old ++ (disk.syncs (number_of held.now), false) ∷ []) }
    {
        let synced = self.machine.sync(&held.file, mode);
        self.calls.note(&Called::Syncs(held.number, synced.is_ok()));
        synced
    }

    /// Gives a file another name, in place of the file that has it.
    pub fn rename(&mut self, from: &str, to: &str) -> io::Result<()>
        ensures noted { OnOk result (calls_of self.new ≡ calls_of self.old ++ (disk.renames from.now to.now, true) ∷ []) }
        ensures failed { OnErr result (calls_of self.new ≡ calls_of self.old ++ (disk.renames from.now to.now, false) ∷ []) }
    {
        let renamed = self.machine.rename(from, to);
        self.calls.note(&Called::Renames(from, to, renamed.is_ok()));
        renamed
    }

    /// Has the names of the folder that the name stands in stored for good.
    pub fn sync_folder(&mut self, name: &str) -> io::Result<()>
        ensures noted { (answer : Bool) × (calls_of self.new ≡ calls_of self.old ++ (disk.looks name.now, answer) ∷ []) }
    {
        let synced = self.machine.sync_folder(name);
        self.calls.note(&Called::Looks(name, synced.is_ok()));
        synced
    }

    /// Removes the file of this name.
    pub fn remove(&mut self, name: &str) -> io::Result<()>
        ensures noted { OnOk result (calls_of self.new ≡ calls_of self.old ++ (disk.removes name.now, true) ∷ []) }
        ensures failed { OnErr result (calls_of self.new ≡ calls_of self.old ++ (disk.removes name.now, false) ∷ []) }
    {
        let removed = self.machine.remove(name);
        self.calls.note(&Called::Removes(name, removed.is_ok()));
        removed
    }

    /// The number of the next file that is opened.
    fn number(&mut self) -> u64
        ensures { calls_of self.new ≡ calls_of self.old }
    {
        self.opened = self.opened.saturating_add(1);
        self.opened
    }
}
