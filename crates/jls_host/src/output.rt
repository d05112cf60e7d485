//! An output that is to be whole or not at all: `making` makes it, and `ending` ends it.

ghost use Rattle.std.specs.Prelude.{◌≡◌, ◌≤◌, ◌++◌, ℕ, Bool, true, List, Option, Some, length, take, IfOk, IfErr, OnOk};
ghost use Rattle.jls_host.specs.Disk.{Content, Went};
ghost use Rattle.jls_host.specs.Moments.{Shows, FirstShows, Has, Anything, IsGoingOn, IsBegun, IsWhole, IsReady};
ghost use Rattle.jls_host.specs.Recorded.{calls_of};
ghost use Rattle.jls_host.specs.Outputs.{takes_name, number_in, IsProtection};

use crate::choice::{Ending, Guard, Kind, Way};
use crate::ending::end_beside;
use crate::machine::Machine;
use crate::making::{create_at_own, create_in_place, look, way};
use crate::name::Name;
use crate::recorded::{Held, Recorded};
use std::io;
use std::io::Write;

/// A file beside an output: the output's name, its own name, and the mode of the regular file that the output's name leads to.
#[derive(Drop)]
pub(crate) struct FileBeside {
    pub(crate) name: Name,
    pub(crate) own: Name,
    pub(crate) mode: Option<u32>,
    pub(crate) guard: Guard,
    /// Whether it is copied to the output's name at the end. Else it takes the name.
    pub(crate) is_copied: bool,
}

/// An output that is open: a file at its name, or one of its own beside it.
#[derive(Drop)]
pub struct Output<F> {
    pub(crate) held: Held<F>,
    pub(crate) beside: Option<FileBeside>,
}

/// Why an output does not get its name.
#[derive(Clone, Copy, Debug, PartialEq, Eq)]
pub enum Why {
    /// A call of the system failed.
    Failed,
    /// A JPEG file has the name.
    Jpeg,
    /// The first bytes of the file that has the name can't be read.
    Unreadable,
    /// The older file can't be kept: what has the name for it stays.
    Taken,
    /// The older file can't be kept: a call of the system failed.
    NotKept,
}

/// An output that did not get its name, and why.
#[derive(Drop)]
pub struct Unmade {
    pub name: Name,
    pub why: Why,
}

/// Why nothing replaces a protected file of this kind.
pub(crate) fn why_protected(kind: Kind) -> Why {
    match kind {
        Kind::Jpeg => Why::Jpeg,
        _ => Why::Unreadable,
    }
}

impl<F: Write + Drop> Output<F> {
    /// Makes the output of this name. If nothing stands there, or a regular file that opens for writing, it is a file of its own beside the
    /// name. So it is where a link leads to a precious file that opens. Otherwise it is the file at the name, emptied. It is that file too
    /// where the folder takes no file beside it, unless a precious file would be lost.
    ///
    /// `Err` comes for a protected file, and it is proved that this one stays. It also comes if the file that is to be replaced does not
    /// open for writing. And it comes if no file can be made beside a precious one, or a call of the system fails.
    pub fn create<M: Machine<File = F>>(
        machine: &mut Recorded<M>,
        name: &str,
        guard: Guard,
    ) -> Result<Output<F>, Why>
        ensures beside { IfOk result (λ o. (n own : List ℕ) → takes_name o ≡ Some (n, own) → (n ≡ name.now) × ((x : Option Content) →
            Went (FirstShows name.now x) (FirstShows name.now x) (IsBegun name.now own (number_in o) x) (calls_of machine.old)
            (calls_of machine.new))) }
        ensures protected { IfErr result (λ why. IsProtection why → (x : Option Content) →
            Went (FirstShows name.now x) (FirstShows name.now x) (FirstShows name.now x) (calls_of machine.old) (calls_of machine.new)) }
    {
        let found = look(machine, name, guard);
        match way(machine, name, found) {
            Way::Refused if found.is_protected => Err(why_protected(found.kind)),
            Way::Refused => Err(Why::Failed),
            Way::InPlace => create_in_place(machine, name, found.is_precious),
            Way::Beside => create_at_own(machine, name, guard, found, false),
            Way::Over => create_at_own(machine, name, guard, found, true),
        }
    }

    /// Writes some of the bytes, and answers how many.
    pub fn write<M: Machine<File = F>>(
        &mut self,
        machine: &mut Recorded<M>,
        bytes: &[u8],
    ) -> io::Result<usize>
        ensures within { IfOk result (λ n. n ≤ length bytes.now) }
        ensures same { takes_name self.new ≡ takes_name self.old }
        ensures number { number_in self.new ≡ number_in self.old }
        ensures stays { (name own : List ℕ) (x : Option Content) →
            Went (IsGoingOn name own (number_in self.old) x) (Shows name x) (IsGoingOn name own (number_in self.old) x)
            (calls_of machine.old) (calls_of machine.new) }
        ensures written { IfOk result (λ n. (had : List ℕ) →
            Went (Has (number_in self.old) had) Anything (Has (number_in self.old) (had ++ take n bytes.now)) (calls_of machine.old)
            (calls_of machine.new)) }
    {
        machine.write(&mut self.held, bytes)
    }

    /// Ends the output. A file beside the name takes the name once all of it is stored, or is removed. If it can't be stored or renamed, it
    /// is removed too, what stands at the name stays, and `Err` has the name. The same comes of a precious file at the name that can't be
    /// kept. A folder that can't be synced is no error: the name has the whole output then.
    pub fn end<M: Machine<File = F>>(
        self,
        machine: &mut Recorded<M>,
        ending: Ending,
    ) -> Result<(), Unmade>
        ensures whole { (name own : List ℕ) → takes_name self ≡ Some (name, own) → (x : Option Content) (bytes : List ℕ) (precious : Bool) →
            Went (IsReady name own (number_in self) x bytes precious) (IsWhole name x bytes precious) (IsWhole name x bytes precious)
            (calls_of machine.old) (calls_of machine.new) }
        ensures kept { ending ≡ Ending.Keep → OnOk result ((name own : List ℕ) → takes_name self ≡ Some (name, own) →
            (x : Option Content) (bytes : List ℕ) (precious : Bool) →
            Went (IsReady name own (number_in self) x bytes precious) (IsWhole name x bytes precious) (Shows name (Some (bytes, true)))
            (calls_of machine.old) (calls_of machine.new)) }
        ensures dropped { ending ≡ Ending.Drop → (name own : List ℕ) → takes_name self ≡ Some (name, own) → (x : Option Content) →
            Went (IsGoingOn name own (number_in self) x) (Shows name x) (Shows name x) (calls_of machine.old) (calls_of machine.new) }
        ensures named { IfErr result (λ unmade. (name own : List ℕ) → takes_name self ≡ Some (name, own) → unmade.name.bytes ≡ name) }
    {
        let Output { held, beside } = self;
        let Some(beside) = beside else {
            return Ok(());
        };
        match end_beside(machine, &held, &beside, ending) {
            Ok(()) => Ok(()),
            Err(why) => {
                let name = beside.name;
                Err(Unmade { name, why })
            }
        }
    }
}
