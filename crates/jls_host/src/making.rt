//! How an output is made: as a file of its own beside its name, or at the name.

ghost use Rattle.std.specs.Prelude.{◌≡◌, ℕ, Bool, true, false, List, [], Option, None, IfOk, IfErr, OnErr};
ghost use Rattle.jls_host.specs.Disk.{Content, Went};
ghost use Rattle.jls_host.specs.Moments.{Shows, FirstShows, IsBegun};
ghost use Rattle.jls_host.specs.Steps.{Beside, Steady, IsSeen, IsNew};
ghost use Rattle.jls_host.specs.Recorded.{calls_of, number_of};
ghost use Rattle.jls_host.specs.Standings.{plainly};
ghost use Rattle.jls_host.specs.Outputs.{takes_name, number_in, IsNoProtection};

use crate::choice::{Guard, Kind, Standing, Way, is_precious, is_protected, way_to_make};
use crate::machine::Machine;
use crate::name::{Name, name_beside};
use crate::output::{FileBeside, Output, Why};
use crate::recorded::{Held, Recorded};
use std::io;

/// Files beside one output are tried under the numbers below this.
pub(crate) const TRIES: u32 = 10_000;

/// Whether this error says that the folder takes no file, or that the longer name is too long. Then a file at the name may do in place of
/// one beside it. A full disk is no such error: what stands at the name would be lost.
fn is_of_folder(error: &io::Error) -> bool {
    matches!(
        error.kind(),
        io::ErrorKind::PermissionDenied
            | io::ErrorKind::ReadOnlyFilesystem
            | io::ErrorKind::InvalidFilename
    )
}

/// Makes a file beside the name, under the first number that is free. `Err(None)` where the name is too long for the buffer, or each number
/// is taken. Every other error is answered.
pub(crate) fn create_beside<M: Machine>(
    machine: &mut Recorded<M>,
    name: &str,
    mode: Option<u32>,
) -> Result<(Held<M::File>, Name), Option<io::Error>>
    ensures found { IfOk result (λ made. (x : Option Content) (held : Option Beside) →
        Went (Steady name.now x held) (Shows name.now x) (IsNew name.now made.1.bytes (number_of made.0) [] x held) (calls_of machine.old)
        (calls_of machine.new)) }
    ensures none { OnErr result ((x : Option Content) (held : Option Beside) →
        Went (Steady name.now x held) (Shows name.now x) (Steady name.now x held) (calls_of machine.old) (calls_of machine.new)) }
{
    for number in 1..TRIES {
        let Some(own) = name_beside(name, number) else {
            return Err(None);
        };
        match machine.create_new(own.as_str(), mode) {
            Ok(file) => return Ok((file, own)),
            Err(error) if error.kind() == io::ErrorKind::AlreadyExists => {}
            Err(error) => return Err(Some(error)),
        }
    }
    Err(None)
}

/// Makes the file at the name, unless a precious file would be lost.
pub(crate) fn create_in_place<M: Machine>(
    machine: &mut Recorded<M>,
    name: &str,
    is_precious: bool,
) -> Result<Output<M::File>, Why>
    ensures place { IfOk result (λ o. takes_name o ≡ None) }
    ensures why { IfErr result IsNoProtection }
{
    if is_precious {
        return Err(Why::NotKept);
    }
    match machine.create(name) {
        Ok(held) => Ok(Output { held, beside: None }),
        Err(_) => Err(Why::Failed),
    }
}

/// The permission bits of the file that an output replaces, if there is one.
fn mode_of<M: Machine>(machine: &mut Recorded<M>, standing: Standing, name: &str) -> Option<u32>
    ensures { (x : Option Content) (held : Option Beside) → Went (Steady name.now x held) (Shows name.now x) (Steady name.now x held)
        (calls_of machine.old) (calls_of machine.new) }
{
    match standing {
        Standing::Absent => None,
        Standing::Regular(mode) => Some(mode),
        Standing::Other => machine.mode(name),
    }
}

/// What is known of a name when an output of it is to be made.
#[derive(Clone, Copy)]
pub(crate) struct Found {
    pub(crate) kind: Kind,
    pub(crate) standing: Standing,
    pub(crate) is_protected: bool,
    pub(crate) is_precious: bool,
}

/// Looks at a name.
pub(crate) fn look<M: Machine>(machine: &mut Recorded<M>, name: &str, guard: Guard) -> Found
    ensures { (x : Option Content) → Went (FirstShows name.now x) (FirstShows name.now x) (IsSeen name.now x (plainly result.standing))
        (calls_of machine.old) (calls_of machine.new) }
{
    let kind = machine.kind(name);
    let is_input = machine.is_input(name);
    let standing = machine.standing(name);
    Found {
        kind,
        standing,
        is_protected: is_protected(guard, kind),
        is_precious: is_precious(kind, is_input),
    }
}

/// Whether a file of this name opens for writing, if that is asked, and else `false`.
fn opens_where<M: Machine>(machine: &mut Recorded<M>, name: &str, is_asked: bool) -> bool
    ensures { (x : Option Content) (plain : Bool) → Went (IsSeen name.now x plain) (FirstShows name.now x) (IsSeen name.now x plain)
        (calls_of machine.old) (calls_of machine.new) }
{
    if is_asked {
        return machine.opens(name);
    }
    false
}

/// How the output of a name is made, at which this was found. Where a file is to be replaced, it is asked whether that opens for writing.
pub(crate) fn way<M: Machine>(machine: &mut Recorded<M>, name: &str, found: Found) -> Way
    ensures plainly { result ≡ Way.Beside → plainly found.standing ≡ true }
    ensures went { (x : Option Content) (plain : Bool) → Went (IsSeen name.now x plain) (FirstShows name.now x) (IsSeen name.now x plain)
        (calls_of machine.old) (calls_of machine.new) }
{
    let opens = opens_where(
        machine,
        name,
        found.is_precious || matches!(found.standing, Standing::Regular(_)),
    );
    way_to_make(found.standing, opens, found.is_protected, found.is_precious)
}

/// Makes a file of its own beside the name, which takes the name at the end, or is copied to it. Where the folder takes no file, the output
/// is the file at the name.
pub(crate) fn create_at_own<M: Machine>(
    machine: &mut Recorded<M>,
    name: &str,
    guard: Guard,
    found: Found,
    is_copied: bool,
) -> Result<Output<M::File>, Why>
    ensures beside { IfOk result (λ o. (n own : List ℕ) → takes_name o ≡ Some (n, own) →
        (n ≡ name.now) × (is_copied ≡ false) × ((x : Option Content) →
        Went (Steady name.now x None) (Shows name.now x) (IsBegun name.now own (number_in o) x) (calls_of machine.old)
        (calls_of machine.new))) }
    ensures why { IfErr result IsNoProtection }
{
    let Ok(whole) = Name::from(name) else {
        return create_in_place(machine, name, found.is_precious);
    };
    let mode = mode_of(machine, found.standing, name);
    match create_beside(machine, name, mode) {
        Ok((held, own)) => Ok(Output {
            held,
            beside: Some(FileBeside {
                name: whole,
                own,
                mode,
                guard,
                is_copied,
            }),
        }),
        Err(Some(error)) if !is_of_folder(&error) => Err(Why::Failed),
        Err(_) => create_in_place(machine, name, found.is_precious),
    }
}
