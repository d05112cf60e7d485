//! The older file of an output's name: where it is precious, it gets a name for older files before the output gets its own. At every moment
//! both are whole.

ghost use Rattle.std.specs.Prelude.{◌≡◌, ℕ, List, [], Option, true, IfSome, IfNone, IfOk, OnOk, OnErr};
ghost use Rattle.jls_host.specs.Disk.{Content, Went};
ghost use Rattle.jls_host.specs.Moments.{Shows, older_name};
ghost use Rattle.jls_host.specs.Steps.{Beside, Steady, IsNew, IsOpened, IsSecond, IsKept};
ghost use Rattle.jls_host.specs.Recorded.{calls_of, number_of};

use crate::choice::can_go;
use crate::machine::Machine;
use crate::making::{TRIES, create_beside};
use crate::name::{Name, name_beside, name_kept};
use crate::output::Why;
use crate::recorded::{Held, Recorded};
use std::io;

/// Gives the file of this name a second name, beside it, under the first number that is free. `None` if it can't be had.
fn link_beside<M: Machine>(machine: &mut Recorded<M>, name: &str) -> Option<Name>
    ensures found { IfSome result (λ second. (x : Option Content) (held : Option Beside) →
        Went (Steady name.now x held) (Shows name.now x) (IsSecond name.now second.bytes x held) (calls_of machine.old)
        (calls_of machine.new)) }
    ensures none { IfNone result ((x : Option Content) (held : Option Beside) →
        Went (Steady name.now x held) (Shows name.now x) (Steady name.now x held) (calls_of machine.old) (calls_of machine.new)) }
{
    for number in 1..TRIES {
        let Some(own) = name_beside(name, number) else {
            return None;
        };
        match machine.link(name, own.as_str()) {
            Ok(()) => return Some(own),
            Err(error) if error.kind() == io::ErrorKind::AlreadyExists => {}
            Err(_) => return None,
        }
    }
    None
}

/// Copies the file of this name to one that is open, and has all of that stored.
fn copy_and_sync<M: Machine>(
    machine: &mut Recorded<M>,
    name: &str,
    to: &mut Held<M::File>,
    mode: Option<u32>,
) -> io::Result<()>
    ensures ok { OnOk result ((second : List ℕ) (x : Option Content) (held : Option Beside) →
        Went (IsNew name.now second (number_of to.old) [] x held) (Shows name.now x) (IsSecond name.now second x held)
        (calls_of machine.old) (calls_of machine.new)) }
    ensures err { OnErr result ((second : List ℕ) (x : Option Content) (held : Option Beside) →
        Went (IsNew name.now second (number_of to.old) [] x held) (Shows name.now x) (IsOpened name.now second (number_of to.old) x held)
        (calls_of machine.old) (calls_of machine.new)) }
{
    match machine.copy(name, to) {
        Ok(()) => machine.sync(to, mode),
        Err(error) => Err(error),
    }
}

/// Makes a copy of the file of this name, beside it. `None` if it can't be made.
fn copy_beside<M: Machine>(machine: &mut Recorded<M>, name: &str) -> Option<Name>
    ensures found { IfSome result (λ second. (x : Option Content) (held : Option Beside) →
        Went (Steady name.now x held) (Shows name.now x) (IsSecond name.now second.bytes x held) (calls_of machine.old)
        (calls_of machine.new)) }
    ensures none { IfNone result ((x : Option Content) (held : Option Beside) →
        Went (Steady name.now x held) (Shows name.now x) (Steady name.now x held) (calls_of machine.old) (calls_of machine.new)) }
{
    let mode = machine.mode(name);
    let (mut file, own) = match create_beside(machine, name, mode) {
        Ok(made) => made,
        Err(_) => return None,
    };
    match copy_and_sync(machine, name, &mut file, mode) {
        Ok(()) => Some(own),
        Err(_) => {
            let _ = machine.remove(own.as_str());
            None
        }
    }
}

/// Gives the file of this name a second name beside it. If it is to be copied, or can't have a second name, it makes a copy there. `None`
/// if neither can be had.
fn second_beside<M: Machine>(machine: &mut Recorded<M>, name: &str, is_copied: bool) -> Option<Name>
    ensures found { IfSome result (λ second. (x : Option Content) (held : Option Beside) →
        Went (Steady name.now x held) (Shows name.now x) (IsSecond name.now second.bytes x held) (calls_of machine.old)
        (calls_of machine.new)) }
    ensures none { IfNone result ((x : Option Content) (held : Option Beside) →
        Went (Steady name.now x held) (Shows name.now x) (Steady name.now x held) (calls_of machine.old) (calls_of machine.new)) }
{
    if is_copied {
        return copy_beside(machine, name);
    }
    if let Some(second) = link_beside(machine, name) {
        return Some(second);
    }
    copy_beside(machine, name)
}

/// Gives what has a second name the name for older files.
fn set_aside<M: Machine>(
    machine: &mut Recorded<M>,
    name: &str,
    second: &str,
    kept: &str,
) -> Result<(), Why>
    requires { kept.now ≡ older_name name.now }
    ensures ok { OnOk result ((x : Option Content) (held : Option Beside) →
        Went (IsSecond name.now second.now x held) (Shows name.now x) (IsKept name.now x held) (calls_of machine.old)
        (calls_of machine.new)) }
    ensures err { OnErr result ((x : Option Content) (held : Option Beside) →
        Went (IsSecond name.now second.now x held) (Shows name.now x) (Steady name.now x held) (calls_of machine.old)
        (calls_of machine.new)) }
{
    match machine.rename(second, kept) {
        Ok(()) => {
            let _ = machine.sync_folder(kept);
            Ok(())
        }
        Err(_) => {
            let _ = machine.remove(second);
            Err(Why::NotKept)
        }
    }
}

/// Looks at what has the name for older files. The answer says whether that is the very file of the name. `Err` comes if it must not go.
fn see_kept<M: Machine>(machine: &mut Recorded<M>, name: &str, kept: &str) -> Result<bool, Why>
    requires { kept.now ≡ older_name name.now }
    ensures same { (x : Option Content) (held : Option Beside) →
        Went (Steady name.now x held) (Shows name.now x) (Steady name.now x held) (calls_of machine.old) (calls_of machine.new) }
    ensures kept { IfOk result (λ is_one. is_one ≡ true → (x : Option Content) (held : Option Beside) →
        Went (Steady name.now x held) (Shows name.now x) (IsKept name.now x held) (calls_of machine.old) (calls_of machine.new)) }
{
    let standing = machine.standing(kept);
    let kind = machine.kind(kept);
    let is_input = machine.is_input(kept);
    if !can_go(standing, kind, is_input) {
        return Err(Why::Taken);
    }
    Ok(machine.are_one(name, kept))
}

/// Keeps the file of this name under the name for older files, by a second name that it gets, or else by a copy. If the file itself will be
/// written, it is a copy. What has the name for older files goes if it is a partial picture and no input. If it must stay, that is an
/// error.
pub(crate) fn keep<M: Machine>(
    machine: &mut Recorded<M>,
    name: &str,
    is_copied: bool,
) -> Result<(), Why>
    ensures ok { OnOk result ((x : Option Content) (held : Option Beside) →
        Went (Steady name.now x held) (Shows name.now x) (IsKept name.now x held) (calls_of machine.old) (calls_of machine.new)) }
    ensures err { OnErr result ((x : Option Content) (held : Option Beside) →
        Went (Steady name.now x held) (Shows name.now x) (Steady name.now x held) (calls_of machine.old) (calls_of machine.new)) }
{
    let Some(kept) = name_kept(name) else {
        return Err(Why::NotKept);
    };
    let kept = kept.as_str();
    match see_kept(machine, name, kept) {
        Ok(false) => {}
        // a run that was stopped has kept it; or, where it will be written, a link leads to what is kept
        Ok(true) => return if is_copied { Err(Why::Taken) } else { Ok(()) },
        Err(why) => return Err(why),
    }
    match second_beside(machine, name, is_copied) {
        Some(second) => set_aside(machine, name, second.as_str(), kept),
        None => Err(Why::NotKept),
    }
}
