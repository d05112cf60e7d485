//! How an output is ended: its file takes the name, is copied to it, or is removed. `older` keeps the file that it replaces.

ghost use Rattle.std.specs.Prelude.{◌≡◌, ℕ, Bool, true, false, List, Option, Some, OnOk, OnErr};
ghost use Rattle.jls_host.specs.Disk.{Content, Went};
ghost use Rattle.jls_host.specs.Moments.{Shows, IsGoingOn, IsWhole, IsReady};
ghost use Rattle.jls_host.specs.Steps.{Steady, IsStored, MayTake, IsTaken, IsLeft};
ghost use Rattle.jls_host.specs.Recorded.{calls_of, number_of};

use crate::choice::{Ending, Guard, is_precious, is_protected};
use crate::machine::Machine;
use crate::older::keep;
use crate::output::{FileBeside, Why, why_protected};
use crate::recorded::{Held, Recorded};
use std::io;

/// Sees to the older file of a name, before the file beside it takes the name. The answer says whether that is precious and has the same
/// bytes already. What stands at the name is looked at anew, since another run may have put it there.
fn see_to_older<M: Machine>(
    machine: &mut Recorded<M>,
    name: &str,
    own: &str,
    guard: Guard,
    is_copied: bool,
) -> Result<bool, Why>
    ensures ok { OnOk result ((x : Option Content) (i : ℕ) (bytes : List ℕ) (precious : Bool) →
        Went (IsStored name.now x (own.now, i, bytes) precious) (Shows name.now x) (MayTake name.now x (own.now, i, bytes) precious)
        (calls_of machine.old) (calls_of machine.new)) }
    ensures err { OnErr result ((x : Option Content) (i : ℕ) (bytes : List ℕ) (precious : Bool) →
        Went (IsStored name.now x (own.now, i, bytes) precious) (Shows name.now x) (Steady name.now x (Some (own.now, i, bytes)))
        (calls_of machine.old) (calls_of machine.new)) }
{
    let kind = machine.kind(name);
    if is_protected(guard, kind) {
        return Err(why_protected(kind));
    }
    let is_input = machine.is_input(name);
    if !is_precious(kind, is_input) {
        return Ok(false);
    }
    let is_there = match machine.are_equal(own, name) {
        Ok(is_there) => is_there,
        Err(_) => return Err(Why::Unreadable),
    };
    if is_there {
        return Ok(true);
    }
    match keep(machine, name, is_copied) {
        Ok(()) => Ok(false),
        Err(why) => Err(why),
    }
}

/// Gives the file beside a name that name.
fn take_name<M: Machine>(machine: &mut Recorded<M>, own: &str, name: &str) -> Result<(), Why>
    ensures ok { OnOk result ((x : Option Content) (i : ℕ) (bytes : List ℕ) (precious : Bool) →
        Went (MayTake name.now x (own.now, i, bytes) precious) (IsWhole name.now x bytes precious) (IsTaken name.now x bytes precious)
        (calls_of machine.old) (calls_of machine.new)) }
    ensures err { OnErr result ((x : Option Content) (i : ℕ) (bytes : List ℕ) (precious : Bool) →
        Went (MayTake name.now x (own.now, i, bytes) precious) (IsWhole name.now x bytes precious)
        (IsLeft name.now own.now x bytes precious) (calls_of machine.old) (calls_of machine.new)) }
{
    match machine.rename(own, name) {
        Ok(()) => {
            let _ = machine.sync_folder(name);
            Ok(())
        }
        Err(_) => Err(Why::Failed),
    }
}

/// Copies a file to a name, has the copy stored, and removes the file.
fn copy_over<M: Machine>(machine: &mut Recorded<M>, own: &str, name: &str) -> io::Result<()> {
    let mut to = machine.create(name)?;
    machine.copy(own, &mut to)?;
    machine.sync(&to, None)?;
    machine.remove(own)
}

/// Stores the file beside a name, with the permission bits of the file that it is copied to. Keeps the older file if that is precious. Then
/// copies the new file over it, unless both have the same bytes, and removes the new one.
fn put_over<M: Machine>(
    machine: &mut Recorded<M>,
    held: &Held<M::File>,
    beside: &FileBeside,
) -> Result<(), Why> {
    let name = beside.name.as_str();
    let own = beside.own.as_str();
    machine.sync(held, beside.mode).map_err(|_| Why::Failed)?;
    let is_there = see_to_older(machine, name, own, beside.guard, true)?;
    let put = if is_there {
        machine.remove(own)
    } else {
        copy_over(machine, own, name)
    };
    put.map_err(|_| Why::Failed)?;
    let _ = machine.sync_folder(name);
    Ok(())
}

/// Stores the file beside a name, with the permission bits of the file that it replaces. Keeps the older file if that is precious. Then
/// gives the new file the name.
fn put_named<M: Machine>(
    machine: &mut Recorded<M>,
    held: &Held<M::File>,
    name: &str,
    own: &str,
    mode: Option<u32>,
    guard: Guard,
) -> Result<(), Why>
    ensures ok { OnOk result ((x : Option Content) (bytes : List ℕ) (precious : Bool) →
        Went (IsReady name.now own.now (number_of held.now) x bytes precious) (IsWhole name.now x bytes precious)
        (IsTaken name.now x bytes precious) (calls_of machine.old) (calls_of machine.new)) }
    ensures err { OnErr result ((x : Option Content) (bytes : List ℕ) (precious : Bool) →
        Went (IsReady name.now own.now (number_of held.now) x bytes precious) (IsWhole name.now x bytes precious)
        (IsLeft name.now own.now x bytes precious) (calls_of machine.old) (calls_of machine.new)) }
{
    match machine.sync(held, mode) {
        Ok(()) => {}
        Err(_) => return Err(Why::Failed),
    }
    match see_to_older(machine, name, own, guard, false) {
        Ok(_) => take_name(machine, own, name),
        Err(why) => Err(why),
    }
}

/// Ends an output whose file is to take its name.
fn end_named<M: Machine>(
    machine: &mut Recorded<M>,
    held: &Held<M::File>,
    name: &str,
    own: &str,
    mode: Option<u32>,
    guard: Guard,
    ending: Ending,
) -> Result<(), Why>
    ensures whole { (x : Option Content) (bytes : List ℕ) (precious : Bool) →
        Went (IsReady name.now own.now (number_of held.now) x bytes precious) (IsWhole name.now x bytes precious)
        (IsWhole name.now x bytes precious) (calls_of machine.old) (calls_of machine.new) }
    ensures kept { ending ≡ Ending.Keep → OnOk result ((x : Option Content) (bytes : List ℕ) (precious : Bool) →
        Went (IsReady name.now own.now (number_of held.now) x bytes precious) (IsWhole name.now x bytes precious)
        (Shows name.now (Some (bytes, true))) (calls_of machine.old) (calls_of machine.new)) }
    ensures dropped { ending ≡ Ending.Drop → (x : Option Content) →
        Went (IsGoingOn name.now own.now (number_of held.now) x) (Shows name.now x) (Shows name.now x) (calls_of machine.old)
        (calls_of machine.new) }
{
    match ending {
        Ending::Keep => {}
        Ending::Drop => {
            let _ = machine.remove(own);
            return Ok(());
        }
    }
    match put_named(machine, held, name, own, mode, guard) {
        Ok(()) => Ok(()),
        Err(why) => {
            let _ = machine.remove(own);
            Err(why)
        }
    }
}

/// Ends an output whose file is copied to its name.
fn end_over<M: Machine>(
    machine: &mut Recorded<M>,
    held: &Held<M::File>,
    beside: &FileBeside,
    ending: Ending,
) -> Result<(), Why> {
    let put = match ending {
        Ending::Keep => put_over(machine, held, beside),
        Ending::Drop => {
            let _ = machine.remove(beside.own.as_str());
            return Ok(());
        }
    };
    if put.is_err() {
        let _ = machine.remove(beside.own.as_str());
    }
    put
}

/// Ends an output that has a file beside its name.
pub(crate) fn end_beside<M: Machine>(
    machine: &mut Recorded<M>,
    held: &Held<M::File>,
    beside: &FileBeside,
    ending: Ending,
) -> Result<(), Why>
    ensures whole { beside.now.is_copied ≡ false → (x : Option Content) (bytes : List ℕ) (precious : Bool) →
        Went (IsReady beside.now.name.bytes beside.now.own.bytes (number_of held.now) x bytes precious)
        (IsWhole beside.now.name.bytes x bytes precious) (IsWhole beside.now.name.bytes x bytes precious) (calls_of machine.old)
        (calls_of machine.new) }
    ensures kept { ending ≡ Ending.Keep → OnOk result (beside.now.is_copied ≡ false →
        (x : Option Content) (bytes : List ℕ) (precious : Bool) →
        Went (IsReady beside.now.name.bytes beside.now.own.bytes (number_of held.now) x bytes precious)
        (IsWhole beside.now.name.bytes x bytes precious) (Shows beside.now.name.bytes (Some (bytes, true))) (calls_of machine.old)
        (calls_of machine.new)) }
    ensures dropped { ending ≡ Ending.Drop → beside.now.is_copied ≡ false → (x : Option Content) →
        Went (IsGoingOn beside.now.name.bytes beside.now.own.bytes (number_of held.now) x) (Shows beside.now.name.bytes x)
        (Shows beside.now.name.bytes x) (calls_of machine.old) (calls_of machine.new) }
{
    if beside.is_copied {
        return end_over(machine, held, beside, ending);
    }
    let name = beside.name.as_str();
    let own = beside.own.as_str();
    end_named(machine, held, name, own, beside.mode, beside.guard, ending)
}
