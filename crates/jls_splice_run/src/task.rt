//! What a run is to do.

ghost use Rattle.std.specs.Prelude.{◌≡◌, ◌<◌, ◌↔◌, length, IfOk, IsTrue, map, option_map};
ghost use Rattle.jls_cli.specs.declared.outcome.Cause.TheVariants.{OutOfMemory};
ghost use Rattle.jls_cli.specs.SpliceAsking.{asked_of};
ghost use Rattle.jls_splice_run.specs.Ceilings.{has_some};
ghost use Rattle.jls_splice_run.specs.Listing.{prefix_in};
ghost use Rattle.jls_splice_run.specs.Runs.{IsFileOut, IsNumberedOut, bad_value};
ghost use Rattle.jls_splice_run.specs.Runs as spec;
ghost use Rattle.jls_cli.specs.BadValues.{list_of};
ghost use Rattle.jls_splice_run.specs.Tasks.{task_of, texts_of};

use crate::listing::is_numbered;
use jls_cli::splice::{Asked, BadList, Options};
use jls_cli::{Cause, Refusal};
use std::alloc::{AllocError, Global};

/// What a run is to do: its options, the output, the copies in their order, lists of their bad places, and witnesses.
#[derive(Clone, Copy)]
pub struct Task<'m, 'a> {
    pub options: Options<'a>,
    pub out: &'a str,
    pub names: &'m [&'a str],
    /// The values of `--bad`, in their order. One that names no list is passed over.
    pub bad: &'m [&'a str],
    /// The values of `--witness`, in their order: files whose lines help to mend the copies.
    pub witnesses: &'m [&'a str],
}

/// The names of the copies, in their order.
pub(crate) fn names_of<'a>(alloc: Global, asked: &Asked<'_, 'a>) -> Result<Vec<&'a str>, AllocError>
    ensures { IfOk result (λ names. texts_of names.items ≡ (asked_of asked.now).copies) }
{
    let others = asked.others;
    let mut names = Vec::new(alloc);
    names.push(asked.first)?;
    for name in others {
        names.push(name)?;
    }
    Ok(names)
}

/// Whether the mended file is asked for under the name OUT.
pub(crate) fn is_file_out(asked: &Asked<'_, '_>) -> bool
    ensures { IsTrue result ↔ IsFileOut (asked_of asked.now) }
{
    match asked.options.file {
        Some(file) => file == asked.out,
        None => false,
    }
}

/// Whether OUT has a name that `--files` can give.
pub(crate) fn is_numbered_out(alloc: Global, asked: &Asked<'_, '_>) -> Result<bool, AllocError>
    ensures { IfOk result (λ is. IsTrue is ↔ IsNumberedOut (asked_of asked.now)) }
{
    match asked.options.files {
        Some(prefix) => is_numbered(alloc, prefix, asked.out),
        None => Ok(false),
    }
}

/// Whether files whose names begin so can have this one.
fn can_be_numbered(prefix: Option<&str>, name: &str) -> bool
    ensures { result ≡ spec.can_be_numbered (option_map (λ s. s.now) prefix.entry) name.now }
{
    let Some(prefix) = prefix else {
        return false;
    };
    let (prefix, name) = (prefix.as_bytes(), name.as_bytes());
    let next = if prefix.len() < name.len() {
        name[prefix.len()]
    } else {
        0
    };
    name.starts_with(prefix) && next == b'-'
}

/// Whether the mended file has this name.
fn is_file_name(file: Option<&str>, name: &str) -> bool
    ensures { result ≡ spec.is_file_name (option_map (λ s. s.now) file.entry) name.now }
{
    match file {
        Some(file) => name == file,
        None => false,
    }
}

/// Whether a name is that of standard input, or of an output that is asked for.
fn is_taken_name(asked: &Asked<'_, '_>, name: &str) -> bool
    ensures { result ≡ spec.is_taken_name (asked_of asked.now) name.now }
{
    name == "-"
        || name == asked.out
        || is_file_name(asked.options.file, name)
        || can_be_numbered(asked.options.files, name)
}

/// Whether it is a list of one of the copies, under a name of its own.
fn is_list_of(asked: &Asked<'_, '_>, list: Option<BadList<'_>>) -> bool
    ensures { result ≡ spec.is_list_of (asked_of asked.now) (option_map list_of list.entry) }
{
    let count = asked.others.len().saturating_add(1);
    match list {
        Some(list) => list.copy as usize <= count && !is_taken_name(asked, list.name),
        None => false,
    }
}

/// The first value of `--bad` that names no list of a copy, or one under the name of standard input or of an output.
pub(crate) fn bad_value_in<'a>(asked: &Asked<'_, 'a>) -> Option<&'a str>
    ensures { option_map (λ s. s.now) result ≡ bad_value (asked_of asked.now) }
{
    for value in asked.bad {
        if !is_list_of(asked, BadList::of(value)) {
            return Some(*value);
        }
    }
    None
}

/// What the names of `--files` begin with. It is empty where no names are asked for.
pub(crate) fn prefix_of<'a>(task: &Task<'_, 'a>) -> &'a str
    ensures { result.now ≡ prefix_in (task_of task.now).options.files }
{
    match task.options.files {
        Some(prefix) => prefix,
        None => "",
    }
}

/// Whether there are lists of bad places.
pub(crate) fn has_lists(task: &Task<'_, '_>) -> bool
    ensures { result ≡ has_some (task_of task.now).bad }
{
    !task.bad.is_empty()
}

/// Why a run stops for which memory ran out.
pub(crate) fn want_of_memory<'a>(task: &Task<'_, 'a>) -> Refusal<'a>
    ensures name { result.name.now ≡ task.now.out.now }
    ensures cause { result.cause ≡ OutOfMemory }
{
    Refusal {
        name: task.out,
        cause: Cause::OutOfMemory,
    }
}
