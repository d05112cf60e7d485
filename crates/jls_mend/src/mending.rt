//! From the copies to what the program hands out.

ghost use Rattle.std.specs.Prelude.{◌≡◌, ◌++◌, ◌∷◌, [], ℕ, List, IfErr, IfOk, map};
ghost use Rattle.jls_memory.specs.Files.{File};
ghost use Rattle.jls_memory.specs.Held.{output_files};
ghost use Rattle.jls_mend.specs.Asking.{AreMendable, places_of};
ghost use Rattle.jls_mend.specs.Mending.{IsMendedOf, IsOfRun, IsRefusedOf};

use crate::asking::{BadPlaces, MendOptions};
use crate::naming::{are_few, lists_are_few, names_for, place_of};
use crate::running::{Ran, run_named};
use jls_cli::Cause;
use jls_memory::{Output, outputs_hold_what_is_handed_out};
use std::alloc::{AllocError, Global};

/// What was mended.
#[derive(Drop)]
pub struct Mended {
    /// Whether the picture is promised. Then the program ends with status 0.
    pub is_promised: bool,
    /// Whether each copy was read to its end. Of copies in memory each is that has fewer than 4,294,967,295 bytes.
    pub is_whole: bool,
    /// What was handed out. First comes OUT with the partial picture as a text, and then FILE with the mended file, if there is one. The
    /// files that have numbers come last, ALL-1, ALL-2 and so on, if they are asked for.
    pub outputs: Vec<Output>,
    /// The lines that the program prints.
    pub lines: Vec<u8>,
}

/// Why nothing was mended.
#[derive(Clone, Copy, Debug, PartialEq, Eq)]
pub struct MendRefusal {
    /// Why the program stops. A write or an output fails only for want of memory.
    pub cause: Cause,
    /// The number of the copy at which it showed, from 0 on, if it showed at one.
    pub copy: Option<usize>,
    /// The number of the list at which it showed, from 0 on, if it showed at one. The cause `NoList` has its line.
    pub list: Option<usize>,
}

impl From<AllocError> for MendRefusal {
    ghost use Rattle.std.specs.Prelude.{◌≡◌, None};
    ghost use Rattle.jls_cli.specs.declared.outcome.Cause.TheVariants.{OutOfMemory};

    ghost from_gives = { λ _ refusal. refusal ≡ record { cause = OutOfMemory; copy = None; list = None } };

    fn from(_error: AllocError) -> MendRefusal {
        MendRefusal {
            cause: Cause::OutOfMemory,
            copy: None,
            list: None,
        }
    }
}

/// The bytes of the last output. There are none where there is no output.
fn last_bytes(alloc: Global, mut outputs: Vec<Output>) -> Vec<u8>
    ensures { (before : List File) (name bytes : List ℕ)
        → output_files outputs.items ≡ before ++ record { name = name; bytes = bytes } ∷ [] → result.items ≡ bytes }
{
    match outputs.pop() {
        Some(output) => {
            let Output { bytes, .. } = output;
            bytes
        }
        None => Vec::new(alloc),
    }
}

/// Mends copies of one file as `jls-splice --file FILE OUT 1 2 ..` does, and with `--files ALL` if these are asked for. The names of the
/// copies are their numbers, from 1 on. Lists of bad places are given as by `--bad N:BAD-1 --bad N:BAD-2 ..`. With a list one copy is
/// enough.
///
/// It is the program's own run over inputs in memory.
pub fn mend(
    alloc: Global,
    copies: &[&[u8]],
    bad: &[BadPlaces<'_>],
    options: &MendOptions,
) -> Result<Mended, MendRefusal>
    requires { AreMendable (map (λ copy. copy.now) copies.now) (map places_of bad.now) }
    ensures mended { IfOk result (IsMendedOf options.now (map (λ copy. copy.now) copies.now) (map places_of bad.now)) }
    ensures ran { IfOk result (IsOfRun options.now (map (λ copy. copy.now) copies.now) (map places_of bad.now)) }
    ensures refused { IfErr result (IsRefusedOf options.now (map (λ copy. copy.now) copies.now) (map places_of bad.now)) }
{
    outputs_hold_what_is_handed_out();
    are_few(copies);
    lists_are_few(bad);
    let names = names_for(alloc, copies, bad)?;
    let ran = run_named(alloc, &names, copies, bad, options)?;
    let Ran {
        outcome,
        outputs,
        printed,
    } = ran;
    match outcome {
        Ok(done) => Ok(Mended {
            is_promised: done.settled,
            is_whole: done.whole,
            outputs,
            lines: last_bytes(alloc, printed),
        }),
        Err(refusal) => Err(MendRefusal {
            cause: refusal.cause,
            copy: place_of(&names.copies, refusal.name),
            list: place_of(&names.lists, refusal.name),
        }),
    }
}
