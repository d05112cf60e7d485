//! A search of whole files level by level, which tells how far it is.

ghost use Rattle.std.specs.Prelude.{◌≡◌, IfOk, IfSome};
ghost use Rattle.std.specs.List.{AllByRecursion};
ghost use Rattle.jls_io.specs.Event.{GrewBy};
ghost use Rattle.jls_io.specs.Writing.{Printed};
ghost use Rattle.jls_diff.specs.PartsOf.{parts_of};
ghost use Rattle.jls_search.specs.Choices.{HasSomeWay};
ghost use Rattle.jls_search.specs.Faultless.{IsSought};
ghost use Rattle.jls_search.specs.Search.{CameTo, IsKeptReader, IsShort, lists_of};
ghost use Rattle.jls_splice_run.specs.Lines.{progress_line};
ghost use Rattle.jls_splice_run.specs.Telling.{IsTold};

use crate::lines::put_progress;
use jls_diff::Parts;
use jls_io::{Sink, write_all};
use jls_search::{LevelRules, LevelSearch, Searched};
use std::alloc::{AllocError, Global};

/// After how many tries more a search tells how far it is, at the end of a level.
const TRIES_A_LINE: u32 = 64;

/// The line that tells how many tries there were, and how many files were found.
fn line_of(alloc: Global, tries: u32, files: usize) -> Result<Vec<u8>, AllocError>
    ensures { IfOk result (λ line. line.items ≡ progress_line tries files) }
{
    let mut line = Vec::new(alloc);
    put_progress(&mut line, tries, files)?;
    Ok(line)
}

/// Prints a line. A write that fails ends it, and is ignored.
fn print_line<E: Sink>(faults: &mut E, line: &[u8])
    ensures { GrewBy (Printed line.now) (E.history faults.old) (E.history faults.new) }
{
    let _ = write_all(faults, line);
}

/// Tells how many tries there were, and how many files were found, if that is asked for.
fn tell<E: Sink>(
    alloc: Global,
    tells: bool,
    tries: u32,
    files: usize,
    faults: &mut E,
) -> Result<(), AllocError>
    ensures { GrewBy (IsTold tells) (E.history faults.old) (E.history faults.new) }
{
    if !tells {
        return Ok(());
    }
    let line = line_of(alloc, tries, files)?;
    print_line(faults, &line);
    Ok(())
}

/// Tells how many tries there were, if 64 more were made than when it told last. The answer is how many there were when it told last. No
/// file is found before the last level.
fn tell_on_the_way<E: Sink>(
    alloc: Global,
    tells: bool,
    tries: u32,
    last: u32,
    faults: &mut E,
) -> Result<u32, AllocError>
    ensures { GrewBy (IsTold tells) (E.history faults.old) (E.history faults.new) }
{
    if tries.saturating_sub(last) < TRIES_A_LINE {
        return Ok(last);
    }
    tell(alloc, tells, tries, 0, faults)?;
    Ok(tries)
}

/// Searches the splices of these parts once, level by level, by these rules. If that is asked for, it prints lines on how far it is. One
/// comes after each level that comes to 64 tries more, and one when it is over.
pub(crate) fn search_once<E: Sink>(
    alloc: Global,
    parts: &Parts<'_>,
    rules: LevelRules,
    tells: bool,
    faults: &mut E,
) -> Result<Searched, AllocError>
    requires some_way { AllByRecursion HasSomeWay parts.now }
    requires short { IsShort parts.now }
    ensures came_to { IfOk result (λ s. CameTo (IsSought s.ceiling) parts.now (lists_of s.splices.items) s.is_used_up) }
    ensures ceiling { IfOk result (λ s. s.ceiling ≡ rules.ceiling) }
    ensures reader { IfOk result (λ s. IfSome s.reader (IsKeptReader parts.now)) }
    ensures told { GrewBy (IsTold tells) (E.history faults.old) (E.history faults.new) }
{
    let mut search = LevelSearch::begin(alloc, parts, rules)?;
    let mut last = 0;
    'levels: while !search.is_over(parts) {
        last = tell_on_the_way(alloc, tells, search.tries, last, faults)?;
        search.go_on(alloc, parts)?;
    }
    let searched = search.into_searched(alloc, parts)?;
    tell(alloc, tells, searched.tries, searched.splices.len(), faults)?;
    Ok(searched)
}
