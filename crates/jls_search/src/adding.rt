//! Choices that were found. None is there twice.

ghost use Rattle.std.specs.Prelude.{◌↔◌, IsTrue, OnOk};
ghost use Rattle.std.specs.List.{Contains};
ghost use Rattle.jls_search.specs.OfGroups.{IsAddedOnce};
ghost use Rattle.jls_search.specs.Search.{lists_of};

use std::alloc::{AllocError, Global};

/// Whether these choices were found.
fn is_found(found: &[Vec<usize>], path: &[usize]) -> bool
    ensures { IsTrue result ↔ Contains (lists_of found.now) path.now }
{
    for number in 0..found.len() {
        if *found[number].as_slice() == *path {
            return true;
        }
    }
    false
}

/// Adds choices to those that were found, unless they were found before.
pub(crate) fn add_found(
    alloc: Global,
    path: &[usize],
    found: &mut Vec<Vec<usize>>,
) -> Result<(), AllocError>
    ensures { OnOk result (IsAddedOnce (lists_of found.old.items) path.now (lists_of found.new.items)) }
{
    if is_found(found, path) {
        return Ok(());
    }
    let choices: Vec<usize> = path.iter().copied().collect(alloc)?;
    found.push(choices)?;
    Ok(())
}
