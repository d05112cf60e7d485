//! Held lines: from each piece those that follow held lines, until nothing follows any more.

ghost use Rattle.std.specs.Prelude.{◌≡◌, ◌≤◌, true, List, length, IfOk, OnOk};
ghost use Rattle.jls_partial.specs.Partial.{holds as is_reading};
ghost use Rattle.jls_held.specs.MendedFiles.{MendedFile};
ghost use Rattle.jls_held.specs.HeldLines.{IsHeldBehind};
ghost use Rattle.jls_held.specs.HeldPictures.{is_among};
ghost use Rattle.jls_held.specs.Chains.{reading_in, IsChain, AreChains, AreFirstKnown, ArePlacesKnown, AreKept, IsHeldPicture};

use crate::chain::ChainLine;
use jls_partial::{InsertFault, Partial};
use std::alloc::{AllocError, Global};

/// Whether these samples are a reading of that line.
fn is_taken(held: &Partial, component: u8, row: u16, samples: &[u16]) -> bool
    ensures { result ≡ true → is_reading held.now component row samples.now ≡ true }
{
    let shape = held.shape();
    if component as usize >= shape.ids().len() || row >= shape.height() {
        return false;
    }
    for i in 0..held.count(component, row) {
        if held.reading(component, row, i) == samples {
            return true;
        }
    }
    false
}

/// Takes the next line of a chain, whose earlier lines are taken. It is held if all bytes of its code are, or if it was taken from another
/// piece. `false` says that it isn't known to be held, or doesn't fit the shape.
fn take(held: &mut Partial, line: &ChainLine) -> Result<bool, AllocError>
    ensures shape { OnOk result (held.new.shape ≡ held.old.shape) }
    ensures marks { OnOk result (held.new.marks ≡ held.old.marks) }
    ensures kept { OnOk result (AreKept held.old held.new) }
    ensures taken { IfOk result (λ taken. taken ≡ true → is_among held.new (reading_in line.now) ≡ true) }
    ensures held { OnOk result ((files : List MendedFile)
        → (line.now.is_code_held ≡ true → IsHeldBehind files (is_among held.old) (reading_in line.now))
        → IsHeldPicture files held.old → IsHeldPicture files held.new) }
{
    if !line.is_code_held {
        return Ok(is_taken(held, line.component, line.row, &line.samples));
    }
    match held.insert(line.component, line.row, &line.samples) {
        Ok(_) => Ok(true),
        Err(InsertFault::OutOfMemory) => Err(AllocError),
        Err(_) => Ok(false),
    }
}

/// Takes lines of a chain from the place `from` on, up to the first that isn't known to be held. The answer is the place of that one.
fn advance(held: &mut Partial, chain: &[ChainLine], from: usize) -> Result<usize, AllocError>
    ensures from { IfOk result (λ next. from ≤ next) }
    ensures shape { OnOk result (held.new.shape ≡ held.old.shape) }
    ensures marks { OnOk result (held.new.marks ≡ held.old.marks) }
    ensures kept { OnOk result (AreKept held.old held.new) }
    ensures taken { IfOk result (λ next. AreFirstKnown (is_among held.old) chain.now from
        → AreFirstKnown (is_among held.new) chain.now next) }
    ensures held { OnOk result ((files : List MendedFile) → IsChain files chain.now → AreFirstKnown (is_among held.old) chain.now from
        → IsHeldPicture files held.old → IsHeldPicture files held.new) }
{
    for at in from..chain.len() {
        if !take(held, &chain[at])? {
            return Ok(at);
        }
    }
    Ok(from.max(chain.len()))
}

/// Takes lines of each chain from its place of `places` on, and moves these places. The answer says whether one moved.
fn advance_each(
    held: &mut Partial,
    chains: &[Vec<ChainLine>],
    places: &mut [usize],
) -> Result<bool, AllocError>
    requires { length places.old ≡ length chains.now }
    ensures shape { OnOk result (held.new.shape ≡ held.old.shape) }
    ensures marks { OnOk result (held.new.marks ≡ held.old.marks) }
    ensures kept { OnOk result (AreKept held.old held.new) }
    ensures taken { OnOk result (ArePlacesKnown (is_among held.old) chains.now places.old
        → ArePlacesKnown (is_among held.new) chains.now places.new) }
    ensures held { OnOk result ((files : List MendedFile) → AreChains files chains.now
        → ArePlacesKnown (is_among held.old) chains.now places.old → IsHeldPicture files held.old → IsHeldPicture files held.new) }
{
    let mut moved = false;
    for i in 0..chains.len() {
        let next = advance(held, &chains[i], places[i])?;
        if places[i] < next {
            places[i] = next;
            moved = true;
        }
    }
    Ok(moved)
}

/// How many lines the chains have. As many rounds are enough, since each round but the last takes a line.
fn line_count(chains: &[Vec<ChainLine>]) -> usize {
    let mut count = 0usize;
    for chain in chains {
        count = count.saturating_add(chain.len());
    }
    count
}

/// Takes all lines that follow held lines. No clause says that none is left out: more rounds would take no more.
pub(crate) fn take_held(
    alloc: Global,
    held: &mut Partial,
    chains: &[Vec<ChainLine>],
) -> Result<(), AllocError>
    ensures shape { OnOk result (held.new.shape ≡ held.old.shape) }
    ensures marks { OnOk result (held.new.marks ≡ held.old.marks) }
    ensures held { OnOk result ((files : List MendedFile) → AreChains files chains.now → IsHeldPicture files held.old
        → IsHeldPicture files held.new) }
{
    let mut places = vec![in alloc; 0usize; chains.len()]?;
    for _round in 0..line_count(chains) {
        if !advance_each(held, chains, &mut places)? {
            return Ok(());
        }
    }
    Ok(())
}
