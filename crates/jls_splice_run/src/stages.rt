//! All searches over some parts, in stages. First come levels that are given up where too many paths live. If these were given up, and no
//! ceiling is asked for, the same follows under each of `CEILINGS` in turn. If none of these found a file, levels that let paths go come
//! last.

ghost use Rattle.std.specs.Prelude.{◌≡◌, List, IfOk, IfSome};
ghost use Rattle.std.specs.List.{AllByRecursion};
ghost use Rattle.jls_io.specs.Event.{GrewBy};
ghost use Rattle.jls_diff.specs.Parts.{Part};
ghost use Rattle.jls_search.specs.Choices.{HasSomeWay};
ghost use Rattle.jls_search.specs.Search.{IsShort};
ghost use Rattle.jls_splice_run.specs.Ceilings.{IsCounting, IsSearchOf};
ghost use Rattle.jls_splice_run.specs.Telling.{IsTold};

use crate::options::SearchOptions;
use crate::searching::search_once;
use jls_diff::Parts;
use jls_io::Sink;
use jls_search::{LevelRules, Searched};
use std::alloc::{AllocError, Global};

/// The ceilings: for each k from 16 to 31 the greatest whole number that is less than the square root of 2^k.
const CEILINGS: [u16; 16] = [
    255, 362, 511, 724, 1023, 1448, 2047, 2896, 4095, 5792, 8191, 11585, 16383, 23170, 32767, 46340,
];

/// How many times the tries of a search that found a file the next one has.
const TRIES_AFTER: u64 = 16;

/// How many tries it has at least, if that many are allowed.
const FEWEST_AFTER: u64 = 256;

/// What searches under ceilings in turn came to.
#[derive(Drop)]
pub(crate) struct Turned {
    /// How many tries the next one has.
    tries: u32,
    /// The ceiling of the last one that was not cut off.
    whole: Option<u16>,
    /// The last one that was not cut off and found a file.
    found: Option<Searched>,
}

/// How many tries a search has after one that found a file and made so many.
fn tries_after(most: u32, tries: u32) -> u32 {
    let many = u64::from(tries) * TRIES_AFTER;
    let wanted = if many < FEWEST_AFTER {
        FEWEST_AFTER
    } else {
        many
    };
    if wanted < u64::from(most) {
        wanted as u32
    } else {
        most
    }
}

/// The rules of a search: those asked for, and whether it lets paths go.
fn rules_of(options: SearchOptions, lets_go: bool) -> LevelRules
    ensures { result.ceiling ≡ options.ceiling }
{
    LevelRules {
        ceiling: options.ceiling,
        tries: options.tries,
        lets_go,
    }
}

/// What searches in turn came to with one more that was not cut off.
fn with_one_more(turned: Turned, searched: Searched, most: u32) -> Turned
    ensures { (parts : List Part) → IfSome turned.found (IsSearchOf parts) → IsSearchOf parts searched
        → IfSome result.found (IsSearchOf parts) }
{
    if searched.splices.is_empty() {
        return Turned {
            tries: turned.tries,
            whole: searched.ceiling,
            found: turned.found,
        };
    }
    Turned {
        tries: tries_after(most, searched.tries),
        whole: searched.ceiling,
        found: Some(searched),
    }
}

/// Searches under these ceilings in turn, until a search is cut off.
fn search_in_turn<E: Sink>(
    alloc: Global,
    parts: &Parts<'_>,
    options: SearchOptions,
    ceilings: &[u16],
    faults: &mut E,
) -> Result<Turned, AllocError>
    requires some_way { AllByRecursion HasSomeWay parts.now }
    requires short { IsShort parts.now }
    ensures found { IfOk result (λ turned. IfSome turned.found (IsSearchOf parts.now)) }
    ensures told { GrewBy (IsTold options.tells) (E.history faults.old) (E.history faults.new) }
{
    let mut turned = Turned {
        tries: options.tries,
        whole: None,
        found: None,
    };
    for ceiling in ceilings {
        let under = LevelRules {
            ceiling: Some(*ceiling),
            tries: turned.tries,
            lets_go: false,
        };
        let searched = search_once(alloc, parts, under, options.tells, faults)?;
        if searched.is_used_up {
            return Ok(turned);
        }
        turned = with_one_more(turned, searched, options.tries);
    }
    Ok(turned)
}

/// The search that counts, and the ceiling of the last one that was not cut off.
#[derive(Drop)]
pub(crate) struct CountingSearch {
    /// The ceiling of the last search that was not cut off, and else that of the first, if it has one.
    pub(crate) cut_ceiling: Option<u16>,
    /// What the search that counts came to.
    pub(crate) searched: Searched,
}

/// What counts of a search without a ceiling, and of others under ceilings in turn.
fn chosen(first: Searched, turned: Turned) -> CountingSearch
    ensures { (parts : List Part) → IfSome turned.found (IsSearchOf parts) → IsSearchOf parts first → IsSearchOf parts result.searched }
{
    let Turned { whole, found, .. } = turned;
    CountingSearch {
        cut_ceiling: whole,
        searched: found.unwrap_or(first),
    }
}

/// What counts of a search that was cut off, and of those under ceilings in turn. If a ceiling is given there are no others.
fn count_within_ceilings<E: Sink>(
    alloc: Global,
    parts: &Parts<'_>,
    options: SearchOptions,
    first: Searched,
    faults: &mut E,
) -> Result<CountingSearch, AllocError>
    requires some_way { AllByRecursion HasSomeWay parts.now }
    requires short { IsShort parts.now }
    requires first { IsSearchOf parts.now first }
    requires ceiling { first.ceiling ≡ options.ceiling }
    ensures counts { IfOk result (λ all. IsCounting options.ceiling parts.now all) }
    ensures told { GrewBy (IsTold options.tells) (E.history faults.old) (E.history faults.new) }
{
    if options.ceiling.is_some() {
        return Ok(CountingSearch {
            cut_ceiling: options.ceiling,
            searched: first,
        });
    }
    let turned = search_in_turn(alloc, parts, options, &CEILINGS, faults)?;
    Ok(chosen(first, turned))
}

/// Searches by levels that let paths go, if no file was found, and there are tries left for it.
fn find_or_let_go<E: Sink>(
    alloc: Global,
    parts: &Parts<'_>,
    options: SearchOptions,
    all: CountingSearch,
    faults: &mut E,
) -> Result<CountingSearch, AllocError>
    requires some_way { AllByRecursion HasSomeWay parts.now }
    requires short { IsShort parts.now }
    requires counts { IsCounting options.ceiling parts.now all }
    ensures counts { IfOk result (λ all. IsCounting options.ceiling parts.now all) }
    ensures told { GrewBy (IsTold options.tells) (E.history faults.old) (E.history faults.new) }
{
    if !all.searched.splices.is_empty() || all.searched.tries >= options.tries {
        return Ok(all);
    }
    let searched = search_once(alloc, parts, rules_of(options, true), options.tells, faults)?;
    Ok(CountingSearch {
        cut_ceiling: all.cut_ceiling,
        searched,
    })
}

/// Makes all searches over these parts.
pub(crate) fn search_all<E: Sink>(
    alloc: Global,
    parts: &Parts<'_>,
    options: SearchOptions,
    faults: &mut E,
) -> Result<CountingSearch, AllocError>
    requires some_way { AllByRecursion HasSomeWay parts.now }
    requires short { IsShort parts.now }
    ensures counts { IfOk result (λ all. IsCounting options.ceiling parts.now all) }
    ensures told { GrewBy (IsTold options.tells) (E.history faults.old) (E.history faults.new) }
{
    let first = search_once(
        alloc,
        parts,
        rules_of(options, false),
        options.tells,
        faults,
    )?;
    if !first.is_used_up {
        return Ok(CountingSearch {
            cut_ceiling: options.ceiling,
            searched: first,
        });
    }
    let all = count_within_ceilings(alloc, parts, options, first, faults)?;
    find_or_let_go(alloc, parts, options, all, faults)
}
