//! The search of whole files level by level, as a value that goes on one level at a time.

ghost use Rattle.std.specs.Prelude.{◌≡◌, ◌↔◌, ◌<◌, ◌≤◌, false, List, length, IsTrue, IfOk, IfSome, OnOk};
ghost use Rattle.std.specs.List.{AllByRecursion};
ghost use Rattle.jls_diff.specs.Parts.{Part as SpecPart};
ghost use Rattle.jls_diff.specs.PartsOf.{parts_of};
ghost use Rattle.jls_search.specs.Choices.{HasSomeWay};
ghost use Rattle.jls_search.specs.Faultless.{IsSought};
ghost use Rattle.jls_search.specs.LevelSearches.{IsFileTaken, IsFoundOrNot, IsLevelSearch, IsReadTo};
ghost use Rattle.jls_search.specs.Search.{CameTo, IsKeptReader, IsShort, MakeFiles, lists_of};

use crate::faultless::is_sought;
use crate::kept::{KeptReader, kept_reader};
use crate::next_level::{
    LevelRules, LivingPath, NextLevel, most_living, next_level, next_stop, take_path,
};
use crate::saving::first_saving;
use crate::whole_search::Searched;
use jls_copy::WideReader;
use jls_diff::Parts;
use std::alloc::{AllocError, Global};

/// A search of whole files that goes on level by level. A level is all paths that go up to the same part in which copies differ, or to the
/// end. Of each level all ways of all paths that live are judged. A path lives unless it was found that no file that is sought begins with
/// what it makes. Its reader is kept.
///
/// At most 64 paths live, or fewer where paths are let go and tries are short. Where more would, or its tries are used up, the search is
/// given up, and finds nothing; or it lets paths go.
#[derive(Drop)]
pub struct LevelSearch {
    /// What it goes by.
    pub rules: LevelRules,
    /// How many choices each path of its level has.
    pub count: usize,
    /// The paths that live there.
    pub living: Vec<LivingPath>,
    /// How many ways were judged.
    pub tries: u32,
    /// Whether a way was passed over, or a path let go.
    pub is_used_up: bool,
}

/// What a search found.
#[derive(Drop)]
pub(crate) struct FoundFiles {
    /// The splices that were found, each as its choices.
    pub(crate) splices: Vec<Vec<usize>>,
    /// The reader of the first of them.
    pub(crate) reader: Option<KeptReader>,
}

/// The path of no choices. What is saved on its lines is counted where paths are let go.
fn no_path(alloc: Global, lets_go: bool) -> LivingPath
    ensures { (parts : List SpecPart) → IsReadTo parts 0 result }
{
    LivingPath {
        kept: KeptReader {
            reader: WideReader::new(alloc),
            choices: Vec::new(alloc),
        },
        backing: 0,
        saving: first_saving(lets_go),
    }
}

/// Adds a path that has a choice for each part, if it makes a file that is sought.
fn take_file(
    alloc: Global,
    ceiling: Option<u16>,
    path: &LivingPath,
    found: &mut FoundFiles,
) -> Result<(), AllocError>
    ensures { (parts : List SpecPart) → IsReadTo parts (length parts) path.now
        → OnOk result (IsFileTaken (IsSought ceiling) parts path.now found.old found.new) }
{
    let sought = is_sought(ceiling, path.kept.reader.try_clone()?)?;
    if !sought {
        return Ok(());
    }
    let choices: Vec<usize> = path.kept.choices.iter().copied().collect(alloc)?;
    keep_first(alloc, &path.kept, &mut found.reader)?;
    found.splices.push(choices)?;
    Ok(())
}

/// Keeps a clone of a reader, if none is kept.
fn keep_first(
    alloc: Global,
    reader: &KeptReader,
    first: &mut Option<KeptReader>,
) -> Result<(), AllocError>
    ensures { (parts : List SpecPart) → IsKeptReader parts reader.now → IfSome first.old (IsKeptReader parts)
        → OnOk result (IfSome first.new (IsKeptReader parts)) }
{
    if first.is_some() {
        return Ok(());
    }
    let clone = reader.reader.try_clone()?;
    let kept = kept_reader(alloc, clone, &reader.choices)?;
    *first = Some(kept);
    Ok(())
}

/// Of these paths, each with a choice for each part, those that make files that are sought.
fn take_files(
    alloc: Global,
    parts: &Parts<'_>,
    ceiling: Option<u16>,
    living: &[LivingPath],
) -> Result<FoundFiles, AllocError>
    requires whole { AllByRecursion (IsReadTo parts.now (length parts.now)) living.now }
    ensures files { IfOk result (λ found. MakeFiles (IsSought ceiling) parts.now (lists_of found.splices.items)) }
    ensures judged { IfOk result (λ found.
        AllByRecursion (IsFoundOrNot (IsSought ceiling) parts.now (lists_of found.splices.items)) living.now) }
    ensures reader { IfOk result (λ found. IfSome found.reader (IsKeptReader parts.now)) }
{
    let mut found = FoundFiles {
        splices: Vec::new(alloc),
        reader: None,
    };
    'files: for path in living {
        take_file(alloc, ceiling, path, &mut found)?;
    }
    Ok(found)
}

impl LevelSearch {
    /// A search that is at its first level. That has one path: what all copies have alike, up to the first part in which they differ.
    pub fn begin(
        alloc: Global,
        parts: &Parts<'_>,
        rules: LevelRules,
    ) -> Result<LevelSearch, AllocError>
        requires short { IsShort parts.now }
        ensures stands { IfOk result (λ begun. IsLevelSearch parts.now begun) }
        ensures rules { IfOk result (λ begun. begun.rules ≡ rules) }
        ensures untried { IfOk result (λ begun. (begun.tries ≡ 0) × (begun.is_used_up ≡ false)) }
    {
        let from = no_path(alloc, rules.lets_go);
        let mut living = Vec::new(alloc);
        take_path(
            alloc,
            parts,
            rules.ceiling,
            &from,
            Vec::new(alloc),
            &mut living,
        )?;
        Ok(LevelSearch {
            rules,
            count: next_stop(parts, 0),
            living,
            tries: 0,
            is_used_up: false,
        })
    }

    /// Whether its level is the last one.
    pub fn is_over(&self, parts: &Parts<'_>) -> bool
        ensures { IsTrue result ↔ length parts.now ≤ self.now.count }
    {
        self.count >= parts.len()
    }

    /// Goes on to the next level, or to the last one where it is given up. It is over these parts. `Err` comes where memory is refused.
    pub fn go_on(&mut self, alloc: Global, parts: &Parts<'_>) -> Result<(), AllocError>
        requires some_way { AllByRecursion HasSomeWay parts.now }
        requires short { IsShort parts.now }
        requires stands { IsLevelSearch parts.now self.old }
        requires more { self.old.count < length parts.now }
        ensures stands { OnOk result (IsLevelSearch parts.now self.new) }
        ensures further { OnOk result (self.old.count < self.new.count) }
        ensures rules { OnOk result (self.new.rules ≡ self.old.rules) }
    {
        let end = parts.len();
        let begun = NextLevel {
            living: Vec::new(alloc),
            most_living: most_living(parts, self.rules, self.count, self.tries),
            tries: self.tries,
            is_used_up: self.is_used_up,
            is_given_up: false,
        };
        let next = next_level(alloc, parts, self.rules, self.count, &self.living, begun)?;
        self.tries = next.tries;
        if next.is_given_up {
            self.is_used_up = true;
            self.living = Vec::new(alloc);
            self.count = end;
            return Ok(());
        }
        self.is_used_up = next.is_used_up;
        self.living = next.living;
        self.count = next_stop(parts, self.count + 1);
        Ok(())
    }

    /// What it came to at its last level.
    pub fn into_searched(self, alloc: Global, parts: &Parts<'_>) -> Result<Searched, AllocError>
        requires stands { IsLevelSearch parts.now self }
        requires over { length parts.now ≤ self.count }
        ensures came_to { IfOk result
            (λ searched. CameTo (IsSought self.rules.ceiling) parts.now (lists_of searched.splices.items) searched.is_used_up) }
        ensures ceiling { IfOk result (λ searched. searched.ceiling ≡ self.rules.ceiling) }
        ensures tries { IfOk result (λ searched. searched.tries ≡ self.tries) }
        ensures used_up { IfOk result (λ searched. searched.is_used_up ≡ self.is_used_up) }
        ensures reader { IfOk result (λ searched. IfSome searched.reader (IsKeptReader parts.now)) }
    {
        let found = take_files(alloc, parts, self.rules.ceiling, &self.living)?;
        let FoundFiles { splices, reader } = found;
        Ok(Searched {
            ceiling: self.rules.ceiling,
            splices,
            reader,
            tries: self.tries,
            is_used_up: self.is_used_up,
        })
    }
}
