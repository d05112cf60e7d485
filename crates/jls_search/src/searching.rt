//! A search of splices, for whole files or in a group. It goes on as far as its caller wants.

ghost use Rattle.std.specs.Prelude.{◌≡◌, ◌↔◌, ◌+◌, ◌<◌, ◌-◌, ◌^◌, ◌≤◌, ◌⊎◌, [], List, true, length, IsTrue, IfOk, IfSome, OnOk, None};
ghost use Rattle.std.specs.List.{AllByRecursion};
ghost use Rattle.jls_diff.specs.Parts.{Part as SpecPart};
ghost use Rattle.jls_diff.specs.PartsOf.{parts_of};
ghost use Rattle.jls_search.specs.Choices.{HasSomeWay};
ghost use Rattle.jls_search.specs.Faultless.{IsSought};
ghost use Rattle.jls_search.specs.Goals.{StandsOrIsSettled, IsGoal, Stands};
ghost use Rattle.jls_search.specs.Search.{AreKept, CameTo, CanGoOn, GoesFrom, IsAlike, IsAt, IsBegun, IsKeptReader, IsSearch, IsShort};
ghost use Rattle.jls_search.specs.Search.{IsStep};
ghost use Rattle.jls_search.specs.Search.{IsTry, lists_of};
ghost use Rattle.jls_search.specs.OfGroups.{AreOfGroups, IsSetting};
ghost use Rattle.jls_search.specs.declared.setting.Goal.TheVariants.{Group as ForGroup};

use crate::adding::add_found;
use crate::kept::{Judge, KeptReader, keep, keep_open};
use crate::looking::{PathVerdict, judge_path};
use crate::path::{backtrack, descend, follow};
use crate::setting::{Goal, Setting};
use crate::whole_search::{MOST_FOUND, Searched};
use jls_diff::Parts;
use std::alloc::{AllocError, Global};

/// A search that goes on as far as its caller wants, depth first, part by part. Ways are tried in the order of the copies, and ways with
/// equal bytes once. Each prefix and each file that is tried counts.
///
/// One of whole files seeks files without a fault; if there is a ceiling, no sample of theirs is above it. Choices are given up if no such
/// file begins with what they make.
#[derive(Drop)]
pub struct Search {
    /// What it is after: files as a whole, or those that read in a group.
    pub goal: Goal,
    /// How many splices it finds at most.
    pub most: usize,
    /// The splices that it has found, each as its choices, one for each part.
    pub splices: Vec<Vec<usize>>,
    /// How many prefixes and files were tried.
    pub tries: u32,
    /// Whether there is more to try.
    pub goes_on: bool,
    /// What is tried next: a choice for each of the first parts.
    pub path: Vec<usize>,
    /// What it judges paths by.
    pub judge: Judge,
}

impl Search {
    /// A search of whole files that has tried nothing. `ceiling` is the greatest sample that a file may have that it seeks, if there is
    /// one.
    pub fn begin(
        alloc: Global,
        parts: &Parts<'_>,
        ceiling: Option<u16>,
    ) -> Result<Search, AllocError>
        ensures stands { IfOk result (λ begun. IsSearch parts.now begun) }
        ensures ceiling { IfOk result (λ begun. begun.judge.ceiling ≡ ceiling) }
        ensures untried { IfOk result (λ begun. IsBegun begun) }
        ensures found { IfOk result (λ begun. begun.judge.found ≡ None) }
    {
        let mut path = Vec::new(alloc);
        follow(parts, Goal::Whole, &mut path)?;
        Ok(Search {
            goal: Goal::Whole,
            most: MOST_FOUND,
            splices: Vec::new(alloc),
            tries: 0,
            goes_on: true,
            path,
            judge: Judge {
                ceiling,
                begin: None,
                kept: None,
                found: None,
            },
        })
    }

    /// Whether it can go on. There is more to try, fewer tries than these were made, and fewer files were found than it finds at most.
    pub fn can_go_on(&self, most_tries: u32) -> bool
        ensures { IsTrue result ↔ CanGoOn self.now most_tries }
    {
        self.goes_on && self.tries < most_tries && self.splices.len() < self.most
    }

    /// Goes on until so many tries were made in all, or it can't. It is over these parts. `Err` comes where memory is refused.
    pub fn go_on(
        &mut self,
        alloc: Global,
        parts: &Parts<'_>,
        most_tries: u32,
    ) -> Result<(), AllocError>
        requires some_way { AllByRecursion HasSomeWay parts.now }
        requires short { IsShort parts.now }
        requires stands { IsSearch parts.now self.old }
        ensures stands { OnOk result (IsSearch parts.now self.new) }
        ensures stops { OnOk result (CanGoOn self.new most_tries → ⊥) }
        ensures went { OnOk result (GoesFrom parts.now self.old self.new most_tries) }
        ensures found { IfSome self.old.judge.found (IsKeptReader parts.now)
            → OnOk result (IfSome self.new.judge.found (IsKeptReader parts.now)) }
    {
        self.run(alloc, parts, most_tries)
    }

    /// Goes on so, whatever its goal is.
    pub(crate) fn run(
        &mut self,
        alloc: Global,
        parts: &Parts<'_>,
        most_tries: u32,
    ) -> Result<(), AllocError>
        requires some_way { AllByRecursion HasSomeWay parts.now }
        requires short { IsShort parts.now }
        requires stands { IsAt parts.now self.old }
        ensures stands { OnOk result (IsAt parts.now self.new) }
        ensures alike { OnOk result (IsAlike self.old self.new) }
        ensures stops { OnOk result (CanGoOn self.new most_tries → ⊥) }
        ensures went { OnOk result (GoesFrom parts.now self.old self.new most_tries) }
        ensures found { IfSome self.old.judge.found (IsKeptReader parts.now)
            → OnOk result (IfSome self.new.judge.found (IsKeptReader parts.now)) }
    {
        while self.can_go_on(most_tries) {
            self.tries += 1;
            self.goes_on = self.try_next(alloc, parts)?;
        }
        Ok(())
    }

    /// Tries the path, and goes to the next; `false` where there is none.
    fn try_next(&mut self, alloc: Global, parts: &Parts<'_>) -> Result<bool, AllocError>
        requires some_way { AllByRecursion HasSomeWay parts.now }
        requires short { IsShort parts.now }
        requires goal { IsGoal parts.now self.old.goal }
        requires stands { Stands self.old.judge.ceiling parts.now self.old.goal self.old.path.items (lists_of self.old.splices.items) }
        requires kept { AreKept parts.now self.old.judge }
        ensures next { IfOk result
            (λ more. StandsOrIsSettled self.old.judge.ceiling parts.now self.old.goal self.new.path.items
            (lists_of self.new.splices.items) more) }
        ensures step { IfOk result (λ more. IsStep self.old.judge.ceiling parts.now self.old.goal self.old.path.items
            (lists_of self.old.splices.items) self.new.path.items (lists_of self.new.splices.items) more) }
        ensures kept { OnOk result (AreKept parts.now self.new.judge) }
        ensures found { IfSome self.old.judge.found (IsKeptReader parts.now)
            → OnOk result (IfSome self.new.judge.found (IsKeptReader parts.now)) }
        ensures alike { IsAlike self.old self.new }
        ensures tries { self.new.tries ≡ self.old.tries }
    {
        let sight = judge_path(alloc, parts, self.goal, &self.judge, &self.path)?;
        match sight {
            PathVerdict::Open(reader) => {
                keep_open(alloc, &mut self.judge, self.goal, reader, &self.path)?;
                descend(parts, self.goal, &mut self.path)?;
                Ok(true)
            }
            PathVerdict::Found(reader) => {
                keep(alloc, &mut self.judge.found, reader, &self.path)?;
                add_found(alloc, &self.path, &mut self.splices)?;
                backtrack(parts, self.goal, &mut self.path)
            }
            PathVerdict::Dead => backtrack(parts, self.goal, &mut self.path),
        }
    }

    /// What it came to, if it is one of whole files. Its tries are used up where there is more to try.
    pub fn into_searched(self) -> Searched
        ensures came_to { (parts : List SpecPart) → IsSearch parts self
            → CameTo (IsSought self.judge.ceiling) parts (lists_of result.splices.items) result.is_used_up }
        ensures ceiling { result.ceiling ≡ self.judge.ceiling }
        ensures tries { result.tries ≡ self.tries }
        ensures splices { result.splices ≡ self.splices }
        ensures used_up { result.is_used_up ≡ self.goes_on }
        ensures reader { result.reader ≡ self.judge.found }
    {
        let Search {
            splices,
            tries,
            goes_on,
            judge,
            ..
        } = self;
        let Judge { ceiling, found, .. } = judge;
        Searched {
            ceiling,
            splices,
            reader: found,
            tries,
            is_used_up: goes_on,
        }
    }
}
