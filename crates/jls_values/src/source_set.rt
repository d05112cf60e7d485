//! Sets of source numbers.

ghost use Rattle.std.specs.Ordering.{nat_cmp};
ghost use Rattle.std.specs.List.{AllByRecursion};
ghost use Rattle.std.specs.Prelude.{◌≡◌, ◌<◌, ◌≤◌, ◌+◌, ◌++◌, ℕ, List, true, not, length, vec_len, vec_capacity, IfOk, IsOk, OnOk, OnErr};
ghost use Rattle.jls_values.specs.OrderedSet as set;
ghost use Rattle.jls_values.specs.SourceList.{IsSourceList};

use crate::merge::{Merge, MergeFault};
use std::alloc::{AllocError, Global};
use std::marker::Model;

/// A set of source numbers: under which numbers something was taken. Every `u32` can be one.
#[derive(Drop)]
pub struct SourceSet {
    numbers: Vec<u32>,
}

impl Model for SourceSet {
    ghost use Rattle.std.specs.Coded.{coded_ℕ};
    ghost use Rattle.std.specs.Ordering.{nat_cmp};
    ghost use Rattle.jls_values.specs.SourceList.{IsSourceList};
    ghost use Rattle.jls_values.specs.OrderedSet as set;

    ghost Value = { set.OrderedSet nat_cmp };

    ghost coded = { set.code coded_ℕ };

    ghost view = { λ a. set.from_list a.numbers.items };

    ghost invariant = { λ a. IsSourceList a.numbers.items };
}

impl SourceSet {
    /// No number. It takes no memory.
    pub fn empty(alloc: Global) -> SourceSet
        ensures { result ≡ set.empty }
    {
        SourceSet {
            numbers: Vec::new(alloc),
        }
    }

    /// Takes one number. True where it is new. A number that is there already needs no memory.
    pub fn add(&mut self, source: u32) -> Result<bool, AllocError>
        ensures held { OnOk result (self.new ≡ set.insert self.old source) }
        ensures added { IfOk result (λ added. added ≡ not (set.contains self.old source)) }
        ensures unchanged { OnErr result (self.new ≡ self.old) }
        ensures no_memory { set.contains self.old source ≡ true → IsOk result }
    {
        match self.numbers.binary_search(&source) {
            Ok(_) => Ok(false),
            Err(at) => {
                self.numbers.insert(at, source)?;
                Ok(true)
            }
        }
    }

    /// Takes several numbers, in whatever order they stand. Want of memory changes nothing. Where they ascend, each number
    /// that is held and each that is taken is moved a fixed number of times.
    pub fn add_all(&mut self, sources: &[u32]) -> Result<(), AllocError>
        ensures held { OnOk result (self.new ≡ set.insert_all self.old sources.now) }
        ensures unchanged { OnErr result (self.new ≡ self.old) }
    {
        let Some(first) = sources.first() else {
            return Ok(());
        };
        let below = match self.numbers.binary_search(first) {
            Ok(at) => at,
            Err(at) => at,
        };
        let above = Vec::from_slice(*self.numbers.allocator(), &self.numbers[below..])?;
        self.numbers.reserve(sources.len())?;
        self.numbers.truncate(below);
        put_all(&mut self.numbers, &above, sources);
        Ok(())
    }

    /// The numbers in ascending order.
    pub fn as_slice(&self) -> &[u32]
        ensures value { result.now ≡ set.items self.now }
        ensures sources { IsSourceList result.now }
    {
        &self.numbers
    }
}

/// Puts one number in, where there is room for one more. Numbers that stand above all of these stay above them.
fn put(numbers: &mut Vec<u32>, number: u32)
    requires sources { IsSourceList numbers.old.items }
    requires room { vec_len numbers.old < vec_capacity numbers.old }
    ensures sources { (above : List ℕ) → IsSourceList (numbers.old.items ++ above) → AllByRecursion (λ n. number < n) above
        → IsSourceList (numbers.new.items ++ above) }
    ensures held { set.from_list {R = nat_cmp} numbers.new.items ≡ set.insert (set.from_list numbers.old.items) number }
    ensures len { vec_len numbers.new ≤ vec_len numbers.old + 1 }
    ensures capacity { vec_capacity numbers.old ≤ vec_capacity numbers.new }
{
    match numbers.binary_search(&number) {
        Ok(_) => {}
        Err(at) => match numbers.insert(at, number) {
            Ok(()) => {}
            Err(_) => unreachable!(),
        },
    }
}

/// Moves the numbers of `above` up to `last` after the others, where there is room for them. Those that are left are lent.
fn move_up_to<'a>(numbers: &mut Vec<u32>, above: &'a [u32], last: u32) -> &'a [u32]
    requires sources { IsSourceList (numbers.old.items ++ above.now) }
    requires room { vec_len numbers.old + length above.now ≤ vec_capacity numbers.old }
    ensures moved { numbers.new.items ++ result.now ≡ numbers.old.items ++ above.now }
    ensures len { vec_len numbers.new + length result.now ≡ vec_len numbers.old + length above.now }
    ensures above { AllByRecursion (λ n. last < n) result.now }
    ensures capacity { vec_capacity numbers.old ≤ vec_capacity numbers.new }
{
    for (i, number) in above.iter().enumerate() {
        if last < *number {
            return &above[i..];
        }
        numbers.push_reserved(*number);
    }
    &[]
}

/// Puts all of the others in, and the numbers of `above`, where there is room for all. Where the others ascend, this is one pass over each
/// list.
fn put_all(numbers: &mut Vec<u32>, above: &[u32], others: &[u32])
    requires sources { IsSourceList (numbers.old.items ++ above.now) }
    requires room { vec_len numbers.old + length above.now + length others.now ≤ vec_capacity numbers.old }
    ensures sources { IsSourceList numbers.new.items }
    ensures held { set.from_list {R = nat_cmp} numbers.new.items
        ≡ set.insert_all (set.from_list (numbers.old.items ++ above.now)) others.now }
{
    let mut left = above;
    for number in others {
        left = move_up_to(numbers, left, *number);
        put(numbers, *number);
    }
    match numbers.extend_from_slice(left) {
        Ok(()) => {}
        Err(_) => unreachable!(),
    }
}

impl Merge for SourceSet {
    ghost use Rattle.std.specs.Prelude.{true};
    ghost use Rattle.jls_values.specs.OrderedSet as set;
    ghost use Rattle.jls_values.specs.SourceSetLaws.{source_set_laws};

    ghost same_shape = { λ _ _. true };

    ghost join = { set.union };

    ghost laws = { source_set_laws };

    /// Takes in the numbers of `other`. Shapes never differ, and want of memory changes nothing.
    fn merge(&mut self, other: &SourceSet) -> Result<(), MergeFault> {
        match self.add_all(other.as_slice()) {
            Ok(()) => Ok(()),
            Err(_) => Err(MergeFault::OutOfMemory),
        }
    }
}
