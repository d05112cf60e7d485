//! Slots: where the lines of a set begin, and their sources, in ascending order of the lines.

ghost use Rattle.std.specs.List.{insert};
ghost use Rattle.std.specs.Prelude.{◌≡◌, ◌<◌, ◌≤◌, ◌+◌, ◌^◌, ◌++◌, ◌∷◌, [], length, IfOk, IsOk, OnOk, OnErr, MatchOption};
ghost use Rattle.jls_partial.specs.Slots.{slots_of, slot_at, HasRoom};
ghost use Rattle.jls_partial.specs.Tree.{root_slots, fork_slots, with_sources_at};
ghost use Rattle.jls_values.specs.OrderedSet as set;

use crate::sources::Sources;
use std::alloc::{AllocError, Global};
use std::marker::Model;
use std::mem;

/// A line in the store: where its samples begin, and its sources.
#[derive(Drop)]
pub(crate) struct Slot {
    pub start: usize,
    pub sources: Sources,
}

/// The slots of a store. A single line without sources takes no memory of its own, since most stores stay with one.
#[derive(Drop)]
pub(crate) enum Slots {
    /// No line.
    Empty,
    /// A single line without sources, by where its samples begin.
    Lone(usize),
    /// Lines with their sources.
    Many(Box<Tree>),
}

/// Slots in a search tree. Contracts see the list of them.
///
/// A fork is turned where one of its sides grows to more than about three times the other. So the tree stays shallow in whatever order the
/// slots come. No contract says so: it makes no difference to what is found.
#[cycle(tree)]
#[derive(Drop)]
pub(crate) struct Tree {
    len: usize,
    root: Option<Box<Fork>>,
}

/// A slot, with those before it and those after it.
#[cycle(tree)]
#[derive(Drop)]
pub(crate) struct Fork {
    left: Tree,
    slot: Slot,
    right: Tree,
}

impl Model for Tree {
    ghost use Rattle.std.specs.Coded.{coded_list};
    ghost use Rattle.std.specs.Prelude.{◌≡◌, List, length};
    ghost use Rattle.jls_partial.specs.declared.slots.Slot.{Slot};
    ghost use Rattle.jls_partial.specs.Slot.{coded_slot};

    ghost Value = { List Slot };

    ghost coded = { coded_list coded_slot };

    ghost use Rattle.jls_partial.specs.Tree.{root_slots};

    ghost view = { λ a. root_slots a.root };

    ghost invariant = { λ a. a.len ≡ length (root_slots a.root) };

    ghost size = { length };

    ghost use Rattle.std.proofs.Common.{arith, length-append};

    ghost size_decreases = { λ a h. Prim.grind (arith, length-append) };
}

impl Slots {
    /// The slot of a single line.
    pub(crate) fn of(alloc: Global, slot: Slot) -> Result<Slots, AllocError>
        ensures { IfOk result (λ slots. slots_of slots ≡ slot ∷ []) }
    {
        if slot.sources.is_empty() {
            return Ok(Slots::Lone(slot.start));
        }
        let tree = Tree::from_root(Fork::single(alloc, slot)?);
        Ok(Slots::Many(Box::new(alloc, tree)?))
    }

    /// How many slots there are.
    pub(crate) fn len(&self) -> usize
        ensures value { result ≡ length (slots_of self.now) }
        ensures small { length (slots_of self.now) < 2 ^ 64 }
    {
        match self {
            Slots::Empty => 0,
            Slots::Lone(_) => 1,
            Slots::Many(tree) => tree.len(),
        }
    }

    /// Where the samples begin of the line that has `at` others before it.
    pub(crate) fn start(&self, at: usize) -> usize
        requires { at < length (slots_of self.now) }
        ensures { result ≡ (slot_at (slots_of self.now) at).start }
    {
        match self {
            Slots::Empty => unreachable!(),
            Slots::Lone(start) => *start,
            Slots::Many(tree) => tree.slot(at).start,
        }
    }

    /// The sources of that line in ascending order.
    pub(crate) fn sources(&self, at: usize) -> &[u32]
        requires { at < length (slots_of self.now) }
        ensures { result.now ≡ set.items (slot_at (slots_of self.now) at).sources }
    {
        match self {
            Slots::Empty => unreachable!(),
            Slots::Lone(_) => &[],
            Slots::Many(tree) => tree.slot(at).sources.as_slice(),
        }
    }

    /// Adds these sources to the slot that has `at` others before it.
    pub(crate) fn add_sources(
        &mut self,
        alloc: Global,
        at: usize,
        sources: &[u32],
    ) -> Result<(), AllocError>
        requires { at < length (slots_of self.old) }
        ensures ok { OnOk result (slots_of self.new ≡ with_sources_at (slots_of self.old) at sources.now) }
        ensures err { OnErr result (slots_of self.new ≡ slots_of self.old) }
        ensures no_memory { sources.now ≡ [] → IsOk result }
    {
        match self {
            Slots::Empty => unreachable!(),
            Slots::Lone(start) => {
                if sources.is_empty() {
                    return Ok(());
                }
                let mut slot = Slot::without_sources(*start);
                slot.sources.add_all(alloc, sources)?;
                *self = Slots::of(alloc, slot)?;
                Ok(())
            }
            Slots::Many(tree) => tree.add_sources(alloc, at, sources),
        }
    }

    /// Makes room for one slot more, and gives that slot with its own. The slots that are there stay.
    pub(crate) fn room_for(&mut self, alloc: Global, slot: Slot) -> Result<Box<Fork>, AllocError>
        ensures same { slots_of self.new ≡ slots_of self.old }
        ensures made { IfOk result (λ fork. fork.value ≡ record { left = []; slot = slot; right = [] }) }
        ensures room { IfOk result (λ _. HasRoom self.new) }
    {
        let new = Fork::single(alloc, slot)?;
        let tree = match self {
            Slots::Empty => Tree::empty(),
            Slots::Lone(start) => {
                Tree::from_root(Fork::single(alloc, Slot::without_sources(*start))?)
            }
            Slots::Many(_) => return Ok(new),
        };
        *self = Slots::Many(Box::new(alloc, tree)?);
        Ok(new)
    }

    /// Puts a slot where it has `at` others before it. This needs no memory.
    pub(crate) fn insert(&mut self, at: usize, new: Box<Fork>)
        requires within { at ≤ length (slots_of self.old) }
        requires fits { length (slots_of self.old) + 1 < 2 ^ 64 }
        requires room { HasRoom self.old }
        requires left { new.value.left ≡ [] }
        requires right { new.value.right ≡ [] }
        ensures { slots_of self.new ≡ insert (slots_of self.old) at new.value.slot }
    {
        match self {
            Slots::Empty | Slots::Lone(_) => unreachable!(),
            Slots::Many(tree) => tree.insert(at, new),
        }
    }
}

impl Slot {
    /// The slot of a line without sources.
    fn without_sources(start: usize) -> Slot
        ensures { result ≡ record { start = start; sources = set.empty } }
    {
        Slot {
            start,
            sources: Sources::none(),
        }
    }
}

impl Fork {
    /// One slot, with the room that it takes among others.
    pub(crate) fn single(alloc: Global, slot: Slot) -> Result<Box<Fork>, AllocError>
        ensures { IfOk result (λ fork. fork.value ≡ record { left = []; slot = slot; right = [] }) }
    {
        let (left, right) = (Tree::empty(), Tree::empty());
        Ok(Box::new(alloc, Fork { left, slot, right })?)
    }
}

impl Tree {
    /// No slot. It takes no memory.
    pub(crate) fn empty() -> Tree
        ensures { result ≡ [] }
    {
        Tree { len: 0, root: None }
    }

    /// How many slots there are.
    pub(crate) fn len(&self) -> usize
        ensures value { result ≡ length self.now }
        ensures small { length self.now < 2 ^ 64 }
    {
        self.len
    }

    /// A slot with those before it and those after it, unless there is none.
    pub(crate) fn parts(&self) -> Option<(&Tree, &Slot, &Tree)>
        ensures { MatchOption result (self.now ≡ []) (λ parts. self.now ≡ parts.0.now ++ parts.1.now ∷ parts.2.now) }
    {
        match &self.root {
            None => None,
            Some(fork) => Some((&fork.left, &fork.slot, &fork.right)),
        }
    }

    /// The slot that has `at` others before it.
    #[tactic(auto, using(crate::proofs::Forks::fork_reads))]
    pub(crate) fn slot(&self, at: usize) -> &Slot
        requires { at < length self.now }
        ensures { result.now ≡ slot_at self.now at }
    {
        match &self.root {
            None => unreachable!(),
            Some(fork) => {
                let before = fork.left.len();
                if at < before {
                    fork.left.slot(at)
                } else if at > before {
                    fork.right.slot(at - before - 1)
                } else {
                    &fork.slot
                }
            }
        }
    }

    /// Adds these sources to the slot that has `at` others before it.
    #[tactic(auto, using(crate::proofs::Forks::fork_sources))]
    pub(crate) fn add_sources(
        &mut self,
        alloc: Global,
        at: usize,
        sources: &[u32],
    ) -> Result<(), AllocError>
        requires { at < length self.old }
        ensures ok { OnOk result (self.new ≡ with_sources_at self.old at sources.now) }
        ensures err { OnErr result (self.new ≡ self.old) }
        ensures no_memory { sources.now ≡ [] → IsOk result }
        ensures len { length self.new ≡ length self.old }
    {
        match &mut self.root {
            None => unreachable!(),
            Some(fork) => {
                let before = fork.left.len();
                if at < before {
                    fork.left.add_sources(alloc, at, sources)
                } else if at > before {
                    fork.right.add_sources(alloc, at - before - 1, sources)
                } else {
                    fork.slot.sources.add_all(alloc, sources)
                }
            }
        }
    }

    /// Puts a slot where it has `at` others before it. This needs no memory: `new` is the slot with its room.
    #[tactic(auto, using(crate::proofs::Forks::fork_inserts))]
    pub(crate) fn insert(&mut self, at: usize, new: Box<Fork>)
        requires within { at ≤ length self.old }
        requires room { length self.old + 1 < 2 ^ 64 }
        requires left { new.value.left ≡ [] }
        requires right { new.value.right ≡ [] }
        ensures { self.new ≡ insert self.old at new.value.slot }
    {
        match self.take_all().into_root() {
            None => *self = Tree::from_root(new),
            Some(mut fork) => {
                let before = fork.left.len();
                if at <= before {
                    fork.left.insert(at, new);
                } else {
                    fork.right.insert(at - before - 1, new);
                }
                *self = balanced(fork);
            }
        }
    }

    /// All slots, and leaves none.
    fn take_all(&mut self) -> Tree
        ensures all { result ≡ self.old }
        ensures none { self.new ≡ [] }
    {
        mem::replace(self, Tree::empty())
    }

    fn into_root(self) -> Option<Box<Fork>>
        ensures { root_slots result ≡ self }
    {
        self.root
    }

    fn from_root(fork: Box<Fork>) -> Tree
        requires { length (fork_slots fork.value) < 2 ^ 64 }
        ensures { result ≡ fork_slots fork.value }
    {
        let len = fork.left.len() + 1 + fork.right.len();
        Tree {
            len,
            root: Some(fork),
        }
    }
}

/// The slots of a fork, one side of which may have become too long.
fn balanced(fork: Box<Fork>) -> Tree
    requires { length (fork_slots fork.value) < 2 ^ 64 }
    ensures { result ≡ fork_slots fork.value }
{
    let (left, right) = (fork.left.len(), fork.right.len());
    if left / 3 > right {
        with_left_raised(fork)
    } else if right / 3 > left {
        with_right_raised(fork)
    } else {
        Tree::from_root(fork)
    }
}

/// The slots of a fork whose left side is too long: a slot of that side comes to the top.
fn with_left_raised(mut top: Box<Fork>) -> Tree
    requires { length (fork_slots top.value) < 2 ^ 64 }
    ensures { result ≡ fork_slots top.value }
{
    if let Some(low) = top.left.take_all().into_root() {
        let (outer, inner) = (low.left.len(), low.right.len());
        let is_outside = inner.saturating_sub(outer) <= outer;
        top.left = Tree::from_root(if is_outside { low } else { rotated_left(low) });
    }
    Tree::from_root(rotated_right(top))
}

/// The slots of a fork whose right side is too long: a slot of that side comes to the top.
fn with_right_raised(mut top: Box<Fork>) -> Tree
    requires { length (fork_slots top.value) < 2 ^ 64 }
    ensures { result ≡ fork_slots top.value }
{
    if let Some(low) = top.right.take_all().into_root() {
        let (inner, outer) = (low.left.len(), low.right.len());
        let is_outside = inner.saturating_sub(outer) <= outer;
        top.right = Tree::from_root(if is_outside { low } else { rotated_right(low) });
    }
    Tree::from_root(rotated_left(top))
}

/// The same slots, with the top of the left side at the top, unless that side is empty.
fn rotated_right(mut top: Box<Fork>) -> Box<Fork>
    requires { length (fork_slots top.value) < 2 ^ 64 }
    ensures { fork_slots result.value ≡ fork_slots top.value }
{
    let Some(mut low) = top.left.take_all().into_root() else {
        return top;
    };
    top.left = low.right.take_all();
    low.right = Tree::from_root(top);
    low
}

/// The same slots, with the top of the right side at the top, unless that side is empty.
fn rotated_left(mut top: Box<Fork>) -> Box<Fork>
    requires { length (fork_slots top.value) < 2 ^ 64 }
    ensures { fork_slots result.value ≡ fork_slots top.value }
{
    let Some(mut low) = top.right.take_all().into_root() else {
        return top;
    };
    top.right = low.left.take_all();
    low.left = Tree::from_root(top);
    low
}
