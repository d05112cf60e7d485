//! The finished lines of an interval, most of which a clone shares.

ghost use Rattle.std.specs.Prelude.{◌≡◌, ◌%◌, ◌≤◌, [], ◌∷◌, ◌++◌, length, map, IfOk, OnOk};
ghost use Rattle.jls_interval.specs.Events.{above};
ghost use Rattle.jls_interval.specs.FinishedLines.{in_order, finished};
ghost use Rattle.jls_interval.specs.Place.{above_of};

use crate::neighbours::line_back;
use crate::place::Place;
use std::alloc::{AllocError, Global};
use std::marker::Model;
use std::mem;
use std::rc::Rc;

/// How many lines are never in a block: two of each of four components, which the neighbours of the next line need.
const KEPT: usize = 8;

/// The other lines get into a block when they have more samples than this.
const BLOCK: usize = 1 << 14;

/// How many lines all blocks have at most.
const MOST: usize = 1 << 62;

/// The finished lines of an interval, row by row, and within a row by component. A contract sees them as a list. A clone takes handles of
/// most lines, and copies few. So lines and their clones stay in one thread.
#[derive(Drop)]
pub struct FinishedLines {
    alloc: Global,
    /// Blocks of lines, which clones share.
    blocks: Vec<Rc<Vec<Vec<u16>>>>,
    /// How many lines the blocks have.
    in_blocks: usize,
    /// The lines after them.
    lines: Vec<Vec<u16>>,
}

impl Model for FinishedLines {
    ghost use Rattle.std.specs.Prelude.{ℕ, List};
    ghost use Rattle.jls_interval.specs.FinishedLines.{finished, AreFinished};

    ghost Value = { List (List ℕ) };

    ghost view = { λ f. finished f.blocks.items f.lines.items };

    ghost invariant = { λ f. AreFinished f.blocks.items f.in_blocks f.lines.items };
}

/// The same lines once more.
fn cloned_lines(alloc: Global, lines: &[Vec<u16>]) -> Result<Vec<Vec<u16>>, AllocError>
    ensures { IfOk result (λ clones. map (λ v. v.items) clones.items ≡ map (λ v. v.items) lines.now) }
{
    let mut clones = Vec::with_capacity(alloc, lines.len())?;
    for line in lines {
        clones.push(Vec::from_slice(alloc, line)?)?;
    }
    Ok(clones)
}

/// The lines of a block: itself, if nothing else has a handle of it, and else a copy.
fn unshared(alloc: Global, block: Rc<Vec<Vec<u16>>>) -> Result<Vec<Vec<u16>>, AllocError>
    ensures { IfOk result (λ lines. map (λ v. v.items) lines.items ≡ map (λ v. v.items) block.value.items) }
{
    match Rc::try_unwrap(block) {
        Ok(lines) => Ok(lines),
        Err(shared) => cloned_lines(alloc, shared.as_ref()),
    }
}

/// Handles of the same blocks.
#[tactic(auto, using(crate::proofs::LinesInBlocks::in_order_more))]
fn cloned_blocks(
    alloc: Global,
    blocks: &[Rc<Vec<Vec<u16>>>],
) -> Result<Vec<Rc<Vec<Vec<u16>>>>, AllocError>
    ensures { IfOk result (λ clones. in_order clones.items ≡ in_order blocks.now) }
{
    let mut clones = Vec::with_capacity(alloc, blocks.len())?;
    for block in blocks {
        clones.push(block.clone()?)?;
    }
    Ok(clones)
}

/// The lines of blocks, and then these. There is room for `count` lines at once.
#[tactic(auto, using(crate::proofs::LinesInBlocks::in_order_more))]
fn joined(
    alloc: Global,
    count: usize,
    blocks: Vec<Rc<Vec<Vec<u16>>>>,
    mut last: Vec<Vec<u16>>,
) -> Result<Vec<Vec<u16>>, AllocError>
    ensures { IfOk result (λ lines. map (λ v. v.items) lines.items ≡ finished blocks.items last.items) }
{
    let mut all = Vec::new(alloc);
    for block in blocks {
        let mut lines = unshared(alloc, block)?;
        if all.is_empty() {
            all = lines;
            all.reserve(count - all.len().min(count))?;
        } else {
            all.append(&mut lines)?;
        }
    }
    all.append(&mut last)?;
    Ok(all)
}

impl FinishedLines {
    /// No line. It takes no memory yet.
    pub(crate) fn new(alloc: Global) -> FinishedLines
        ensures { result ≡ [] }
    {
        FinishedLines {
            alloc,
            blocks: Vec::new(alloc),
            in_blocks: 0,
            lines: Vec::new(alloc),
        }
    }

    /// How many lines there are.
    pub fn len(&self) -> usize
        ensures { result ≡ length self.now }
    {
        self.in_blocks + self.lines.len()
    }

    /// The place of the line that follows these lines, where so many components take turns.
    #[inline]
    pub(crate) fn next_place(&self, components: usize) -> Place<'_>
        requires at_least { 1 ≤ components }
        requires at_most { components ≤ 4 }
        ensures component { result.component ≡ length self.now % components }
        ensures above { above_of result ≡ above components self.now }
    {
        Place {
            component: if components == 1 {
                0
            } else {
                self.len() % components
            },
            line_above: line_back(&self.lines, components),
            line_two_above: line_back(&self.lines, 2 * components),
        }
    }

    /// Takes one more line.
    #[inline]
    pub(crate) fn push(&mut self, line: Vec<u16>) -> Result<(), AllocError>
        ensures { OnOk result (self.new ≡ self.old ++ line.items ∷ []) }
    {
        self.lines.push(line)?;
        Ok(())
    }

    /// Puts lines into a block, so that a clone need not copy them, if there are enough that no neighbours need.
    pub(crate) fn share(&mut self, width: usize) -> Result<(), AllocError>
        ensures { OnOk result (self.new ≡ self.old) }
    {
        if self.lines.len() <= KEPT {
            return Ok(());
        }
        let count = self.lines.len() - KEPT;
        if count.saturating_mul(width) <= BLOCK {
            return Ok(());
        }
        if self.in_blocks > MOST - KEPT || count > MOST - self.in_blocks {
            return Err(AllocError);
        }
        let last = self.lines.split_off(count)?;
        let block = mem::replace(&mut self.lines, last);
        let block = Rc::new(self.alloc, block)?;
        self.blocks.push(block)?;
        self.in_blocks += count;
        Ok(())
    }

    /// The same lines once more. The only refusal is out of memory.
    pub(crate) fn try_clone(&self) -> Result<FinishedLines, AllocError>
        ensures { IfOk result (λ clone. clone ≡ self.now) }
    {
        Ok(FinishedLines {
            alloc: self.alloc,
            blocks: cloned_blocks(self.alloc, &self.blocks)?,
            in_blocks: self.in_blocks,
            lines: cloned_lines(self.alloc, &self.lines)?,
        })
    }

    /// The lines, each in memory of its own. Lines that a clone shares are copied. The only refusal is out of memory.
    pub fn into_vecs(self) -> Result<Vec<Vec<u16>>, AllocError>
        ensures { IfOk result (λ lines. map (λ v. v.items) lines.items ≡ self) }
    {
        let count = self.len();
        let FinishedLines {
            alloc,
            blocks,
            lines,
            ..
        } = self;
        if blocks.is_empty() {
            return Ok(lines);
        }
        joined(alloc, count, blocks, lines)
    }
}
