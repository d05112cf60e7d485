//! The lines that mended files hold.

ghost use Rattle.std.specs.Prelude.{◌≡◌, All, List, IfOk, OnOk, Contains, map};
ghost use Rattle.jls_values.specs.OrderedSet as set;
ghost use Rattle.jls_held.specs.MendedFiles.{MendedFile};
ghost use Rattle.jls_held.specs.Mending.{file_of};
ghost use Rattle.jls_held.specs.FilePieces.{IsPieceOf};
ghost use Rattle.jls_held.specs.HeldPictures.{AreReadingsHeld, HasLinesBefore};
ghost use Rattle.jls_held.specs.Chains.{AreChains};

use crate::chain::{ChainLine, chain_of};
use crate::file_pieces::file_pieces;
use crate::mending::MendedCopy;
use crate::rounds::take_held;
use jls_copy::PieceInHand;
use jls_partial::Partial;
use jls_values::Shape;
use std::alloc::{AllocError, Global};

/// Adds the chains of pieces of a mended file.
fn add_chains(
    alloc: Global,
    file: &MendedCopy,
    pieces: Vec<PieceInHand>,
    chains: &mut Vec<Vec<ChainLine>>,
) -> Result<(), AllocError>
    requires { All (IsPieceOf (file_of file.now)) pieces.items }
    ensures { OnOk result ((files : List MendedFile) → Contains files (file_of file.now) → AreChains files chains.old.items
        → AreChains files chains.new.items) }
{
    for piece in pieces {
        let chain = chain_of(alloc, file, piece)?;
        chains.push(chain)?;
    }
    Ok(())
}

/// A picture of this shape with lines that the mended files hold. All bytes of such a line's code are held in one file. All lines before it
/// in its interval are held too, in that file or another. Lines that don't fit the shape are left out, with those after them in their
/// interval. Two readings of a line can both be held. None has a source.
///
/// No clause says that no held line is left out. Lines are looked for in each piece that reads, and in the last one if the file's end cuts
/// it off. The only refusal is out of memory.
pub fn held_lines(alloc: Global, shape: Shape, files: &[MendedCopy]) -> Result<Partial, AllocError>
    ensures shape { IfOk result (λ held. held.shape ≡ shape) }
    ensures marks { IfOk result (λ held. held.marks ≡ set.empty) }
    ensures held { IfOk result (λ held. AreReadingsHeld (map file_of files.now) held) }
    ensures before { IfOk result (λ held. HasLinesBefore (map file_of files.now) held) }
{
    let mut chains = Vec::new(alloc);
    for file in files {
        let pieces = file_pieces(alloc, file)?;
        add_chains(alloc, file, pieces, &mut chains)?;
    }
    let mut held = Partial::empty(alloc, shape);
    take_held(alloc, &mut held, &chains)?;
    Ok(held)
}
