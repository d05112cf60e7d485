//! The lines of a piece, each with whether all bytes of its code are held.

ghost use Rattle.std.specs.Prelude.{List, IfOk, Contains};
ghost use Rattle.jls_held.specs.MendedFiles.{MendedFile};
ghost use Rattle.jls_held.specs.Mending.{file_of};
ghost use Rattle.jls_held.specs.FilePieces.{IsPieceOf};
ghost use Rattle.jls_held.specs.Chains.{IsChain};

use crate::code_ends::code_ends;
use crate::mending::MendedCopy;
use jls_copy::PieceInHand;
use std::alloc::{AllocError, Global};

/// A line of a piece as a reading, and whether all bytes of its code are held. By sample a line's code is that of its row.
#[derive(Drop)]
pub(crate) struct ChainLine {
    pub(crate) component: u8,
    pub(crate) row: u16,
    pub(crate) samples: Vec<u16>,
    pub(crate) is_code_held: bool,
}

/// The lines of a piece of a mended file, in order. It can have the first of them only, where their rows are no rows of a picture.
pub(crate) fn chain_of(
    alloc: Global,
    file: &MendedCopy,
    piece: PieceInHand,
) -> Result<Vec<ChainLine>, AllocError>
    requires { IsPieceOf (file_of file.now) piece }
    ensures { IfOk result (λ chain. (files : List MendedFile) → Contains files (file_of file.now) → IsChain files chain.items) }
{
    let mut chain = Vec::new(alloc);
    if piece.interval >= piece.plan.intervals() {
        return Ok(chain);
    }
    let codes = code_ends(alloc, file, &piece)?;
    let PieceInHand {
        plan,
        interval,
        offset,
        lines,
    } = piece;
    let (mut row, _) = plan.rows(interval);
    let mut place = 0;
    for samples in lines {
        let is_code_held = codes.is_held(&file.held, offset, chain.len());
        chain.push(ChainLine {
            component: plan.components()[place],
            row,
            samples,
            is_code_held,
        })?;
        place += 1;
        if place == plan.components().len() {
            place = 0;
            let Some(next) = row.checked_add(1) else {
                return Ok(chain);
            };
            row = next;
        }
    }
    Ok(chain)
}
