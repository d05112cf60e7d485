//! The finished lines of a piece.

ghost use Rattle.std.specs.Prelude.{◌≡◌, length, map, IfOk};

use std::alloc::AllocError;
use std::marker::Model;

/// Lines of either kind: those that a decoder by line has, or those that rows of pixels were made into.
#[derive(Drop)]
pub(crate) enum KindOfLines {
    ByLine(jls_interval::FinishedLines),
    BySample(Vec<Vec<u16>>),
}

/// The finished lines of a piece, row by row, and within a row by component, also by sample. A contract sees them as a list.
#[derive(Drop)]
pub struct FinishedLines {
    kind: KindOfLines,
}

impl Model for FinishedLines {
    ghost use Rattle.std.specs.Prelude.{ℕ, List};
    ghost use Rattle.jls_piece.specs.PieceBytes.{lines_held};

    ghost Value = { List (List ℕ) };

    ghost view = { λ f. lines_held f.kind };
}

impl FinishedLines {
    /// The lines of an interval by line.
    pub(crate) fn by_line(lines: jls_interval::FinishedLines) -> FinishedLines
        ensures { result ≡ lines }
    {
        FinishedLines {
            kind: KindOfLines::ByLine(lines),
        }
    }

    /// The lines of rows of pixels.
    pub(crate) fn by_sample(lines: Vec<Vec<u16>>) -> FinishedLines
        ensures { result ≡ map (λ v. v.items) lines.items }
    {
        FinishedLines {
            kind: KindOfLines::BySample(lines),
        }
    }

    /// How many lines there are.
    pub fn len(&self) -> usize
        ensures { result ≡ length self.now }
    {
        match &self.kind {
            KindOfLines::ByLine(lines) => lines.len(),
            KindOfLines::BySample(lines) => lines.len(),
        }
    }

    /// The lines, each in memory of its own. By line, those that a clone of the decoder shares are copied. The only refusal is out of
    /// memory.
    pub fn into_vecs(self) -> Result<Vec<Vec<u16>>, AllocError>
        ensures { IfOk result (λ lines. map (λ v. v.items) lines.items ≡ self) }
    {
        match self.kind {
            KindOfLines::ByLine(lines) => lines.into_vecs(),
            KindOfLines::BySample(lines) => Ok(lines),
        }
    }
}
