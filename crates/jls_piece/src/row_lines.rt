//! The lines of rows of pixels.

ghost use Rattle.std.specs.Prelude.{◌≡◌, ◌++◌, map, IfOk, OnOk};
ghost use Rattle.jls_pixel.specs.Pixels.{samples_of};
ghost use Rattle.jls_piece.specs.Lines.{turned, lines_of};

use jls_pixel::Pixel;
use std::alloc::{AllocError, Global};

/// The samples of a component in a row.
fn component_line(alloc: Global, component: u8, row: &[Pixel]) -> Result<Vec<u16>, AllocError>
    ensures { IfOk result (λ line. line.items ≡ samples_of component row.now) }
{
    let mut line = Vec::with_capacity(alloc, row.len())?;
    for pixel in row {
        line.push(pixel.sample(usize::from(component)))?;
    }
    Ok(line)
}

/// Adds the lines of a row, by component.
fn push_row(
    alloc: Global,
    components: u8,
    row: &[Pixel],
    lines: &mut Vec<Vec<u16>>,
) -> Result<(), AllocError>
    ensures { OnOk result (map (λ v. v.items) lines.new.items ≡ map (λ v. v.items) lines.old.items ++ turned components row.now) }
{
    for component in 0..components {
        lines.push(component_line(alloc, component, row)?)?;
    }
    Ok(())
}

/// The lines of rows: row by row, and in a row by component. The memory of each row is given back once its lines are made.
#[tactic(auto, using(crate::proofs::RowLines::lines_more))]
pub(crate) fn row_lines(
    alloc: Global,
    components: u8,
    rows: Vec<Vec<Pixel>>,
) -> Result<Vec<Vec<u16>>, AllocError>
    ensures { IfOk result (λ lines. map (λ v. v.items) lines.items ≡ lines_of components (map (λ v. v.items) rows.items)) }
{
    let mut lines = Vec::new(alloc);
    for row in rows {
        push_row(alloc, components, &row, &mut lines)?;
    }
    Ok(lines)
}
