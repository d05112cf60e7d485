//! The finished rows of an interval, which a clone shares.

ghost use Rattle.std.specs.Prelude.{◌≡◌, ◌≤◌, [], ◌∷◌, ◌++◌, length, map, IfOk, OnOk};
ghost use Rattle.jls_pixel.specs.FinishedRows.{rows_of};
ghost use Rattle.jls_pixel.specs.Pixels.{row_back, rows_above};
ghost use Rattle.jls_pixel.specs.Place.{above_of};

use crate::pixel::Pixel;
use crate::place::Place;
use std::alloc::{AllocError, Global};
use std::marker::Model;
use std::rc::Rc;

/// The finished rows of an interval. A contract sees them as a list of rows, each a list of pixels. A clone takes handles of the rows, and
/// copies none. So rows and their clones stay in one thread.
#[derive(Drop)]
pub struct FinishedRows {
    alloc: Global,
    rows: Vec<Rc<Vec<Pixel>>>,
}

impl Model for FinishedRows {
    ghost use Rattle.std.specs.Prelude.{ℕ, List};
    ghost use Rattle.jls_pixel.specs.FinishedRows.{rows_of};

    ghost Value = { List (List (List ℕ)) };

    ghost view = { λ f. rows_of f.rows.items };
}

/// The row so many places before the end of these rows, or none.
fn row_back(rows: &[Rc<Vec<Pixel>>], back: usize) -> &[Pixel]
    ensures { result.now ≡ row_back (rows_of rows.now) back }
{
    if rows.len() < back {
        return &[];
    }
    match rows.get(rows.len() - back) {
        None => &[],
        Some(row) => row.as_ref(),
    }
}

/// Handles of the same rows.
fn cloned_rows(alloc: Global, rows: &[Rc<Vec<Pixel>>]) -> Result<Vec<Rc<Vec<Pixel>>>, AllocError>
    ensures { IfOk result (λ clones. rows_of clones.items ≡ rows_of rows.now) }
{
    let mut clones = Vec::with_capacity(alloc, rows.len())?;
    for row in rows {
        clones.push(row.clone()?)?;
    }
    Ok(clones)
}

/// The same pixels once more.
pub(crate) fn cloned_row(alloc: Global, row: &[Pixel]) -> Result<Vec<Pixel>, AllocError>
    ensures { IfOk result (λ clone. clone.items ≡ row.now) }
{
    let mut clone = Vec::with_capacity(alloc, row.len())?;
    for pixel in row {
        clone.push(pixel.to_owned())?;
    }
    Ok(clone)
}

/// The pixels of a row: itself, if nothing else has a handle of it, and else a copy.
fn unshared(alloc: Global, row: Rc<Vec<Pixel>>) -> Result<Vec<Pixel>, AllocError>
    ensures { IfOk result (λ pixels. pixels.items ≡ row.value.items) }
{
    match Rc::try_unwrap(row) {
        Ok(pixels) => Ok(pixels),
        Err(shared) => cloned_row(alloc, shared.as_ref()),
    }
}

/// The rows behind these handles.
fn all_unshared(alloc: Global, rows: Vec<Rc<Vec<Pixel>>>) -> Result<Vec<Vec<Pixel>>, AllocError>
    ensures { IfOk result (λ all. map (λ v. v.items) all.items ≡ rows_of rows.items) }
{
    let mut all = Vec::with_capacity(alloc, rows.len())?;
    for row in rows {
        all.push(unshared(alloc, row)?)?;
    }
    Ok(all)
}

impl FinishedRows {
    /// No row. It takes no memory yet.
    pub(crate) fn new(alloc: Global) -> FinishedRows
        ensures { result ≡ [] }
    {
        FinishedRows {
            alloc,
            rows: Vec::new(alloc),
        }
    }

    /// How many rows there are.
    pub fn len(&self) -> usize
        ensures { result ≡ length self.now }
    {
        self.rows.len()
    }

    /// The place of the row that follows these rows.
    pub(crate) fn next_place(&self, width: u16, components: u8) -> Place<'_>
        requires { components ≤ 4 }
        ensures width { result.width ≡ width }
        ensures components { result.components ≡ components }
        ensures above { above_of result ≡ rows_above self.now }
    {
        Place::below(
            row_back(&self.rows, 1),
            row_back(&self.rows, 2),
            width,
            components,
        )
    }

    /// Takes one more row.
    pub(crate) fn push(&mut self, row: Vec<Pixel>) -> Result<(), AllocError>
        ensures { OnOk result (self.new ≡ self.old ++ row.items ∷ []) }
    {
        let row = Rc::new(self.alloc, row)?;
        self.rows.push(row)?;
        Ok(())
    }

    /// The same rows once more. The only refusal is out of memory.
    pub(crate) fn try_clone(&self) -> Result<FinishedRows, AllocError>
        ensures { IfOk result (λ clone. clone ≡ self.now) }
    {
        Ok(FinishedRows {
            alloc: self.alloc,
            rows: cloned_rows(self.alloc, &self.rows)?,
        })
    }

    /// The rows, each in memory of its own. Rows that a clone shares are copied. The only refusal is out of memory.
    pub fn into_vecs(self) -> Result<Vec<Vec<Pixel>>, AllocError>
        ensures { IfOk result (λ rows. map (λ v. v.items) rows.items ≡ self) }
    {
        let FinishedRows { alloc, rows } = self;
        all_unshared(alloc, rows)
    }
}
