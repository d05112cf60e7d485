//! Pictures of given lines.

use jls_partial::Partial;
use jls_values::Shape;
use std::alloc::Global;
use std::test::Fail;

/// Lines of a picture, row by row and in a row by component: their precision and width, and the identifiers of the components, of
/// which there is one at least.
#[derive(Clone, Copy)]
pub struct Lines<'a> {
    pub precision: u8,
    pub width: u16,
    pub ids: &'a [u8],
    pub lines: &'a [&'a [u16]],
}

/// The partial picture that has each of the lines as its one reading.
pub fn settled(alloc: Global, given: &Lines<'_>) -> Result<Partial, Fail> {
    let components = given.ids.len().max(1);
    let height = u16::try_from(given.lines.len() / components)?;
    let shape = Shape::new(given.precision, given.width, height, given.ids)?;
    let mut partial = Partial::empty(alloc, shape);
    for (index, samples) in given.lines.iter().enumerate() {
        let component = u8::try_from(index % components)?;
        let line = u16::try_from(index / components)?;
        partial.insert(component, line, samples)?;
    }
    Ok(partial)
}
