//! The headers that are believed of each copy.

use crate::pieces::{Layout, layout_of};
use jls_values::Shape;
use std::alloc::{AllocError, Global};

/// What is believed of each copy.
#[derive(Drop)]
pub(crate) struct Layouts {
    /// How many lines the picture has.
    pub(crate) lines: usize,
    /// `None` for a copy that is left out.
    pub(crate) layouts: Vec<Option<Layout>>,
    /// For each copy, whether its own headers say what those of its coding do.
    pub(crate) are_own: Vec<bool>,
}

/// Whether pictures have lines alike: the same width, height and number of components.
fn have_same_lines(shape: &Shape, other: &Shape) -> bool {
    shape.width() == other.width()
        && shape.height() == other.height()
        && shape.ids().len() == other.ids().len()
}

/// How many lines a picture has.
fn count_lines(shape: &Shape) -> usize {
    usize::from(shape.height()).saturating_mul(shape.ids().len())
}

/// The index of the first copy of this coding that has headers.
fn first_of(layouts: &[Option<Layout>], codings: &[usize], coding: usize) -> Option<usize> {
    for (number, (layout, other)) in layouts.iter().zip(codings).enumerate() {
        if layout.is_some() && *other == coding {
            return Some(number);
        }
    }
    None
}

/// What a copy says under the headers of another.
fn under_headers(
    alloc: Global,
    copy: &[u8],
    other: &[u8],
    headers: &Layout,
) -> Result<Option<Layout>, AllocError> {
    let (Some(begin), Some(rest)) = (other.get(..headers.data), copy.get(headers.data..)) else {
        return Ok(None);
    };
    let mut bytes = Vec::from_slice(alloc, begin)?;
    bytes.extend_from_slice(rest)?;
    let layout = layout_of(alloc, &bytes)?;
    Ok(layout.filter(|layout| layout.says_as(headers)))
}

/// The layouts of copies. A copy whose headers don't say what those of the first of its coding say is read under the headers of that one.
/// If its scan data don't follow them, it is left out.
pub(crate) fn layouts_of(
    alloc: Global,
    copies: &[&[u8]],
    codings: &[usize],
) -> Result<Layouts, AllocError> {
    let mut own = Vec::new(alloc);
    let mut lines = 0usize;
    for copy in copies {
        own.push(layout_of(alloc, copy)?)?;
    }
    let mut layouts: Vec<Option<Layout>> = Vec::new(alloc);
    let mut are_own = Vec::new(alloc);
    let mut first: Option<Shape> = None;
    for (number, (copy, coding)) in copies.iter().zip(codings).enumerate() {
        let mut layout = layout_of(alloc, copy)?;
        let mut is_own = layout.is_some();
        let base = first_of(&own, codings, *coding).unwrap_or(number);
        if let (Some(Some(headers)), Some(other)) = (own.get(base), copies.get(base)) {
            is_own = match &layout {
                None => false,
                Some(layout) => layout.says_as(headers),
            };
            if !is_own {
                layout = under_headers(alloc, copy, other, headers)?;
            }
        }
        let is_fitting = match (&layout, &first) {
            (None, _) => false,
            (Some(_), None) => true,
            (Some(layout), Some(shape)) => have_same_lines(&layout.shape, shape),
        };
        if !is_fitting {
            layout = None;
        }
        if let (Some(layout), None) = (&layout, &first) {
            first = Some(layout.shape.to_owned());
            lines = count_lines(&layout.shape);
        }
        layouts.push(layout)?;
        are_own.push(is_own)?;
    }
    Ok(Layouts {
        lines,
        layouts,
        are_own,
    })
}
