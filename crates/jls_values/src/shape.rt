//! The shape of a picture.

ghost use Rattle.std.specs.Prelude.{◌≡◌, IsTrue, ◌↔◌};
ghost use Rattle.jls_values.specs.Shape.{IsShape};
ghost use Rattle.jls_values.specs.ShapeOf.{size_fault, shape_of};

use arrayvec::ArrayVec;
use std::marker::Model;
use thiserror::Error;

/// Why four values are not a shape, in the order in which they are judged.
#[derive(Clone, Copy, Debug, PartialEq, Eq, Error)]
pub enum ShapeFault {
    /// The precision is not from 2 to 16 bits.
    #[error("the precision is not from 2 to 16")]
    Precision,
    /// The width is 0.
    #[error("the width is 0")]
    Width,
    /// The height is 0.
    #[error("the height is 0")]
    Height,
    /// There are not from 1 to 4 component identifiers.
    #[error("there are not from 1 to 4 components")]
    Count,
    /// Two components have one identifier.
    #[error("a component identifier stands twice")]
    RepeatedId,
}

/// What a frame header says of a picture (ITU-T T.87, C.2.2). It has the precision in bits per sample, the width in samples, and the
/// height in lines. It has the component identifiers in the order of the frame.
#[derive(PartialEq, Eq, Drop)]
pub struct Shape {
    precision: u8,
    width: u16,
    height: u16,
    ids: ArrayVec<u8, 4>,
}

impl Model for Shape {
    ghost use Rattle.jls_values.specs.Shape.{PictureShape, IsShape};

    ghost Value = { PictureShape };

    ghost view = { λ a. record { precision = a.precision; width = a.width; height = a.height; ids = a.ids.items } };

    ghost invariant = { λ a. IsShape (record { precision = a.precision; width = a.width; height = a.height; ids = a.ids.items }) };

    ghost inverse = { λ s. record { precision = s.precision; width = s.width; height = s.height; ids = record { items = s.ids } } };
}

/// Whether an identifier stands twice, as none may in a frame (ITU-T T.81, B.2.2) or in a scan (B.2.3).
pub fn has_repeat(ids: &[u8]) -> bool
    ensures { result ≡ Rattle.jls_values.specs.Shape.has_repeat ids.now }
{
    let mut rest = ids;
    while let [first, others @ ..] = rest {
        if others.contains(first) {
            return true;
        }
        rest = others;
    }
    false
}

impl Shape {
    /// The shape of these values. The refusals come in the order of `ShapeFault`.
    pub fn new(precision: u8, width: u16, height: u16, ids: &[u8]) -> Result<Shape, ShapeFault>
        ensures { result ≡ shape_of precision width height ids.now }
    {
        if let Some(fault) = Shape::size_fault(precision, width, height, ids.len()) {
            return Err(fault);
        }
        if has_repeat(ids) {
            return Err(ShapeFault::RepeatedId);
        }
        let Ok(ids) = ArrayVec::try_from(ids) else {
            return Err(ShapeFault::Count);
        };
        Ok(Shape {
            precision,
            width,
            height,
            ids,
        })
    }

    /// The first refusal that is known before the identifiers are, of which there are `count`:
    /// a reader can stop there.
    pub fn size_fault(precision: u8, width: u16, height: u16, count: usize) -> Option<ShapeFault>
        ensures { result ≡ Rattle.jls_values.specs.ShapeOf.size_fault precision width height count }
    {
        if precision < 2 || precision > 16 {
            Some(ShapeFault::Precision)
        } else if width == 0 {
            Some(ShapeFault::Width)
        } else if height == 0 {
            Some(ShapeFault::Height)
        } else if count == 0 || count > 4 {
            Some(ShapeFault::Count)
        } else {
            None
        }
    }

    /// Bits per sample, from 2 to 16.
    pub fn precision(&self) -> u8
        ensures value { result ≡ self.now.precision }
        ensures ranges { IsShape self.now }
    {
        self.precision
    }

    /// Samples in a line.
    pub fn width(&self) -> u16
        ensures value { result ≡ self.now.width }
        ensures ranges { IsShape self.now }
    {
        self.width
    }

    /// Lines of each component.
    pub fn height(&self) -> u16
        ensures value { result ≡ self.now.height }
        ensures ranges { IsShape self.now }
    {
        self.height
    }

    /// The component identifiers, in the order of the frame.
    pub fn ids(&self) -> &[u8]
        ensures value { result.now ≡ self.now.ids }
        ensures ranges { IsShape self.now }
    {
        &self.ids
    }

    /// A second shape of the same values. It takes no memory.
    pub fn to_owned(&self) -> Shape
        ensures { result ≡ self.now }
    {
        Shape {
            precision: self.precision,
            width: self.width,
            height: self.height,
            ids: ArrayVec::try_from(self.ids.as_slice()).unwrap(),
        }
    }
}

/// A law: `==` of shapes is equality, of the identifiers in the order of the frame too.
pub fn equal_shapes_are_one(shape: &Shape, other: &Shape) -> bool
    ensures { IsTrue result ↔ (shape.now ≡ other.now) }
{
    shape == other
}
