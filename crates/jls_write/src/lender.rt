//! What lends the lines of a picture.

ghost use Rattle.jls_partial.specs.Status.{IsSettled};
ghost use Rattle.jls_write.specs.Lent.{picture_lent, LendsAll};
ghost use Rattle.jls_write.specs.Picture.{picture_of, line_of};
ghost use Rattle.jls_write.specs.Samples.{part_at, picture_in, AreSamplesOf};
ghost use Rattle.jls_write.specs.WholePictures.{IsPicture, IsWholePicture};
ghost use Rattle.std.specs.List.{AllByRecursion};
ghost use Rattle.std.specs.Prelude.{◌≡◌, ◌<◌, ◌*◌, ◌^◌, length};

use jls_partial::Partial;
use jls_values::Shape;

/// What lends the lines of a picture. It holds none of them.
#[derive(Clone, Copy)]
pub(crate) enum Lender<'a> {
    /// A partial picture whose lines are all settled.
    Settled(&'a Partial),
    /// Samples of this shape, by component and then by line.
    Samples(&'a Shape, &'a [u16]),
}

/// A line of a settled partial picture.
fn settled_line(partial: &Partial, component: u8, line: u16) -> &[u16]
    requires settled { IsSettled partial.now }
    requires component_in { component < length partial.now.shape.ids }
    requires line_in { line < partial.now.shape.height }
    ensures value { result.now ≡ line_of (picture_of partial.now) component line }
    ensures width { length result.now ≡ partial.now.shape.width }
    ensures samples { AllByRecursion (λ sample. sample < 2 ^ partial.now.shape.precision) result.now }
{
    partial.reading(component, line, 0)
}

/// The samples of a component.
fn component_of<'a>(shape: &Shape, samples: &'a [u16], component: u8) -> &'a [u16]
    requires samples { AreSamplesOf shape.now samples.now }
    requires component_in { component < length shape.now.ids }
    ensures value { result.now ≡ part_at (shape.now.height * shape.now.width) samples.now component }
    ensures long { length result.now ≡ shape.now.height * shape.now.width }
{
    let size = usize::from(shape.height()) * usize::from(shape.width());
    let start = usize::from(component) * size;
    &samples[start..start + size]
}

/// A line of samples.
fn line_of_samples<'a>(shape: &Shape, samples: &'a [u16], component: u8, line: u16) -> &'a [u16]
    requires samples { AreSamplesOf shape.now samples.now }
    requires component_in { component < length shape.now.ids }
    requires line_in { line < shape.now.height }
    ensures value { result.now ≡ line_of (picture_in shape.now samples.now) component line }
    ensures width { length result.now ≡ shape.now.width }
    ensures samples { AllByRecursion (λ sample. sample < 2 ^ shape.now.precision) result.now }
{
    let lines = component_of(shape, samples, component);
    let width = usize::from(shape.width());
    let start = usize::from(line) * width;
    &lines[start..start + width]
}

/// A law: a settled partial picture is a picture.
fn settled_are_whole(partial: &Partial)
    requires { IsSettled partial.now }
    ensures picture { IsPicture (picture_of partial.now) }
    ensures whole { IsWholePicture (picture_of partial.now) }
{
    let _ids = partial.shape().ids();
}

/// A law: samples are a picture.
fn samples_are_whole(shape: &Shape, samples: &[u16])
    requires { AreSamplesOf shape.now samples.now }
    ensures picture { IsPicture (picture_in shape.now samples.now) }
    ensures whole { IsWholePicture (picture_in shape.now samples.now) }
{
    let _ids = shape.ids();
}

impl<'a> Lender<'a> {
    /// The shape.
    pub(crate) fn shape(&self) -> &'a Shape
        ensures { result.now ≡ (picture_lent self.now).shape }
    {
        match self {
            Lender::Settled(partial) => partial.shape(),
            Lender::Samples(shape, _) => shape,
        }
    }

    /// A line of the component with this index.
    pub(crate) fn line(&self, component: u8, line: u16) -> &'a [u16]
        requires all { LendsAll self.now }
        requires component_in { component < length (picture_lent self.now).shape.ids }
        requires line_in { line < (picture_lent self.now).shape.height }
        ensures value { result.now ≡ line_of (picture_lent self.now) component line }
        ensures width { length result.now ≡ (picture_lent self.now).shape.width }
        ensures samples { AllByRecursion (λ sample. sample < 2 ^ (picture_lent self.now).shape.precision) result.now }
    {
        match self {
            Lender::Settled(partial) => settled_line(partial, component, line),
            Lender::Samples(shape, samples) => line_of_samples(shape, samples, component, line),
        }
    }

    /// A law: what it lends is a picture.
    pub(crate) fn is_whole(&self)
        requires { LendsAll self.now }
        ensures picture { IsPicture (picture_lent self.now) }
        ensures whole { IsWholePicture (picture_lent self.now) }
    {
        match self {
            Lender::Settled(partial) => settled_are_whole(partial),
            Lender::Samples(shape, samples) => samples_are_whole(shape, samples),
        }
    }
}
